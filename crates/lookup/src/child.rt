// The elements or entries of a field: how many, and those that are levels.
ghost use Rattle.std.specs.Prelude.{◌≡◌, ℕ, ◌<◌, List};
ghost use Rattle.std.proofs.Math.Option.{some};
ghost use Rattle.std.proofs.Math.ListN.{get_elem?};
ghost use Rattle.format.specs.Loops.{child_levels, size_of};
ghost use Rattle.lookup.specs.View.{bytes, row, entries};
ghost use Rattle.lookup.specs.Values.{elements_of, field_meaning, FieldInside};
ghost use Rattle.lookup.specs.Walks.{rest_of, Standing, Walk, Behind, NextOf};

use crate::{ClxValue, Tree, Turn};

impl<'a> Tree<'a> {
    // How many elements or entries a field has.
    pub fn size_of(self, f: Option<ClxValue>) -> u64
        requires { FieldInside self.used f }
        ensures { result ≡ size_of (bytes self.entry) (entries self.entry)
            (field_meaning (bytes self.entry) (entries self.entry) f) }
    {
        let Some(v) = f else {
            return 0;
        };
        match v {
            ClxValue::Level(i) => self.count_places(i + 1),
            ClxValue::List(i) => self.count_elements(i + 1),
            _ => 0,
        }
    }

    // The start of a walk over the child levels of a field.
    pub fn children(self, f: Option<ClxValue>) -> Turn
        requires { FieldInside self.used f }
        ensures { Walk (bytes self.entry) (row self.entry) self.entry.used
            (child_levels (bytes self.entry) (entries self.entry)
            (field_meaning (bytes self.entry) (entries self.entry) f)) result }
    {
        let Some(v) = f else {
            return Turn::Over;
        };
        match v {
            ClxValue::Level(i) => {
                let level = self.level(i + 1);
                Turn::Places { level, at: i + 1 }
            }
            ClxValue::List(i) => {
                let parent = i + 1;
                match self.first_element(parent) {
                    None => Turn::Over,
                    Some(at) => Turn::Elements {
                        parent,
                        before: 0,
                        at,
                    },
                }
            }
            _ => Turn::Over,
        }
    }

    // The walk after element number `before` of a list, which is entry i.
    fn after_element(self, parent: usize, before: u64, i: usize) -> Turn
        requires { (i < self.used) × ((s : List ℕ) → get_elem? (elements_of s (entries self) parent) before ≡ some i) }
        ensures { (s : List ℕ) → Behind s (row self.entry) self.entry.used parent before result }
    {
        match self.next_element(parent, i) {
            None => Turn::Over,
            Some(at) => Turn::Elements {
                parent,
                before: before + 1,
                at,
            },
        }
    }

    // The next child level.
    pub fn next_child(self, t: Turn) -> Option<(usize, Turn)>
        requires { Standing (bytes self) (row self) self.used t }
        ensures { NextOf (bytes self.entry) (row self.entry) self.entry.used (rest_of (bytes self.entry) (row self.entry) self.entry.used t) result }
    {
        let mut walk = t;
        loop {
            match walk {
                Turn::Over => {
                    return None;
                }
                Turn::Places { level, at } => {
                    return self.next_place(level, at);
                }
                Turn::Elements { parent, before, at } => {
                    let rest = self.after_element(parent, before, at);
                    if let Some(i) = self.level_at(at) {
                        return Some((i, rest));
                    }
                    walk = rest;
                }
            }
        }
    }
}
