// The places of a level: its children that are the first of their name.
ghost use Rattle.std.specs.Prelude.{◌≡◌, ℕ, ◌≤◌, ◌<◌, List, length};
ghost use Rattle.std.proofs.Math.Option.{some};
ghost use Rattle.format.specs.Values.{name_of, slots_of, slot_value, unnamed, as_level};
ghost use Rattle.lookup.specs.Table.{Run, found, Within, last_named};
ghost use Rattle.lookup.specs.View.{bytes, row, entries};
ghost use Rattle.lookup.specs.Values.{kids};
ghost use Rattle.lookup.specs.Walks.{leads, Knows, slot_at, place_levels, NextOf};

use crate::{Level, Name, Tree, Turn};

impl<'a> Tree<'a> {
    // Whether entry i of a level's run is a child, and the first of its name.
    pub fn is_place(self, parent: usize, i: usize) -> bool
        requires { (parent ≤ i) × (i < self.used) }
        ensures { result ≡ leads (bytes self.entry) (row self.entry) parent i }
    {
        let e = self.entry_at(i);
        e.parent as usize == parent && !self.borne_before(parent, i, Name::Of(e))
    }

    // The same, by what is known of the level.
    fn leads_at(self, level: Level, i: usize) -> bool
        requires { Knows (bytes self) (row self) self.used level × (level.parent ≤ i) × (i < level.end) }
        ensures { result ≡ leads (bytes self.entry) (row self.entry) level.parent i }
    {
        let e = self.entry_at(i);
        if e.parent as usize != level.parent {
            return false;
        }
        if e.units == 0 {
            return i == level.first;
        }
        self.alone(level, i) || self.is_place(level.parent, i)
    }

    // How many places a level has.
    pub fn count_places(self, parent: usize) -> u64
        requires { parent ≤ self.used }
        ensures { result ≡ length (slots_of (bytes self.entry) (entries self.entry) parent) }
    {
        let level = self.level(parent);
        let mut n: u64 = 0;
        let mut i = level.parent;
        while i < level.end {
            if self.leads_at(level, i) {
                n += 1;
            }
            i = self.after(i);
        }
        n
    }

    // The level that the only unnamed child of a level is.
    fn unnamed_level(self, parent: usize) -> Option<usize>
        requires { parent ≤ self.used }
        ensures { ((s : List ℕ) → found result
            ≡ as_level (some (slot_value s (entries self.entry) (unnamed (kids (row self.entry) parent 0 self.entry.used))))) × Within self.entry.used result }
    {
        let i = self.next_unnamed(parent, parent)?;
        match self.next_unnamed(parent, i + 1) {
            None => self.level_at(i),
            Some(_) => None,
        }
    }

    // The last child with the name of entry i, which has one.
    fn last_of(self, parent: usize, end: usize, i: usize) -> Option<usize>
        requires { Run (row self) self.used parent end × (parent ≤ i) × (i < end)
            × ((row self i).parent ≡ parent) }
        ensures { (found result ≡ last_named (bytes self.entry) (row self.entry) parent
            (name_of (bytes self.entry) (row self.entry i)) end) × Within self.entry.used result }
    {
        let e = self.entry_at(i);
        self.last_alike(parent, self.after(i), end, Some(i), Name::Of(e))
    }

    // The level that the value of a place is: the last value of its name, which is its own where no other child has the name.
    pub fn place_level(self, level: Level, i: usize) -> Option<usize>
        requires { Knows (bytes self) (row self) self.used level × (level.parent ≤ i) × (i < level.end) × ((row self i).parent ≡ level.parent) }
        ensures { (found result ≡ as_level (some (slot_value (bytes self.entry) (entries self.entry)
            (slot_at (bytes self.entry) (row self.entry) self.entry.used level.parent i)))) × Within self.entry.used result }
    {
        let e = self.entry_at(i);
        if e.units == 0 {
            return self.unnamed_level(level.parent);
        }
        if self.alone(level, i) {
            return self.level_at(i);
        }
        self.level_at(self.last_of(level.parent, level.end, i)?)
    }

    // The next child level of a level, from entry `from` of its run on.
    pub fn next_place(self, level: Level, from: usize) -> Option<(usize, Turn)>
        requires { Knows (bytes self) (row self) self.used level × (level.parent ≤ from) }
        ensures { NextOf (bytes self.entry) (row self.entry) self.entry.used
            (place_levels (bytes self.entry) (row self.entry) self.entry.used level.parent from) result }
    {
        let mut i = from;
        while i < level.end {
            let next = self.after(i);
            if self.leads_at(level, i) {
                if let Some(k) = self.place_level(level, i) {
                    return Some((k, Turn::Places { level, at: next }));
                }
            }
            i = next;
        }
        None
    }
}
