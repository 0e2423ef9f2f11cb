// The names of a level in parts, and the parts in which no name comes twice. In most levels these are all: then each child is a place, with its own value.
ghost use Rattle.std.specs.Prelude.{◌≡◌, true, ℕ, ◌+◌, ◌*◌, ◌%◌, ◌^◌, ◌≤◌, ◌<◌, List, eqb, length};
ghost use Rattle.format.specs.Values.{name_of};
ghost use Rattle.lookup.specs.View.{bytes, row};
ghost use Rattle.lookup.specs.Hash.{hash_of, key_of};
ghost use Rattle.lookup.specs.Walks.{leads, PartLeads, Seen, bit, Knows};

use crate::hash::{MARKS, hash_name, key_name, mark};
use crate::{Level, Tree};

// A part of a level's names has about this many, and there are at most so many parts.
const PART: u64 = 64;

const MOST_PARTS: u64 = 64;

impl<'a> Tree<'a> {
    // The number of the name of entry i.
    fn hash_at(self, i: usize) -> u64
        requires { i < self.used }
        ensures { (result ≡ hash_of (name_of (bytes self.entry) (row self.entry i))) × (result < 2 ^ 32) }
    {
        let e = self.entry_at(i);
        hash_name(self.file, e.name as usize, e.units as usize)
    }

    // The key of the name of entry i, which has one.
    fn key_at(self, i: usize) -> u64
        requires { (i < self.used) × (0 < (row self i).units) }
        ensures { result ≡ key_of (name_of (bytes self.entry) (row self.entry i)) }
    {
        let e = self.entry_at(i);
        key_name(self.file, e.name as usize, e.units as usize)
    }

    // In how many parts the names of a level fall.
    fn parts_of(self, parent: usize, end: usize) -> u64
        requires { end ≤ self.used }
        ensures { (0 < result) × (result ≤ 64) }
    {
        let mut n: u64 = 0;
        let mut i = parent;
        while i < end {
            let e = self.entry_at(i);
            if e.units != 0 {
                n += 1;
            }
            i = self.after(i);
        }
        if n / PART < MOST_PARTS {
            return n / PART + 1;
        }
        MOST_PARTS
    }

    // Whether entry i, where it is a child with a name of this part, is the first of its name; it leaves its mark. Only where the mark is there are
    // names compared.
    fn first_here(self, parent: usize, parts: u64, part: u64, marks: &mut [u8], i: usize) -> bool
        requires { (parent ≤ i) × (i < self.used) × (0 < parts) × (length marks.old ≡ 2048) }
        ensures { (length marks.new ≡ 2048)
            × (result ≡ true → Seen (bytes self.entry) (row self.entry) parent parts part i marks.old
            → Seen (bytes self.entry) (row self.entry) parent parts part (i + 1) marks.new) }
    {
        let e = self.entry_at(i);
        if e.parent as usize != parent || e.units == 0 || self.key_at(i) % parts != part {
            return true;
        }
        mark(marks, self.hash_at(i)) || self.is_place(parent, i)
    }

    // Whether every child whose name is of this part is the first of its name.
    fn part_leads(self, parent: usize, end: usize, parts: u64, part: u64) -> bool
        requires { (end ≤ self.used) × (0 < parts) }
        ensures { result ≡ true → PartLeads (bytes self.entry) (row self.entry) parent end parts part }
    {
        let mut marks = [0u8; MARKS];
        let mut i = parent;
        while i < end {
            if !self.first_here(parent, parts, part, &mut marks, i) {
                return false;
            }
            i = self.after(i);
        }
        true
    }

    // A bit for each part: 1 where no name of it comes twice, 0 also where that is not known.
    fn clean_parts(self, parent: usize, end: usize, parts: u64) -> u64
        requires { (end ≤ self.used) × (0 < parts) × (parts ≤ 64) }
        ensures { (k : ℕ) → bit result k ≡ 1 → PartLeads (bytes self.entry) (row self.entry) parent end parts k }
    {
        let mut clean: u64 = 0;
        for part in (0..parts).rev() {
            clean = 2 * clean + u64::from(self.part_leads(parent, end, parts, part));
        }
        clean
    }

    // The first child of a level without a name, or the level's end.
    fn first_unnamed(self, parent: usize, end: usize) -> usize
        requires { (parent ≤ self.used) × (end ≤ self.used) }
        ensures { (s : List ℕ) (i : ℕ) → parent ≤ i → i < end → (row self.entry i).parent ≡ parent
            → (row self.entry i).units ≡ 0 → eqb i result ≡ leads s (row self.entry) parent i }
    {
        self.next_unnamed(parent, parent).unwrap_or(end)
    }

    // A level, and what is known of its names.
    pub fn level(self, parent: usize) -> Level
        requires { parent ≤ self.used }
        ensures { (result.parent ≡ parent) × Knows (bytes self.entry) (row self.entry) self.entry.used result }
    {
        let end = self.end_of(parent);
        let parts = self.parts_of(parent, end);
        Level {
            parent,
            end,
            parts,
            clean: self.clean_parts(parent, end, parts),
            first: self.first_unnamed(parent, end),
        }
    }

    // Whether the name of entry i, which has one, is surely no other child's.
    pub fn alone(self, level: Level, i: usize) -> bool
        requires { (i < self.used) × (0 < (row self i).units) × (0 < level.parts) × (level.parts ≤ 64) }
        ensures { result ≡ true → bit level.clean (key_of (name_of (bytes self.entry) (row self.entry i)) % level.parts) ≡ 1 }
    {
        let part = self.key_at(i) % level.parts;
        (level.clean >> part) % 2 == 1
    }
}
