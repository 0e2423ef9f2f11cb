// Lookups in the table of a tree's entries, read in place. A level is named by its entry's number plus one, as its children name it, and
// the whole tree by 0. Entries stand in file order, so what lies below a level is one run of entries, and a lookup in the level
// looks at that run alone.
#![tactic(auto)]

use format::Entry;

mod child;
pub mod entry;
mod field;
mod hash;
pub mod list;
mod named;
mod parts;
mod place;
mod tree;
pub mod value;

pub use tree::Tree;

// A value, by its kind. Below(n) is the whole number -1 - n; Text is a place in the file and a count of units, Bytes a place and a
// count of bytes, Level the number of its entry, and List the number of the entry whose children are its elements.
#[derive(Clone, Copy)]
pub enum ClxValue {
    Flag(bool),
    Whole(u64),
    Below(u64),
    Double(f64),
    Text(u64, u64),
    Bytes(u64, u64),
    Level(usize),
    List(usize),
}

// A name that is looked for: of ASCII bytes, or an entry's.
#[derive(Clone, Copy)]
pub enum Name<'a> {
    Ascii(&'a [u8]),
    Of(Entry),
}

// A level to go over: its run ends at `end`. Its names fall into parts, and bit k of `clean` says that in part k no name comes twice.
// `first` is the first child without a name.
#[derive(Clone, Copy)]
pub struct Level {
    pub parent: usize,
    pub end: usize,
    pub parts: u64,
    pub clean: u64,
    pub first: usize,
}

// Where a walk over child levels stands.
#[derive(Clone, Copy)]
pub enum Turn {
    // in a level: at the places from entry `at` on
    Places {
        level: Level,
        at: usize,
    },
    // in a list: at element number `before`, which is entry `at`
    Elements {
        parent: usize,
        before: u64,
        at: usize,
    },
    Over,
}
