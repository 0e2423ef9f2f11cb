// The elements of a list.
ghost use Rattle.std.specs.Prelude.{◌≡◌, ℕ, ◌≤◌, ◌<◌, List, length};
ghost use Rattle.lookup.specs.Table.{entry_in, entries_in, Rows, found, Within};
ghost use Rattle.lookup.specs.View.{row, entries};
ghost use Rattle.lookup.specs.Values.{kids, head_of, list_at, elements_of, Element, Follows};

use crate::Tree;
use crate::entry::{after, entry_at, parent_at};
use crate::value::is_list;
use format::clx_type;

// The first unnamed child of a level from entry `from` of its run on.
pub fn next_unnamed(table: &[u8], used: usize, parent: usize, from: usize) -> Option<usize>
    requires { Rows table.now used × (parent ≤ from) }
    ensures { (found result ≡ head_of (kids (entry_in table.now) parent from used)) × Within used result }
{
    let mut i = from;
    while i < used {
        let e = entry_at(table, i);
        let p = e.parent as usize;
        if p < parent {
            return None;
        }
        if p == parent && e.units == 0 {
            return Some(i);
        }
        i = after(table, used, i);
    }
    None
}

// Whether entry i is a list.
fn list_at(table: &[u8], used: usize, i: usize) -> bool
    requires { Rows table.now used × (i < used) }
    ensures { (s : List ℕ) → result ≡ list_at s (entry_in table.now) used i }
{
    let e = entry_at(table, i);
    e.kind == clx_type::LEVEL && is_list(table, used, i + 1)
}

// The first element of a list. A list in front is spread, however deep.
pub fn first_element(table: &[u8], used: usize, parent: usize) -> Option<usize>
    requires { Rows table.now used × (parent ≤ used) }
    ensures { ((s : List ℕ) → found result ≡ head_of (elements_of s (entries_in table.now used) parent)) × Within used result }
{
    let mut p = parent;
    for _ in 0..64u64 {
        let i = next_unnamed(table, used, p, p)?;
        if !list_at(table, used, i) {
            return Some(i);
        }
        p = i + 1;
    }
    next_unnamed(table, used, p, p)
}

// The element after the element i: the next unnamed entry of its own level, or of the list in whose front that stands.
pub fn next_element(table: &[u8], used: usize, parent: usize, i: usize) -> Option<usize>
    requires { Rows table.now used × (i < used) × Element (entries_in table.now used) parent i }
    ensures { Follows (entries_in table.now used) parent i result × Within used result }
{
    let mut k = i;
    loop {
        let p = parent_at(table, k);
        if let Some(j) = next_unnamed(table, used, p, after(table, used, k)) {
            return Some(j);
        }
        if p == parent {
            return None;
        }
        k = p - 1;
    }
}

// How many elements a list has.
pub fn count_elements(table: &[u8], used: usize, parent: usize) -> u64
    requires { Rows table.now used × (parent ≤ used) }
    ensures { (s : List ℕ) → result ≡ length (elements_of s (entries_in table.now used) parent) }
{
    let mut n: u64 = 0;
    let mut at = first_element(table, used, parent);
    while let Some(i) = at {
        at = next_element(table, used, parent, i);
        n += 1;
    }
    n
}

// The same of a tree.
impl<'a> Tree<'a> {
    pub fn next_unnamed(self, parent: usize, from: usize) -> Option<usize>
        requires { parent ≤ from }
        ensures { (found result ≡ head_of (kids (row self.entry) parent from self.entry.used)) × Within self.entry.used result }
    {
        next_unnamed(self.table, self.used, parent, from)
    }

    pub fn first_element(self, parent: usize) -> Option<usize>
        requires { parent ≤ self.used }
        ensures { ((s : List ℕ) → found result ≡ head_of (elements_of s (entries self.entry) parent)) × Within self.entry.used result }
    {
        first_element(self.table, self.used, parent)
    }

    pub fn next_element(self, parent: usize, i: usize) -> Option<usize>
        requires { (i < self.used) × Element (entries self) parent i }
        ensures { Follows (entries self.entry) parent i result × Within self.entry.used result }
    {
        next_element(self.table, self.used, parent, i)
    }

    pub fn count_elements(self, parent: usize) -> u64
        requires { parent ≤ self.used }
        ensures { (s : List ℕ) → result ≡ length (elements_of s (entries self.entry) parent) }
    {
        count_elements(self.table, self.used, parent)
    }
}
