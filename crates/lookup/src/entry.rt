// Entries of the table, and the run of entries below a level.
ghost use Rattle.std.specs.Prelude.{◌≡◌, ◌+◌, ◌*◌, ◌≤◌, ◌<◌, length};
ghost use Rattle.format.specs.Bytes.{le_at};
ghost use Rattle.lookup.specs.Table.{entry_in, Rows, Split, Run};
ghost use Rattle.lookup.specs.View.{row};

use crate::Tree;
use cursor::le;
use format::Entry;

// The number in the four bytes at `at`.
fn half_at(table: &[u8], at: usize) -> u64
    requires { at + 4 ≤ length table.now }
    ensures { (result ≡ le_at 4 table.now at) × (result < 4294967296) }
{
    le::<4>(table, at)
}

// The number in the eight bytes at `at`. The compiler makes one load of it, which it doesn't of eight bytes at a time.
fn number_at(table: &[u8], at: usize) -> u64
    requires { at + 8 ≤ length table.now }
    ensures { result ≡ le_at 8 table.now at }
{
    half_at(table, at) + 4294967296 * half_at(table, at + 4)
}

// Entry number i.
pub fn entry_at(table: &[u8], i: usize) -> Entry
    requires { 48 * i + 48 ≤ length table.now }
    ensures { result ≡ entry_in table.now i }
{
    let at = 48 * i;
    Entry {
        kind: number_at(table, at),
        name: number_at(table, at + 8),
        units: number_at(table, at + 16),
        value: number_at(table, at + 24),
        size: number_at(table, at + 32),
        parent: number_at(table, at + 40),
    }
}

// The level that entry i stands in.
pub fn parent_at(table: &[u8], i: usize) -> usize
    requires { 48 * i + 48 ≤ length table.now }
    ensures { result ≡ (entry_in table.now i).parent }
{
    number_at(table, 48 * i + 40) as usize
}

// Where the name of entry i begins in the file.
pub(crate) fn name_at(table: &[u8], i: usize) -> u64
    requires { 48 * i + 48 ≤ length table.now }
    ensures { result ≡ (entry_in table.now i).name }
{
    number_at(table, 48 * i + 8)
}

// How many units the name of entry i has.
pub(crate) fn units_at(table: &[u8], i: usize) -> u64
    requires { 48 * i + 48 ≤ length table.now }
    ensures { result ≡ (entry_in table.now i).units }
{
    number_at(table, 48 * i + 16)
}

// Where the value of entry i ends in the file.
fn value_end(table: &[u8], used: usize, i: usize) -> u64
    requires { Rows table.now used × (i < used) }
    ensures { result ≡ (entry_in table.now i).value + (entry_in table.now i).size }
{
    let at = 48 * i;
    number_at(table, at + 24) + number_at(table, at + 32)
}

// The first of the entries from `low` up to `high` whose name stands behind `to`, or `high`. Names rise, so it is found by halving.
fn first_behind(table: &[u8], used: usize, low: usize, high: usize, to: u64) -> usize
    requires { Rows table.now used × (low ≤ high) × (high ≤ used) }
    ensures { Split (entry_in table.now) low high to result }
{
    let mut a = low;
    let mut b = high;
    while a < b {
        let mid = a + (b - a) / 2;
        if to < name_at(table, mid) {
            b = mid;
        } else {
            a = mid + 1;
        }
    }
    a
}

// The first entry from `parent` on whose name stands behind `to`, or past the last: steps that double lead there, and then halving.
fn first_from(table: &[u8], used: usize, parent: usize, to: u64) -> usize
    requires { Rows table.now used × (parent ≤ used) }
    ensures { Split (entry_in table.now) parent used to result }
{
    let mut low = parent;
    while low - parent < used - low {
        let i = low + (low - parent);
        if to < name_at(table, i) {
            return first_behind(table, used, low, i, to);
        }
        low = i + 1;
    }
    first_behind(table, used, low, used, to)
}

// Where a level's run ends: at the first entry that does not lie below the level, or past the last. What lies below it stands in its value.
pub fn end_of(table: &[u8], used: usize, parent: usize) -> usize
    requires { Rows table.now used × (parent ≤ used) }
    ensures { Run (entry_in table.now) used parent result }
{
    if parent == 0 {
        return used;
    }
    let to = value_end(table, used, parent - 1);
    first_from(table, used, parent, to)
}

// The entry after entry i and all that lies below it.
pub fn after(table: &[u8], used: usize, i: usize) -> usize
    requires { Rows table.now used × (i < used) }
    ensures { Run (entry_in table.now) used (i + 1) result }
{
    let next = i + 1;
    if next == used {
        return next;
    }
    if parent_at(table, next) < next {
        return next;
    }
    end_of(table, used, next)
}

// The same of a tree.
impl<'a> Tree<'a> {
    pub fn entry_at(self, i: usize) -> Entry
        requires { i < self.used }
        ensures { result ≡ row self.entry i }
    {
        entry_at(self.table, i)
    }

    pub fn parent_at(self, i: usize) -> usize
        requires { i < self.used }
        ensures { result ≡ (row self.entry i).parent }
    {
        parent_at(self.table, i)
    }

    pub fn end_of(self, parent: usize) -> usize
        requires { parent ≤ self.used }
        ensures { Run (row self.entry) self.entry.used parent result }
    {
        end_of(self.table, self.used, parent)
    }

    pub fn after(self, i: usize) -> usize
        requires { i < self.used }
        ensures { Run (row self.entry) self.entry.used (i + 1) result }
    {
        after(self.table, self.used, i)
    }
}
