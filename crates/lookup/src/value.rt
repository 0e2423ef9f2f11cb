// The value of an entry.
ghost use Rattle.std.specs.Prelude.{◌≡◌, ℕ, ◌+◌, ◌-◌, ◌/◌, ◌≤◌, ◌<◌, cond, List, ltb, pos, negsuc, length};
ghost use Rattle.std.proofs.Math.Option.{Option, some};
ghost use Rattle.format.specs.Given.{maybe};
ghost use Rattle.format.specs.Values.{Value, whole, leaf, value_at, slots_of, as_level};
ghost use Rattle.format.specs.Numbers.{unsigned, signed, float};
ghost use Rattle.format.specs.declared.Entry.{Entry};
ghost use Rattle.lookup.specs.Table.{entries_in, Lies, Rows, found, Within};
ghost use Rattle.lookup.specs.View.{bytes, entries};
ghost use Rattle.lookup.specs.Values.{only_unnamed, meaning, Inside};

use crate::entry::{after, entry_at};
use crate::{ClxValue, Tree};
use cursor::le;
use format::{Entry, clx_type};
use number::double_of;

// Whether a level is a list: it has children, and none has a name.
pub fn is_list(table: &[u8], used: usize, parent: usize) -> bool
    requires { Rows table.now used × (parent ≤ used) }
    ensures { (s : List ℕ) → result ≡ only_unnamed (slots_of s (entries_in table.now used) parent) }
{
    let mut seen = false;
    let mut i = parent;
    while i < used {
        let e = entry_at(table, i);
        let p = e.parent as usize;
        if p < parent {
            return seen;
        }
        if p == parent {
            if e.units != 0 {
                return false;
            }
            seen = true;
        }
        i = after(table, used, i);
    }
    seen
}

impl<'a> Tree<'a> {
    // Whether a level of the tree is a list.
    pub fn is_list(self, parent: usize) -> bool
        requires { parent ≤ self.used }
        ensures { (s : List ℕ) → result ≡ only_unnamed (slots_of s (entries self.entry) parent) }
    {
        is_list(self.table, self.used, parent)
    }

    // The value of entry i.
    pub fn value_at(self, i: usize) -> ClxValue
        requires { i < self.used }
        ensures { (meaning (bytes self.entry) (entries self.entry) result
            ≡ value_at (bytes self.entry) (entries self.entry) i) × Inside self.entry.used result }
    {
        let e = self.entry_at(i);
        if e.kind == clx_type::LEVEL {
            if self.is_list(i + 1) {
                return ClxValue::List(i);
            }
            return ClxValue::Level(i);
        }
        leaf_of(self.file, e)
    }

    // Entry i, where its value is a level.
    pub fn level_at(self, i: usize) -> Option<usize>
        requires { i < self.used }
        ensures { ((s : List ℕ) → found result ≡ as_level (some (value_at s (entries self.entry) i))) × Within self.entry.used result }
    {
        let e = self.entry_at(i);
        if e.kind == clx_type::LEVEL && !self.is_list(i + 1) {
            Some(i)
        } else {
            None
        }
    }
}

// The whole number that n stands for in two's complement, where `most` is the largest number of its bits.
fn signed_of(n: u64, most: u64) -> ClxValue
    requires { n ≤ most }
    ensures { ((s : List ℕ) (es : List Entry) → meaning s es result ≡ whole (cond (ltb n (most / 2 + 1)) (pos n) (negsuc (most - n))))
        × ((k : ℕ) → Inside k result) }
{
    if n <= most / 2 {
        ClxValue::Whole(n)
    } else {
        ClxValue::Below(most - n)
    }
}

// The value of an entry that is no level.
fn leaf_of(file: &[u8], e: Entry) -> ClxValue
    requires { Lies (length file.now) e × (e.kind ≡ 11 → ⊥) }
    ensures { ((es : List Entry) → meaning file.now es result ≡ leaf file.now e) × ((n : ℕ) → Inside n result) }
{
    let at = e.value as usize;
    let kind = e.kind;
    if kind == clx_type::BOOL {
        return ClxValue::Flag(file[at] != 0);
    }
    if kind == clx_type::INT32 {
        return signed_of(le::<4>(file, at), 0xFFFF_FFFF);
    }
    if kind == clx_type::UINT32 {
        return ClxValue::Whole(le::<4>(file, at));
    }
    if kind == clx_type::INT64 {
        return signed_of(le::<8>(file, at), 0xFFFF_FFFF_FFFF_FFFF);
    }
    if kind == clx_type::DOUBLE {
        return ClxValue::Double(double_of(le::<8>(file, at)));
    }
    if kind == clx_type::STRING {
        return ClxValue::Text(e.value, e.size / 2);
    }
    if kind == clx_type::BYTEARRAY {
        return ClxValue::Bytes(e.value, e.size);
    }
    ClxValue::Whole(le::<8>(file, at))
}

// ---- readings

// A type that a value may be read as.
pub trait Reading: Sized {
    ghost reading: { Value → Option Self };

    fn read(v: ClxValue) -> Option<Self>
        ensures { (s : List ℕ) (es : List Entry) → maybe result ≡ reading (meaning s es v) };
}

// The unsigned reading.
impl Reading for u64 {
    ghost reading = { unsigned };

    fn read(v: ClxValue) -> Option<u64> {
        match v {
            ClxValue::Flag(b) => Some(u64::from(b)),
            ClxValue::Whole(n) => Some(n),
            ClxValue::Double(x) => number::unsigned(x),
            _ => None,
        }
    }
}

// The signed reading.
impl Reading for i64 {
    ghost reading = { signed };

    fn read(v: ClxValue) -> Option<i64> {
        match v {
            ClxValue::Flag(b) => Some(i64::from(b)),
            ClxValue::Whole(n) => number::signed_whole(n),
            ClxValue::Below(n) => number::signed_below(n),
            ClxValue::Double(x) => number::signed(x),
            _ => None,
        }
    }
}

// As a double.
impl Reading for f64 {
    ghost reading = { float };

    fn read(v: ClxValue) -> Option<f64> {
        match v {
            ClxValue::Flag(b) => Some(number::of_whole(u64::from(b))),
            ClxValue::Whole(n) => Some(number::of_whole(n)),
            ClxValue::Below(n) => Some(number::of_below(n)),
            ClxValue::Double(x) => Some(x),
            _ => None,
        }
    }
}
