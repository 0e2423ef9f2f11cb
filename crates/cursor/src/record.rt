// A record's parts at a cursor: its head, a value that is no level, a level's header, and the end of a level.
ghost use Rattle.std.specs.Prelude.{◌≡◌, ℕ, ◌+◌, ◌-◌, ◌*◌, ◌≤◌, List, length, get_or, Ok};
ghost use Rattle.format.specs.Text.{units};
ghost use Rattle.format.specs.Trees.{known, fixed_len, text_units, fixed_value, text_value, bytes_value, value, Children};
ghost use Rattle.cursor.specs.Words.{Within, to};
ghost use Rattle.cursor.specs.Steps.{HeadRead, LeafRead, LevelRead, Skipped};

use super::{Cursor, le};
use format::clx_type;
use format::refusal::Refusal;

// A level may say that it has this many items.
pub const MAX_CLX_ITEMS: u64 = 10000000;

// What is kept of a record's head: its type, the place of its first byte, and how many units of its name are kept.
#[derive(Clone, Copy)]
pub struct Name {
    pub kind: u64,
    pub start: usize,
    pub units: u64,
}

// A value that is no level: its place, how many bytes it has, and the cursor after it.
#[derive(Clone, Copy)]
pub struct Leaf {
    pub at: usize,
    pub size: usize,
    pub next: Cursor,
}

// A level: how many items it says, the part of its children, and the cursor after that part.
#[derive(Clone, Copy)]
pub struct Level {
    pub count: usize,
    pub inner: Cursor,
    pub after: Cursor,
}

// Whether a record of this type has a value that is read.
#[tactic(auto, unfolding(format::specs::Trees::known))]
fn is_known(kind: u64) -> bool
    ensures { result ≡ known kind }
{
    matches!(kind, 1..=9 | clx_type::LEVEL)
}

// How many of a name's units are kept: all but the last.
fn kept(units: u64) -> u64
    ensures { result ≡ units - 1 }
{
    units.saturating_sub(1)
}

// The bytes of a value whose type says how many it has.
#[tactic(auto, unfolding(format::specs::Trees::fixed_len))]
fn fixed_len(kind: u64) -> usize
    ensures { (result ≡ fixed_len kind) × (result ≤ 8) }
{
    match kind {
        clx_type::BOOL => 1,
        clx_type::INT32 | clx_type::UINT32 => 4,
        _ => 8,
    }
}

// How many of the n units from `at` on stand before the first that is 0: n where none is.
fn text_units(d: &[u8], at: usize, n: usize) -> usize
    requires { at + 2 * n ≤ length d.now }
    ensures { (result ≡ text_units (units n d.now at)) × (result ≤ n) }
{
    for i in 0..n {
        if le::<2>(d, at + 2 * i) == 0 {
            return i;
        }
    }
    n
}

impl Cursor {
    // A text: up to its zero unit, or else all whole units that are left.
    pub fn read_clx_string(self, d: &[u8]) -> Leaf
        requires { Within self d.now }
        ensures { LeafRead d.now self.end (text_value d.now self.at self.end) (Ok result) }
    {
        let at = self.at;
        let end = self.end;
        let n = (end - at) / 2;
        let size = 2 * text_units(d, at, n);
        let after = at + size;
        if end - after < 2 {
            let next = Cursor { at: after, end };
            return Leaf { at, size, next };
        }
        let next = Cursor { at: after + 2, end };
        Leaf { at, size, next }
    }

    // Bytes: a size, and so many bytes.
    pub fn read_clx_bytes(self, d: &[u8]) -> Result<Leaf, Refusal>
        requires { Within self d.now }
        ensures { LeafRead d.now self.end (bytes_value d.now self.at self.end) result }
    {
        let (n, v) = self.read::<8>(d)?;
        v.take(n as usize)
    }

    // The value that the next `size` bytes are; cut where fewer are left.
    #[tactic(auto, unfolding(format::specs::Trees::fixed_value))]
    fn take(self, size: usize) -> Result<Leaf, Refusal>
        requires { self.at ≤ self.end }
        ensures { (d : List ℕ) → Within self d → LeafRead d self.end (fixed_value size self.at self.end) result }
    {
        let at = self.at;
        let end = self.end;
        if end - at < size {
            return Err(Refusal::Cut);
        }
        let next = Cursor { at: at + size, end };
        Ok(Leaf { at, size, next })
    }

    // A value that is no level.
    pub fn read_leaf(self, d: &[u8], kind: u64) -> Result<Leaf, Refusal>
        requires { Within self d.now × (kind ≡ 11 → ⊥) }
        ensures { (children : Children) (start : ℕ)
            → LeafRead d.now self.end (value d.now children kind start self.at self.end) result }
    {
        match kind {
            clx_type::BYTEARRAY => self.read_clx_bytes(d),
            clx_type::STRING => Ok(self.read_clx_string(d)),
            _ => self.take(fixed_len(kind)),
        }
    }

    // A record's head is judged at its name: its type, its name's units, and the place of its first byte.
    pub fn judge_head(
        self,
        kind: u64,
        units: u64,
        start: usize,
    ) -> Result<Option<(Name, Cursor)>, Refusal>
        requires { (self.at ≡ start + 2) × (self.at ≤ self.end) }
        ensures { (d : List ℕ) → self.end ≤ length d → kind ≡ get_or d start 0 → units ≡ get_or d (start + 1) 0 → HeadRead d (to start self.end) result }
    {
        match kind {
            clx_type::COMPRESS => return Err(Refusal::Packed),
            0 | 10 => return Err(Refusal::Kind),
            _ => {}
        }
        let at = self.at;
        let end = self.end;
        let n = units as usize;
        if (end - at) / 2 < n {
            return Err(Refusal::Cut);
        }
        if !is_known(kind) {
            return Err(Refusal::Kind);
        }
        let name = Name {
            kind,
            start,
            units: kept(units),
        };
        let next = Cursor {
            at: at + 2 * n,
            end,
        };
        Ok(Some((name, next)))
    }

    // The header of the level whose record begins at `start`: how many items, and how far behind `start` the children end.
    pub fn read_level(self, d: &[u8], start: usize) -> Result<Level, Refusal>
        requires { Within self d.now × (start ≤ self.at) }
        ensures { LevelRead d.now start self result }
    {
        let (count, l) = self.read::<4>(d)?;
        if MAX_CLX_ITEMS < count {
            return Err(Refusal::Level);
        }
        let (length, v) = l.read::<8>(d)?;
        let at = v.at;
        let end = v.end;
        let header = at - start;
        let size = length as usize;
        if size < header {
            return Err(Refusal::Level);
        }
        if end - at < size - header {
            return Err(Refusal::Cut);
        }
        let to = start + size;
        let inner = Cursor { at, end: to };
        let after = Cursor { at: to, end };
        Ok(Level {
            count: count as usize,
            inner,
            after,
        })
    }

    // Past a level's offsets, eight bytes for each of its items.
    #[tactic(auto, unfolding(format::specs::Trees::level_end))]
    pub fn skip_offsets(self, count: usize) -> Result<Cursor, Refusal>
        requires { self.at ≤ self.end }
        ensures { Skipped self count result }
    {
        let at = self.at;
        let end = self.end;
        if (end - at) / 8 < count {
            return Err(Refusal::Cut);
        }
        Ok(Cursor {
            at: at + 8 * count,
            end,
        })
    }
}
