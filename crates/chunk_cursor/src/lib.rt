// A cursor that carries a chunk's slice and the place in it, over a function that takes a plain slice and a place.
#![tactic(auto)]

ghost use Rattle.std.specs.Prelude.{◌≡◌, ◌≤◌, ◌<◌, length};
ghost use Rattle.cursor.specs.Words.{to, word_of, word_at, GoodWord};
ghost use Rattle.chunk_cursor.specs.Places.{part_of, place_after, start_of, start_at};

use cursor::Cursor;
use format::refusal::Refusal;

// The number in N bytes at a place of a slice and the cursor after it; cut where fewer are left.
#[tactic(auto, unfolding(cursor::specs::Words::word_at))]
pub fn word_in<const N: usize>(slice: &[u8], at: usize) -> Result<(u64, Cursor), Refusal>
    requires { (0 < N) × (N ≤ 8) }
    ensures { (word_of result ≡ word_at N slice.now (to at (length slice.now)))
        × GoodWord slice.now (to at (length slice.now)) N result }
{
    let end = slice.len();
    if end < at {
        return Err(Refusal::Cut);
    }
    Cursor { at, end }.read::<N>(slice)
}

// The place after what was read at a place: the same place where that was cut.
pub fn place_after(at: usize, r: Result<(u64, Cursor), Refusal>) -> usize
    ensures { result ≡ place_after at r }
{
    match r {
        Ok((_, d)) => d.at,
        Err(_) => at,
    }
}

// A chunk's slice, and the place in it.
#[derive(Clone, Copy)]
pub struct ChunkCursor<'a> {
    pub slice: &'a [u8],
    pub at: usize,
}

impl<'a> ChunkCursor<'a> {
    // The cursor at a place of a slice.
    pub fn new(slice: &'a [u8], at: usize) -> ChunkCursor<'a>
        ensures { (result.slice ≡ slice.entry) × (result.at ≡ at) }
    {
        ChunkCursor { slice, at }
    }

    // The number in N bytes at the cursor; cut where fewer are left.
    pub fn read<const N: usize>(self) -> Result<(u64, Cursor), Refusal>
        requires { (0 < N) × (N ≤ 8) }
        ensures { (word_of result ≡ word_at N self.entry.slice.now (part_of self.entry))
            × GoodWord self.entry.slice.now (part_of self.entry) N result }
    {
        word_in::<N>(self.slice, self.at)
    }

    // The cursor after what was read at it: the same slice, and the place after.
    pub fn after(self, r: Result<(u64, Cursor), Refusal>) -> ChunkCursor<'a>
        ensures { (result.slice ≡ self.entry.slice) × (result.at ≡ place_after self.entry.at r) }
    {
        let at = place_after(self.at, r);
        ChunkCursor {
            slice: self.slice,
            at,
        }
    }
}

// The first two bytes of a record, its type and how many units its name has, and the cursor at the name.
#[derive(Clone, Copy)]
pub struct Start {
    pub kind: u64,
    pub units: u64,
    pub name: Cursor,
}

// How the record at a place of a tree's slice starts; none where too few bytes are left for a record.
pub fn record_start(slice: &[u8], at: usize) -> Option<Start>
    ensures { start_of result ≡ start_at slice.now at }
{
    let c = ChunkCursor::new(slice, at);
    let first = c.read::<1>();
    let second = c.after(first).read::<1>();
    let (kind, _) = first.ok()?;
    let (units, name) = second.ok()?;
    Some(Start { kind, units, name })
}
