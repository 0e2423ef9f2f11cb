// A chunk's tree, read into the lent table of entries: records and values, by two functions that call each other.
#![tactic(auto)]

ghost use Rattle.std.specs.Prelude.{◌≡◌, ◌+◌, ◌*◌, ◌^◌, ◌≤◌, ◌<◌, length};
ghost use Rattle.std.proofs.lemmas.List.Edits.{sets};
ghost use Rattle.format.specs.Trees.{entry_bytes, room_in};
ghost use Rattle.cursor.specs.Words.{Within};
ghost use Rattle.cursor.specs.Steps.{HeadRead, Headed};
ghost use Rattle.tree.specs.Table.{Fit};
ghost use Rattle.tree.specs.Steps.{LevelEnded, entry_for, records_at, value_at, Ran, tree_into, parsed_in, Front, Fits};

use chunk_cursor::record_start;
use cursor::record::Name;
use cursor::{Cursor, put};
use format::refusal::Refusal;
use format::{Entry, clx_type};

// Levels may stand this many deep, one in another.
pub const MAX_CLX_DEPTH: usize = 64;

// An entry of the table has six numbers of eight bytes.
pub const ENTRY_BYTES: usize = 48;

// Where records or a value stand: their level's entry plus one, the entries in use, the levels that may stand here one in another.
#[derive(Clone, Copy)]
pub struct Spot {
    pub parent: u64,
    pub used: usize,
    pub levels: usize,
}

// The head of the record at the cursor; none where too few bytes are left for a record.
fn read_head(d: &[u8], c: Cursor) -> Result<Option<(Name, Cursor)>, Refusal>
    requires { Within c d.now }
    ensures { HeadRead d.now c result }
{
    let at = c.at;
    let end = c.end;
    let Some(start) = record_start(&d[..end], at) else {
        return Ok(None);
    };
    start.name.judge_head(start.kind, start.units, at)
}

// Past a level's offsets, with the entries in use.
fn end_level(c: Cursor, count: usize, used: usize) -> Result<(Cursor, usize), Refusal>
    requires { c.at ≤ c.end }
    ensures { LevelEnded c count used result }
{
    let next = c.skip_offsets(count)?;
    Ok((next, used))
}

// The entry of the record n, with `size` bytes of value at `at`. Its positions are those in the file.
fn entry_of(base: u64, parent: u64, n: Name, at: usize, size: usize) -> Entry
    requires { (base + n.start + 2 < 2 ^ 64) × (base + at < 2 ^ 64) }
    ensures { result ≡ entry_for base parent n at size }
{
    Entry {
        kind: n.kind,
        name: base + n.start as u64 + 2,
        units: n.units,
        value: base + at as u64,
        size: size as u64,
        parent,
    }
}

// Stores an entry in its place of the table, number u.
#[tactic(auto, using(format::proofs::Trees::Tables::sets_entry))]
fn put_entry(table: &mut [u8], u: usize, e: Entry)
    requires { 48 * u + 48 ≤ length table.old }
    ensures { (table.new ≡ sets table.old (48 * u) (entry_bytes e)) × Fit e }
{
    let at = ENTRY_BYTES * u;
    put::<8>(table, at, e.kind);
    put::<8>(table, at + 8, e.name);
    put::<8>(table, at + 16, e.units);
    put::<8>(table, at + 24, e.value);
    put::<8>(table, at + 32, e.size);
    put::<8>(table, at + 40, e.parent);
}

// At most `count` records from the cursor on: the cursor after them, and the entries in use by then.
#[cycle(parse_clx_records_parse_clx_value)]
fn parse_clx_records(
    d: &[u8],
    base: u64,
    table: &mut [u8],
    c: Cursor,
    count: usize,
    p: Spot,
) -> Result<(Cursor, usize), Refusal>
    requires { Within c d.now × (base + length d.now < 2 ^ 64) × (p.used ≤ room_in (length table.old)) }
    ensures { Ran table.old table.new c.end p.used (records_at d.now base c count p) result }
{
    let mut at = c;
    let mut used = p.used;
    for done in 0..count {
        let Some((n, v)) = read_head(d, at)? else {
            return Ok((at, used));
        };
        if table.len() / ENTRY_BYTES <= used {
            return Err(Refusal::Table);
        }
        let spot = Spot {
            parent: p.parent,
            used,
            levels: p.levels,
        };
        (at, used) = parse_clx_value(d, base, table, n, v, spot)?;
    }
    Ok((at, used))
}

// The value of the record n, at the cursor, and the record's entry: the cursor after it, and the entries in use by then.
#[cycle(parse_clx_records_parse_clx_value)]
fn parse_clx_value(
    d: &[u8],
    base: u64,
    table: &mut [u8],
    n: Name,
    c: Cursor,
    p: Spot,
) -> Result<(Cursor, usize), Refusal>
    requires { Headed d.now n c × (base + length d.now < 2 ^ 64) × (p.used < room_in (length table.old)) }
    ensures { Ran table.old table.new c.end p.used (value_at d.now base n c p) result }
{
    let used = p.used;
    let kind = n.kind;
    if kind != clx_type::LEVEL {
        let leaf = c.read_leaf(d, kind)?;
        put_entry(table, used, entry_of(base, p.parent, n, leaf.at, leaf.size));
        return Ok((leaf.next, used + 1));
    }
    let level = c.read_level(d, n.start)?;
    let levels = p.levels;
    if levels == 0 {
        return Err(Refusal::Deep);
    }
    let kids = level.inner;
    put_entry(
        table,
        used,
        entry_of(base, p.parent, n, kids.at, kids.end - kids.at),
    );
    let spot = Spot {
        parent: used as u64 + 1,
        used: used + 1,
        levels: levels - 1,
    };
    let (_, u) = parse_clx_records(d, base, table, kids, level.count, spot)?;
    end_level(level.after, level.count, u)
}

// The tree in `data`, a part of a file that begins at `base`: how many entries it has. They go to the front of the table; what is behind them, and
// where the tree is refused all of it, is for the caller to clear.
pub fn parse_clx_variant(data: &[u8], base: u64, table: &mut [u8]) -> Result<usize, Refusal>
    requires { base + length «data».now < 2 ^ 64 }
    ensures answer { parsed_in table.new result ≡ tree_into «data».now base (length table.old) }
    ensures front { Front table.new (tree_into «data».now base (length table.old)) }
    ensures fits { Fits (length table.old) result }
{
    let end = data.len();
    let spot = Spot {
        parent: 0,
        used: 0,
        levels: MAX_CLX_DEPTH,
    };
    let (_, used) = parse_clx_records(data, base, table, Cursor { at: 0, end }, 1, spot)?;
    Ok(used)
}
