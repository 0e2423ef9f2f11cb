// Chunks of an ND2 file: a chunk's data, and where the map's data is.
#![tactic(auto)]

ghost use Rattle.std.specs.Prelude.{◌≡◌, ℕ, ◌+◌, ◌≤◌, length};
ghost use Rattle.format.specs.Bytes.{part};
ghost use Rattle.format.specs.Chunks.{chunk_data};
ghost use Rattle.format.specs.Map.{map_range};
ghost use Rattle.format.specs.Given.{answer};
ghost use Rattle.chunk.specs.Answers.{fault, data_of, DataIn};

use cursor::le;
use format::Range;
use format::refusal::Refusal;
use names::{begins_at, is_end};

pub mod names; // bytes compared with a name
pub mod map; // the map's entries
pub mod frame; // the names of frames

const ND2_CHUNK_MAGIC: u64 = 0x0ABECEDA;

const JP2_MAGIC: u64 = 0x0C000000;

// Why a chunk is turned away.
#[derive(Clone, Copy, Debug, PartialEq, Eq)]
pub enum ChunkFault {
    // It is not whole.
    Bad,
    // It bears another name.
    Misnamed,
}

// Of a chunk that the map has under its name.
impl From<ChunkFault> for Refusal {
    ghost from_gives = { λ f e. e ≡ fault f };

    fn from(f: ChunkFault) -> Refusal {
        match f {
            ChunkFault::Bad => Refusal::Chunk,
            ChunkFault::Misnamed => Refusal::ChunkName,
        }
    }
}

// The data of the chunk at `offset`, whose name begins with `expect`.
pub fn chunk_data(file: &[u8], offset: u64, expect: &[u8]) -> Result<Range, ChunkFault>
    ensures { ((w : ℕ) → data_of w result ≡ chunk_data w expect.now file.now offset) × DataIn file.now result }
{
    let n = file.len();
    let at = offset as usize;
    if n < 16 {
        return Err(ChunkFault::Bad);
    }
    if n - 16 < at {
        return Err(ChunkFault::Bad);
    }
    if le::<4>(file, at) != ND2_CHUNK_MAGIC {
        return Err(ChunkFault::Bad);
    }
    let name_len = le::<4>(file, at + 4) as usize;
    let body = at + 16;
    if n - body < name_len {
        return Err(ChunkFault::Bad);
    }
    if !begins_at(file, body, name_len, expect) {
        return Err(ChunkFault::Misnamed);
    }
    let len = le::<8>(file, at + 8);
    let start = body + name_len;
    if n - start < len as usize {
        return Err(ChunkFault::Bad);
    }
    Ok(Range {
        start: start as u64,
        len,
    })
}

// The part of the file that a chunk's data is.
pub fn data_of(file: &[u8], start: u64, len: u64) -> &[u8]
    requires { start + len ≤ length file.now }
    ensures { result.now ≡ part file.now start len }
{
    let from = start as usize;
    let to = from + len as usize;
    &file[from..to]
}

// Where the map's data is: first mark, locator, map chunk.
pub fn locate(file: &[u8]) -> Result<Range, Refusal>
    ensures { (answer result ≡ map_range file.now) × DataIn file.now result }
{
    let n = file.len();
    if n < 4 {
        return Err(Refusal::Foreign);
    }
    let first = le::<4>(file, 0);
    if first == JP2_MAGIC {
        return Err(Refusal::Legacy);
    }
    if first != ND2_CHUNK_MAGIC {
        return Err(Refusal::Foreign);
    }
    if n < 40 {
        return Err(Refusal::Tail);
    }
    if !is_end(file, n - 40, 32) {
        return Err(Refusal::Tail);
    }
    let offset = le::<8>(file, n - 8);
    chunk_data(file, offset, b"ND2 FILEMAP SIGNATURE NAME 0001!").map_err(|_| Refusal::Chunk)
}
