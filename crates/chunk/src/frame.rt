// The name of a frame's chunk, what the map has under it, and the chunk that bears it.
ghost use Rattle.std.specs.Prelude.{◌≡◌, ℕ};
ghost use Rattle.format.specs.Chunks.{chunk_data};
ghost use Rattle.format.specs.Frames.{frame_name};
ghost use Rattle.chunk.specs.Answers.{data_of, DataIn, lookup_of, find_in};
ghost use Rattle.chunk.specs.Spelling.{Written, Spelled};

use super::map::{Lookup, look_up};
use crate::{ChunkFault, chunk_data};
use format::Range;

// A name at the end of an array: `name[from..]`.
#[derive(Clone, Copy)]
pub struct Name {
    pub name: [u8; 40],
    pub from: usize,
}

// n in decimal digits, with '!' after them.
fn digits(n: u64) -> Name
    ensures { Written n result }
{
    let mut name = [0u8; 40];
    name[39] = b'!';
    let mut i = 39;
    let mut m = n;
    while 10 <= m {
        i -= 1;
        name[i] = (48 + m % 10) as u8;
        m /= 10;
    }
    i -= 1;
    name[i] = (48 + m) as u8;
    Name { name, from: i }
}

// The name of the chunk of frame n.
pub fn frame_name(n: u64) -> Name
    ensures { Spelled (frame_name n) result }
{
    let d = digits(n);
    let from = d.from - 13;
    let mut name = d.name;
    name[from] = b'I';
    name[from + 1] = b'm';
    name[from + 2] = b'a';
    name[from + 3] = b'g';
    name[from + 4] = b'e';
    name[from + 5] = b'D';
    name[from + 6] = b'a';
    name[from + 7] = b't';
    name[from + 8] = b'a';
    name[from + 9] = b'S';
    name[from + 10] = b'e';
    name[from + 11] = b'q';
    name[from + 12] = b'|';
    Name { name, from }
}

// The data of the chunk at `offset`, which has to bear the name of frame n.
pub fn frame_chunk(file: &[u8], offset: u64, n: u64) -> Result<Range, ChunkFault>
    ensures { ((w : ℕ) → data_of w result ≡ chunk_data w (frame_name n) file.now offset) × DataIn file.now result }
{
    let f = frame_name(n);
    let name = f.name;
    let from = f.from;
    chunk_data(file, offset, &name[from..])
}

// The offset that the map has for frame n.
pub fn frame_at(map: &[u8], n: u64) -> Lookup
    ensures { lookup_of result ≡ find_in map.now (frame_name n) }
{
    let f = frame_name(n);
    let name = f.name;
    let from = f.from;
    look_up(map, &name[from..])
}
