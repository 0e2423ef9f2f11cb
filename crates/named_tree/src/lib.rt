// The tree of a chunk that the map has under a name, read into the lent table.
#![tactic(auto)]

ghost use Rattle.std.specs.Prelude.{length};
ghost use Rattle.format.specs.Trees.{room_in};
ghost use Rattle.chunk.specs.Answers.{lookup_of};
ghost use Rattle.named_tree.specs.Named.{tree_at, tree_under, Reads};

use chunk::map::Lookup;
use chunk::{chunk_data, data_of};
use format::refusal::Refusal;
use tree::parse_clx_variant;

// The tree of the chunk at `offset`, which has to bear the name, at the front of the table: how many entries it has.
pub fn read_at(file: &[u8], name: &[u8], offset: u64, table: &mut [u8]) -> Result<usize, Refusal>
    ensures { Reads file.now table.new
        (tree_at file.now (room_in (length table.old)) name.now offset) result }
{
    let r = chunk_data(file, offset, name)?;
    parse_clx_variant(data_of(file, r.start, r.len), r.start, table)
}

// The tree of the chunk that a lookup found under a name.
pub fn read_named(file: &[u8], name: &[u8], at: Lookup, table: &mut [u8]) -> Result<usize, Refusal>
    ensures { Reads file.now table.new
        (tree_under file.now (room_in (length table.old)) name.now (lookup_of at)) result }
{
    let offset = at?.ok_or(Refusal::Missing)?;
    read_at(file, name, offset, table)
}
