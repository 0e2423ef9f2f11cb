// The tree call: the tree of the chunk that the map has under a name, in the lent table.
#![tactic(auto)]

ghost use Rattle.std.specs.Prelude.{◌≡◌, ◌++◌, ◌-◌, ◌*◌, ◌≤◌, length, take};
ghost use Rattle.format.specs.Bytes.{zeros};
ghost use Rattle.format.specs.Trees.{room_in};
ghost use Rattle.format.specs.Given.{said};
ghost use Rattle.format.specs.Calls.Tree.{tree_named, tree_call};
ghost use Rattle.format.specs.Refused.Order.{FirstAt};
ghost use Rattle.format.specs.Refused.Tree.{TreeRefusal, tree_order};
ghost use Rattle.format.specs.Sentences.{Refuses, AcceptedUnless, AtSome, TreeEntered, TreeNamed};
ghost use Rattle.named_tree.specs.Named.{Reads};

use chunk::data_of;
use chunk::map::look_up;
use cursor::clear;
use format::Summary;
use format::refusal::Refusal;
use named_tree::read_named;
use summary::bad_summary;
use tree::ENTRY_BYTES;

// The tree under a name, at the front of the table, and every refusal in order: how many entries it has.
pub fn tree_named(file: &[u8], u: Summary, name: &[u8], table: &mut [u8]) -> Result<usize, Refusal>
    ensures { Reads file.now table.new
        (tree_named file.now u name.now (room_in (length table.old))) result }
{
    if bad_summary(file, u) {
        return Err(Refusal::Summary);
    }
    let map = data_of(file, u.map.start, u.map.len);
    read_named(file, name, look_up(map, name), table)
}

// Makes what is behind the first `used` entries of a table zero.
fn clear_behind(table: &mut [u8], used: usize)
    requires { 48 * used ≤ length table.old }
    ensures { table.new ≡ take (48 * used) table.old ++ zeros (length table.old - 48 * used) }
{
    let from = ENTRY_BYTES * used;
    clear(&mut table[from..]);
}

// The entries of the tree under a name, in file order and with zeros behind them; or the first refusal, and a table of zeros.
pub fn tree(file: &[u8], u: Summary, name: &[u8], table: &mut [u8]) -> Result<(), Refusal>
    ensures number { said result ≡ (tree_call file.now u name.now table.old).number }
    ensures buffer { table.new ≡ (tree_call file.now u name.now table.old).buffer }
    ensures first { FirstAt (TreeRefusal file.now u name.now (room_in (length table.old))) tree_order (said result) }
    ensures accepted { AcceptedUnless (AtSome (TreeRefusal file.now u name.now (room_in (length table.old)))) (said result) }
    ensures entries { said result ≡ 0 → TreeEntered file.now u name.now (length table.old) table.new }
    ensures cleared { Refuses (said result) → table.new ≡ zeros (length table.old) }
    ensures named { TreeNamed file.now u name.now (said result) }
{
    match tree_named(file, u, name, table) {
        Ok(used) => {
            clear_behind(table, used);
            Ok(())
        }
        Err(e) => {
            clear(table);
            Err(e)
        }
    }
}
