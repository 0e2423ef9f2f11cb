// The picometres call (change request 5): the pixel size that the calibration's tree states, after every refusal in order.
#![tactic(auto)]

ghost use Rattle.std.specs.Prelude.{◌≡◌, length, IfOk};
ghost use Rattle.std.specs.Result.{result_unwrap_or};
ghost use Rattle.format.specs.Bytes.{ascii, zeros};
ghost use Rattle.format.specs.Given.{answer, said};
ghost use Rattle.format.specs.Trees.{room_in};
ghost use Rattle.format.specs.Calls.Picometres.{picometres_in, picometres_of, picometres_call};
ghost use Rattle.format.specs.Refused.Order.{FirstAt};
ghost use Rattle.format.specs.Refused.Picometres.{PicometresRefusal, picometres_order, SizeIs};
ghost use Rattle.format.specs.Sentences.{Refuses, AcceptedUnless, AtSome, TreeNamed};
ghost use Rattle.lookup.specs.View.{bytes, entries};

use calibration::parse_calibration_um;
use cursor::clear;
use format::Summary;
use format::refusal::Refusal;
use lookup::Tree;
use scale::picometres as scaled;
use tree_call::tree_named;

// The size that a tree states, in picometres.
fn size_in(tree: Tree) -> Result<u64, Refusal>
    ensures { answer result ≡ picometres_in (bytes tree.entry) (entries tree.entry) }
{
    let um = parse_calibration_um(tree).ok_or(Refusal::Missing)?;
    scaled(um).ok_or(Refusal::SizeRange)
}

// The size in the tree of the calibration's chunk, which is left in the table.
#[tactic(auto, using(named_tree::proofs::Answers::handed), unfolding(format::specs::Calls::Picometres::picometres_of, format::specs::Answer::and_then))]
fn read_size(file: &[u8], u: Summary, table: &mut [u8]) -> Result<u64, Refusal>
    ensures { answer result ≡ picometres_of file.now u (room_in (length table.old)) }
{
    let used = tree_named(file, u, b"ImageCalibrationLV|0!", table)?;
    size_in(Tree { file, table, used })
}

// The pixel size of a file in whole picometres, or the first refusal. It leaves zeros in the table.
pub fn picometres(file: &[u8], u: Summary, table: &mut [u8]) -> Result<u64, Refusal>
    ensures number { said result ≡ (picometres_call file.now u table.old).number }
    ensures size { result_unwrap_or result 0 ≡ (picometres_call file.now u table.old).picometres }
    ensures table { table.new ≡ (picometres_call file.now u table.old).table }
    ensures cleared { table.new ≡ zeros (length table.old) }
    ensures first { FirstAt (PicometresRefusal file.now u (room_in (length table.old))) picometres_order (said result) }
    ensures accepted { AcceptedUnless (AtSome (PicometresRefusal file.now u (room_in (length table.old)))) (said result) }
    ensures zero { Refuses (said result) → result_unwrap_or result 0 ≡ 0 }
    ensures rounded { IfOk result (λ n. SizeIs file.now u n) }
    ensures named { TreeNamed file.now u (ascii "ImageCalibrationLV|0!") (said result) }
{
    let found = read_size(file, u, table);
    clear(table);
    found
}
