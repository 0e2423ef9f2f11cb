// Opening a file: its map, attributes, experiment and calibration, in this order, and the summary of what they say.
#![tactic(auto)]

ghost use Rattle.std.specs.Prelude.{◌≡◌, List, ℕ, length, Float, IfOk};
ghost use Rattle.std.specs.Result.{result_unwrap_or};
ghost use Rattle.std.proofs.Math.Option.{Option};
ghost use Rattle.format.specs.Answer.{refused, and_then};
ghost use Rattle.format.specs.Bytes.{ascii, zeros};
ghost use Rattle.format.specs.Given.{answer, number, said};
ghost use Rattle.format.specs.Trees.{room_in};
ghost use Rattle.format.specs.Attributes.{attributes};
ghost use Rattle.format.specs.Calibration.{z_float, calibration_by};
ghost use Rattle.format.specs.Summary.{summary_of, zero_summary, loops_of};
ghost use Rattle.format.specs.Calls.Open.{opened, open_call};
ghost use Rattle.format.specs.Grammar.File.{Joined};
ghost use Rattle.format.specs.Refused.Order.{FirstAt};
ghost use Rattle.format.specs.Refused.Open.{OpenRefusal, open_order};
ghost use Rattle.format.specs.Refused.Summary.{Sound, Blank};
ghost use Rattle.format.specs.Sentences.{Refuses, OpensExactly, Different, WholeNeeded, WholeTyped, NeededNamed, CalibrationNamed};
ghost use Rattle.format.specs.declared.Loop.{Loop};
ghost use Rattle.chunk.specs.Answers.{lookup_of};
ghost use Rattle.lookup.specs.View.{bytes, entries};
ghost use Rattle.experiment.specs.Kept.{placed};
ghost use Rattle.named_tree.specs.Named.{tree_under};
ghost use Rattle.number.specs.Readings.{real};
ghost use Rattle.open.specs.Parts.{Run, Records, Tells, run_in, after_run, after_attributes};

use attributes::{bad_plane, parse_attributes};
use calibration::{find_z_step, load_calibration, no_calibration};
use chunk::map::{Lookup, look_all};
use chunk::{data_of, locate};
use cursor::clear;
use experiment::{Loops, load_experiment};
use format::refusal::Refusal;
use format::{Attributes, Calibration, Range, Summary};
use lookup::Tree;
use named_tree::read_named;

// The loops of an experiment, and its z step.
#[derive(Clone, Copy)]
pub struct Recorded {
    pub loops: Loops,
    pub z: Option<f64>,
}

// The summary of a file that opens.
fn accepted(map: Range, a: Attributes, e: Loops, c: Calibration) -> Summary
    ensures { (ls : List Loop) → e ≡ placed ls → result ≡ summary_of map a ls c }
{
    let loops = e.loops;
    Summary {
        loops,
        depth: e.depth,
        width: a.width,
        stride: a.stride,
        height: a.height,
        components: a.components,
        bits: a.bits,
        map,
        calibration: c.state,
        x: c.size,
        y: c.size,
        class: c.class,
        z: c.z,
    }
}

// ---- one tree each

// The attributes in the tree of a chunk that the map has.
fn read_attributes(file: &[u8], at: Lookup, table: &mut [u8]) -> Result<Attributes, Refusal>
    ensures { answer result
        ≡ and_then (tree_under file.now (room_in (length table.old)) (ascii "ImageAttributesLV!") (lookup_of at))
        (attributes file.now) }
{
    let used = read_named(file, b"ImageAttributesLV!", at, table)?;
    parse_attributes(Tree { file, table, used })
}

// The experiment in a tree that was read whole.
fn recorded_in(tree: Tree) -> Result<Recorded, Refusal>
    ensures { Tells result (run_in (bytes tree.entry) (entries tree.entry)) }
{
    let i = tree.get_level(0, b"SLxExperiment").ok_or(Refusal::Missing)?;
    let loops = load_experiment(tree, i)?;
    let z = find_z_step(tree, i);
    Ok(Recorded { loops, z })
}

// The experiment in the tree of a chunk that the map has.
#[tactic(auto, using(crate::proofs::Running::refused_first, crate::proofs::Running::read_first), unfolding(format::specs::Bytes::ascii))]
fn read_experiment(file: &[u8], at: Lookup, table: &mut [u8]) -> Result<Recorded, Refusal>
    ensures { Tells result (and_then (tree_under file.now (room_in (length table.old)) (ascii "ImageMetadataLV!") (lookup_of at))
        (run_in file.now)) }
{
    let used = read_named(file, b"ImageMetadataLV!", at, table)?;
    recorded_in(Tree { file, table, used })
}

// What a tree that was refused makes of the calibration: a full table refuses the file.
#[tactic(auto, unfolding(format::specs::Calibration::calibration_by))]
fn uncalibrated(e: Refusal) -> Result<Calibration, Refusal>
    ensures { (s : List ℕ) (z : Option Float) → answer result ≡ calibration_by s z (refused (number e)) }
{
    if e == Refusal::Table {
        return Err(e);
    }
    Ok(no_calibration(e))
}

// The calibration in the tree of a chunk that the map has.
fn read_calibration(
    file: &[u8],
    at: Lookup,
    table: &mut [u8],
    z: Option<f64>,
) -> Result<Calibration, Refusal>
    ensures { answer result ≡ calibration_by file.now (z_float (real z))
        (tree_under file.now (room_in (length table.old)) (ascii "ImageCalibrationLV|0!") (lookup_of at)) }
{
    match read_named(file, b"ImageCalibrationLV|0!", at, table) {
        Err(e) => uncalibrated(e),
        Ok(used) => Ok(load_calibration(Tree { file, table, used }, z)),
    }
}

// ---- one after the other

// After the experiment: the plane product and the calibration.
fn after_run(
    file: &[u8],
    table: &mut [u8],
    map: Range,
    at: Lookup,
    a: Attributes,
    e: Recorded,
) -> Result<Summary, Refusal>
    ensures { (x : Run) → Records e x
        → answer result ≡ after_run file.now (room_in (length table.old)) map (lookup_of at) a x }
{
    if bad_plane(a) {
        return Err(Refusal::FrameShape);
    }
    let c = read_calibration(file, at, table, e.z)?;
    Ok(accepted(map, a, e.loops, c))
}

// After the attributes: the experiment.
fn after_attributes(
    file: &[u8],
    table: &mut [u8],
    map: Range,
    b: Lookup,
    c: Lookup,
    a: Attributes,
) -> Result<Summary, Refusal>
    ensures { answer result ≡ after_attributes file.now (room_in (length table.old)) map (lookup_of b) (lookup_of c) a }
{
    let e = read_experiment(file, b, table)?;
    after_run(file, table, map, c, a, e)
}

// The map first, with one pass over it for all three names.
fn read_file(file: &[u8], table: &mut [u8]) -> Result<Summary, Refusal>
    ensures { answer result ≡ opened file.now (room_in (length table.old)) }
{
    let map = locate(file)?;
    let names: [&[u8]; 3] = [
        b"ImageAttributesLV!",
        b"ImageMetadataLV!",
        b"ImageCalibrationLV|0!",
    ];
    let [a, b, c] = look_all::<3>(data_of(file, map.start, map.len), &names)?;
    let sizes = read_attributes(file, Ok(a), table)?;
    after_attributes(file, table, map, Ok(b), Ok(c), sizes)
}

// Opens a file: its summary, or the first refusal. It leaves zeros in the table.
pub fn open(file: &[u8], table: &mut [u8]) -> Result<Summary, Refusal>
    ensures number { said result ≡ (open_call file.now table.old).number }
    ensures summary { result_unwrap_or result zero_summary ≡ (open_call file.now table.old).summary }
    ensures table { table.new ≡ (open_call file.now table.old).table }
    ensures zeroed { table.new ≡ zeros (length table.old) }
    ensures first { FirstAt (OpenRefusal file.now (room_in (length table.old))) open_order (said result) }
    ensures refused { Refuses (said result) → Blank (result_unwrap_or result zero_summary) }
    ensures exactly { OpensExactly file.now (room_in (length table.old)) (said result) }
    ensures theirs { IfOk result (Joined file.now) }
    ensures sound { IfOk result (Sound file.now) }
    ensures different { IfOk result (λ u. Different (loops_of u)) }
    ensures whole { WholeNeeded file.now (room_in (length table.old)) (said result) }
    ensures typed { IfOk result (WholeTyped file.now) }
    ensures named { NeededNamed file.now (said result) }
    ensures calibrated { IfOk result (CalibrationNamed file.now) }
{
    let opened = read_file(file, table);
    clear(table);
    opened
}
