// The calibration: the pixel size that a tree states, with the z step of an experiment.
#![tactic(auto)]

ghost use Rattle.std.specs.Prelude.{◌≡◌, cond, ◌<◌, eqb};
ghost use Rattle.std.proofs.Math.Option.{some};
ghost use Rattle.format.specs.Given.{number};
ghost use Rattle.format.specs.Refusals as why;
ghost use Rattle.format.specs.Trees.{most_depth};
ghost use Rattle.format.specs.Calibration.{above_zero, pixel_size, z_step, z_float, unstated, stated};
ghost use Rattle.number.specs.Readings.{real};
ghost use Rattle.lookup.specs.View.{bytes, entries};
ghost use Rattle.calibration.specs.Size.{size_in};

pub mod step;

use crate::step::step_from;
use experiment::MAX_EXP_DEPTH;
use format::Calibration;
use format::refusal::Refusal;
use lookup::Tree;
use number::{kept_z, narrow, positive, z_class};

// What a calibration's state says: a size is stated, or the tree is packed.
const STATED: u64 = 1;

const PACKED: u64 = 2;

// ---- the z step

// The z step that an experiment's levels state, the first in tree order.
pub fn find_z_step(tree: Tree, i: usize) -> Option<f64>
    requires { i < tree.used }
    ensures { real result ≡ z_step most_depth (bytes tree.entry) (entries tree.entry) i }
{
    step_from(tree, i, MAX_EXP_DEPTH)
}

// ---- the pixel size

// The dCalibration of a tree's SLxCalibration.
#[tactic(auto, unfolding(format::specs::Values::bind, format::specs::Bytes::ascii))]
fn size_in(tree: Tree) -> Option<f64>
    ensures { real result ≡ size_in (bytes tree.entry) (entries tree.entry) }
{
    let i = tree.get_level(0, b"SLxCalibration")?;
    tree.get_as::<f64>(i + 1, b"dCalibration")
}

// A size counts where it is above 0.
#[tactic(auto, unfolding(format::specs::Calibration::above_zero))]
fn above_zero(size: Option<f64>) -> Option<f64>
    ensures { real result ≡ above_zero (real size) }
{
    size.filter(|x| positive(*x))
}

// The pixel size that a tree states.
#[tactic(auto, unfolding(format::specs::Calibration::pixel_size, format::specs::Bytes::ascii))]
pub fn parse_calibration_um(tree: Tree) -> Option<f64>
    ensures { real result ≡ pixel_size (bytes tree.entry) (entries tree.entry) }
{
    above_zero(size_in(tree))
}

// ---- what is stated

// A state, and nothing else.
#[tactic(auto, unfolding(format::specs::Calibration::unstated))]
fn unstated(state: u64) -> Calibration
    ensures { result ≡ unstated state }
{
    Calibration {
        state,
        size: 0.0,
        class: 0,
        z: 0.0,
    }
}

// A size and a step, if there is one, which is kept in class 1 alone.
#[tactic(auto, unfolding(format::specs::Calibration::stated, format::specs::Calibration::z_float, format::specs::Calibration::z_class))]
fn sized(size: f64, z: Option<f64>) -> Calibration
    ensures { result ≡ stated (some size) (z_float (real z)) }
{
    let step = z.map(narrow);
    let class = step.map_or(0, z_class);
    Calibration {
        state: STATED,
        size: narrow(size),
        class,
        z: step.map_or(0.0, |x| kept_z(class, x)),
    }
}

// What a calibration tree states, where the step is z.
#[tactic(auto, unfolding(format::specs::Calibration::stated))]
pub fn load_calibration(tree: Tree, z: Option<f64>) -> Calibration
    ensures { result ≡ stated (pixel_size (bytes tree.entry) (entries tree.entry)) (z_float (real z)) }
{
    match parse_calibration_um(tree) {
        None => unstated(0),
        Some(size) => sized(size, z),
    }
}

// What is stated where the tree is refused: a packed one gives a state of its own.
pub fn no_calibration(e: Refusal) -> Calibration
    ensures { result ≡ unstated (cond (eqb (number e) why.packed) 2 0) }
{
    if e == Refusal::Packed {
        unstated(PACKED)
    } else {
        unstated(0)
    }
}
