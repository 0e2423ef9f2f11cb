// The z step of an experiment: what a level states itself, and the search through the levels below it.
ghost use Rattle.std.specs.Prelude.{◌≡◌, true, ◌<◌};
ghost use Rattle.std.proofs.Math.Option.{some};
ghost use Rattle.format.specs.Calibration.{own_step, step_at, first_of, z_step};
ghost use Rattle.number.specs.Readings.{real};
ghost use Rattle.lookup.specs.View.{bytes, row, entries};
ghost use Rattle.lookup.specs.Walks.{Standing, rest_of};
ghost use Rattle.calibration.specs.Span.{span_in};

use experiment::kind::LoopKind;
use experiment::single::{as_loop_params, ui_count};
use lookup::{Tree, Turn};
use number::{span_step, stated_step};

// ---- one level

// The step that the ends and the count of the parameters p give.
#[tactic(auto, unfolding(format::specs::Calibration::span_step, format::specs::Bytes::ascii))]
fn span_in(tree: Tree, p: usize) -> Option<f64>
    requires { p < tree.used }
    ensures { real result ≡ span_in (bytes tree.entry) (entries tree.entry) p }
{
    let high = tree.get_as::<f64>(p + 1, b"dZHigh")?;
    let low = tree.get_as::<f64>(p + 1, b"dZLow")?;
    span_step(ui_count(tree, p), high, low)
}

// The step that the parameters p of a loop over z state: dZStep comes first.
#[tactic(auto, unfolding(format::specs::Calibration::own_step, format::specs::Calibration::stated_step, format::specs::Bytes::ascii))]
fn params_step(tree: Tree, p: usize) -> Option<f64>
    requires { p < tree.used }
    ensures { real result ≡ own_step (bytes tree.entry) (entries tree.entry) true (some p) }
{
    // a match, since what a closure over a tree gives is not known where it is called
    match tree.get_as::<f64>(p + 1, b"dZStep").and_then(stated_step) {
        Some(x) => Some(x),
        None => span_in(tree, p),
    }
}

// The step that the level i itself states.
#[tactic(auto, unfolding(format::specs::Calibration::step_at, format::specs::Calibration::is_four, format::specs::Bytes::ascii))]
fn own_step(tree: Tree, i: usize) -> Option<f64>
    requires { i < tree.used }
    ensures { real result ≡ step_at (bytes tree.entry) (entries tree.entry) i }
{
    if tree.get_as::<i64>(i + 1, b"eType") != Some(LoopKind::Focus as i64) {
        return None;
    }
    let params = tree.get(i + 1, b"uLoopPars");
    let p = as_loop_params(tree, params)?;
    params_step(tree, p)
}

// ---- the search

// The first step that the levels that a walk has still before it state, with `levels` depths left.
#[cycle(first_step_step_from)]
fn first_step(tree: Tree, from: Turn, levels: u64) -> Option<f64>
    requires { Standing (bytes tree) (row tree) tree.used from }
    ensures { real result ≡ first_of (z_step levels (bytes tree.entry) (entries tree.entry))
        (rest_of (bytes tree.entry) (row tree.entry) tree.entry.used from) }
{
    let mut turn = from;
    while let Some((i, rest)) = tree.next_child(turn) {
        if let Some(x) = step_from(tree, i, levels) {
            return Some(x);
        }
        turn = rest;
    }
    None
}

// The step of the level i, or else the first one below it, with `levels` depths left.
#[cycle(first_step_step_from)]
pub fn step_from(tree: Tree, i: usize, levels: u64) -> Option<f64>
    requires { i < tree.used }
    ensures { real result ≡ z_step levels (bytes tree.entry) (entries tree.entry) i }
{
    if levels == 0 {
        return None;
    }
    if let Some(x) = own_step(tree, i) {
        return Some(x);
    }
    let next = tree.get(i + 1, b"ppNextLevelEx");
    let turn = tree.children(next);
    first_step(tree, turn, levels - 1)
}
