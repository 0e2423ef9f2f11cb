// The loops of an experiment: its tree is walked, and each loop that is appended is judged.
#![tactic(auto)]

ghost use Rattle.std.specs.Prelude.{◌≡◌, [], cond, List, suc, ◌+◌, ◌≤◌, ◌<◌, eqb};
ghost use Rattle.format.specs.Given.{answer};
ghost use Rattle.format.specs.Loops.{Built, append, walk, walk_all, experiment};
ghost use Rattle.format.specs.Summary.{in_three};
ghost use Rattle.lookup.specs.View.{bytes, row, entries};
ghost use Rattle.lookup.specs.Walks.{Standing, rest_of};
ghost use Rattle.experiment.specs.Kept.{Stands, Reached, handed};
ghost use Rattle.experiment.specs.Kind.{number_of};
ghost use Rattle.experiment.specs.Walked.{Gives};

mod kept;
pub mod kind;
pub mod single;

use crate::kept::{Kept, append, none_kept};
use crate::kind::LoopKind;
use crate::single::single_experiment_loop;
use format::refusal::Refusal;
use format::{Axis, Loop};
use lookup::{Tree, Turn};

// Levels of an experiment may stand this many deep, one in another.
pub const MAX_EXP_DEPTH: u64 = 64;

// The loops of an experiment, outermost first, of which `depth` are used.
#[derive(Clone, Copy)]
pub struct Loops {
    pub loops: [Loop; 3],
    pub depth: u64,
}

// Places for three loops, none of them used.
pub fn no_loops() -> [Loop; 3]
    ensures { result ≡ in_three [] }
{
    [Loop {
        axis: Axis::T,
        count: 0,
    }; 3]
}

// A spectral loop is never appended.
fn appended(kept: Kept, kind: LoopKind, count: u64, nesting: u64) -> Kept
    requires { Reached kept }
    ensures { (bs : List Built) → Stands kept bs
        → Stands result (cond (eqb (number_of kind) 6) bs (append (number_of kind) count nesting bs)) }
{
    match kind {
        LoopKind::Spectral => kept,
        _ => append(kept, kind, count, nesting),
    }
}

// Below a spectral loop the nesting is the same, below another one deeper.
fn nesting_below(kind: LoopKind, nesting: u64) -> u64
    requires { nesting < 64 }
    ensures { (result ≡ cond (eqb (number_of kind) 6) nesting (suc nesting)) × (result ≤ nesting + 1) }
{
    match kind {
        LoopKind::Spectral => nesting,
        _ => nesting + 1,
    }
}

// The loops of the experiment levels that a walk has still before it, after those that are kept.
#[cycle(load_children_load_experiment_rec)]
fn load_children(
    tree: Tree,
    from: Turn,
    nesting: u64,
    levels: u64,
    before: Kept,
) -> Result<Kept, Refusal>
    requires { Standing (bytes tree) (row tree) tree.used from × (nesting + levels ≤ 64) × Reached before }
    ensures { (bs : List Built) → Stands before bs → Gives result
        (walk_all (λ i. walk levels (bytes tree.entry) (entries tree.entry) i nesting)
        (rest_of (bytes tree.entry) (row tree.entry) tree.entry.used from) bs) }
{
    let mut turn = from;
    let mut kept = before;
    while let Some((i, rest)) = tree.next_child(turn) {
        kept = load_experiment_rec(tree, i, nesting, levels, kept)?;
        turn = rest;
    }
    Ok(kept)
}

// The loops of the experiment level i, after those that are kept. A level that says no loop stops the walk there, its children too.
#[cycle(load_children_load_experiment_rec)]
fn load_experiment_rec(
    tree: Tree,
    i: usize,
    nesting: u64,
    levels: u64,
    kept: Kept,
) -> Result<Kept, Refusal>
    requires { (i < tree.used) × (nesting + levels ≤ 64) × Reached kept }
    ensures { (bs : List Built) → Stands kept bs → Gives result (walk levels (bytes tree.entry) (entries tree.entry) i nesting bs) }
{
    if levels == 0 {
        return Ok(kept);
    }
    let Some(own) = single_experiment_loop(tree, i)? else {
        return Ok(kept);
    };
    let next = tree.get(i + 1, b"ppNextLevelEx");
    let turn = tree.children(next);
    let deeper = nesting_below(own.kind, nesting);
    let more = appended(kept, own.kind, own.count, nesting);
    load_children(tree, turn, deeper, levels - 1, more)
}

// The loops of the experiment level i.
pub fn load_experiment(tree: Tree, i: usize) -> Result<Loops, Refusal>
    requires { i < tree.used }
    ensures { answer result ≡ handed (experiment (bytes tree.entry) (entries tree.entry) i) }
{
    let kept = load_experiment_rec(tree, i, 0, MAX_EXP_DEPTH, none_kept())?;
    kept.judged
}
