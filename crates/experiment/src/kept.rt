// The loops that are kept while an experiment is walked: at most three, by value, with what is asked of the last one appended.
ghost use Rattle.std.specs.Prelude.{◌≡◌, List, [], ◌∷◌, ◌≤◌, Ok, take};
ghost use Rattle.format.specs.Loops.{Built, append, axis_of, has_axis};
ghost use Rattle.experiment.specs.Kept.{Stands, Judged, Reached, larger};
ghost use Rattle.experiment.specs.Kind.{number_of};

use crate::kind::LoopKind;
use crate::{Loops, no_loops};
use format::refusal::Refusal;
use format::{Axis, Loop};

// A loop that was appended: its type, and how deep it is nested.
#[derive(Clone, Copy, PartialEq, Eq)]
pub struct Appended {
    pub kind: LoopKind,
    pub nesting: u64,
}

// The last loop that was appended, and all of them, or what is refused once the walk is over.
#[derive(Clone, Copy)]
pub struct Kept {
    pub last: Option<Appended>,
    pub judged: Result<Loops, Refusal>,
}

// No loop yet.
pub fn none_kept() -> Kept
    ensures { Stands result [] }
{
    Kept {
        last: None,
        judged: Ok(Loops {
            loops: no_loops(),
            depth: 0,
        }),
    }
}

// The axis of a loop's type.
fn axis_of(kind: LoopKind) -> Axis
    ensures { result ≡ axis_of (number_of kind) }
{
    match kind {
        LoopKind::Focus => Axis::Z,
        LoopKind::Points => Axis::P,
        _ => Axis::T,
    }
}

// Whether one of the loops runs over the axis.
fn has_axis(kept: Loops, axis: Axis) -> bool
    requires { kept.depth ≤ 3 }
    ensures { result ≡ has_axis axis (take kept.depth kept.loops) }
{
    let used = kept.depth as usize;
    kept.loops[..used].iter().any(|l| l.axis == axis)
}

// The loops and one more, judged as the next in order: a custom one is refused, and one on an axis that came before.
#[tactic(auto, using(crate::proofs::Keeping::next_few, crate::proofs::Keeping::next_room))]
fn with_next(mut kept: Loops, kind: LoopKind, count: u64) -> Result<Loops, Refusal>
    requires { (bs : List Built) × Judged (Ok kept) bs }
    ensures { (b : Built) (bs : List Built) → Judged (Ok kept) bs → b.kind ≡ number_of kind → b.count ≡ count → Judged result (b ∷ bs) }
{
    if kind == LoopKind::Custom {
        return Err(Refusal::LoopKind);
    }
    let axis = axis_of(kind);
    if has_axis(kept, axis) {
        return Err(Refusal::AxisTwice);
    }
    kept.loops[kept.depth as usize] = Loop { axis, count };
    kept.depth += 1;
    Ok(kept)
}

// A loop more.
fn push(kept: Kept, kind: LoopKind, count: u64, nesting: u64) -> Kept
    requires { Reached kept }
    ensures { (bs : List Built) → Stands kept bs → Stands result (record { kind = number_of kind; count = count; nesting = nesting } ∷ bs) }
{
    Kept {
        last: Some(Appended { kind, nesting }),
        judged: kept.judged.and_then(|loops| with_next(loops, kind, count)),
    }
}

// The loops, of which the last one has the larger count.
#[tactic(auto, using(crate::proofs::Keeping::wider_some, crate::proofs::Keeping::wider_room))]
fn widened(mut kept: Loops, count: u64) -> Loops
    requires { (b : Built) × (bs : List Built) × Judged (Ok kept) (b ∷ bs) }
    ensures { (b : Built) (bs : List Built) → Judged (Ok kept) (b ∷ bs) → Judged (Ok result) (larger b count ∷ bs) }
{
    let last = kept.depth as usize - 1;
    kept.loops[last].count = kept.loops[last].count.max(count);
    kept
}

// A loop of the walk: appended where it lies deeper than the last one, else the last one's count is the larger where both nesting and type
// are the same, else dropped.
pub fn append(kept: Kept, kind: LoopKind, count: u64, nesting: u64) -> Kept
    requires { Reached kept }
    ensures { (bs : List Built) → Stands kept bs → Stands result (append (number_of kind) count nesting bs) }
{
    match kept.last {
        Some(last) if nesting <= last.nesting => {
            if last == (Appended { kind, nesting }) {
                Kept {
                    judged: kept.judged.map(|loops| widened(loops, count)),
                    ..kept
                }
            } else {
                kept
            }
        }
        _ => push(kept, kind, count, nesting),
    }
}
