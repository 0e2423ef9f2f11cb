// What every call that takes a summary shares: whether the summary may be used, whether indices are in range, and the numbers of frames.
#![tactic(auto)]

ghost use Rattle.std.specs.Prelude.{◌≡◌, List, ◌∷◌, ◌+◌, ◌≤◌, ◌<◌, ltb, length, drop, take};
ghost use Rattle.std.specs.List.{list_any};
ghost use Rattle.format.specs.Loops.{same_axis};
ghost use Rattle.format.specs.Frames.{count_of, index_of, seq_index, frames as framesOf};
ghost use Rattle.format.specs.Summary.{shape_of, loops_of, bad_loops, bad_summary};
ghost use Rattle.format.specs.Calls.Plane.{bad_index};
ghost use Rattle.format.specs.Grammar.Loops.{Counted, Distinct};
ghost use Rattle.format.specs.Refused.Plane.{Within};
ghost use Rattle.format.specs.declared.Loop.{Loop};
ghost use Rattle.summary.specs.Pacing.{Paced};

use attributes::{bad_bits, bad_plane, bad_shape};
use format::{Attributes, Axis, Loop, Range, Summary};

// A loop has at most this many values.
const MAX_LOOP_COUNT: u64 = 1_000_000;

// The sizes of a frame.
pub fn shape_of(u: Summary) -> Attributes
    ensures { result ≡ shape_of u }
{
    Attributes {
        width: u.width,
        stride: u.stride,
        height: u.height,
        components: u.components,
        bits: u.bits,
    }
}

// The loops that are used, outermost first.
#[tactic(auto, using(std::proofs::lemmas::List::take_min))]
fn used(loops: &[Loop; 3], depth: u64) -> &[Loop]
    ensures { (result.now ≡ take depth loops.now) × (length result.now ≤ 3) }
{
    let n = (depth as usize).min(3);
    &loops[..n]
}

// Whether a loop runs over an axis.
fn has_axis(loops: &[Loop], axis: Axis) -> bool
    ensures { result ≡ list_any (λ l. same_axis l.axis axis) loops.now }
{
    loops.iter().any(|l| l.axis == axis)
}

// A loop with the count 0 or one over 1,000,000, or with the axis of a later one.
#[tactic(auto, using(crate::proofs::Turns::bad), unfolding(format::specs::Summary::bad_loops))]
fn bad_loops(loops: &[Loop]) -> bool
    ensures { result ≡ bad_loops loops.now }
{
    for (i, l) in loops.iter().enumerate() {
        if l.count == 0 || MAX_LOOP_COUNT < l.count || has_axis(&loops[i + 1..], l.axis) {
            return true;
        }
    }
    false
}

// Whether a range leaves the file.
fn outside(file: &[u8], r: Range) -> bool
    ensures { result ≡ ltb (length file.now) (r.start + r.len) }
{
    let n = file.len() as u64;
    n < r.start || n - r.start < r.len
}

// Row 20, of any summary: nothing wraps.
#[tactic(auto, unfolding(format::specs::Summary::bad_summary))]
pub fn bad_summary(file: &[u8], u: Summary) -> bool
    ensures { result ≡ bad_summary file.now u }
{
    let a = shape_of(u);
    bad_bits(u.bits)
        || bad_shape(a)
        || bad_plane(a)
        || 3 < u.depth
        || bad_loops(used(&u.loops, u.depth))
        || outside(file, u.map)
}

// How many values an axis has: 1 where no loop runs over it.
#[tactic(auto, using(crate::proofs::Turns::counting), unfolding(format::specs::Frames::count_of))]
pub fn count_of(u: Summary, a: Axis) -> u64
    ensures { result ≡ count_of a (loops_of u) }
{
    for l in used(&u.loops, u.depth) {
        if l.axis == a {
            return l.count;
        }
    }
    1
}

// Number 21: an index is out of range.
#[tactic(auto, unfolding(format::specs::Calls::Plane::bad_index))]
pub fn bad_index(u: Summary, scene: u64, t: u64, c: u64, z: u64) -> bool
    ensures { result ≡ bad_index u scene t c z }
{
    count_of(u, Axis::P) <= scene
        || count_of(u, Axis::T) <= t
        || u.components <= c
        || count_of(u, Axis::Z) <= z
}

// The index of an axis.
fn index_of(a: Axis, scene: u64, t: u64, z: u64) -> u64
    ensures { result ≡ index_of a scene t z }
{
    match a {
        Axis::T => t,
        Axis::Z => z,
        Axis::P => scene,
    }
}

// The number of a frame: 0 to begin with, then n × count + index for each loop, from the outside in.
#[tactic(auto, using(crate::proofs::Turns::numbering), unfolding(format::specs::Frames::seq_index, format::specs::Frames::seq_from))]
pub fn seq_index(u: Summary, scene: u64, t: u64, z: u64) -> u64
    requires { Counted (loops_of u) × Distinct (loops_of u) × Within (loops_of u) scene t z }
    ensures { result ≡ seq_index (loops_of u) scene t z }
{
    let mut n = 0;
    for l in used(&u.loops, u.depth) {
        n = n * l.count + index_of(l.axis, scene, t, z);
    }
    n
}

// How many frames these loops make.
#[tactic(auto, using(crate::proofs::Turns::product), unfolding(format::specs::Frames::frames))]
fn frames_of(loops: &[Loop]) -> u64
    requires { Counted loops.now × (length loops.now ≤ 3) }
    ensures { result ≡ framesOf loops.now }
{
    let mut n = 1;
    for l in loops {
        n *= l.count;
    }
    n
}

// How many frames the loops of a summary make.
pub fn frames(u: Summary) -> u64
    requires { Counted (loops_of u) }
    ensures { result ≡ framesOf (loops_of u) }
{
    frames_of(used(&u.loops, u.depth))
}

// The pace of an axis: its index stays for so many frames, and has so many values.
#[derive(Clone, Copy)]
pub struct Pace {
    pub stay: u64,
    pub count: u64,
}

// The pace of an axis, by which frame n has the index n / stay % count: 1 and 1 where no loop has it.
#[tactic(auto, using(crate::proofs::Turns::pacing), unfolding(format::specs::Frames::index_at))]
pub fn pace_of(u: Summary, a: Axis) -> Pace
    requires { Counted (loops_of u) }
    ensures { Paced result a (loops_of u) }
{
    let loops = used(&u.loops, u.depth);
    for (i, l) in loops.iter().enumerate() {
        if l.axis == a {
            return Pace {
                stay: frames_of(&loops[i + 1..]),
                count: l.count,
            };
        }
    }
    Pace { stay: 1, count: 1 }
}
