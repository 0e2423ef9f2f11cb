// What one experiment level says of its own loop.
ghost use Rattle.std.specs.Prelude.{◌≡◌, not, List, ℕ, ◌≤◌, ◌<◌, eqb, take};
ghost use Rattle.std.proofs.Math.Option.{some};
ghost use Rattle.format.specs.Values.{list, value_at};
ghost use Rattle.format.specs.Numbers.{unsigned};
ghost use Rattle.format.specs.Loops.{or_zero, loop_params, count_set, valid_of, count_field, point_count, spectral_count, counted, said};
ghost use Rattle.number.specs.Readings.{natural};
ghost use Rattle.lookup.specs.Table.{found, Within};
ghost use Rattle.lookup.specs.View.{bytes, entries};
ghost use Rattle.lookup.specs.Values.{elements_of, field_meaning, FieldInside};
ghost use Rattle.experiment.specs.Kind.{number_of, count_by};
ghost use Rattle.experiment.specs.Single.{said_of, planes_of};

use crate::kind::{LoopKind, kind_of};
use format::refusal::Refusal;
use lookup::value::Reading;
use lookup::{ClxValue, Tree};

// A loop may have this many values.
const MAX_LOOP_COUNT: u64 = 1000000;

// A loop of a level: its type and its count.
#[derive(Clone, Copy)]
pub struct Single {
    pub kind: LoopKind,
    pub count: u64,
}

// ---- the parameters

// The level that a list's only element is.
#[tactic(auto, using(crate::proofs::Counts::only_none, crate::proofs::Counts::only_one, crate::proofs::Counts::only_more))]
fn only_level(tree: Tree, parent: usize) -> Option<usize>
    requires { parent ≤ tree.used }
    ensures { ((s : List ℕ) → found result ≡ loop_params s (entries tree.entry)
        (some (list (elements_of s (entries tree.entry) parent)))) × Within tree.entry.used result }
{
    let i = tree.first_element(parent)?;
    match tree.next_element(parent, i) {
        None => tree.level_at(i),
        Some(_) => None,
    }
}

// The level of the parameters: the field itself, or the only element of a list.
#[tactic(auto, unfolding(lookup::specs::Values::field_meaning, lookup::specs::Values::meaning, format::specs::Loops::loop_params))]
pub fn as_loop_params(tree: Tree, f: Option<ClxValue>) -> Option<usize>
    requires { FieldInside tree.used f }
    ensures { ((s : List ℕ) → found result ≡ loop_params s (entries tree.entry)
        (field_meaning s (entries tree.entry) f)) × Within tree.entry.used result }
{
    match f? {
        ClxValue::Level(i) => Some(i),
        ClxValue::List(i) => only_level(tree, i + 1),
        _ => None,
    }
}

// ---- the counts

// The uiCount of the level i.
#[tactic(auto, using(crate::proofs::Counts::or_zero_is), unfolding(format::specs::Bytes::ascii))]
pub fn ui_count(tree: Tree, i: usize) -> u64
    requires { i < tree.used }
    ensures { result ≡ count_field (bytes tree.entry) (entries tree.entry) i }
{
    tree.get_as::<u64>(i + 1, b"uiCount").unwrap_or(0)
}

// Whether a value reads unsigned as something else than 0.
#[tactic(auto, using(crate::proofs::Counts::or_zero_is))]
fn is_truthy(tree: Tree, i: usize) -> bool
    requires { i < tree.used }
    ensures { result ≡ not (eqb (or_zero (unsigned (value_at (bytes tree.entry) (entries tree.entry) i))) 0) }
{
    u64::read(tree.value_at(i)).unwrap_or(0) != 0
}

// How many of the first n elements of a list are valid.
fn count_valid(tree: Tree, parent: usize, n: u64) -> u64
    requires { parent ≤ tree.used }
    ensures { result ≡ count_set (bytes tree.entry) (entries tree.entry)
        (take n (elements_of (bytes tree.entry) (entries tree.entry) parent)) }
{
    let mut count = 0;
    let mut next = tree.first_element(parent);
    for _ in 0..n {
        let Some(i) = next else {
            return count;
        };
        count += u64::from(is_truthy(tree, i));
        next = tree.next_element(parent, i);
    }
    count
}

// The points that are valid, of n, where the field is a list.
#[tactic(auto, unfolding(lookup::specs::Values::field_meaning, lookup::specs::Values::meaning, format::specs::Loops::valid_of))]
fn valid_of(tree: Tree, n: u64, f: Option<ClxValue>) -> u64
    requires { FieldInside tree.used f }
    ensures { result ≡ valid_of (bytes tree.entry) (entries tree.entry) n
        (field_meaning (bytes tree.entry) (entries tree.entry) f) }
{
    match f {
        Some(ClxValue::List(i)) => count_valid(tree, i + 1, n),
        _ => n,
    }
}

// The count of points, of which those that are valid; p is the level of the parameters.
#[tactic(auto, unfolding(format::specs::Loops::point_count, format::specs::Bytes::ascii))]
fn xy_point_count(tree: Tree, i: usize, p: usize) -> u64
    requires { (i < tree.used) × (p < tree.used) }
    ensures { result ≡ point_count (bytes tree.entry) (entries tree.entry) i p }
{
    let points = tree.get(p + 1, b"Points");
    let n = tree.size_of(points);
    if n == 0 {
        return ui_count(tree, p);
    }
    let valid = tree.get(i + 1, b"pItemValid");
    valid_of(tree, n, valid)
}

// The uiCount of pPlanes.
#[tactic(auto, unfolding(format::specs::Values::bind, format::specs::Bytes::ascii))]
fn planes_count(tree: Tree, p: usize) -> Option<u64>
    requires { p < tree.used }
    ensures { natural result ≡ planes_of (bytes tree.entry) (entries tree.entry) p }
{
    let q = tree.get_level(p + 1, b"pPlanes")?;
    tree.get_as::<u64>(q + 1, b"uiCount")
}

// A spectral loop's count: that of pPlanes is preferred.
#[tactic(auto, unfolding(format::specs::Loops::spectral_count, format::specs::Loops::planes_count))]
fn spectral_count(tree: Tree, p: usize) -> u64
    requires { p < tree.used }
    ensures { result ≡ spectral_count (bytes tree.entry) (entries tree.entry) p }
{
    // a match, since what a closure over a tree gives is not known where it is called
    match planes_count(tree, p) {
        Some(n) => n,
        None => ui_count(tree, p),
    }
}

// The count of a loop by its type.
fn loop_count(tree: Tree, i: usize, p: usize, kind: LoopKind) -> u64
    requires { (i < tree.used) × (p < tree.used) }
    ensures { result ≡ count_by (bytes tree.entry) (entries tree.entry) i p (number_of kind) }
{
    match kind {
        LoopKind::Points => xy_point_count(tree, i, p),
        LoopKind::Spectral => spectral_count(tree, p),
        _ => ui_count(tree, p),
    }
}

// ---- the loop

// A loop of a type and a count: none where the count is 0.
#[tactic(auto, unfolding(format::specs::Loops::counted))]
fn counted_loop(kind: LoopKind, count: u64) -> Result<Option<Single>, Refusal>
    ensures { said_of result ≡ counted (number_of kind) count }
{
    if MAX_LOOP_COUNT < count {
        return Err(Refusal::LoopCount);
    }
    if count == 0 {
        return Ok(None);
    }
    Ok(Some(Single { kind, count }))
}

// The loop of the experiment level i.
#[tactic(auto, unfolding(format::specs::Loops::said, format::specs::Loops::said_by, format::specs::Bytes::ascii))]
pub fn single_experiment_loop(tree: Tree, i: usize) -> Result<Option<Single>, Refusal>
    requires { i < tree.used }
    ensures { said_of result ≡ said (bytes tree.entry) (entries tree.entry) i }
{
    let params = tree.get(i + 1, b"uLoopPars");
    let Some(p) = as_loop_params(tree, params) else {
        return Ok(None);
    };
    let Some(n) = tree.get_as::<i64>(i + 1, b"eType") else {
        return Ok(None);
    };
    let Some(kind) = kind_of(n)? else {
        return Ok(None);
    };
    counted_loop(kind, loop_count(tree, i, p, kind))
}
