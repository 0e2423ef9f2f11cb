// Summaries and channel records as lent bytes, so that they cross a border of byte slices.
#![tactic(auto)]

ghost use Rattle.std.specs.Prelude.{◌≡◌, ◌↔◌, IsTrue, true, ℕ, ◌+◌, ◌*◌, ◌^◌, ◌≤◌, ◌<◌, length, get_or};
ghost use Rattle.std.proofs.Math.Option.{some};
ghost use Rattle.std.proofs.lemmas.List.Edits.{sets};
ghost use Rattle.std.specs.Float.{binary32};
ghost use Rattle.std.specs.Float.Ieee.{of_bits, to_bits};
ghost use Rattle.format.specs.Bytes.{le_at, le_bytes, each};
ghost use Rattle.layout.specs.Layout.{single, axis_from, loop_from, summary_in, axis_said, of_layout, summary_from, laid_of};
ghost use Rattle.layout.specs.Layout.{words_of, single_bytes, summary_bytes, channel_bytes};

use cursor::{le, put};
use format::{Axis, Channel, Loop, Range, Summary};
use number::{single_bits, single_of};

// The bytes of a summary.
pub const SUMMARY_BYTES: usize = 144;

// The bytes of a channel record.
pub const CHANNEL_BYTES: usize = 56;

// ---- read

// The axis of a number.
#[tactic(auto, unfolding(crate::specs::Layout::axis_from))]
fn axis_from(n: u64) -> Axis
    ensures { result ≡ axis_from n }
{
    match n {
        0 => Axis::T,
        1 => Axis::Z,
        _ => Axis::P,
    }
}

// Loop i: its axis and its count.
#[tactic(auto, unfolding(crate::specs::Layout::loop_from))]
fn loop_from(b: &[u8], i: usize) -> Loop
    requires { 16 * i + 16 ≤ length b.now }
    ensures { result ≡ loop_from b.now i }
{
    Loop {
        axis: axis_from(le::<8>(b, 16 * i)),
        count: le::<8>(b, 16 * i + 8),
    }
}

// The f32 whose pattern stands at `at`.
fn single_at(b: &[u8], at: usize) -> f32
    requires { at + 4 ≤ length b.now }
    ensures { result ≡ single b.now at }
{
    single_of(le::<4>(b, at) as u32)
}

// What the bytes of a summary say, whatever they are.
#[tactic(auto, unfolding(crate::specs::Layout::summary_in))]
pub fn summary_in(b: &[u8]) -> Summary
    requires { length b.now ≡ 144 }
    ensures { result ≡ summary_in b.now }
{
    let map = Range {
        start: le::<8>(b, 96),
        len: le::<8>(b, 104),
    };
    Summary {
        loops: [loop_from(b, 0), loop_from(b, 1), loop_from(b, 2)],
        depth: le::<8>(b, 48),
        width: le::<8>(b, 56),
        stride: le::<8>(b, 64),
        height: le::<8>(b, 72),
        components: le::<8>(b, 80),
        bits: le::<8>(b, 88),
        map,
        calibration: le::<8>(b, 112),
        x: single_at(b, 128),
        y: single_at(b, 132),
        class: le::<8>(b, 120),
        z: single_at(b, 136),
    }
}

// Whether loop place i is not used, or has an axis.
fn axis_said(b: &[u8], i: usize) -> bool
    requires { (length b.now ≡ 144) × (i < 3) }
    ensures { result ≡ axis_said b.now i }
{
    (le::<8>(b, 48) <= i as u64) | (le::<8>(b, 16 * i) < 3)
}

// Whether each loop place is not used, or has an axis.
fn axes_said(b: &[u8]) -> bool
    requires { length b.now ≡ 144 }
    ensures { IsTrue result ↔ ((i : ℕ) → i < 3 → axis_said b.now i ≡ true) }
{
    (0..3).all(|i| axis_said(b, i))
}

// Whether the bytes are a summary's.
#[tactic(auto, using(crate::proofs::Laws::unsaid), unfolding(crate::specs::Layout::of_layout))]
fn of_layout(b: &[u8]) -> bool
    ensures { result ≡ of_layout b.now }
{
    b.len() == SUMMARY_BYTES && axes_said(b) && le::<4>(b, 140) == 0
}

// The summary that lent bytes say.
#[tactic(auto, unfolding(crate::specs::Layout::summary_from))]
pub fn summary_from(b: &[u8]) -> Option<Summary>
    ensures { laid_of result ≡ summary_from b.now }
{
    if of_layout(b) {
        Some(summary_in(b))
    } else {
        None
    }
}

// ---- written

// Stores words from `at` on, one after another.
#[tactic(auto, using(crate::proofs::Each::one_word), unfolding(format::specs::Bytes::each))]
fn put_words(b: &mut [u8], at: usize, w: &[u64])
    requires { at + 8 * length w.now ≤ length b.old }
    ensures bytes { b.new ≡ sets b.old at (each (le_bytes 8) w.now) }
    ensures small { (i : ℕ) → get_or w.now i 0 < 2 ^ 64 }
{
    for (i, word) in w.iter().enumerate() {
        put::<8>(b, at + 8 * i, *word);
    }
}

// Stores the pattern of x, from which x is read back.
fn put_single(b: &mut [u8], at: usize, x: f32)
    requires { at + 4 ≤ length b.old }
    ensures bytes { b.new ≡ sets b.old at (single_bytes x) }
    ensures back { (to_bits binary32 x < 2 ^ 32) × (of_bits binary32 (to_bits binary32 x) ≡ x) }
{
    put::<4>(b, at, u64::from(single_bits(x)));
}

// The first sixteen words of a summary.
fn words_of(u: Summary) -> [u64; 16]
    ensures { result ≡ words_of u }
{
    let [outer, middle, inner] = u.loops;
    [
        u64::from(outer.axis),
        outer.count,
        u64::from(middle.axis),
        middle.count,
        u64::from(inner.axis),
        inner.count,
        u.depth,
        u.width,
        u.stride,
        u.height,
        u.components,
        u.bits,
        u.map.start,
        u.map.len,
        u.calibration,
        u.class,
    ]
}

// Stores a summary, which is what the bytes then say.
pub fn put_summary(b: &mut [u8], u: Summary)
    requires { length b.old ≡ 144 }
    ensures bytes { b.new ≡ summary_bytes u }
    ensures said { summary_from b.new ≡ some u }
{
    put_words(b, 0, &words_of(u));
    put_single(b, 128, u.x);
    put_single(b, 132, u.y);
    put_single(b, 136, u.z);
    put::<4>(b, 140, 0);
}

// Stores a channel record at `at`.
#[tactic(auto, using(crate::proofs::Laws::channel_words))]
pub fn put_channel(b: &mut [u8], at: usize, c: Channel)
    requires { at + 56 ≤ length b.old }
    ensures { b.new ≡ sets b.old at (channel_bytes c) }
{
    put_words(
        b,
        at,
        &[c.named, c.name, c.units, c.colored, c.red, c.green, c.blue],
    );
}
