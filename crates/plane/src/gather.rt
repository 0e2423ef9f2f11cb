// The samples of one component gathered out of a frame's rows.
ghost use Rattle.std.specs.Prelude.{◌≡◌, [], ◌∷◌, ◌+◌, ◌*◌, ◌≤◌, ◌<◌, length, get_or};
ghost use Rattle.std.proofs.lemmas.List.Edits.{sets};
ghost use Rattle.format.specs.Bytes.{part, over};
ghost use Rattle.plane.specs.Pieces.{pieces, rows};

use crate::copy::copy_block;

// Copies a sample of SIZE bytes, at `from` in src, to the place `to` of dst.
fn copy_sample<const SIZE: usize>(src: &[u8], dst: &mut [u8], from: usize, to: usize)
    requires { (from + SIZE ≤ length src.now) × (to + SIZE ≤ length dst.old) }
    ensures { dst.new ≡ sets dst.old to (part src.now from SIZE) }
{
    copy_block::<SIZE>(&src[from..from + SIZE], &mut dst[to..to + SIZE]);
}

// Copies four of them, at `from`, from + step, .. in src: none waits for the place of the one before it.
fn copy_four<const SIZE: usize>(src: &[u8], dst: &mut [u8], from: usize, step: usize, to: usize)
    requires { (from + 3 * step + SIZE ≤ length src.now) × (to + 4 * SIZE ≤ length dst.old) }
    ensures { dst.new ≡ sets dst.old to (pieces src.now from step SIZE 4) }
{
    copy_sample::<SIZE>(src, dst, from, to);
    copy_sample::<SIZE>(src, dst, from + step, to + SIZE);
    copy_sample::<SIZE>(src, dst, from + 2 * step, to + 2 * SIZE);
    copy_sample::<SIZE>(src, dst, from + 3 * step, to + 3 * SIZE);
}

// Copies `count` of them, at `at`, at + step, .. in src, to the front of dst: four at a time, and then the rest.
fn copy_by_four<const SIZE: usize>(src: &[u8], dst: &mut [u8], at: usize, step: usize, count: usize)
    requires { (at + SIZE ≤ step) × (count * step ≤ length src.now) × (count * SIZE ≤ length dst.old) }
    ensures { dst.new ≡ over (pieces src.now at step SIZE count) dst.old }
{
    let fours = count / 4;
    for i in 0..fours {
        let k = 4 * i;
        copy_four::<SIZE>(src, dst, at + k * step, step, k * SIZE);
    }
    // fewer than four, which the compiler sees of a remainder
    for j in 0..count % 4 {
        let k = 4 * fours + j;
        copy_sample::<SIZE>(src, dst, at + k * step, k * SIZE);
    }
}

// The byte of a pair at `at`: the pair is shifted by a number that only a call tells. So the compiler keeps the pair whole, and shifts many of them at once.
fn half(first: u8, second: u8, at: usize) -> u8
    requires { at < 2 }
    ensures { result ≡ get_or (first ∷ (second ∷ [])) at 0 }
{
    let pair = u16::from_le_bytes([first, second]);
    ((pair >> (8 * at)) % 256) as u8
}

// Copies the byte at `at` of each of `count` pairs to the front of dst.
fn copy_halves(src: &[u8], dst: &mut [u8], at: usize, count: usize)
    requires { (at < 2) × (count * 2 ≤ length src.now) × (count ≤ length dst.old) }
    ensures { dst.new ≡ over (pieces src.now at 2 1 count) dst.old }
{
    for k in 0..count {
        dst[k] = half(src[2 * k], src[2 * k + 1], at);
    }
}

// Copies `count` samples of SIZE bytes, at `at`, at + step, .. in src, to the front of dst. Every second sample of 16 bits goes one after another, which the
// compiler makes many at once of.
fn copy_spread<const SIZE: usize>(src: &[u8], dst: &mut [u8], at: usize, step: usize, count: usize)
    requires { (at + SIZE ≤ step) × (count * step ≤ length src.now) × (count * SIZE ≤ length dst.old) }
    ensures { dst.new ≡ over (pieces src.now at step SIZE count) dst.old }
{
    if SIZE == 1 && step == 2 {
        copy_halves(src, dst, at, count);
        return;
    }
    if SIZE == 1 || SIZE == 2 && step != 4 {
        copy_by_four::<SIZE>(src, dst, at, step, count);
        return;
    }
    for k in 0..count {
        let from = at + k * step;
        copy_sample::<SIZE>(src, dst, from, k * SIZE);
    }
}

// Copies one component of each row: a row is `stride` bytes, and its `width` samples of SIZE bytes are `step` bytes apart.
pub fn gather_rows<const SIZE: usize>(
    src: &[u8],
    dst: &mut [u8],
    stride: usize,
    at: usize,
    step: usize,
    width: usize,
    height: usize,
)
    requires { (at + SIZE ≤ step) × (width * step ≤ stride) × (height * stride ≤ length src.now) × (height * (width * SIZE) ≤ length dst.old) }
    ensures { dst.new ≡ over (rows src.now at stride step SIZE width height) dst.old }
{
    let w = width * SIZE;
    for y in 0..height {
        let from = y * stride;
        let to = y * w;
        let e = from + stride;
        let f = to + w;
        copy_spread::<SIZE>(&src[from..e], &mut dst[to..f], at, step, width);
    }
}
