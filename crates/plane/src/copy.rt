// Rows of bytes copied out of a frame's data, whole.
ghost use Rattle.std.specs.Prelude.{◌≡◌, ◌+◌, ◌*◌, ◌≤◌, ◌<◌, length};
ghost use Rattle.format.specs.Bytes.{over};
ghost use Rattle.plane.specs.Pieces.{pieces};
ghost use Rattle.plane.specs.Parts.{Alike, with_row};

// How many parts of a long run are copied side by side.
const PARTS: usize = 6;

// How many bytes of a part are copied at once.
const BLOCK: usize = 16;

// How many bytes of a row are copied at once.
const WIDE: usize = 64;

// Rows of fewer bytes are copied one after another.
const LONG_ROW: usize = 512;

// Copies src into dst, which is as long: byte by byte, which the compiler makes blocks of. `copy_from_slice` would be a call of memmove.
fn copy_bytes(src: &[u8], dst: &mut [u8])
    requires { length src.now ≡ length dst.old }
    ensures { dst.new ≡ src.now }
{
    for i in 0..dst.len() {
        dst[i] = src[i];
    }
}

// Copies N bytes into dst through a local array. Nothing else lies there, so the compiler reads them in one piece and writes them in one.
pub fn copy_block<const N: usize>(src: &[u8], dst: &mut [u8])
    requires { (length src.now ≡ N) × (length dst.old ≡ N) }
    ensures { dst.new ≡ src.now }
{
    let mut block = [0; N];
    block.copy_from_slice(src);
    dst.copy_from_slice(&block);
}

// Copies the block at x of each part of `size` bytes.
fn copy_blocks(src: &[u8], dst: &mut [u8], size: usize, x: usize)
    requires { (x + 16 ≤ size) × (6 * size ≤ length src.now) × (length src.now ≡ length dst.old) × Alike src.now dst.old size 6 x }
    ensures { Alike src.now dst.new size 6 (x + 16) }
{
    for k in 0..PARTS {
        let at = x + k * size;
        let e = at + BLOCK;
        copy_block::<BLOCK>(&src[at..e], &mut dst[at..e]);
    }
}

// Copies src into dst, which is as long: equal parts of it side by side, which memory serves faster than one after another, and then the rest.
pub fn copy_run(src: &[u8], dst: &mut [u8])
    requires { length src.now ≡ length dst.old }
    ensures { dst.new ≡ src.now }
{
    let count = dst.len() / (PARTS * BLOCK);
    let size = count * BLOCK;
    for i in 0..count {
        copy_blocks(src, dst, size, i * BLOCK);
    }
    let done = PARTS * size;
    copy_bytes(&src[done..], &mut dst[done..]);
}

// Copies src into dst, which is as long: `lead` bytes by themselves, so that what is copied in blocks begins where memory takes a block in one piece.
fn copy_with_lead(src: &[u8], dst: &mut [u8], lead: usize)
    requires { length src.now ≡ length dst.old }
    ensures { dst.new ≡ src.now }
{
    if dst.len() < lead {
        copy_bytes(src, dst);
        return;
    }
    copy_bytes(&src[..lead], &mut dst[..lead]);
    copy_run(&src[lead..], &mut dst[lead..]);
}

// Copies src into dst, which is as long: a wide block at its start, then such blocks from `lead` on, and last the block with which it ends. Blocks may overlap:
// with the right lead memory takes those between in one piece each, and no byte is copied by itself.
fn copy_long(src: &[u8], dst: &mut [u8], lead: usize)
    requires { (length src.now ≡ length dst.old) × (64 ≤ length dst.old) × (lead ≤ 64) }
    ensures { dst.new ≡ src.now }
{
    let last = dst.len() - WIDE;
    copy_block::<WIDE>(&src[..WIDE], &mut dst[..WIDE]);
    for x in (lead..=last).step_by(WIDE) {
        let e = x + WIDE;
        copy_block::<WIDE>(&src[x..e], &mut dst[x..e]);
    }
    copy_block::<WIDE>(&src[last..], &mut dst[last..]);
}

// Copies the first `w` bytes of row k, of `stride` bytes, to the place of row k among rows of `w` bytes. `lead` bytes into dst memory takes a block in one
// piece.
fn copy_row(src: &[u8], dst: &mut [u8], stride: usize, w: usize, k: usize, lead: usize)
    requires { (64 ≤ w) × (w ≤ stride) × (k * stride + stride ≤ length src.now) × (k * w + w ≤ length dst.old) }
    ensures { dst.new ≡ with_row src.now stride w k dst.old }
{
    let from = k * stride;
    let to = k * w;
    let e = from + w;
    let f = to + w;
    copy_long(
        &src[from..e],
        &mut dst[to..f],
        lead % BLOCK + BLOCK - to % BLOCK,
    );
}

// Copies the first `w` bytes of each of `count` rows of `stride` bytes: a row of the first half and one of the second by turns, which memory serves faster than
// one after another. The row in the middle of an odd count is in both.
fn copy_apart(src: &[u8], dst: &mut [u8], stride: usize, w: usize, count: usize, lead: usize)
    requires { (64 ≤ w) × (w ≤ stride) × (count * stride ≤ length src.now) × (count * w ≤ length dst.old) }
    ensures { dst.new ≡ over (pieces src.now 0 stride w count) dst.old }
{
    let half = count / 2;
    let turns = count - half;
    for k in 0..turns {
        copy_row(src, dst, stride, w, k, lead);
        copy_row(src, dst, stride, w, half + k, lead);
    }
}

// Copies `count` pieces of SIZE bytes, at `at`, at + step, .. in src, to the front of dst, each as a block is. As a part of its caller it would have
// no registers left for both places.
#[inline(never)]
fn copy_equal<const SIZE: usize>(src: &[u8], dst: &mut [u8], at: usize, step: usize, count: usize)
    requires { (at + SIZE ≤ step) × (count * step ≤ length src.now) × (count * SIZE ≤ length dst.old) }
    ensures { dst.new ≡ over (pieces src.now at step SIZE count) dst.old }
{
    for k in 0..count {
        let from = at + k * step;
        let to = k * SIZE;
        copy_block::<SIZE>(&src[from..from + SIZE], &mut dst[to..to + SIZE]);
    }
}

// The same of pieces of `size` bytes.
#[inline(never)]
fn copy_any(src: &[u8], dst: &mut [u8], at: usize, step: usize, size: usize, count: usize)
    requires { (at + size ≤ step) × (count * step ≤ length src.now) × (count * size ≤ length dst.old) }
    ensures { dst.new ≡ over (pieces src.now at step size count) dst.old }
{
    for k in 0..count {
        let first = at + k * step;
        let to = k * size;
        copy_bytes(&src[first..first + size], &mut dst[to..to + size]);
    }
}

// The same: small pieces, as samples are, with their size as a literal.
pub fn copy_pieces(src: &[u8], dst: &mut [u8], at: usize, step: usize, size: usize, count: usize)
    requires { (at + size ≤ step) × (count * step ≤ length src.now) × (count * size ≤ length dst.old) }
    ensures { dst.new ≡ over (pieces src.now at step size count) dst.old }
{
    match size {
        1 => copy_equal::<1>(src, dst, at, step, count),
        2 => copy_equal::<2>(src, dst, at, step, count),
        3 => copy_equal::<3>(src, dst, at, step, count),
        4 => copy_equal::<4>(src, dst, at, step, count),
        8 => copy_equal::<8>(src, dst, at, step, count),
        _ => copy_any(src, dst, at, step, size, count),
    }
}

// Copies the first `w` bytes of each of `count` rows of `stride` bytes: at once where a row has no others, `lead` of them first; else row by row.
pub fn copy_whole(src: &[u8], dst: &mut [u8], stride: usize, w: usize, count: usize, lead: usize)
    requires { (w ≤ stride) × (count * stride ≤ length src.now) × (count * w ≤ length dst.old) }
    ensures { dst.new ≡ over (pieces src.now 0 stride w count) dst.old }
{
    if w == stride {
        let n = count * w;
        copy_with_lead(&src[..n], &mut dst[..n], lead);
        return;
    }
    if w < LONG_ROW {
        copy_pieces(src, dst, 0, stride, w, count);
        return;
    }
    copy_apart(src, dst, stride, w, count, lead);
}
