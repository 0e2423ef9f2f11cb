// One plane of a file: the frame of a point is found, and one component's samples are copied out of it.
#![tactic(auto)]

ghost use Rattle.std.specs.Prelude.{◌≡◌};
ghost use Rattle.format.specs.Frames.{frame_name};
ghost use Rattle.format.specs.Calls.Plane.{bad_frame, frame_of, frame_for, plane_call};
ghost use Rattle.format.specs.Refused.Order.{FirstAt};
ghost use Rattle.format.specs.Refused.Plane.{PlaneRefusal, plane_order};
ghost use Rattle.format.specs.Sentences.{Refuses, AcceptedUnless, AtSome, PlaneCopied, FrameNamed};
ghost use Rattle.format.specs.Given.{answer, said};
ghost use Rattle.plane.specs.Found.{found_at};

use attributes::product_over;
use chunk::data_of;
use chunk::frame::{frame_at, frame_chunk};
use component::copy_samples;
use format::refusal::Refusal;
use format::{Range, Summary};
use summary::{bad_index, bad_summary, seq_index};

pub mod copy; // rows of bytes
pub mod gather; // samples of one component, out of rows
pub mod component; // one component's samples, out of a frame's rows

// A plane has at most this many bytes.
const MAX_DECODED_PLANE_BYTES: u64 = 4_294_967_296;

// Row 24, of a frame whose data has `len` bytes.
#[tactic(auto, using(attributes::proofs::Products::either_over), unfolding(format::specs::Calls::Plane::bad_frame))]
fn bad_frame(u: Summary, len: u64) -> bool
    ensures { result ≡ bad_frame u len }
{
    len < 8 || product_over(u.stride, u.height, 1, len - 8)
}

// The data of the chunk at `offset`, where it bears the name of frame n and is a whole frame.
#[tactic(auto, unfolding(crate::specs::Found::found_at, format::specs::Answer::and_then, format::specs::Answer::refuse_if))]
fn frame_data(file: &[u8], u: Summary, n: u64, offset: u64) -> Result<Range, Refusal>
    ensures { answer result ≡ found_at file.now u (frame_name n) offset }
{
    let r = frame_chunk(file, offset, n)?;
    if bad_frame(u, r.len) {
        return Err(Refusal::FrameShort);
    }
    Ok(r)
}

// The data of the frame of a point, and in order every refusal that does not depend on what is lent.
#[tactic(auto, using(crate::proofs::Finding::frame_is), unfolding(format::specs::Answer::refuse_if))]
pub fn frame_of(
    file: &[u8],
    u: Summary,
    scene: u64,
    t: u64,
    c: u64,
    z: u64,
) -> Result<Range, Refusal>
    ensures { answer result ≡ frame_of file.now u scene t c z }
{
    if bad_summary(file, u) {
        return Err(Refusal::Summary);
    }
    if bad_index(u, scene, t, c, z) {
        return Err(Refusal::Index);
    }
    if product_over(u.width, u.height, u.bits / 8, MAX_DECODED_PLANE_BYTES) {
        return Err(Refusal::Ceiling);
    }
    let map = data_of(file, u.map.start, u.map.len);
    let n = seq_index(u, scene, t, z);
    let offset = frame_at(map, n)?.ok_or(Refusal::NoFrame)?;
    frame_data(file, u, n, offset)
}

// The same, and whether its plane has no more than `room` bytes.
#[tactic(auto, unfolding(format::specs::Calls::Plane::frame_for, format::specs::Answer::and_then, format::specs::Answer::refuse_if))]
fn frame_for(
    file: &[u8],
    u: Summary,
    scene: u64,
    t: u64,
    c: u64,
    z: u64,
    room: usize,
) -> Result<Range, Refusal>
    ensures { answer result ≡ frame_for file.now u scene t c z room }
{
    let r = frame_of(file, u, scene, t, c, z)?;
    if product_over(u.width, u.height, u.bits / 8, room as u64) {
        return Err(Refusal::Buffer);
    }
    Ok(r)
}

// The plane of component c at a point, row by row, into the lent bytes, or the first refusal.
pub fn plane(
    file: &[u8],
    u: Summary,
    scene: u64,
    t: u64,
    c: u64,
    z: u64,
    samples: &mut [u8],
) -> Result<(), Refusal>
    ensures number { said result ≡ (plane_call file.now u scene t c z samples.old).number }
    ensures buffer { samples.new ≡ (plane_call file.now u scene t c z samples.old).buffer }
    ensures first { FirstAt (PlaneRefusal file.now u scene t c z samples.old) plane_order (said result) }
    ensures accepted { AcceptedUnless (AtSome (PlaneRefusal file.now u scene t c z samples.old)) (said result) }
    ensures copied { said result ≡ 0 → PlaneCopied file.now u scene t c z samples.old samples.new }
    ensures untouched { Refuses (said result) → samples.new ≡ samples.old }
    ensures named { FrameNamed file.now u scene t c z (said result) }
{
    let r = frame_for(file, u, scene, t, c, z, samples.len())?;
    let data = data_of(file, r.start, r.len);
    copy_samples(&data[8..], u, c, samples, 0);
    Ok(())
}
