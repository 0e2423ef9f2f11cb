// A plane as a TIFF sheet, written and read (change request 2).
#![tactic(auto)]

ghost use Rattle.std.specs.Prelude.{◌≡◌, ◌≤◌, length, ltb};
ghost use Rattle.format.specs.Sheets.{sheet_bytes};
ghost use Rattle.format.specs.Calls.Sheet.{sheet_for, sheet_call, laid_as, sheet_read_call};
ghost use Rattle.format.specs.Refused.Order.{First, FirstAt};
ghost use Rattle.format.specs.Refused.Sheet.{SheetRefusal, sheet_order, SheetReadRefusal, sheet_read_order};
ghost use Rattle.format.specs.Sentences.{Refuses, AcceptedUnless, AtSome, SheetWritten, PlaneOn, SheetTaken, TurnedAway, ZeroSizes, FrameNamed};
ghost use Rattle.format.specs.Given.{answer, said};
ghost use Rattle.sheet.specs.Sizes.{sizes};

use attributes::{bad_bits, product_over};
use chunk::data_of;
use chunk::names::same_at;
use cursor::le;
use format::refusal::Refusal;
use format::{Range, Summary};
use head::{HEAD_BYTES, put_head};
use plane::component::copy_samples;
use plane::copy::copy_run;
use plane::frame_of;

mod head; // what stands before the strip

// A sheet has at most this many bytes.
const MOST_SHEET_BYTES: u64 = 4_294_967_295;

// The strip's bytes before byte 192 of the sheet, from where blocks of 16 begin at multiples of 16.
const LEAD: usize = 6;

// Where width, height and bits stand in a sheet: the values of its first three fields.
const WIDTH_AT: usize = 18;

const HEIGHT_AT: usize = 30;

const BITS_AT: usize = 42;

// Whether the sheet of a plane has more than `most` bytes.
#[tactic(auto, using(std::proofs::lemmas::Bool::Decides::nat_tests))]
fn sheet_over(width: u64, height: u64, bits: u64, most: u64) -> bool
    ensures { result ≡ ltb most (sheet_bytes width height bits) }
{
    most < HEAD_BYTES as u64 || product_over(width, height, bits / 8, most - HEAD_BYTES as u64)
}

// ---- written

// The data of the frame of a point, and every refusal of a sheet in order; `room` bytes are lent for it.
#[tactic(auto, unfolding(format::specs::Calls::Sheet::sheet_for, format::specs::Answer::and_then, format::specs::Answer::refuse_if))]
fn sheet_for(
    file: &[u8],
    u: Summary,
    scene: u64,
    t: u64,
    c: u64,
    z: u64,
    room: usize,
) -> Result<Range, Refusal>
    ensures { answer result ≡ sheet_for file.now u scene t c z room }
{
    let r = frame_of(file, u, scene, t, c, z)?;
    if sheet_over(u.width, u.height, u.bits, MOST_SHEET_BYTES) {
        return Err(Refusal::SheetLong);
    }
    if sheet_over(u.width, u.height, u.bits, room as u64) {
        return Err(Refusal::Buffer);
    }
    Ok(r)
}

// The sheet of the plane of component c at a point, into the lent bytes, or the first refusal.
pub fn sheet(
    file: &[u8],
    u: Summary,
    scene: u64,
    t: u64,
    c: u64,
    z: u64,
    lent: &mut [u8],
) -> Result<(), Refusal>
    ensures number { said result ≡ (sheet_call file.now u scene t c z lent.old).number }
    ensures buffer { lent.new ≡ (sheet_call file.now u scene t c z lent.old).buffer }
    ensures first { FirstAt (SheetRefusal file.now u scene t c z lent.old) sheet_order (said result) }
    ensures accepted { AcceptedUnless (AtSome (SheetRefusal file.now u scene t c z lent.old)) (said result) }
    ensures written { said result ≡ 0 → SheetWritten file.now u scene t c z lent.old lent.new }
    ensures plane { said result ≡ 0 → PlaneOn file.now u scene t c z lent.new }
    ensures untouched { Refuses (said result) → lent.new ≡ lent.old }
    ensures named { FrameNamed file.now u scene t c z (said result) }
{
    let r = sheet_for(file, u, scene, t, c, z, lent.len())?;
    put_head(lent, u.width, u.height, u.bits);
    let data = data_of(file, r.start, r.len);
    copy_samples(&data[8..], u, c, &mut lent[HEAD_BYTES..], LEAD);
    Ok(())
}

// ---- read

// What a sheet says of its plane.
#[derive(Clone, Copy)]
pub struct Sizes {
    pub width: u64,
    pub height: u64,
    pub bits: u64,
}

// Whether a sheet has the length and the head of one of these sizes and bits.
#[tactic(auto, using(std::proofs::lemmas::Bool::Decides::nat_tests), unfolding(format::specs::Calls::Sheet::laid_as))]
fn laid_as(sheet: &[u8], width: u64, height: u64, bits: u64) -> bool
    requires { 186 ≤ length sheet.now }
    ensures { result ≡ laid_as sheet.now width height bits }
{
    if bad_bits(bits) || width == 0 || height == 0 {
        return false;
    }
    if sheet_over(width, height, bits, MOST_SHEET_BYTES) {
        return false;
    }
    if (sheet.len() - HEAD_BYTES) as u64 != width * height * (bits / 8) {
        return false;
    }
    let mut head = [0; HEAD_BYTES];
    put_head(&mut head, width, height, bits);
    same_at(sheet, 0, &head)
}

// The samples of a sheet into the lent bytes, and its sizes and bits, or the first refusal.
pub fn sheet_read(sheet: &[u8], samples: &mut [u8]) -> Result<Sizes, Refusal>
    ensures number { said result ≡ (sheet_read_call sheet.now samples.old).number }
    ensures width { (sizes result).width ≡ (sheet_read_call sheet.now samples.old).width }
    ensures height { (sizes result).height ≡ (sheet_read_call sheet.now samples.old).height }
    ensures bits { (sizes result).bits ≡ (sheet_read_call sheet.now samples.old).bits }
    ensures buffer { samples.new ≡ (sheet_read_call sheet.now samples.old).samples }
    ensures first { First (SheetReadRefusal sheet.now samples.old) sheet_read_order (said result) }
    ensures accepted { AcceptedUnless (SheetReadRefusal sheet.now samples.old) (said result) }
    ensures taken { said result ≡ 0
        → SheetTaken sheet.now (sizes result).width (sizes result).height (sizes result).bits samples.old samples.new }
    ensures layout { TurnedAway sheet.now (said result) }
    ensures untouched { Refuses (said result) → samples.new ≡ samples.old }
    ensures zero { Refuses (said result) → ZeroSizes (sizes result).width (sizes result).height (sizes result).bits }
{
    if sheet.len() < HEAD_BYTES {
        return Err(Refusal::SheetLayout);
    }
    let width = le::<4>(sheet, WIDTH_AT);
    let height = le::<4>(sheet, HEIGHT_AT);
    let bits = le::<2>(sheet, BITS_AT);
    if !laid_as(sheet, width, height, bits) {
        return Err(Refusal::SheetLayout);
    }
    let size = sheet.len() - HEAD_BYTES;
    if samples.len() < size {
        return Err(Refusal::Buffer);
    }
    copy_run(&sheet[HEAD_BYTES..], &mut samples[..size]);
    Ok(Sizes {
        width,
        height,
        bits,
    })
}
