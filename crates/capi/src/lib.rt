// The C interface: every call with plain numbers and slices of bytes, in which summaries and channel records stand too. nd2_c exports it, as nd2.h declares.
#![tactic(auto)]

ghost use Rattle.std.specs.Prelude.{◌≡◌, ◌*◌, ◌/◌, ◌≤◌, length};
ghost use Rattle.std.proofs.Math.Option.{some};
ghost use Rattle.format.specs.Bytes.{ascii, zeros, over};
ghost use Rattle.format.specs.Trees.{room_in};
ghost use Rattle.format.specs.Channels.{fitted};
ghost use Rattle.format.specs.Summary.{loops_of};
ghost use Rattle.format.specs.Calls.Open.{open_call};
ghost use Rattle.format.specs.Grammar.File.{Joined};
ghost use Rattle.format.specs.Refused.Order.{First, FirstAt};
ghost use Rattle.format.specs.Refused.Open.{OpenRefusal, open_order};
ghost use Rattle.format.specs.Refused.Summary.{Sound};
ghost use Rattle.format.specs.Calls.Sheet.{sheet_read_call};
ghost use Rattle.format.specs.Refused.Plane.{PlaneRefusal, plane_order};
ghost use Rattle.format.specs.Refused.Sheet.{SheetRefusal, sheet_order, SheetReadRefusal, sheet_read_order};
ghost use Rattle.format.specs.Refused.Tree.{TreeRefusal, tree_order};
ghost use Rattle.format.specs.Refused.Channels.{ChannelsRefusal, channels_order};
ghost use Rattle.format.specs.Refused.Picometres.{PicometresRefusal, picometres_order, SizeIs};
ghost use Rattle.format.specs.Refused.Register.{RegisterRefusal, register_order, Registered};
ghost use Rattle.format.specs.Sentences.{Refuses, AcceptedUnless, OpensExactly, Different, PlaneCopied, TreeEntered, WholeNeeded, WholeTyped};
ghost use Rattle.format.specs.Sentences.{SheetWritten, PlaneOn, SheetTaken, TurnedAway, ZeroSizes, AtSome};
ghost use Rattle.format.specs.Sentences.{FrameNamed, TreeNamed, NeededNamed, CalibrationNamed};
ghost use Rattle.channels.specs.Ahead.{ahead, Stands};
ghost use Rattle.layout.specs.Layout.{summary_bytes, summary_from, channel_row_bytes};
ghost use Rattle.capi.specs.RowBytes.{RowRecorded};
ghost use Rattle.capi.specs.OnBytes.{open_on, plane_on, sheet_on, tree_on, channel_row, channels_on, register_on, picometres_on};
ghost use Rattle.capi.specs.Said.{Said, WhereSaid, Unsaid, AcceptedOn};

use border::number_of;
use channels::planes::{Planes, next_component, no_planes};
use channels::prepare;
use cursor::clear;
use format::Summary;
use format::refusal::Refusal;
use layout::{CHANNEL_BYTES, SUMMARY_BYTES, put_channel, put_summary, summary_from};
use open::open;
use picometres::picometres;
use plane::plane;
use register::register;
use sheet::{Sizes, sheet, sheet_read};
use tree_call::tree;

// Opens a file, and stores its summary: 0, or the number of the first refusal and a summary of zeros. It leaves zeros in the table.
#[tactic(auto, unfolding(crate::specs::OnBytes::open_on))]
pub fn nd2_open(file: &[u8], table: &mut [u8], summary: &mut [u8]) -> u32
    ensures number { result ≡ open_on file.now table.old summary.old }
    ensures table { table.new ≡ zeros (length table.old) }
    ensures summary { result ≡ 0 → summary.new ≡ summary_bytes (open_call file.now table.old).summary }
    ensures refused { Refuses result → summary.new ≡ zeros (length summary.old) }
    ensures said { result ≡ 0 → summary_from summary.new ≡ some (open_call file.now table.old).summary }
    ensures exactly { length summary.old ≡ 144 → OpensExactly file.now (room_in (length table.old)) result }
    ensures otherwise { (length summary.old ≡ 144 → ⊥) → result ≡ 20 }
    ensures theirs { result ≡ 0 → Said summary.new (Joined file.now) }
    ensures sound { result ≡ 0 → Said summary.new (Sound file.now) }
    ensures different { result ≡ 0 → Said summary.new (λ u. Different (loops_of u)) }
    ensures first { length summary.old ≡ 144
        → FirstAt (OpenRefusal file.now (room_in (length table.old))) open_order result }
    ensures whole { length summary.old ≡ 144
        → WholeNeeded file.now (room_in (length table.old)) result }
    ensures typed { result ≡ 0 → Said summary.new (WholeTyped file.now) }
    ensures named { length summary.old ≡ 144 → NeededNamed file.now result }
    ensures calibrated { result ≡ 0 → Said summary.new (CalibrationNamed file.now) }
{
    clear(summary);
    if summary.len() != SUMMARY_BYTES {
        clear(table);
        return Refusal::Summary.number();
    }
    match open(file, table) {
        Ok(u) => {
            put_summary(summary, u);
            0
        }
        Err(e) => e.number(),
    }
}

// The plane of component c at a point, row by row, into the lent bytes; 0, or the number of the first refusal and no byte changed.
#[tactic(auto, unfolding(crate::specs::OnBytes::plane_on, crate::specs::OnBytes::on_summary))]
pub fn nd2_plane(
    file: &[u8],
    summary: &[u8],
    scene: u64,
    t: u64,
    c: u64,
    z: u64,
    samples: &mut [u8],
) -> u32
    ensures number { result ≡ (plane_on file.now summary.now scene t c z samples.old).number }
    ensures buffer { samples.new ≡ (plane_on file.now summary.now scene t c z samples.old).buffer }
    ensures untouched { Refuses result → samples.new ≡ samples.old }
    ensures first { WhereSaid summary.now
        (λ u. FirstAt (PlaneRefusal file.now u scene t c z samples.old) plane_order result) }
    ensures unsaid { Unsaid summary.now result }
    ensures accepted { AcceptedOn summary.now (λ u. AtSome (PlaneRefusal file.now u scene t c z samples.old)) result }
    ensures copied { result ≡ 0 → Said summary.now
        (λ u. PlaneCopied file.now u scene t c z samples.old samples.new) }
    ensures named { WhereSaid summary.now (λ u. FrameNamed file.now u scene t c z result) }
{
    let Some(u) = summary_from(summary) else {
        return Refusal::Summary.number();
    };
    number_of(plane(file, u, scene, t, c, z, samples))
}

// The sheet of the plane of component c at a point, into the lent bytes; 0, or the number of the first refusal and no byte changed.
#[tactic(auto, unfolding(crate::specs::OnBytes::sheet_on, crate::specs::OnBytes::on_summary))]
pub fn nd2_sheet(
    file: &[u8],
    summary: &[u8],
    scene: u64,
    t: u64,
    c: u64,
    z: u64,
    lent: &mut [u8],
) -> u32
    ensures number { result ≡ (sheet_on file.now summary.now scene t c z lent.old).number }
    ensures buffer { lent.new ≡ (sheet_on file.now summary.now scene t c z lent.old).buffer }
    ensures untouched { Refuses result → lent.new ≡ lent.old }
    ensures first { WhereSaid summary.now
        (λ u. FirstAt (SheetRefusal file.now u scene t c z lent.old) sheet_order result) }
    ensures unsaid { Unsaid summary.now result }
    ensures accepted { AcceptedOn summary.now (λ u. AtSome (SheetRefusal file.now u scene t c z lent.old)) result }
    ensures written { result ≡ 0 → Said summary.now
        (λ u. SheetWritten file.now u scene t c z lent.old lent.new) }
    ensures plane { result ≡ 0 → Said summary.now (λ u. PlaneOn file.now u scene t c z lent.new) }
    ensures named { WhereSaid summary.now (λ u. FrameNamed file.now u scene t c z result) }
{
    let Some(u) = summary_from(summary) else {
        return Refusal::Summary.number();
    };
    number_of(sheet(file, u, scene, t, c, z, lent))
}

// The samples of a sheet into the lent bytes, and its sizes and bits; 0, or the number of the first refusal, no byte changed and the three numbers 0.
pub fn nd2_sheet_read(
    lent: &[u8],
    samples: &mut [u8],
    width: &mut u64,
    height: &mut u64,
    bits: &mut u64,
) -> u32
    ensures number { result ≡ (sheet_read_call lent.now samples.old).number }
    ensures width { width.new ≡ (sheet_read_call lent.now samples.old).width }
    ensures height { height.new ≡ (sheet_read_call lent.now samples.old).height }
    ensures bits { bits.new ≡ (sheet_read_call lent.now samples.old).bits }
    ensures buffer { samples.new ≡ (sheet_read_call lent.now samples.old).samples }
    ensures first { First (SheetReadRefusal lent.now samples.old) sheet_read_order result }
    ensures accepted { AcceptedUnless (SheetReadRefusal lent.now samples.old) result }
    ensures taken { result ≡ 0
        → SheetTaken lent.now width.new height.new bits.new samples.old samples.new }
    ensures layout { TurnedAway lent.now result }
    ensures untouched { Refuses result → samples.new ≡ samples.old }
    ensures zero { Refuses result → ZeroSizes width.new height.new bits.new }
{
    let read = sheet_read(lent, samples);
    let sizes = read.unwrap_or(Sizes {
        width: 0,
        height: 0,
        bits: 0,
    });
    *width = sizes.width;
    *height = sizes.height;
    *bits = sizes.bits;
    number_of(read)
}

// The entries of the tree under a name, zeros behind them; 0, or the number of the first refusal and a table of zeros.
#[tactic(auto, unfolding(crate::specs::OnBytes::tree_on, crate::specs::OnBytes::on_summary))]
pub fn nd2_tree(file: &[u8], summary: &[u8], name: &[u8], table: &mut [u8]) -> u32
    ensures number { result ≡ (tree_on file.now summary.now name.now table.old).number }
    ensures buffer { table.new ≡ (tree_on file.now summary.now name.now table.old).buffer }
    ensures cleared { Refuses result → table.new ≡ zeros (length table.old) }
    ensures first { WhereSaid summary.now
        (λ u. FirstAt (TreeRefusal file.now u name.now (room_in (length table.old))) tree_order result) }
    ensures unsaid { Unsaid summary.now result }
    ensures accepted { AcceptedOn summary.now
        (λ u. AtSome (TreeRefusal file.now u name.now (room_in (length table.old)))) result }
    ensures entries { result ≡ 0 → Said summary.now
        (λ u. TreeEntered file.now u name.now (length table.old) table.new) }
    ensures named { WhereSaid summary.now (λ u. TreeNamed file.now u name.now result) }
{
    let Some(u) = summary_from(summary) else {
        clear(table);
        return Refusal::Summary.number();
    };
    number_of(tree(file, u, name, table))
}

// Stores the records of a walk, one after another.
fn put_records(file: &[u8], table: &[u8], first: Planes, row: &mut [u8], count: usize)
    requires { Stands file.now table.now first × (56 * count ≤ length row.old) }
    ensures { row.new
        ≡ over (channel_row_bytes (fitted count (ahead file.now table.now first))) row.old }
{
    let mut p = first;
    for k in 0..count {
        put_channel(row, CHANNEL_BYTES * k, p.channel);
        p = next_component(file, table, p);
    }
}

// The channels of a summary, into the lent bytes, and zeros into the table.
fn put_row(file: &[u8], u: Summary, table: &mut [u8], row: &mut [u8]) -> u32
    ensures number { result ≡ (channel_row file.now u table.old (length row.old)).number }
    ensures row { row.new ≡ (channel_row file.now u table.old (length row.old)).buffer }
    ensures table { table.new ≡ zeros (length table.old) }
{
    clear(row);
    let count = row.len() / CHANNEL_BYTES;
    let planes = prepare(file, u, table, count);
    put_records(file, table, planes.unwrap_or(no_planes()), row, count);
    clear(table);
    number_of(planes)
}

// A record for each component, zeros behind these; 0, or the number of the first refusal and a row of zeros. It leaves zeros in the table.
#[tactic(auto, unfolding(crate::specs::OnBytes::channels_on, crate::specs::OnBytes::on_summary))]
pub fn nd2_channels(file: &[u8], summary: &[u8], table: &mut [u8], row: &mut [u8]) -> u32
    ensures number { result ≡ (channels_on file.now summary.now table.old (length row.old)).number }
    ensures row { row.new ≡ (channels_on file.now summary.now table.old (length row.old)).buffer }
    ensures table { table.new ≡ zeros (length table.old) }
    ensures refused { Refuses result → row.new ≡ zeros (length row.old) }
    ensures first { WhereSaid summary.now
        (λ u. First (ChannelsRefusal file.now u (room_in (length table.old)) (length row.old / 56)) channels_order result) }
    ensures unsaid { Unsaid summary.now result }
    ensures accepted { AcceptedOn summary.now
        (λ u. ChannelsRefusal file.now u (room_in (length table.old)) (length row.old / 56)) result }
    ensures records { result ≡ 0 → Said summary.now
        (λ u. RowRecorded file.now u (length row.old) row.new) }
{
    let Some(u) = summary_from(summary) else {
        clear(row);
        clear(table);
        return Refusal::Summary.number();
    };
    put_row(file, u, table, row)
}

// The record of every frame, in order, into the lent bytes; 0, or the number of the first refusal and no byte changed.
#[tactic(auto, unfolding(crate::specs::OnBytes::register_on, crate::specs::OnBytes::on_summary))]
pub fn nd2_register(file: &[u8], summary: &[u8], buffer: &mut [u8]) -> u32
    ensures number { result ≡ (register_on file.now summary.now buffer.old).number }
    ensures buffer { buffer.new ≡ (register_on file.now summary.now buffer.old).buffer }
    ensures untouched { Refuses result → buffer.new ≡ buffer.old }
    ensures first { WhereSaid summary.now (λ u. First (RegisterRefusal file.now u buffer.old) register_order result) }
    ensures unsaid { Unsaid summary.now result }
    ensures accepted { AcceptedOn summary.now (λ u. RegisterRefusal file.now u buffer.old) result }
    ensures registered { result ≡ 0 → Said summary.now
        (λ u. Registered file.now u buffer.old buffer.new) }
{
    let Some(u) = summary_from(summary) else {
        return Refusal::Summary.number();
    };
    number_of(register(file, u, buffer))
}

// The pixel size of a file in whole picometres; 0, or the number of the first refusal and 0 picometres. It leaves zeros in the table.
#[tactic(auto, unfolding(crate::specs::OnBytes::picometres_on, crate::specs::OnBytes::on_summary))]
pub fn nd2_picometres(file: &[u8], summary: &[u8], table: &mut [u8], size: &mut u64) -> u32
    ensures number { result ≡ (picometres_on file.now summary.now table.old).number }
    ensures size { size.new ≡ (picometres_on file.now summary.now table.old).picometres }
    ensures table { table.new ≡ (picometres_on file.now summary.now table.old).table }
    ensures cleared { table.new ≡ zeros (length table.old) }
    ensures first { WhereSaid summary.now
        (λ u. FirstAt (PicometresRefusal file.now u (room_in (length table.old))) picometres_order result) }
    ensures unsaid { Unsaid summary.now result }
    ensures accepted { AcceptedOn summary.now
        (λ u. AtSome (PicometresRefusal file.now u (room_in (length table.old)))) result }
    ensures zero { Refuses result → size.new ≡ 0 }
    ensures rounded { result ≡ 0 → Said summary.now (λ u. SizeIs file.now u size.new) }
    ensures named { WhereSaid summary.now (λ u. TreeNamed file.now u (ascii "ImageCalibrationLV|0!") result) }
{
    let Some(u) = summary_from(summary) else {
        clear(table);
        *size = 0;
        return Refusal::Summary.number();
    };
    let read = picometres(file, u, table);
    *size = read.unwrap_or(0);
    number_of(read)
}
