// The channels call: a record for each component, by the planes that cover them, after every refusal in order.
#![tactic(auto)]

ghost use Rattle.std.specs.Prelude.{◌≡◌, ℕ, List, length, get_or, IfOk};
ghost use Rattle.std.specs.Result.{result_unwrap_or};
ghost use Rattle.format.specs.Bytes.{ascii, zeros};
ghost use Rattle.format.specs.Given.{said};
ghost use Rattle.format.specs.Trees.{room_in};
ghost use Rattle.format.specs.Channels.{empty_channel, fitted};
ghost use Rattle.format.specs.Calls.Channels.{records_of, records_by, channels_call};
ghost use Rattle.format.specs.Grammar.Channels.{Empty};
ghost use Rattle.format.specs.Refused.Order.{First};
ghost use Rattle.format.specs.Refused.Channels.{ChannelsRefusal, channels_order, RecordAt, Recorded, Emptied};
ghost use Rattle.format.specs.Sentences.{Refuses, AcceptedUnless, NameAstray, ChannelsNamed};
ghost use Rattle.format.specs.declared.Channel.{Channel};
ghost use Rattle.chunk.specs.Answers.{lookup_of};
ghost use Rattle.named_tree.specs.Named.{tree_under};
ghost use Rattle.channels.specs.Ahead.{ahead, Stands, Follows};
ghost use Rattle.channels.specs.Ready.{Ready};

use chunk::data_of;
use chunk::map::{Lookup, look_up};
use cursor::clear;
use format::refusal::Refusal;
use format::{Channel, Summary};
use lookup::Tree;
use named_tree::read_named;
use planes::{Planes, next_component, no_planes, planes_in};
use record::no_channel;
use summary::bad_summary;

mod record; // the record of one plane
pub mod planes; // a walk over the components

// The plane records of the tree that a lookup found, read into the table: of its refusals only 18 stops them.
fn read_planes(file: &[u8], at: Lookup, table: &mut [u8], most: u64) -> Result<Planes, Refusal>
    ensures { (row : ℕ) → Ready file.now table.new row most
        (records_by file.now
        (tree_under file.now (room_in (length table.old)) (ascii "ImageMetadataSeqLV|0!") (lookup_of at))) result }
{
    match read_named(file, b"ImageMetadataSeqLV|0!", at, table) {
        Ok(used) => Ok(planes_in(Tree { file, table, used }, most)),
        Err(e) if e == Refusal::Table => Err(e),
        Err(_) => Ok(no_planes()),
    }
}

// Every refusal in order, and the plane records of a row of `row` records, in the tree that the table holds then.
pub fn prepare(file: &[u8], u: Summary, table: &mut [u8], row: usize) -> Result<Planes, Refusal>
    ensures { Ready file.now table.new row u.components
        (records_of file.now u (room_in (length table.old)) row) result }
{
    if bad_summary(file, u) {
        return Err(Refusal::Summary);
    }
    let map = data_of(file, u.map.start, u.map.len);
    let at = look_up(map, b"ImageMetadataSeqLV|0!")?;
    if (row as u64) < u.components {
        return Err(Refusal::ChannelRow);
    }
    read_planes(file, Ok(at), table, u.components)
}

// Record i of a row of `row` records: empty behind its end.
fn record_at(file: &[u8], table: &[u8], first: Planes, row: usize, i: usize) -> Channel
    requires { Stands file.now table.now first }
    ensures { result ≡ get_or (fitted row (ahead file.now table.now first)) i empty_channel }
{
    if row <= i {
        return no_channel();
    }
    let mut p = first;
    for _ in 0..i {
        p = next_component(file, table, p);
    }
    p.channel
}

// Record i of what a channels call leaves in a row of `row` records, or its refusal. It leaves zeros in the table.
pub fn channel(
    file: &[u8],
    u: Summary,
    table: &mut [u8],
    row: usize,
    i: usize,
) -> Result<Channel, Refusal>
    ensures number { (cs : List Channel) → length cs ≡ row → said result ≡ (channels_call file.now u table.old cs).number }
    ensures record { (cs : List Channel) → length cs ≡ row
        → result_unwrap_or result empty_channel ≡ get_or (channels_call file.now u table.old cs).row i empty_channel }
    ensures cleared { table.new ≡ zeros (length table.old) }
    ensures first { First (ChannelsRefusal file.now u (room_in (length table.old)) row) channels_order (said result) }
    ensures accepted { AcceptedUnless (ChannelsRefusal file.now u (room_in (length table.old)) row) (said result) }
    ensures empty { Refuses (said result) → Empty (result_unwrap_or result empty_channel) }
    ensures records { IfOk result (λ c. RecordAt file.now u i c) }
    ensures named { NameAstray file.now u (ascii "ImageMetadataSeqLV|0!") → Empty (result_unwrap_or result empty_channel) }
{
    let planes = prepare(file, u, table, row);
    let c = planes.map(|p| record_at(file, table, p, row, i));
    clear(table);
    c
}

// Fills the row with the records of a walk, and clears the table that it goes by.
fn fill(file: &[u8], table: &mut [u8], first: Planes, row: &mut [Channel])
    requires { Stands file.now table.old first }
    ensures { (table.new ≡ zeros (length table.old))
        × (row.new ≡ fitted (length row.old) (ahead file.now table.old first)) }
{
    let mut p = first;
    for r in row.iter_mut() {
        *r = p.channel;
        p = next_component(file, table, p);
    }
    clear(table);
}

// The channels of a file, or the first refusal. A record for each component, and empty ones behind these; on a refusal all are empty.
pub fn channels(
    file: &[u8],
    u: Summary,
    table: &mut [u8],
    row: &mut [Channel],
) -> Result<(), Refusal>
    ensures number { said result ≡ (channels_call file.now u table.old row.old).number }
    ensures table { table.new ≡ (channels_call file.now u table.old row.old).table }
    ensures row { row.new ≡ (channels_call file.now u table.old row.old).row }
    ensures cleared { table.new ≡ zeros (length table.old) }
    ensures first { First (ChannelsRefusal file.now u (room_in (length table.old)) (length row.old)) channels_order (said result) }
    ensures accepted { AcceptedUnless (ChannelsRefusal file.now u (room_in (length table.old)) (length row.old)) (said result) }
    ensures emptied { Refuses (said result) → Emptied (length row.old) row.new }
    ensures records { said result ≡ 0 → Recorded file.now u (length row.old) row.new }
    ensures named { ChannelsNamed file.now u (length row.old) row.new }
{
    let planes = prepare(file, u, table, row.len());
    fill(file, table, planes.unwrap_or(no_planes()), row);
    planes.map(|_| ())
}
