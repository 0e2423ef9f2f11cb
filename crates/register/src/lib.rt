// The register of a file: a record for each frame, of its scene, t and z and of what the map has for it.
#![tactic(auto)]

ghost use Rattle.std.specs.Prelude.{◌≡◌, List, [], ◌∷◌, ◌++◌, ℕ, ◌+◌, ◌*◌, ◌≤◌, length, IfOk};
ghost use Rattle.std.proofs.lemmas.List.Edits.{sets};
ghost use Rattle.format.specs.Bytes.{le_bytes, over};
ghost use Rattle.format.specs.Answer.{given, number_of};
ghost use Rattle.format.specs.Given.{said};
ghost use Rattle.format.specs.Map.{MapEntry, map_entries};
ghost use Rattle.format.specs.Frames.{index_at, frames as framesOf};
ghost use Rattle.format.specs.Summary.{loops_of};
ghost use Rattle.format.specs.Calls.Register.{frame_record, register_from, registered, register_call};
ghost use Rattle.format.specs.Grammar.Loops.{Counted};
ghost use Rattle.format.specs.Refused.Order.{First};
ghost use Rattle.format.specs.Refused.Register.{RegisterRefusal, register_order, Registered};
ghost use Rattle.format.specs.Sentences.{Refuses, AcceptedUnless};
ghost use Rattle.format.specs.declared.Axis.TheVariants.{T, Z, P};
ghost use Rattle.format.specs.declared.Loop.{Loop};
ghost use Rattle.chunk.specs.Scan.{entry_at};
ghost use Rattle.register.specs.Taking.{Taken};

use chunk::data_of;
use chunk::map::{map_check, next_entry};
use cursor::{le, put};
use format::refusal::Refusal;
use format::{Axis, Summary};
use naming::frame_number;
use summary::{bad_summary, frames};
use wheel::wheel_of;

mod naming; // the frames that names are of
mod wheel; // an axis's index, counted up

// The states of a frame: the map has it, or not.
const IN_MAP: u64 = 0;

const ABSENT: u64 = 1;

// Stores a state and an offset.
fn put_place(buffer: &mut [u8], at: usize, state: u64, offset: u64)
    requires { at + 12 ≤ length buffer.old }
    ensures { buffer.new ≡ sets buffer.old at (le_bytes 4 state ++ le_bytes 8 offset) }
{
    put::<4>(buffer, at, state);
    put::<8>(buffer, at + 4, offset);
}

// Stores the record of a frame at these indices, that the map has not.
fn put_absent(buffer: &mut [u8], at: usize, scene: u64, t: u64, z: u64)
    requires { at + 24 ≤ length buffer.old }
    ensures { (m : List ℕ) (ls : List Loop) (n : ℕ) → scene ≡ index_at P n ls → t ≡ index_at T n ls → z ≡ index_at Z n ls
        → buffer.new ≡ sets buffer.old at (frame_record m [] ls n) }
{
    put::<4>(buffer, at, scene);
    put::<4>(buffer, at + 4, t);
    put::<4>(buffer, at + 8, z);
    put_place(buffer, at + 12, ABSENT, 0);
}

// Stores the records of `count` frames from 0 on, none of which the map has.
fn put_frames(buffer: &mut [u8], u: Summary, count: u64)
    requires { Counted (loops_of u) × (24 * count ≤ length buffer.old) }
    ensures { (m : List ℕ) → buffer.new ≡ over (register_from count m [] (loops_of u) 0) buffer.old }
{
    let mut scene = wheel_of(u, Axis::P);
    let mut t = wheel_of(u, Axis::T);
    let mut z = wheel_of(u, Axis::Z);
    for n in 0..count {
        put_absent(buffer, 24 * n as usize, scene.index, t.index, z.index);
        scene.turn();
        t.turn();
        z.turn();
    }
}

// Stores the place that the entry at `at`, whose name has n bytes, gives for one of `count` frames.
fn put_entry(map: &[u8], at: usize, n: usize, buffer: &mut [u8], count: u64)
    requires { (at + n + 16 ≤ length map.now) × (24 * count ≤ length buffer.old) }
    ensures { (es : List MapEntry)
        → Taken map.now count es (es ++ entry_at map.now at n ∷ []) buffer.old buffer.new }
{
    let Some(k) = frame_number(&map[at..at + n]) else {
        return;
    };
    if k < count {
        put_place(buffer, 24 * k as usize + 12, IN_MAP, le::<8>(map, at + n));
    }
}

// One pass over the map's data: the place of each frame that an entry names. Of several entries with one name the last stays.
fn put_entries(map: &[u8], buffer: &mut [u8], count: u64)
    requires { 24 * count ≤ length buffer.old }
    ensures { (es : List MapEntry) → map_entries map.now ≡ given es
        → Taken map.now count [] es buffer.old buffer.new }
{
    let mut at = 0;
    let mut entries = 0;
    while let Ok(Some(n)) = next_entry(map, at, entries) {
        put_entry(map, at, n, buffer, count);
        at = at + n + 16;
        entries += 1;
    }
}

// How many frames a buffer of `room` bytes gets records of, or the first refusal.
fn accepted(file: &[u8], u: Summary, room: usize) -> Result<u64, Refusal>
    ensures number { said result ≡ number_of (registered file.now u room) }
    ensures count { IfOk result (λ n. n ≡ framesOf (loops_of u)) }
{
    if bad_summary(file, u) {
        return Err(Refusal::Summary);
    }
    map_check(data_of(file, u.map.start, u.map.len))?;
    let count = frames(u);
    // 24 × count may pass 2^64
    if ((room / 24) as u64) < count {
        return Err(Refusal::Buffer);
    }
    Ok(count)
}

// The record of every frame, in order, into the lent bytes, or the first refusal.
pub fn register(file: &[u8], u: Summary, buffer: &mut [u8]) -> Result<(), Refusal>
    ensures number { said result ≡ (register_call file.now u buffer.old).number }
    ensures buffer { buffer.new ≡ (register_call file.now u buffer.old).buffer }
    ensures first { First (RegisterRefusal file.now u buffer.old) register_order (said result) }
    ensures accepted { AcceptedUnless (RegisterRefusal file.now u buffer.old) (said result) }
    ensures registered { said result ≡ 0 → Registered file.now u buffer.old buffer.new }
    ensures untouched { Refuses (said result) → buffer.new ≡ buffer.old }
{
    let count = accepted(file, u, buffer.len())?;
    put_frames(buffer, u, count);
    put_entries(data_of(file, u.map.start, u.map.len), buffer, count);
    Ok(())
}
