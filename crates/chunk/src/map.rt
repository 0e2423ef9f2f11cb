// The map's data, scanned in place: it is well formed or refused, and of several entries with one name the last counts.
ghost use Rattle.std.specs.Prelude.{◌≡◌, ℕ, ◌+◌, ◌^◌, ◌≤◌, ◌<◌, length, drop};
ghost use Rattle.std.specs.Int.Count.{count_trailing_zeros};
ghost use Rattle.format.specs.Answer.{number_of};
ghost use Rattle.format.specs.Map.{through_mark, map_entries, most_entries};
ghost use Rattle.chunk.specs.Answers.{lookup_of, nth, find_in, name_at};
ghost use Rattle.format.specs.Given.{maybe, said};
ghost use Rattle.chunk.specs.Scan.{Marked, first_then, Skipped, FoundIn, next_in, Stands};

use super::names::{is_at, is_end};
use cursor::le;
use format::refusal::Refusal;

// A digit that is 1 where '!' stands at `at`.
fn mark(s: &[u8], at: usize) -> u32
    requires { at + 1 ≤ length s.now }
    ensures { Marked s.now at 1 result }
{
    if s[at] == b'!' { 1 } else { 0 }
}

// The digits of two bytes, the first's lowest; then of four, of eight and of 16.
fn marks2(s: &[u8], at: usize) -> u32
    requires { at + 2 ≤ length s.now }
    ensures { Marked s.now at 2 result }
{
    mark(s, at) + 2 * mark(s, at + 1)
}

fn marks4(s: &[u8], at: usize) -> u32
    requires { at + 4 ≤ length s.now }
    ensures { Marked s.now at 4 result }
{
    marks2(s, at) + 4 * marks2(s, at + 2)
}

fn marks8(s: &[u8], at: usize) -> u32
    requires { at + 8 ≤ length s.now }
    ensures { Marked s.now at 8 result }
{
    marks4(s, at) + 16 * marks4(s, at + 4)
}

fn marks16(s: &[u8], at: usize) -> u32
    requires { at + 16 ≤ length s.now }
    ensures { Marked s.now at 16 result }
{
    marks8(s, at) + 256 * marks8(s, at + 8)
}

// The place of the lowest digit of m that is 1, or 16.
fn first16(m: u32) -> usize
    requires { m < 2 ^ 16 }
    ensures { (result ≡ count_trailing_zeros 16 m) × (result ≤ 16) }
{
    u32::trailing_zeros(m + 65536) as usize
}

// The same, and where no digit of m is 1, a place behind those 16.
fn then16(m: u32, behind: usize) -> usize
    requires { (m < 2 ^ 16) × (behind ≤ 32) }
    ensures { (result ≡ first_then m behind) × (result ≤ 16 + behind) }
{
    if m == 0 { 16 + behind } else { first16(m) }
}

// A place from `at` on that no '!' stands before: where 48 bytes have one, the first's. No branch goes by the bytes.
fn skip_clear(s: &[u8], at: usize) -> usize
    requires { at ≤ length s.now }
    ensures { Skipped s.now at result }
{
    if s.len() - at < 16 {
        return at;
    }
    let a = marks16(s, at);
    if s.len() - at < 32 {
        return at + first16(a);
    }
    let b = marks16(s, at + 16);
    if s.len() - at < 48 {
        return at + then16(a, first16(b));
    }
    let c = marks16(s, at + 32);
    at + then16(a, then16(b, first16(c)))
}

// How many bytes there are from `at` on through the first '!', if there is one.
pub fn through_mark(s: &[u8], at: usize) -> Option<usize>
    requires { at ≤ length s.now }
    ensures { (maybe result ≡ through_mark (drop at s.now)) × FoundIn s.now at result }
{
    let mut i = skip_clear(s, at);
    while i < s.len() {
        if s[i] == b'!' {
            return Some(i - at + 1);
        }
        i = skip_clear(s, i + 1);
    }
    None
}

// As many entries a map may have; repeats count.
const MAX_MAP_ENTRIES: u64 = 2_000_000;

// What stands at `at`, after so many entries: an entry, whose name has so many bytes, or the end mark.
pub fn next_entry(map: &[u8], at: usize, entries: u64) -> Result<Option<usize>, Refusal>
    requires { (at ≤ length map.now) × (entries ≤ most_entries) }
    ensures { (result ≡ next_in map.now at entries) × Stands map.now at entries result }
{
    let n = through_mark(map, at).ok_or(Refusal::Map)?;
    if is_end(map, at, n) {
        return Ok(None);
    }
    if entries == MAX_MAP_ENTRIES {
        return Err(Refusal::Map);
    }
    if map.len() - at - n < 16 {
        return Err(Refusal::Map);
    }
    Ok(Some(n))
}

// The offset of the last entry with a name, if there is one, or the map's refusal.
pub type Lookup = Result<Option<u64>, Refusal>;

// One pass over the map's data for N names: its refusal, or what the last entry with each name says.
pub fn look_all<const N: usize>(map: &[u8], names: &[&[u8]]) -> Result<[Option<u64>; N], Refusal>
    requires { length names.now ≡ N }
    ensures { (k : ℕ) → k < N → lookup_of (nth result k) ≡ find_in map.now (name_at names.now k) }
{
    let mut at = 0;
    let mut entries = 0;
    let mut last = [None; N];
    while let Some(n) = next_entry(map, at, entries)? {
        for (i, name) in names.iter().enumerate() {
            if is_at(map, at, n, name) {
                last[i] = Some(le::<8>(map, at + n));
            }
        }
        at = at + n + 16;
        entries += 1;
    }
    Ok(last)
}

// The same for one name.
pub fn look_up(map: &[u8], name: &[u8]) -> Lookup
    ensures { lookup_of result ≡ find_in map.now name.now }
{
    let [last] = look_all::<1>(map, &[name])?;
    Ok(last)
}

// Whether the map's data is well formed.
pub fn map_check(map: &[u8]) -> Result<(), Refusal>
    ensures { said result ≡ number_of (map_entries map.now) }
{
    let mut at = 0;
    let mut entries = 0;
    while let Some(n) = next_entry(map, at, entries)? {
        at = at + n + 16;
        entries += 1;
    }
    Ok(())
}
