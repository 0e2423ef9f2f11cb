// A number for a name, the same for names that are the same; and marks in a small array for the names that have come by.
ghost use Rattle.std.specs.Prelude.{◌≡◌, true, ℕ, ◌+◌, ◌*◌, ◌^◌, ◌≤◌, ◌<◌, length};
ghost use Rattle.format.specs.Text.{units, lossy};
ghost use Rattle.lookup.specs.Hash.{hash_of, key_of, Marked};

use name::unit::lossy_unit;

// 2^32 divided by the golden ratio: a factor that spreads units over all bits.
const SPREAD: u64 = 2_654_435_769;

// Numbers of names are below this.
const HASHES: u64 = 4_294_967_296;

// Units are below this.
const UNITS: u64 = 65_536;

// How many marks there are, and how many numbers share one.
pub const MARKS: usize = 2048;

const SHARE: u64 = 2_097_152;

// The mark of names with different prints.
const MANY: u8 = 255;

// The number of the name of n units at `at`.
pub fn hash_name(s: &[u8], at: usize, n: usize) -> u64
    requires { at + 2 * n ≤ length s.now }
    ensures { (result ≡ hash_of (lossy (units n s.now at))) × (result < 2 ^ 32) }
{
    let mut h: u64 = 0;
    for i in 0..n {
        h = (h + lossy_unit(s, at, n, i) % UNITS) * SPREAD % HASHES;
    }
    h
}

// The key of the name of n units at `at`: of its first unit and its last.
pub fn key_name(s: &[u8], at: usize, n: usize) -> u64
    requires { (at + 2 * n ≤ length s.now) × (0 < n) }
    ensures { result ≡ key_of (lossy (units n s.now at)) }
{
    let first = lossy_unit(s, at, n, 0) % UNITS;
    let last = lossy_unit(s, at, n, n - 1) % UNITS;
    first + 31 * last
}

// Sets the mark of a name whose number is h; whether no name of this number came by before.
pub fn mark(marks: &mut [u8], h: u64) -> bool
    requires { (length marks.old ≡ 2048) × (h < 2 ^ 32) }
    ensures { (length marks.new ≡ 2048) × (result ≡ true → Marked marks.old h → ⊥) × Marked marks.new h
        × ((g : ℕ) → Marked marks.old g → Marked marks.new g) }
{
    let i = (h / SHARE) as usize;
    let print = (1 + h % 254) as u8;
    let old = marks[i];
    if old == print {
        return false;
    }
    if old == MANY {
        return false;
    }
    if old == 0 {
        marks[i] = print;
    } else {
        marks[i] = MANY;
    }
    true
}
