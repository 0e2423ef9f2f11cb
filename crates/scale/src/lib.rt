// Micrometres in whole picometres (change request 5), worked out from bits in two halves of 64: a double is never multiplied or divided.
#![tactic(auto)]

ghost use Rattle.std.specs.Prelude.{◌≡◌, ◌*◌, ◌^◌, ◌≤◌, ◌<◌, pos};
ghost use Rattle.std.specs.Float.Ieee.Nearest.{closest};
ghost use Rattle.format.specs.Numbers.{in_u64};
ghost use Rattle.format.specs.Picometres as Picometres;
ghost use Rattle.number.specs.Readings.{natural};
ghost use Rattle.scale.specs.Halves.{wide};

use number::{LEADING, SIGN, double_bits, rounded};

// A number of two halves: high * 2^64 + low.
#[derive(Clone, Copy)]
pub struct Wide {
    pub high: u64,
    pub low: u64,
}

// So many picometres are a micrometre.
const MICROMETRE: u64 = 1_000_000;

// A u64 is two words of 32 bits.
const WORD: u64 = 0x1_0000_0000;

// ---- two halves

// digits * 1,000,000, word by word.
fn product(digits: u64) -> Wide
    ensures { wide result ≡ digits * 1_000_000 }
{
    let upper = digits / WORD * MICROMETRE;
    let lower = digits % WORD * MICROMETRE;
    let middle = upper + lower / WORD;
    Wide {
        high: middle / WORD,
        low: middle % WORD * WORD + lower % WORD,
    }
}

// The whole number nearest to w / 2^n, a tie to the even one, where the point lies in the low half. Absent: 2^64 and above.
#[tactic(auto, using(crate::proofs::Halves::low_over, crate::proofs::Halves::low_sum))]
fn point_in_low(w: Wide, n: u64) -> Option<u64>
    requires low { 1 ≤ n }
    requires high { n < 63 }
    ensures { natural result ≡ in_u64 (pos (closest (wide w) (2 ^ n))) }
{
    if w.high >> n != 0 {
        return None;
    }
    let front = w.high << (64 - n);
    front.checked_add(rounded(w.low, n))
}

// The same where it lies in the high half: of the lowest word it counts only whether it is 0.
#[tactic(auto, using(crate::proofs::Halves::high_point, crate::proofs::Halves::high_point_more))]
fn point_in_high(w: Wide, n: u64) -> u64
    requires small { w.high < 2 ^ 30 }
    requires low { 34 ≤ n }
    requires high { n < 94 }
    ensures { result ≡ closest (wide w) (2 ^ n) }
{
    let front = w.high * WORD + w.low / WORD;
    if w.low % WORD == 0 {
        rounded(front * 2, n - 31)
    } else {
        rounded(front * 2 + 1, n - 31)
    }
}

// ---- a double

// digits / 2^n micrometres. From 74 on they are less than half a picometre.
#[tactic(auto, using(crate::proofs::Halves::tiny, format::proofs::Numbers::Wholes::below_u64))]
fn scaled(digits: u64, n: u64) -> Option<u64>
    requires small { digits < 2 ^ 53 }
    requires low { 1 ≤ n }
    ensures { natural result ≡ in_u64 (pos (closest (digits * 1_000_000) (2 ^ n))) }
{
    if n > 73 {
        return Some(0);
    }
    let w = product(digits);
    if n < 63 {
        point_in_low(w, n)
    } else {
        Some(point_in_high(w, n))
    }
}

// The picometres that x micrometres are, without its sign. Absent: 2^64 and above, an infinity, a NaN.
#[tactic(auto, using(crate::proofs::Pattern::low_pattern, crate::proofs::Pattern::mid_pattern, crate::proofs::Pattern::high_pattern))]
pub fn picometres(x: f64) -> Option<u64>
    ensures { natural result ≡ Picometres.picometres x }
{
    let bits = double_bits(x) % SIGN;
    let exponent = bits / LEADING;
    let digits = bits % LEADING;
    if exponent == 0 {
        scaled(digits, 1074)
    } else if exponent < 1075 {
        scaled(LEADING + digits, 1075 - exponent)
    } else {
        None
    }
}
