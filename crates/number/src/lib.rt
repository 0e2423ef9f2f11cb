// Number conversions, worked out from bits. A pattern is a sign, an exponent's field and the digits below the leading one: 1, 11
// and 52 bits in an f64, 1, 8 and 23 in an f32.
#![tactic(auto)]

ghost use Rattle.std.specs.Prelude.{◌≡◌, ◌&&◌, cond, ℕ, ◌+◌, ◌/◌, ◌%◌, ◌^◌, ◌<◌, ◌≤◌, eqb, pos, negsuc, neg_ℤ};
ghost use Rattle.std.proofs.Math.Option.{some, none};
ghost use Rattle.std.specs.Float.Ieee as Ieee;
ghost use Rattle.std.specs.Float.{binary32, binary64};
ghost use Rattle.std.specs.Float.Ieee.Nearest.{closest};
ghost use Rattle.format.specs.Values.{whole, double};
ghost use Rattle.format.specs.Numbers as Numbers;
ghost use Rattle.format.specs.Calibration as Calibration;
ghost use Rattle.number.specs.Readings.{natural, integer, real};
ghost use Rattle.number.specs.Exact.{Exact, Steps};
ghost use Rattle.number.specs.Patterns.{Nearest, Narrowed};

// An f64's pattern: its sign, the leading digit that is not written, and the infinity, above which the NaNs are.
pub const SIGN: u64 = 0x8000_0000_0000_0000;

pub const LEADING: u64 = 0x10_0000_0000_0000;

const INFINITE: u64 = 0x7ff0_0000_0000_0000;

// The same of an f32.
const SIGN_32: u32 = 0x8000_0000;

const INFINITE_32: u32 = 0x7f80_0000;

// ---- patterns: an f32's functions are written beside an f64's, since a trait over both would be longer than the four bodies

// The f64 of a pattern.
#[tactic(auto, using(crate::proofs::Reading::nan_above, crate::proofs::Reading::no_nan_below))]
pub fn double_of(bits: u64) -> f64
    ensures { result ≡ Ieee.of_bits binary64 bits }
{
    if bits % SIGN > INFINITE {
        f64::NAN
    } else {
        f64::from_bits(bits)
    }
}

// The f32 of a pattern.
#[tactic(auto, using(crate::proofs::Reading::nan_above, crate::proofs::Reading::no_nan_below))]
pub fn single_of(bits: u32) -> f32
    ensures { result ≡ Ieee.of_bits binary32 bits }
{
    if bits % SIGN_32 > INFINITE_32 {
        f32::NAN
    } else {
        f32::from_bits(bits)
    }
}

// The pattern of x; for the NaN, the one with no sign and the highest digit alone.
pub fn double_bits(x: f64) -> u64
    ensures { (Ieee.of_bits binary64 result ≡ x) × (result ≡ Ieee.to_bits binary64 x) }
{
    if x.is_nan() {
        0x7ff8_0000_0000_0000
    } else {
        x.to_bits()
    }
}

// The pattern of x; for the NaN, the one with no sign and the highest digit alone.
pub fn single_bits(x: f32) -> u32
    ensures { (result ≡ Ieee.to_bits binary32 x) × (Ieee.of_bits binary32 result ≡ x) }
{
    if x.is_nan() { 0x7fc0_0000 } else { x.to_bits() }
}

// x without its sign, which is taken off as a bit (docs/DECISIONS.md), where f64::abs compares.
#[tactic(auto, using(crate::proofs::Reading::clears))]
pub fn magnitude(x: f64) -> f64
    ensures { result ≡ Numbers.magnitude x }
{
    double_of(double_bits(x) % SIGN)
}

// ---- to whole numbers

// n / 2^shift, where that leaves nothing over.
fn whole_quotient(n: u64, shift: u64) -> Option<u64>
    requires { shift < 64 }
    ensures { natural result ≡ cond (eqb (n % 2 ^ shift) 0) (some (n / 2 ^ shift)) none }
{
    let whole = n >> shift;
    if whole << shift == n {
        Some(whole)
    } else {
        None
    }
}

// The whole number that a pattern without a sign is. Absent: a fraction, 2^64 and above, an infinity, a NaN.
#[tactic(auto, using(crate::proofs::Whole::patterns))]
fn whole_number(bits: u64) -> Option<u64>
    requires { bits < 0x8000_0000_0000_0000 }
    ensures { natural result ≡ Numbers.unsigned (double (Ieee.of_bits binary64 bits)) }
{
    let exponent = bits / LEADING;
    let digits = LEADING + bits % LEADING;
    if bits == 0 {
        Some(0)
    } else if exponent < 1023 {
        None
    } else if exponent < 1076 {
        whole_quotient(digits, 1075 - exponent)
    } else if exponent < 1087 {
        Some(digits << (exponent - 1075))
    } else {
        None
    }
}

// The unsigned reading: what is below 0 is absent too, and -0 is 0.
#[tactic(auto, using(crate::proofs::Whole::absent_below, crate::proofs::Whole::natural_is))]
pub fn unsigned(x: f64) -> Option<u64>
    ensures { natural result ≡ Numbers.unsigned (double x) }
{
    let bits = double_bits(x);
    if bits > SIGN {
        None
    } else {
        whole_number(bits % SIGN)
    }
}

// The signed reading: absent outside i64.
pub fn signed(x: f64) -> Option<i64>
    ensures { integer result ≡ Numbers.signed (double x) }
{
    let bits = double_bits(x);
    let n = whole_number(bits % SIGN)?;
    if bits < SIGN {
        signed_whole(n)
    } else {
        negated(n)
    }
}

// The signed reading of a whole number: absent from 2^63 on.
#[tactic(auto, unfolding(format::specs::Numbers::signed, format::specs::Values::bind))]
pub fn signed_whole(n: u64) -> Option<i64>
    ensures { integer result ≡ Numbers.signed (whole (pos n)) }
{
    i64::try_from(n).ok()
}

// The signed reading of -1 - n: absent below -2^63.
#[tactic(auto, unfolding(format::specs::Numbers::signed, format::specs::Values::bind))]
pub fn signed_below(n: u64) -> Option<i64>
    ensures { integer result ≡ Numbers.signed (whole (negsuc n)) }
{
    Some(-1 - i64::try_from(n).ok()?)
}

// The signed reading of -n.
#[tactic(auto, unfolding(format::specs::Numbers::signed, format::specs::Values::bind))]
fn negated(n: u64) -> Option<i64>
    ensures { integer result ≡ Numbers.signed (whole (neg_ℤ (pos n))) }
{
    if n == 0 { Some(0) } else { signed_below(n - 1) }
}

// ---- roundings, worked out from bits and not by std::num, so that no setting of the processor counts (docs/TRUST.md)

// q / 2^n to the nearest whole number, a tie to the even one.
#[tactic(auto, using(crate::proofs::Rounding::less, crate::proofs::Rounding::more, crate::proofs::Rounding::neither))]
pub fn rounded(q: u64, n: u64) -> u64
    requires low { 1 ≤ n }
    requires high { n < 63 }
    ensures { result ≡ closest q (2 ^ n) }
{
    let unit: u64 = 1 << n;
    let whole = q >> n;
    let twice = (q & (unit - 1)) * 2;
    if twice < unit {
        whole
    } else if twice > unit {
        whole + 1
    } else {
        whole + whole % 2
    }
}

// The f64 nearest to n, as a pattern.
fn nearest(n: u64) -> u64
    ensures { Nearest n result }
{
    if n == 0 {
        return 0;
    }
    let place = u64::from(n.ilog2());
    if place < 53 {
        (1022 + place) * LEADING + (n << (52 - place))
    } else {
        (1022 + place) * LEADING + rounded(n, place - 52)
    }
}

// The f64 nearest to n.
pub fn of_whole(n: u64) -> f64
    ensures { result ≡ Ieee.of_int binary64 (pos n) }
{
    double_of(nearest(n))
}

// The f64 nearest to -1 - n.
pub fn of_below(n: u64) -> f64
    ensures { result ≡ Ieee.of_int binary64 (negsuc n) }
{
    if n == u64::MAX {
        -18446744073709551616.0
    } else {
        double_of(SIGN + nearest(n + 1))
    }
}

// The f32 nearest to the f64 of an exponent's field and digits, as a pattern.
#[tactic(auto, using(crate::proofs::Narrowing::low_fields, crate::proofs::Narrowing::mid_fields, crate::proofs::Narrowing::over_fields))]
fn narrow_fields(exponent: u64, digits: u64) -> u32
    requires exponent_fits { exponent < 2048 }
    requires digits_fit { digits < 2 ^ 52 }
    ensures { Narrowed exponent digits result }
{
    if exponent == 2047 {
        if digits == 0 {
            0x7f80_0000
        } else {
            0x7fc0_0000
        }
    } else if exponent < 871 {
        0
    } else if exponent < 897 {
        rounded(LEADING + digits, 926 - exponent) as u32
    } else {
        let bits = (exponent - 897) * 0x80_0000 + rounded(LEADING + digits, 29);
        if bits < 0x7f80_0000 {
            bits as u32
        } else {
            0x7f80_0000
        }
    }
}

// The f32 nearest to the f64 of a pattern, as a pattern.
fn narrow_bits(bits: u64) -> u32
    ensures { Ieee.of_bits binary32 result ≡ Numbers.narrow (Ieee.of_bits binary64 bits) }
{
    let rest = narrow_fields(bits % SIGN / LEADING, bits % LEADING);
    if bits < SIGN { rest } else { SIGN_32 + rest }
}

// The f32 nearest to x.
pub fn narrow(x: f64) -> f32
    ensures { result ≡ Numbers.narrow x }
{
    single_of(narrow_bits(double_bits(x)))
}

// ---- sizes

// Above 0.
#[tactic(auto, unfolding(format::specs::Numbers::positive))]
pub fn positive(x: f64) -> bool
    ensures { result ≡ Numbers.positive x }
{
    x > 0.0
}

// A z step as stated, without a minus sign; none where it is 0.
#[tactic(auto, unfolding(format::specs::Calibration::stated_step))]
pub fn stated_step(x: f64) -> Option<f64>
    ensures { real result ≡ Calibration.stated_step (some x) }
{
    if x != 0.0 { Some(magnitude(x)) } else { None }
}

// The z step of a stack of `count` from `low` to `high`: exact where the distance and the step are doubles.
#[tactic(auto, unfolding(format::specs::Calibration::span_step))]
pub fn span_step(count: u64, high: f64, low: f64) -> Option<f64>
    ensures step { real result ≡ Calibration.span_step count (some high) (some low) }
    ensures exact { (step : ℕ) → Exact count high low step → Steps result step }
{
    if count > 1 {
        Some(magnitude(high - low) / (of_whole(count) - 1.0))
    } else {
        None
    }
}

// A positive finite number.
#[tactic(auto, unfolding(format::specs::Numbers::positive))]
fn usable(x: f32) -> bool
    ensures { result ≡ (Numbers.positive x && Numbers.finite x) }
{
    x > 0.0 && x < f32::INFINITY
}

// The class of a z step: 0 not usable, 1 used, 2 smaller than 1e-6, 3 larger than 1e3.
#[tactic(auto, using(crate::proofs::Reading::limits), unfolding(format::specs::Calibration::z_class))]
pub fn z_class(x: f32) -> u64
    ensures { result ≡ Calibration.z_class (some x) }
{
    if usable(x) {
        if x < 0.000001 {
            2
        } else if x > 1000.0 {
            3
        } else {
            1
        }
    } else {
        0
    }
}

// Only class 1 keeps its step.
#[tactic(auto, unfolding(format::specs::Calibration::kept_z))]
pub fn kept_z(class: u64, z: f32) -> f32
    ensures { result ≡ Calibration.kept_z class (some z) }
{
    if class == 1 { z } else { 0.0 }
}
