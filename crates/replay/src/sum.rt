// A checksum of numbers and bytes: times 1,000,003 plus each number and 1, modulo the largest prime below 2^32.
ghost use Rattle.std.specs.Prelude.{◌≡◌, ◌^◌, ◌<◌};
ghost use Rattle.replay.specs.Checksum.{folded, checksum, halves, summary_numbers};

use format::Summary;
use number::single_bits;

const PRIME: u64 = 4_294_967_291;

// A number is folded in two halves of 32 bits.
const HALF: u64 = 0x1_0000_0000;

// One more number below 2^32.
#[tactic(auto, unfolding(crate::specs::Checksum::folded))]
fn fold(sum: u64, n: u64) -> u64
    requires { (sum < 2 ^ 32) × (n < 2 ^ 32) }
    ensures { (result ≡ folded sum n) × (result < 2 ^ 32) }
{
    (1_000_003 * sum + n + 1) % PRIME
}

// All bytes of a slice.
#[tactic(auto, using(crate::proofs::Sums::sum_number, crate::proofs::Sums::sum_end))]
pub fn fold_bytes(sum: u64, s: &[u8]) -> u64
    requires { sum < 2 ^ 32 }
    ensures { (result ≡ checksum sum s.now) × (result < 2 ^ 32) }
{
    let mut all = sum;
    for b in s {
        all = fold(all, u64::from(*b));
    }
    all
}

// All numbers of a slice, each as its low and its high half.
#[tactic(auto, using(crate::proofs::Sums::sum_halves, crate::proofs::Sums::halves_end))]
fn fold_numbers(s: &[u64]) -> u64
    ensures { (result ≡ checksum 0 (halves s.now)) × (result < 2 ^ 32) }
{
    let mut all = 0;
    for n in s {
        let low = fold(all, *n % HALF);
        all = fold(low, *n / HALF);
    }
    all
}

// Every number of a summary, in the order of its fields.
pub fn fold_summary(u: Summary) -> u64
    ensures { (result ≡ checksum 0 (halves (summary_numbers u))) × (result < 2 ^ 32) }
{
    let [outer, middle, inner] = u.loops;
    fold_numbers(&[
        u64::from(outer.axis),
        outer.count,
        u64::from(middle.axis),
        middle.count,
        u64::from(inner.axis),
        inner.count,
        u.depth,
        u.width,
        u.stride,
        u.height,
        u.components,
        u.bits,
        u.map.start,
        u.map.len,
        u.calibration,
        u64::from(single_bits(u.x)),
        u64::from(single_bits(u.y)),
        u.class,
        u64::from(single_bits(u.z)),
    ])
}
