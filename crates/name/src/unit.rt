// One unit of a UTF-16 name, U+FFFD where it is a lone surrogate.
ghost use Rattle.std.specs.Prelude.{◌≡◌, cond, ◌+◌, ◌*◌, ◌<◌, ◌≤◌, ◌∷◌, length, get_or};
ghost use Rattle.format.specs.Bytes.{le_at};
ghost use Rattle.format.specs.Text.{units, high_surrogate, low_surrogate, lossy};
ghost use Rattle.format.specs.Grammar.Comparison.{Reaches};

use cursor::le;

fn high_surrogate(u: u64) -> bool
    ensures { result ≡ high_surrogate u }
{
    (0xD800 <= u) & (u < 0xDC00)
}

fn low_surrogate(u: u64) -> bool
    ensures { result ≡ low_surrogate u }
{
    (0xDC00 <= u) & (u < 0xE000)
}

// Unit i of the name at `at`, as it stands in the file.
pub fn unit_at(s: &[u8], at: usize, i: usize) -> u64
    requires { at + 2 * i + 2 ≤ length s.now }
    ensures { result ≡ le_at 2 s.now (at + 2 * i) }
{
    le::<2>(s, at + 2 * i)
}

// The unit before unit i of the n at `at`, and 0 before the first.
fn unit_before(s: &[u8], at: usize, n: usize, i: usize) -> u64
    requires { (at + 2 * i ≤ length s.now) × (i < n) }
    ensures { result ≡ get_or (0 ∷ units n s.now at) i 0 }
{
    if i == 0 { 0 } else { unit_at(s, at, i - 1) }
}

// The unit after unit i of the n at `at`, and 0 after the last.
fn unit_after(s: &[u8], at: usize, n: usize, i: usize) -> u64
    requires { (i < n) × (i + 1 < n → at + 2 * i + 4 ≤ length s.now) }
    ensures { result ≡ get_or (units n s.now at) (i + 1) 0 }
{
    if i + 1 < n { unit_at(s, at, i + 1) } else { 0 }
}

// Whether unit i of the name, the surrogate u, stands beside its partner: a high one looks ahead for it, a low one behind.
fn paired(s: &[u8], at: usize, n: usize, i: usize, u: u64) -> bool
    requires { (i < n) × Reaches s.now at n (i + 1) × (u ≡ le_at 2 s.now (at + 2 * i)) × (0xD800 ≤ u) × (u < 0xE000) }
    ensures { cond result u 0xFFFD ≡ get_or (lossy (units n s.now at)) i 0 }
{
    if u < 0xDC00 {
        low_surrogate(unit_after(s, at, n, i))
    } else {
        high_surrogate(unit_before(s, at, n, i))
    }
}

// Unit i of the name of n units at `at`, U+FFFD where it is a lone surrogate. Only a surrogate's neighbours are looked at.
pub fn lossy_unit(s: &[u8], at: usize, n: usize, i: usize) -> u64
    requires { (i < n) × Reaches s.now at n (i + 1) }
    ensures { result ≡ get_or (lossy (units n s.now at)) i 0 }
{
    let u = unit_at(s, at, i);
    if (u < 0xD800) | (0xE000 <= u) {
        return u;
    }
    if paired(s, at, n, i, u) { u } else { 0xFFFD }
}
