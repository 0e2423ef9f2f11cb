// UTF-16 names in a file compared, a lone surrogate as U+FFFD. A comparison goes no further than to the first difference and says how many units it took;
// names of unequal lengths are told apart with none.
#![tactic(auto)]

ghost use Rattle.std.specs.Prelude.{◌≡◌, ℕ, ◌+◌, ◌-◌, ◌*◌, ◌≤◌, ◌<◌, true, eqb, length, get_or};
ghost use Rattle.format.specs.Bytes.{le_at, same};
ghost use Rattle.format.specs.Text.{units, lossy};
ghost use Rattle.format.specs.Comparison.{compared_in};
ghost use Rattle.format.specs.Grammar.Comparison.{Reaches};

use format::Comparison;
use unit::{lossy_unit, unit_at};

pub mod ascii;
pub mod unit;

// Whether unit i of both names is the same, each lone surrogate replaced. One below the surrogates is itself, and nothing else becomes it.
fn same_unit(s: &[u8], at: usize, n: usize, from: usize, m: usize, i: usize) -> bool
    requires { (i < n) × (i < m) × Reaches s.now at n (i + 1) × Reaches s.now from m (i + 1) }
    ensures { result ≡ eqb (get_or (lossy (units n s.now at)) i 0) (get_or (lossy (units m s.now from)) i 0) }
{
    let u = unit_at(s, at, i);
    if u < 0xD800 {
        return u == unit_at(s, from, i);
    }
    lossy_unit(s, at, n, i) == lossy_unit(s, from, m, i)
}

// The name of n units at `at` and the one of m units at `from` compared.
pub fn compare_names(s: &[u8], at: usize, n: usize, from: usize, m: usize) -> Comparison
    requires { Reaches s.now at n (compared_in s.now at n from m).units × Reaches s.now from m (compared_in s.now at n from m).units }
    ensures { result ≡ compared_in s.now at n from m }
{
    if n != m {
        return Comparison {
            same: false,
            units: 0,
        };
    }
    let mut i = 0;
    while i < n {
        if !same_unit(s, at, n, from, m, i) {
            return Comparison {
                same: false,
                units: i + 1,
            };
        }
        i += 1;
    }
    Comparison {
        same: true,
        units: n,
    }
}

// Whether the 16 bytes at a and at b are the same, with no branch for each.
fn same16(s: &[u8], a: usize, b: usize) -> bool
    requires { (a + 16 ≤ length s.now) × (b + 16 ≤ length s.now) }
    ensures { result ≡ true → (k : ℕ) → k < 16 → get_or s.now (a + k) 0 ≡ get_or s.now (b + k) 0 }
{
    let mut same = true;
    let mut j = 0;
    while j < 16 {
        same = same & (s[a + j] == s[b + j]);
        j += 1;
    }
    same
}

// How many units two names of n units begin with alike as they stand, counted by 8: those after may be alike too.
fn common(s: &[u8], at: usize, from: usize, n: usize) -> usize
    requires { (at + 2 * n ≤ length s.now) × (from + 2 * n ≤ length s.now) }
    ensures { (result ≤ n) × ((k : ℕ) → k < result → le_at 2 s.now (at + 2 * k) ≡ le_at 2 s.now (from + 2 * k)) }
{
    let mut i = 0;
    while 8 <= n - i {
        if !same16(s, at + 2 * i, from + 2 * i) {
            return i;
        }
        i += 8;
    }
    i
}

// The unit before unit c, and the first where there is none.
fn one_before(c: usize) -> usize
    ensures { result ≡ c - 1 }
{
    if c == 0 { 0 } else { c - 1 }
}

// Whether two names of n units are the same, each lone surrogate replaced, where the units before the first one to compare are.
fn same_from(s: &[u8], at: usize, n: usize, from: usize, first: usize) -> bool
    requires { (at + 2 * n ≤ length s.now) × (from + 2 * n ≤ length s.now) × (first ≤ n)
        × ((k : ℕ) → k < first → get_or (lossy (units n s.now at)) k 0 ≡ get_or (lossy (units n s.now from)) k 0) }
    ensures { result ≡ same (lossy (units n s.now at)) (lossy (units n s.now from)) }
{
    let mut i = first;
    while i < n {
        if !same_unit(s, at, n, from, n, i) {
            return false;
        }
        i += 1;
    }
    true
}

// Whether the name of n units at `at` and the one of m units at `from` are the same. The first unit tells most apart; of others surrogates are looked at
// only from the last of the units that stand alike: it may be half of a pair.
pub fn same_name(s: &[u8], at: usize, n: usize, from: usize, m: usize) -> bool
    requires { (at + 2 * n ≤ length s.now) × (from + 2 * m ≤ length s.now) }
    ensures { result ≡ same (lossy (units n s.now at)) (lossy (units m s.now from)) }
{
    if m != n {
        return false;
    }
    if n == 0 {
        return true;
    }
    let u = unit_at(s, at, 0);
    if (u < 0xD800) & (u != unit_at(s, from, 0)) {
        return false;
    }
    let c = common(s, at, from, n);
    same_from(s, at, n, from, one_before(c))
}
