// A name in a file compared with one of ASCII bytes.
ghost use Rattle.std.specs.Prelude.{◌≡◌, ◌+◌, ◌*◌, ◌≤◌, ◌<◌, length};
ghost use Rattle.format.specs.Bytes.{same};
ghost use Rattle.format.specs.Text.{units, lossy};
ghost use Rattle.format.specs.Comparison.{compared_with};
ghost use Rattle.format.specs.Grammar.Comparison.{Spans};

use crate::unit::unit_at;
use format::Comparison;

fn wide(x: u8) -> u64
    ensures { (result ≡ x) × (result < 256) }
{
    u64::from(x)
}

// The name of n units at `at` and a name of ASCII bytes compared. A byte is no surrogate and not U+FFFD, so a unit equals it as it stands or not at all.
pub fn compare_ascii(s: &[u8], at: usize, n: usize, name: &[u8]) -> Comparison
    requires { Spans s.now at n (compared_with name.now s.now at n).units }
    ensures { result ≡ compared_with name.now s.now at n }
{
    if name.len() != n {
        return Comparison {
            same: false,
            units: 0,
        };
    }
    let mut i = 0;
    while i < n {
        if wide(name[i]) != unit_at(s, at, i) {
            return Comparison {
                same: false,
                units: i + 1,
            };
        }
        i += 1;
    }
    Comparison {
        same: true,
        units: n,
    }
}

// Whether the name of n units at `at` is this one, of ASCII bytes.
pub fn name_is(s: &[u8], at: usize, n: usize, name: &[u8]) -> bool
    requires { at + 2 * n ≤ length s.now }
    ensures { result ≡ same name.now (lossy (units n s.now at)) }
{
    compare_ascii(s, at, n, name).same
}
