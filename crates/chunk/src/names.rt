// Bytes compared with a name: the last first, since the names of a map differ at their ends.
ghost use Rattle.std.specs.Prelude.{◌≡◌, false, ◌+◌, ◌≤◌, length};
ghost use Rattle.format.specs.Bytes.{part, same, begins};
ghost use Rattle.format.specs.Map.{end_mark};
ghost use Rattle.chunk.specs.Alike.{Alike, Foreign, Tells};

use cursor::{le, same_bytes};

// Whether the first n bytes of e stand in s from `at` on.
fn same_head(s: &[u8], at: usize, e: &[u8], n: usize) -> bool
    requires { (at + n ≤ length s.now) × (n ≤ length e.now) }
    ensures { Tells result (Alike s.now at e.now 0 n) }
{
    let mut i = n;
    while 0 < i {
        i -= 1;
        if s[at + i] != e[i] {
            return false;
        }
    }
    true
}

// Whether the bytes of e stand in s from `at` on: by 16, and the first 16 once more for what is left; a short e byte by byte.
pub fn same_at(s: &[u8], at: usize, e: &[u8]) -> bool
    requires { at + length e.now ≤ length s.now }
    ensures { result ≡ same (part s.now at (length e.now)) e.now }
{
    let mut i = e.len();
    while 16 <= i {
        i -= 16;
        if !same_bytes::<16>(s, at + i, e, i) {
            return false;
        }
    }
    if 16 <= e.len() {
        return same_bytes::<16>(s, at, e, 0);
    }
    same_head(s, at, e, i)
}

// Whether the n bytes of s from `at` on begin with those of e.
pub fn begins_at(s: &[u8], at: usize, n: usize, e: &[u8]) -> bool
    requires { at + n ≤ length s.now }
    ensures { result ≡ begins e.now (part s.now at n) }
{
    if n < e.len() {
        return false;
    }
    same_at(s, at, e)
}

// Whether e may stand in s from `at` on: there is room for it, and its last eight bytes stand there.
fn may_be_at(s: &[u8], at: usize, e: &[u8]) -> bool
    requires { at ≤ length s.now }
    ensures { result ≡ false → Foreign s.now at e.now }
{
    if s.len() - at < e.len() {
        return false;
    }
    if e.len() < 8 {
        return true;
    }
    let i = e.len() - 8;
    le::<8>(s, at + i) == le::<8>(e, i)
}

// Whether the n bytes of s from `at` on are those of e, compared as a whole.
fn equals_at(s: &[u8], at: usize, n: usize, e: &[u8]) -> bool
    requires { at + n ≤ length s.now }
    ensures { result ≡ same (part s.now at n) e.now }
{
    if n != e.len() {
        return false;
    }
    same_at(s, at, e)
}

// Whether the n bytes of s from `at` on are those of e: first by what tells most names apart without n.
pub fn is_at(s: &[u8], at: usize, n: usize, e: &[u8]) -> bool
    requires { at + n ≤ length s.now }
    ensures { result ≡ same (part s.now at n) e.now }
{
    if !may_be_at(s, at, e) {
        return false;
    }
    equals_at(s, at, n, e)
}

// Whether the locator's mark stands in s from `at` on, which is the end mark's name too: eight bytes at a time, as numbers.
fn end_at(s: &[u8], at: usize) -> bool
    requires { at + 32 ≤ length s.now }
    ensures { result ≡ same (part s.now at 32) end_mark }
{
    let a = le::<8>(s, at) == 0x4E55_4843_2032_444E; // ND2 CHUN
    let b = le::<8>(s, at + 8) == 0x4953_2050_414D_204B; // K MAP SI
    let c = le::<8>(s, at + 16) == 0x2045_5255_5441_4E47; // GNATURE, a space
    let d = le::<8>(s, at + 24) == 0x2131_3030_3030_3030; // 0000001!
    a & b & c & d
}

// Whether the n bytes of s from `at` on are that mark.
pub fn is_end(s: &[u8], at: usize, n: usize) -> bool
    requires { at + n ≤ length s.now }
    ensures { result ≡ same (part s.now at n) end_mark }
{
    if n != 32 {
        return false;
    }
    end_at(s, at)
}
