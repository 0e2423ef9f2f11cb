// The frame that a name in the map is of.
ghost use Rattle.std.specs.Prelude.{◌≡◌, ◌≤◌, ◌<◌, length, take};
ghost use Rattle.format.specs.Bytes.{same, ascii};
ghost use Rattle.register.specs.Naming.{Digit, Spells, Names};

use cursor::same_bytes;

// The number that a decimal digit stands for.
fn digit(b: u8) -> Option<u64>
    ensures { Digit b result }
{
    match b {
        b'0'..=b'9' => Some(u64::from(b - b'0')),
        _ => None,
    }
}

// The number below 2^64 of which these are the decimal digits, with no zero in front.
fn number_of(digits: &[u8]) -> Option<u64>
    requires { 0 < length digits.now }
    ensures { Spells digits.now result }
{
    if digits[0] == b'0' && 1 < digits.len() {
        return None;
    }
    let mut k: u64 = 0;
    for b in digits {
        let d = digit(*b)?;
        k = k.checked_mul(10)?.checked_add(d)?;
    }
    Some(k)
}

// Whether a name begins with the 13 bytes of every frame's name: the last 8 of them are compared, then the first 8.
fn begun(name: &[u8]) -> bool
    requires { 13 ≤ length name.now }
    ensures { result ≡ same (take 13 name.now) (ascii "ImageDataSeq|") }
{
    let e = b"ImageDataSeq|";
    same_bytes::<8>(name, 5, e, 5) && same_bytes::<8>(name, 0, e, 0)
}

// The frame that a name is of.
pub fn frame_number(name: &[u8]) -> Option<u64>
    ensures { Names name.now result }
{
    let n = name.len();
    if n < 15 || !begun(name) || name[n - 1] != b'!' {
        return None;
    }
    number_of(&name[13..n - 1])
}
