// Little-endian numbers in lent bytes, read and written, and the by-value cursor: a place in a slice and the end of the part that is read.
#![tactic(auto)]

ghost use Rattle.std.specs.Prelude.{◌≡◌, ◌+◌, ◌^◌, ◌≤◌, ◌<◌, true, false, length};
ghost use Rattle.std.proofs.lemmas.List.Edits.{sets};
ghost use Rattle.format.specs.Bytes.{le_at, le_bytes, zeros};
ghost use Rattle.cursor.specs.Words.{Within, word_of, word_at, GoodWord, SameBytes};

use format::refusal::Refusal;

pub mod record; // a record's head, its value, a level's header

// The number in the N bytes at `at`.
pub fn le<const N: usize>(s: &[u8], at: usize) -> u64
    requires { (N ≤ 8) × (at + N ≤ length s.now) }
    ensures { (result ≡ le_at N s.now at) × (result < 256 ^ N) }
{
    let mut v = 0;
    for i in (0..N).rev() {
        v = 256 * v + u64::from(s[at + i]);
    }
    v
}

// Stores the N low bytes of v in the N bytes at `at`.
#[tactic(auto, unfolding(format::specs::Bytes::le_bytes))]
pub fn put<const N: usize>(d: &mut [u8], at: usize, v: u64)
    requires { at + N ≤ length d.old }
    ensures { d.new ≡ sets d.old at (le_bytes N v) }
{
    let mut rest = v;
    for i in 0..N {
        d[at + i] = (rest % 256) as u8;
        rest /= 256;
    }
}

// Makes every byte zero.
#[tactic(auto, unfolding(format::specs::Bytes::zeros))]
pub fn clear(d: &mut [u8])
    ensures { d.new ≡ zeros (length d.old) }
{
    d.fill(0);
}

// Whether the N bytes of a from `at` on and those of b from `from` on are the same, with no branch for each.
pub fn same_bytes<const N: usize>(a: &[u8], at: usize, b: &[u8], from: usize) -> bool
    requires { (at + N ≤ length a.now) × (from + N ≤ length b.now) }
    ensures yes { result ≡ true → SameBytes a.now at b.now from N }
    ensures no { result ≡ false → SameBytes a.now at b.now from N → ⊥ }
{
    let mut same = true;
    for i in 0..N {
        same &= a[at + i] == b[from + i];
    }
    same
}

// A place in a slice, and the end of the part that is read.
#[derive(Clone, Copy)]
pub struct Cursor {
    pub at: usize,
    pub end: usize,
}

impl Cursor {
    // A number of N bytes, with the cursor after it; cut where fewer are left.
    #[tactic(auto, unfolding(crate::specs::Words::word_at))]
    pub fn read<const N: usize>(self, s: &[u8]) -> Result<(u64, Cursor), Refusal>
        requires { (N ≤ 8) × Within self s.now }
        ensures { (word_of result ≡ word_at N s.now self) × GoodWord s.now self N result }
    {
        let at = self.at;
        let end = self.end;
        if end - at < N {
            return Err(Refusal::Cut);
        }
        Ok((le::<N>(s, at), Cursor { at: at + N, end }))
    }
}
