// Prints what is made of names in UTF-16: their units with each lone surrogate replaced, which of two names are the same, which are an
// ASCII name, and how many units were compared to tell. second/names.py prints the same lines from the Unicode standard.
#![tactic(auto)]

ghost use Rattle.std.specs.Prelude.{◌+◌, ◌*◌, ◌≤◌, ◌<◌, length};

use cursor::le;
use format::Comparison;
use name::ascii::compare_ascii;
use name::compare_names;
use name::unit::lossy_unit;
use std::io;
use std::io::Write;

fn put(out: &mut impl Write, text: &[u8]) -> io::Result<()> {
    out.write_all(text)
}

fn put_unit(out: &mut impl Write, u: u64) -> io::Result<()> {
    put(out, b" ")?;
    write!(out, "{u:04x}")
}

// The n units at `at` as they stand.
fn put_units(out: &mut impl Write, s: &[u8], at: usize, n: usize) -> io::Result<()>
    requires { at + 2 * n ≤ length s.now }
{
    let mut i = 0;
    while i < n {
        put_unit(out, le::<2>(s, at + 2 * i))?;
        i += 1;
    }
    Ok(())
}

// The n units at `at` with each lone surrogate replaced.
fn put_lossy(out: &mut impl Write, s: &[u8], at: usize, n: usize) -> io::Result<()>
    requires { at + 2 * n ≤ length s.now }
{
    let mut i = 0;
    while i < n {
        put_unit(out, lossy_unit(s, at, n, i))?;
        i += 1;
    }
    Ok(())
}

fn put_answer(out: &mut impl Write, c: Comparison) -> io::Result<()> {
    if c.same {
        put(out, b" yes after ")?;
    } else {
        put(out, b" no after ")?;
    }
    let units = c.units;
    write!(out, "{units}")?;
    put(out, b"\n")
}

// A line for the name of n units at `at`.
fn show(out: &mut impl Write, s: &[u8], at: usize, n: usize) -> io::Result<()>
    requires { at + 2 * n ≤ length s.now }
{
    put(out, b"units")?;
    put_units(out, s, at, n)?;
    put(out, b" lossy")?;
    put_lossy(out, s, at, n)?;
    put(out, b"\n")
}

// A line for a name that fills the slice.
fn show_all(out: &mut impl Write, s: &[u8]) -> io::Result<()> {
    let n = s.len() / 2;
    show(out, s, 0, n)
}

// A line for two names: whether the first n units and the ones after them are the same name.
fn pair(out: &mut impl Write, s: &[u8], n: usize) -> io::Result<()>
    requires { 2 * n ≤ length s.now }
{
    let at = 2 * n;
    let rest = (s.len() - at) / 2;
    put(out, b"first")?;
    put_units(out, s, 0, n)?;
    put(out, b" second")?;
    put_units(out, s, at, rest)?;
    put(out, b" same")?;
    put_answer(out, compare_names(s, 0, n, at, rest))
}

// A line for a name that fills the slice and an ASCII name.
fn ask(out: &mut impl Write, s: &[u8], name: &[u8]) -> io::Result<()> {
    let n = s.len() / 2;
    put(out, b"units")?;
    put_units(out, s, 0, n)?;
    put(out, b" is '")?;
    put(out, name)?;
    put(out, b"'")?;
    put_answer(out, compare_ascii(s, 0, n, name))
}

// Names with no lone surrogate.
fn whole(out: &mut impl Write) -> io::Result<()> {
    show_all(out, b"")?;
    show_all(out, b"a\0")?;
    show_all(out, b"\0\0")?;
    show_all(out, b"a\0\0\0b\0")?;
    show_all(out, b"\x3D\xD8\x00\xDE")?;
    show_all(out, b"\x3D\xD8\x00\xDE\x3D\xD8\x01\xDE")?;
    show_all(out, b"a\0\x3D\xD8\x00\xDEb\0")?;
    show_all(out, b"\xFD\xFF")?;
    show_all(out, b"\xFF\xFE\xFE\xFF\xFF\xFF")
}

// Names with lone surrogates: at both ends, in the middle, side by side.
fn lone(out: &mut impl Write) -> io::Result<()> {
    show_all(out, b"\x3D\xD8")?;
    show_all(out, b"\x00\xDE")?;
    show_all(out, b"\x3D\xD8a\0")?;
    show_all(out, b"\x00\xDEa\0")?;
    show_all(out, b"a\0\x3D\xD8")?;
    show_all(out, b"a\0\x00\xDE")?;
    show_all(out, b"a\0\x3D\xD8b\0")?;
    show_all(out, b"a\0\x00\xDEb\0")?;
    show_all(out, b"\x3D\xD8\0\0")?;
    show_all(out, b"\0\0\x00\xDE")?;
    show_all(out, b"\x3D\xD8\x3D\xD8")?;
    show_all(out, b"\x00\xDE\x00\xDE")?;
    show_all(out, b"\x00\xDE\x3D\xD8")?;
    show_all(out, b"\x3D\xD8\x3D\xD8\x00\xDE")?;
    show_all(out, b"\x3D\xD8\x00\xDE\x00\xDE")?;
    show_all(out, b"\x00\xDE\x3D\xD8\x00\xDE\x3D\xD8")
}

// Names within more bytes: what stands around a name is no partner.
fn within(out: &mut impl Write) -> io::Result<()> {
    show(out, b"\x3D\xD8\x00\xDE", 0, 1)?;
    show(out, b"\x3D\xD8\x00\xDE", 2, 1)?;
    show(out, b"\x3D\xD8\x3D\xD8\x00\xDE\x00\xDE", 2, 2)?;
    show(out, b"!a\0\x3D\xD8\x00\xDE!", 1, 3)?;
    show(out, b"a\0", 2, 0)
}

// Three units, by their numbers in 0000 d7ff d800 dbff dc00 dfff e000 fffd: the edges of each kind, and what replaces.
fn three(out: &mut impl Write, i: usize, j: usize, k: usize) -> io::Result<()>
    requires { (i < 8) × (j < 8) × (k < 8) }
{
    let edges = b"\x00\x00\xFF\xD7\x00\xD8\xFF\xDB\x00\xDC\xFF\xDF\x00\xE0\xFD\xFF";
    let s = [
        edges[2 * i],
        edges[2 * i + 1],
        edges[2 * j],
        edges[2 * j + 1],
        edges[2 * k],
        edges[2 * k + 1],
    ];
    show_all(out, &s)
}

// Every list of three of them.
fn threes(out: &mut impl Write) -> io::Result<()> {
    let mut m: usize = 0;
    while m < 512 {
        three(out, m / 64, m / 8 % 8, m % 8)?;
        m += 1;
    }
    Ok(())
}

// Two names of two units, by their numbers in d800 dc00 e000 fffd: each kind, and what replaces.
fn two_and_two(out: &mut impl Write, i: usize, j: usize, k: usize, l: usize) -> io::Result<()>
    requires { (i < 4) × (j < 4) × (k < 4) × (l < 4) }
{
    let kinds = b"\x00\xD8\x00\xDC\x00\xE0\xFD\xFF";
    let s = [
        kinds[2 * i],
        kinds[2 * i + 1],
        kinds[2 * j],
        kinds[2 * j + 1],
        kinds[2 * k],
        kinds[2 * k + 1],
        kinds[2 * l],
        kinds[2 * l + 1],
    ];
    pair(out, &s, 2)
}

// Every two of them.
fn twos(out: &mut impl Write) -> io::Result<()> {
    let mut m: usize = 0;
    while m < 256 {
        two_and_two(out, m / 64, m / 16 % 4, m / 4 % 4, m % 4)?;
        m += 1;
    }
    Ok(())
}

// Names that are the same, and names that differ.
fn pairs(out: &mut impl Write) -> io::Result<()> {
    pair(out, b"", 0)?;
    pair(out, b"\0\0", 0)?;
    pair(out, b"a\0b\0a\0b\0", 2)?;
    pair(out, b"a\0b\0a\0c\0", 2)?;
    pair(out, b"a\0a\0b\0", 1)?;
    pair(out, b"a\0b\0a\0", 2)?;
    pair(out, b"a\0\0\0b\0a\0\0\0b\0", 3)?;
    pair(out, b"a\0\0\0b\0a\0", 3)?;
    pair(out, b"a\0a\x01", 1)?;
    pair(out, b"a\0A\0", 1)?;
    pair(out, b"u\0i\0W\0i\0d\0t\0h\0u\0i\0W\0i\0d\0t\0h\0", 7)?;
    pair(out, b"u\0i\0W\0i\0d\0t\0h\0u\0i\0C\0o\0u\0n\0t\0", 7)?;
    pair(out, b"u\0i\0W\0i\0d\0t\0h\0u\0i\0W\0i\0d\0t\0s\0", 7)?;
    pair(out, b"u\0i\0W\0i\0d\0t\0h\0u\0i\0C\0o\0m\0p\0", 7)
}

// The same of names with surrogates.
fn lone_pairs(out: &mut impl Write) -> io::Result<()> {
    pair(out, b"\x3D\xD8\xFD\xFF", 1)?;
    pair(out, b"\xFD\xFF\x00\xDE", 1)?;
    pair(out, b"\x3D\xD8\x00\xD8", 1)?;
    pair(out, b"\x3D\xD8\x00\xDE", 1)?;
    pair(out, b"\x00\xDE\x3D\xD8\xFD\xFF\xFD\xFF", 2)?;
    pair(out, b"\x3D\xD8\x00\xDE\xFD\xFF\xFD\xFF", 2)?;
    pair(out, b"\x3D\xD8\x00\xDE\xFD\xFF", 2)?;
    pair(out, b"\x3D\xD8\x00\xDE\x3D\xD8\x00\xDE", 2)?;
    pair(out, b"\x3D\xD8\x00\xDE\x3D\xD8\x01\xDE", 2)?;
    pair(out, b"\x3D\xD8\x00\xDE\x3C\xD8\x00\xDE", 2)?;
    pair(out, b"a\0\x3D\xD8a\0\x00\xDC", 2)?;
    pair(out, b"a\0\x3D\xD8a\0b\0", 2)?;
    pair(out, b"\x3D\xD8\x3D\xD8\x00\xDE\xFD\xFF\x3D\xD8\x00\xDE", 3)?;
    pair(out, b"a\0\x3D\xD8\x00\xDEa\0\x3D\xD8\x01\xDE", 3)?;
    pair(out, b"a\0\x3D\xD8\x00\xDEa\0\x3D\xD8b\0", 3)
}

// Names and ASCII names.
fn ascii(out: &mut impl Write) -> io::Result<()> {
    ask(out, b"", b"")?;
    ask(out, b"", b"a")?;
    ask(out, b"a\0", b"")?;
    ask(out, b"a\0", b"a")?;
    ask(out, b"u\0i\0C\0o\0m\0p\0", b"uiComp")?;
    ask(out, b"u\0i\0C\0o\0m\0p\0", b"uiComq")?;
    ask(out, b"u\0i\0C\0o\0m\0p\0", b"UICOMP")?;
    ask(out, b"u\0i\0C\0o\0m\0p\0", b"uiCom")?;
    ask(out, b"u\0i\0C\0o\0m\0", b"uiComp")?;
    ask(out, b"a\0\0\0", b"a")?;
    ask(out, b"a\0\0\0b\0", b"a")?;
    ask(out, b"a\x01", b"a")?;
    ask(out, b"\x3D\xD8", b"=")?;
    ask(out, b"\x3D\xD8", b"?")?;
    ask(out, b"a\0\x00\xDE", b"a")?;
    ask(out, b"\xFD\xFF", b"?")
}

fn main(rt: HostRuntime) -> io::Result<()> {
    let mut out = rt.stdout();
    whole(&mut out)?;
    lone(&mut out)?;
    within(&mut out)?;
    threes(&mut out)?;
    twos(&mut out)?;
    pairs(&mut out)?;
    lone_pairs(&mut out)?;
    ascii(&mut out)
}
