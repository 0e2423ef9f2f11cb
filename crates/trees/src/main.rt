// Trees of document 01's edges, and odd ones: for each its name, the number that it ends with (0 where it is whole), and its entries.
#![tactic(auto)]

ghost use Rattle.std.specs.Prelude.{◌+◌, ◌*◌, ◌^◌, ◌≤◌, ◌<◌, length};

use cursor::{le, put};
use std::io;
use std::io::Write;
use tree::{ENTRY_BYTES, parse_clx_variant};

// The numbers of the entry at `at`, on a line.
fn show_entry(out: &mut impl Write, table: &[u8], at: usize) -> io::Result<()>
    requires { at + 48 ≤ length table.now }
{
    let first = le::<8>(table, at);
    write!(out, "{first}")?;
    for i in 1..6 {
        let next = le::<8>(table, at + 8 * i);
        write!(out, " {next}")?;
    }
    out.write_all(b"\n")
}

// The first n entries of a table.
fn show_entries(out: &mut impl Write, table: &[u8], n: usize) -> io::Result<()>
    requires { 48 * n ≤ length table.now }
{
    for i in 0..n {
        show_entry(out, table, ENTRY_BYTES * i)?;
    }
    Ok(())
}

// A tree, read into a table.
fn show_in(
    out: &mut impl Write,
    name: &[u8],
    bytes: &[u8],
    base: u64,
    table: &mut [u8],
) -> io::Result<()>
    requires { base + length bytes.now < 2 ^ 64 }
{
    out.write_all(name)?;
    out.write_all(b": ")?;
    match parse_clx_variant(bytes, base, table) {
        Ok(n) => {
            out.write_all(b"0\n")?;
            show_entries(out, table, n)
        }
        Err(e) => writeln!(out, "{}", e.number()),
    }
}

// A tree that begins at the file position `base`, read into a table of `size` bytes, of at most 4,096.
fn show(out: &mut impl Write, name: &[u8], bytes: &[u8], base: u32, size: usize) -> io::Result<()> {
    if 4096 < size {
        return Ok(());
    }
    if 65536 < bytes.len() {
        return Ok(());
    }
    let mut table = [0u8; 4096];
    show_in(out, name, bytes, u64::from(base), &mut table[..size])
}

// The document's own edges.
fn edges(out: &mut impl Write) -> io::Result<()> {
    show(
        out,
        b"number",
        b"\x03\x02a\x00\x00\x00\x05\x00\x00\x00",
        100,
        4096,
    )?;
    show(
        out,
        b"number cut",
        b"\x03\x02a\x00\x00\x00\x05\x00\x00",
        100,
        4096,
    )?;
    show(
        out,
        b"level",
        b"\x0b\x00\x01\x00\x00\x00\x11\x00\x00\x00\x00\x00\x00\x00\x01\x00\x01\x00\x00\x00\x00\x00\x00\x00\x00",
        0,
        4096,
    )?;
    show(
        out,
        b"level of length 13",
        b"\x0b\x00\x01\x00\x00\x00\x0d\x00\x00\x00\x00\x00\x00\x00\x01\x00\x01\x00\x00\x00\x00\x00\x00\x00\x00",
        0,
        4096,
    )
}

// Too few bytes for a record, and values of a fixed size.
fn fixed(out: &mut impl Write) -> io::Result<()> {
    show(out, b"empty", b"", 0, 4096)?;
    show(out, b"one byte", b"\x03", 0, 4096)?;
    show(out, b"two bytes", b"\x01\x00", 0, 4096)?;
    show(
        out,
        b"every fixed size",
        b"\x0b\x00\x07\x00\x00\x00E\x00\x00\x00\x00\x00\x00\x00\
          \x01\x00\x00\x02\x00\x00\x00\x00\x00\x03\x00\x00\x00\x00\x00\
          \x04\x00\x00\x00\x00\x00\x00\x00\x00\x00\x05\x00\x00\x00\x00\x00\x00\x00\x00\x00\
          \x06\x00\x00\x00\x00\x00\x00\x00\x00\x00\x07\x00\x00\x00\x00\x00\x00\x00\x00\x00\
          \x00\x00\x00\x00\x00\x00\x00\x00\x00\x00\x00\x00\x00\x00\x00\x00\x00\x00\x00\x00\x00\x00\x00\x00\x00\x00\x00\x00\
          \x00\x00\x00\x00\x00\x00\x00\x00\x00\x00\x00\x00\x00\x00\x00\x00\x00\x00\x00\x00\x00\x00\x00\x00\x00\x00\x00\x00",
        1000,
        4096,
    )
}

// Texts, and bytes.
fn sized(out: &mut impl Write) -> io::Result<()> {
    show(
        out,
        b"text",
        b"\x08\x02a\x00\x00\x00x\x00y\x00\x00\x00z\x00",
        7,
        4096,
    )?;
    show(out, b"text to an odd byte", b"\x08\x00x\x00y\x00z", 7, 4096)?;
    show(out, b"text of nothing", b"\x08\x01\x00\x00", 0, 4096)?;
    show(
        out,
        b"bytes",
        b"\x09\x00\x03\x00\x00\x00\x00\x00\x00\x00abcd",
        0,
        4096,
    )?;
    show(
        out,
        b"bytes past the end",
        b"\x09\x00\x05\x00\x00\x00\x00\x00\x00\x00abcd",
        0,
        4096,
    )?;
    show(
        out,
        b"bytes of size 2^64 - 1",
        b"\x09\x00\xff\xff\xff\xff\xff\xff\xff\xffabcd",
        0,
        4096,
    )?;
    show(
        out,
        b"bytes without a size",
        b"\x09\x00\xff\xff\xff\xff\xff\xff\xff",
        0,
        4096,
    )
}

// Levels.
fn levels(out: &mut impl Write) -> io::Result<()> {
    show(
        out,
        b"level ended quietly",
        b"\x0b\x00\x03\x00\x00\x00\x12\x00\x00\x00\x00\x00\x00\x00\
          \x01\x00\x01\x01\
          \x00\x00\x00\x00\x00\x00\x00\x00\x00\x00\x00\x00\x00\x00\x00\x00\x00\x00\x00\x00\x00\x00\x00\x00",
        0,
        4096,
    )?;
    show(
        out,
        b"count caps the children",
        b"\x0b\x00\x01\x00\x00\x00\x1e\x00\x00\x00\x00\x00\x00\x00\
          \x01\x00\x01\x01\x00\x01\x03\x02a\x00\x00\x00\x05\x00\x00\x00\
          \x00\x00\x00\x00\x00\x00\x00\x00",
        0,
        4096,
    )?;
    show(
        out,
        b"level of none",
        b"\x0b\x00\x00\x00\x00\x00\x18\x00\x00\x00\x00\x00\x00\x00\x03\x02a\x00\x00\x00\x05\x00\x00\x00",
        0,
        4096,
    )?;
    show(
        out,
        b"list in a list",
        b"\x0b\x00\x02\x00\x00\x00V\x00\x00\x00\x00\x00\x00\x00\
          \x0b\x00\x02\x00\x00\x00\x14\x00\x00\x00\x00\x00\x00\x00\x01\x00\x01\x01\x00\x01\x00\x00\x00\x00\x00\x00\x00\x00\x00\x00\x00\x00\x00\x00\x00\x00\
          \x0b\x02a\x00\x00\x00\x01\x00\x00\x00\x1c\x00\x00\x00\x00\x00\x00\x00\x03\x02a\x00\x00\x00\x05\x00\x00\x00\x00\x00\x00\x00\x00\x00\x00\x00\
          \x00\x00\x00\x00\x00\x00\x00\x00\x00\x00\x00\x00\x00\x00\x00\x00",
        50,
        4096,
    )?;
    show(
        out,
        b"skip past the end",
        b"\x0b\x00\x02\x00\x00\x00\x11\x00\x00\x00\x00\x00\x00\x00\x01\x00\x01\x00\x00\x00\x00\x00\x00\x00\x00\x00\x00\x00\x00\x00\x00\x00",
        0,
        4096,
    )
}

// Heads that are refused.
fn heads(out: &mut impl Write) -> io::Result<()> {
    show(out, b"packed", b"L\x00", 0, 4096)?;
    show(out, b"packed with a name past the end", b"L\xff", 0, 4096)?;
    show(out, b"type 0", b"\x00\xff", 0, 4096)?;
    show(out, b"type 10", b"\x0a\xff", 0, 4096)?;
    show(out, b"type 12", b"\x0c\x00", 0, 4096)?;
    show(
        out,
        b"type 12 with a name past the end",
        b"\x0c\x01\x00",
        0,
        4096,
    )?;
    show(
        out,
        b"name past the end",
        b"\x03\x03a\x00b\x00\x00",
        0,
        4096,
    )
}

// Levels' headers that are refused.
fn headers(out: &mut impl Write) -> io::Result<()> {
    show(
        out,
        b"count over the limit",
        b"\x0b\x00\x81\x96\x98\x00\x0e\x00\x00\x00\x00\x00\x00\x00",
        0,
        4096,
    )?;
    show(
        out,
        b"count at the limit",
        b"\x0b\x00\x80\x96\x98\x00\x0e\x00\x00\x00\x00\x00\x00\x00",
        0,
        4096,
    )?;
    show(
        out,
        b"children past the end",
        b"\x0b\x00\x01\x00\x00\x00\x1a\x00\x00\x00\x00\x00\x00\x00\x01\x00\x01\x00\x00\x00\x00\x00\x00\x00\x00",
        0,
        4096,
    )?;
    show(
        out,
        b"length past 2^63",
        b"\x0b\x00\x01\x00\x00\x00\xff\xff\xff\xff\xff\xff\xff\xff\x01\x00\x01\x00\x00\x00\x00\x00\x00\x00\x00",
        0,
        4096,
    )
}

// Tables that are just large enough, and too small.
fn tables(out: &mut impl Write) -> io::Result<()> {
    show(
        out,
        b"no table",
        b"\x03\x02a\x00\x00\x00\x05\x00\x00\x00",
        0,
        47,
    )?;
    show(
        out,
        b"one entry",
        b"\x03\x02a\x00\x00\x00\x05\x00\x00\x00",
        0,
        48,
    )?;
    show(
        out,
        b"one entry short",
        b"\x0b\x00\x02\x00\x00\x00\x14\x00\x00\x00\x00\x00\x00\x00\x01\x00\x01\x01\x00\x01\x00\x00\x00\x00\x00\x00\x00\x00\x00\x00\x00\x00\x00\x00\x00\x00",
        0,
        143,
    )?;
    show(
        out,
        b"just enough",
        b"\x0b\x00\x02\x00\x00\x00\x14\x00\x00\x00\x00\x00\x00\x00\x01\x00\x01\x01\x00\x01\x00\x00\x00\x00\x00\x00\x00\x00\x00\x00\x00\x00\x00\x00\x00\x00",
        0,
        144,
    )?;
    show(
        out,
        b"table before the fault",
        b"\x0b\x00\x01\x00\x00\x00\x11\x00\x00\x00\x00\x00\x00\x00\x03\x00\x01\x00\x00\x00\x00\x00\x00\x00\x00",
        0,
        95,
    )?;
    show(
        out,
        b"fault before the table",
        b"\x0b\x00\x01\x00\x00\x00\x11\x00\x00\x00\x00\x00\x00\x00L\x00\x01\x00\x00\x00\x00\x00\x00\x00\x00",
        0,
        95,
    )
}

// A level's first bytes: type 11, no name, one item, the length.
fn put_header(buf: &mut [u8], at: usize, len: u64)
    requires { at + 14 ≤ length buf.old }
{
    put::<8>(buf, at, 65547);
    put::<8>(buf, at + 6, len);
}

// Levels one in another, and a flag in the last: 22 bytes for each, and 3.
fn nest(buf: &mut [u8], levels: usize)
    requires { (22 * levels + 3 ≤ length buf.old) × (0 < levels) × (levels < 100) }
{
    for i in 0..levels {
        put_header(buf, 14 * i, 22 * (levels - i) as u64 - 5);
    }
    put::<4>(buf, 14 * levels, 65537);
}

// As deep as levels may stand, and one deeper.
fn depths(out: &mut impl Write) -> io::Result<()> {
    let mut whole = [0u8; 1411];
    nest(&mut whole, 64);
    show(out, b"depth 64", &whole, 0, 4096)?;
    let mut deep = [0u8; 1433];
    nest(&mut deep, 65);
    show(out, b"depth 65", &deep, 0, 4096)
}

fn main(rt: HostRuntime) -> io::Result<()> {
    let mut out = rt.stdout();
    edges(&mut out)?;
    fixed(&mut out)?;
    sized(&mut out)?;
    levels(&mut out)?;
    heads(&mut out)?;
    headers(&mut out)?;
    tables(&mut out)?;
    depths(&mut out)
}
