// Replays the stored questions: reads the steps of data/cases one after the other, asks each question of the proved calls and prints the number
// of the answer and a checksum of all that was lent for it. rust/replay writes the steps and, from the second implementation, what has to be
// printed; rust/replay/src/step.rs says how a step is stored.
#![tactic(auto)]

ghost use Rattle.std.specs.Prelude.{◌≤◌, length, IfOk};

use border::nd2_read_plane;
use capi::{nd2_channels, nd2_picometres, nd2_sheet_read};
use cursor::{le, put};
use format::Summary;
use format::refusal::Refusal;
use layout::{SUMMARY_BYTES, put_summary, summary_in};
use open::open;
use plane::plane;
use register::register;
use sheet::sheet;
use std::fs::File;
use std::io;
use std::io::{Read, Write};
use sum::{fold_bytes, fold_summary};
use tree_call::tree;

mod sum; // checksums

// The kinds of steps.
#[derive(Clone, Copy, Debug, PartialEq, Eq)]
enum Kind {
    Label,
    File,
    Summary,
    Open,
    Plane,
    Tree,
    Register,
    Border,
    Channels,
    Sheet,
    ReadSheet,
    Picometres,
}

// The kind of a stored number, if a step has it.
fn kind_of(n: u64) -> Option<Kind> {
    match n {
        1 => Some(Kind::Label),
        2 => Some(Kind::File),
        3 => Some(Kind::Summary),
        4 => Some(Kind::Open),
        5 => Some(Kind::Plane),
        6 => Some(Kind::Tree),
        7 => Some(Kind::Register),
        8 => Some(Kind::Border),
        9 => Some(Kind::Channels),
        10 => Some(Kind::Sheet),
        11 => Some(Kind::ReadSheet),
        12 => Some(Kind::Picometres),
        _ => None,
    }
}

// The most bytes that a file has, or that are lent as a table or as a buffer.
const MOST: usize = 65_536;

// What lent bytes hold before a call.
const FILL: u8 = 0xA5;

// One step: its kind, none where its number is no step's, the bytes that follow it, the bytes that are lent as a table and as a buffer or a row, and a point.
#[derive(Clone, Copy)]
struct Step {
    kind: Option<Kind>,
    size: usize,
    table: usize,
    buffer: usize,
    scene: u64,
    t: u64,
    c: u64,
    z: u64,
}

// What questions are asked of: the bytes of the file, and the summary that opening gave last or that a step said.
#[derive(Clone, Copy)]
struct State {
    len: usize,
    summary: Summary,
    ghost fits: { len ≤ 65_536 },
}

// ---- reading

// Reads until buf is full or the input ends; how many bytes it put at the start of buf.
fn read_full(input: &mut impl Read, buf: &mut [u8]) -> io::Result<usize>
    ensures { IfOk result (λ n. n ≤ length buf.new) }
{
    let mut done = 0;
    while done < buf.len() {
        let n = input.read(&mut buf[done..])?;
        if n == 0 {
            break;
        }
        done += n;
    }
    Ok(done)
}

// The next step; none where the input ends or the number 0 stands. What a step lacks at the end of the input is zero.
fn next_step(input: &mut impl Read) -> io::Result<Option<Step>> {
    let mut s = [0u8; 48];
    read_full(input, &mut s)?;
    let number = le::<4>(&s, 0);
    if number == 0 {
        return Ok(None);
    }
    Ok(Some(Step {
        kind: kind_of(number),
        size: le::<4>(&s, 4) as usize,
        table: le::<4>(&s, 8) as usize,
        buffer: le::<4>(&s, 12) as usize,
        scene: le::<8>(&s, 16),
        t: le::<8>(&s, 24),
        c: le::<8>(&s, 32),
        z: le::<8>(&s, 40),
    }))
}

// The summary that 14 numbers say, with nothing of a calibration.
fn said(numbers: &[u8]) -> Option<Summary> {
    let mut lent = [0u8; SUMMARY_BYTES];
    lent[..112].copy_from_slice(numbers.get(..112)?);
    Some(summary_in(&lent))
}

// ---- printing

// A label's line.
fn show_label(out: &mut impl Write, text: &[u8]) -> io::Result<()> {
    out.write_all(text)?;
    out.write_all(b"\n")
}

// An answer's line.
fn show(out: &mut impl Write, call: &str, number: u32, sum: u64) -> io::Result<()> {
    writeln!(out, "{call} {number} {sum:08x}")
}

// The number of a call's answer.
fn number_of(answer: Result<(), Refusal>) -> u32 {
    match answer {
        Ok(()) => 0,
        Err(refusal) => refusal.number(),
    }
}

// ---- asking

fn ask_open(out: &mut impl Write, file: &[u8], table: &mut [u8]) -> io::Result<Summary> {
    let (number, u) = match open(file, table) {
        Ok(u) => (0, u),
        Err(refusal) => (refusal.number(), summary_in(&[0u8; SUMMARY_BYTES])),
    };
    show(out, "open", number, fold_bytes(fold_summary(u), table))?;
    Ok(u)
}

fn ask_plane(
    out: &mut impl Write,
    file: &[u8],
    u: Summary,
    q: Step,
    buffer: &mut [u8],
) -> io::Result<()> {
    let n = number_of(plane(file, u, q.scene, q.t, q.c, q.z, buffer));
    show(out, "plane", n, fold_bytes(0, buffer))
}

fn ask_sheet(
    out: &mut impl Write,
    file: &[u8],
    u: Summary,
    q: Step,
    lent: &mut [u8],
) -> io::Result<()> {
    let n = number_of(sheet(file, u, q.scene, q.t, q.c, q.z, lent));
    show(out, "sheet", n, fold_bytes(0, lent))
}

// A sheet that is read, as the C interface has it: width, height and bits are lent numbers.
fn ask_read(out: &mut impl Write, lent: &[u8], samples: &mut [u8]) -> io::Result<()> {
    let mut width: u64 = 1;
    let mut height: u64 = 1;
    let mut bits: u64 = 1;
    let n = nd2_sheet_read(lent, samples, &mut width, &mut height, &mut bits);
    let mut sizes = [0u8; 24];
    put::<8>(&mut sizes, 0, width);
    put::<8>(&mut sizes, 8, height);
    put::<8>(&mut sizes, 16, bits);
    show(out, "read", n, fold_bytes(fold_bytes(0, &sizes), samples))
}

fn ask_tree(
    out: &mut impl Write,
    file: &[u8],
    u: Summary,
    name: &[u8],
    table: &mut [u8],
) -> io::Result<()> {
    let n = number_of(tree(file, u, name, table));
    show(out, "tree", n, fold_bytes(0, table))
}

fn ask_register(
    out: &mut impl Write,
    file: &[u8],
    u: Summary,
    buffer: &mut [u8],
) -> io::Result<()> {
    let n = number_of(register(file, u, buffer));
    show(out, "register", n, fold_bytes(0, buffer))
}

fn ask_border(
    out: &mut impl Write,
    file: &[u8],
    q: Step,
    table: &mut [u8],
    buffer: &mut [u8],
) -> io::Result<()> {
    let n = nd2_read_plane(file, table, q.scene, q.t, q.c, q.z, buffer);
    show(out, "border", n, fold_bytes(fold_bytes(0, table), buffer))
}

// A summary as the C interface has it: lent bytes.
fn lent(u: Summary) -> [u8; SUMMARY_BYTES] {
    let mut b = [0u8; SUMMARY_BYTES];
    put_summary(&mut b, u);
    b
}

// The channels, as the C interface has them: the records are lent bytes too.
fn ask_channels(
    out: &mut impl Write,
    file: &[u8],
    u: Summary,
    table: &mut [u8],
    row: &mut [u8],
) -> io::Result<()> {
    let n = nd2_channels(file, &lent(u), table, row);
    show(out, "channels", n, fold_bytes(fold_bytes(0, row), table))
}

// The pixel size in picometres, as the C interface has it: the size is a lent number.
fn ask_picometres(
    out: &mut impl Write,
    file: &[u8],
    u: Summary,
    table: &mut [u8],
) -> io::Result<()> {
    let mut picometres: u64 = 1;
    let n = nd2_picometres(file, &lent(u), table, &mut picometres);
    let mut size = [0u8; 8];
    put::<8>(&mut size, 0, picometres);
    show(
        out,
        "picometres",
        n,
        fold_bytes(fold_bytes(0, &size), table),
    )
}

// What a step asks, over what is lent to it; `text` is what follows the step. The summary afterwards is the one that opening gave or that the
// step says, if it was such a step.
fn ask(
    out: &mut impl Write,
    file: &[u8],
    u: Summary,
    q: Step,
    text: &[u8],
    table: &mut [u8],
    buffer: &mut [u8],
) -> io::Result<Summary> {
    let Some(kind) = q.kind else {
        return Ok(u);
    };
    match kind {
        Kind::File => {} // was read
        Kind::Label => show_label(out, text)?,
        Kind::Summary => return Ok(said(text).unwrap_or(u)),
        Kind::Open => return ask_open(out, file, table),
        Kind::Plane => ask_plane(out, file, u, q, buffer)?,
        Kind::Tree => ask_tree(out, file, u, text, table)?,
        Kind::Register => ask_register(out, file, u, buffer)?,
        Kind::Border => ask_border(out, file, q, table, buffer)?,
        Kind::Channels => ask_channels(out, file, u, table, buffer)?,
        Kind::Sheet => ask_sheet(out, file, u, q, buffer)?,
        Kind::ReadSheet => ask_read(out, text, buffer)?,
        Kind::Picometres => ask_picometres(out, file, u, table)?,
    }
    Ok(u)
}

// ---- one step after the other

// Reads the file that follows a step; its length, 0 where there is no room for it.
fn read_file(input: &mut impl Read, file: &mut [u8; MOST], size: usize) -> io::Result<usize>
    ensures { IfOk result (λ n. n ≤ 65_536) }
{
    if MOST < size {
        return Ok(0);
    }
    read_full(input, &mut file[..size])
}

// A step, with as many bytes lent as it says, once the bytes that follow it are read; one that says more than there are is passed over.
fn take(
    input: &mut impl Read,
    out: &mut impl Write,
    file: &mut [u8; MOST],
    s: State,
    q: Step,
) -> io::Result<State> {
    if q.kind == Some(Kind::File) {
        let len = read_file(input, file, q.size)?;
        return Ok(State {
            len,
            summary: s.summary,
        });
    }
    if q.size > MOST || q.table > MOST || q.buffer > MOST {
        return Ok(s);
    }
    let mut text = [0u8; MOST];
    let mut table = [FILL; MOST];
    let mut buffer = [FILL; MOST];
    read_full(input, &mut text[..q.size])?;
    let summary = ask(
        out,
        &file[..s.len],
        s.summary,
        q,
        &text[..q.size],
        &mut table[..q.table],
        &mut buffer[..q.buffer],
    )?;
    Ok(State {
        len: s.len,
        summary,
    })
}

// A loop has to end, and nothing says that a file does: it counts its turns, more than any list has steps.
fn replay(input: &mut impl Read, out: &mut impl Write) -> io::Result<()> {
    let mut file = [0u8; MOST];
    let mut s = State {
        len: 0,
        summary: summary_in(&[0u8; SUMMARY_BYTES]),
    };
    for _ in 0..1_000_000 {
        let Some(q) = next_step(input)? else {
            return Ok(());
        };
        s = take(input, out, &mut file, s, q)?;
    }
    Ok(())
}

fn main(rt: HostRuntime) -> io::Result<()> {
    let mut input = File::open(&rt, "cases")?;
    let mut out = rt.stdout();
    replay(&mut input, &mut out)
}
