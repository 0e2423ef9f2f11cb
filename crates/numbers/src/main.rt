// The IEEE 754 examples, run through the proved conversions: a line for each, with what it was and what each conversion made of it.
#![tactic(auto)]

use std::io::Write;
use std::{fmt, io};

// ---- the examples

// Zeros, fractions, subnormals, the largest, infinities, NaNs.
const KINDS: [u64; 29] = [
    0x0000000000000000,
    0x8000000000000000,
    0x3ff0000000000000,
    0xbff0000000000000,
    0xbfe0000000000000,
    0xbfefffffffffffff,
    0x3fe0000000000000,
    0x3feccccccccccccd,
    0x3ffe666666666666,
    0x3ff8000000000000,
    0x4000000000000000,
    0xc000000000000000,
    0x4007333333333333,
    0xc007333333333333,
    0x3ff0000000000001,
    0x3ca0000000000000,
    0x0000000000000001,
    0x8000000000000001,
    0x000fffffffffffff,
    0x0010000000000000,
    0x7fefffffffffffff,
    0xffefffffffffffff,
    0x7ff0000000000000,
    0xfff0000000000000,
    0x7ff8000000000000,
    0x7ff0000000000001,
    0x7fffffffffffffff,
    0xfff8000000000000,
    0xfff0000000000001,
];

// Around 2^32, 2^51, 2^53, 2^63 and 2^64, where fractions, gaps and the ends of the integers lie.
const LARGE: [u64; 18] = [
    0x41efffffffe00000,
    0x41f0000000000000,
    0x4320000000000001,
    0x432fffffffffffff,
    0x4330000000000001,
    0x433fffffffffffff,
    0x4340000000000000,
    0x4340000000000001,
    0x43dfffffffffffff,
    0x43e0000000000000,
    0x43e0000000000001,
    0xc3dfffffffffffff,
    0xc3e0000000000000,
    0xc3e0000000000001,
    0x43efffffffffffff,
    0x43f0000000000000,
    0x43f0000000000001,
    0xc3f0000000000000,
];

// Half way between two f32, and just beside: normal ones, a carry, the largest.
const HALFWAY: [u64; 15] = [
    0x3ff000000fffffff,
    0x3ff0000010000000,
    0x3ff0000010000001,
    0x3ff000002fffffff,
    0x3ff0000030000000,
    0x3ff0000030000001,
    0xbff0000010000000,
    0xbff0000030000000,
    0x3fffffffefffffff,
    0x3ffffffff0000000,
    0x47efffffe0000000,
    0x47efffffefffffff,
    0x47effffff0000000,
    0xc7effffff0000000,
    0x47f0000000000000,
];

// The same of the subnormal ones and the smallest.
const SMALL: [u64; 15] = [
    0x3810000000000000,
    0x380fffffe0000000,
    0x380fffffdfffffff,
    0x380fffffc0000000,
    0x380fffffa0000000,
    0x36b4000000000000,
    0x36a8000000000000,
    0x36a7ffffffffffff,
    0x36a0000000000000,
    0x3690000000000001,
    0x3690000000000000,
    0x368fffffffffffff,
    0xb690000000000001,
    0xb690000000000000,
    0x3680000000000000,
];

// Whole numbers, on both sides of where an f64 leaves some out, and at the ends of the integers.
const WHOLES: [u64; 20] = [
    0,
    1,
    9007199254740991,
    9007199254740992,
    9007199254740993,
    9007199254740994,
    9007199254740995,
    18014398509481986,
    18014398509481987,
    18014398509481990,
    9223372036854775807,
    9223372036854775808,
    9223372036854776832,
    9223372036854776833,
    9223372036854779904,
    18446744073709549568,
    18446744073709550591,
    18446744073709550592,
    18446744073709551614,
    18446744073709551615,
];

// An f32 as a z step, around the limits of the classes.
const CLASSES: [u32; 17] = [
    0x00000000, 0x80000000, 0x00000001, 0x358637bc, 0x358637bd, 0x358637be, 0x3f800000, 0xbf800000,
    0x4479ffff, 0x447a0000, 0x447a0001, 0x7f7fffff, 0x7f800000, 0xff800000, 0x7fc00000, 0x7f800001,
    0xffc00000,
];

// Stated z steps.
const STATED: [u64; 11] = [
    0x0000000000000000,
    0x8000000000000000,
    0xc000000000000000,
    0x3eb0c6f7a0b5ed8d,
    0x3eb0c6f790000000,
    0x408f400000000000,
    0x408f4000346dc5d6,
    0x0000000000000001,
    0xffefffffffffffff,
    0xfff0000000000000,
    0x7ff0000000000001,
];

// Stacks: how many there are, and from which pattern to which they go, the upper one first.
const SPANS: [(u64, u64, u64); 15] = [
    (11, 0x4024000000000000, 0xc024000000000000),
    (11, 0xc024000000000000, 0x4024000000000000),
    (1, 0x4024000000000000, 0xc024000000000000),
    (0, 0x4024000000000000, 0xc024000000000000),
    (2, 0x4014000000000000, 0x4014000000000000),
    (2, 0x7ff0000000000000, 0x0000000000000000),
    (2, 0x7ff0000000000000, 0x7ff0000000000000),
    (2, 0x7fefffffffffffff, 0xffefffffffffffff),
    (3, 0x7ff8000000000000, 0x0000000000000000),
    (4, 0x3ff0000000000000, 0x0000000000000000),
    (8, 0x3fb999999999999a, 0xbfc999999999999a),
    (9007199254740993, 0x4340000000000000, 0x0000000000000000),
    (18446744073709551615, 0x43f0000000000000, 0x0000000000000000),
    (3, 0x0000000000000001, 0x0000000000000000),
    (3, 0x0000000000000003, 0x0000000000000000),
];

// ---- how they are shown

// A reading, or the word for none.
#[derive(Clone, Copy)]
struct Reading<T>(Option<T>);

impl<T: fmt::Display> fmt::Display for Reading<T> {
    fn fmt<W: fmt::Write>(&self, f: &mut fmt::Formatter<W>) -> fmt::Result {
        match &self.0 {
            Some(x) => write!(f, "{x}"),
            None => f.write_str("absent"),
        }
    }
}

// What an f32 is taken for as a z step.
#[derive(Clone, Copy)]
struct Class(f32);

impl fmt::Display for Class {
    fn fmt<W: fmt::Write>(&self, f: &mut fmt::Formatter<W>) -> fmt::Result {
        let z = number::single_bits(self.0);
        let class = number::z_class(self.0);
        let kept = number::single_bits(number::kept_z(class, self.0));
        write!(f, "f32 {z:08x} class {class} kept {kept:08x}")
    }
}

// A z step in f64, and what its f32 is taken for.
#[derive(Clone, Copy)]
struct Step(f64);

impl fmt::Display for Step {
    fn fmt<W: fmt::Write>(&self, f: &mut fmt::Formatter<W>) -> fmt::Result {
        let bits = number::double_bits(self.0);
        let class = Class(number::narrow(self.0));
        write!(f, "{bits:016x} {class}")
    }
}

// ---- a line for each

// A double, by its pattern.
fn double(out: &mut impl Write, bits: u64) -> io::Result<()> {
    let x = number::double_of(bits);
    let is = number::double_bits(x);
    let single = number::single_bits(number::narrow(x));
    let unsigned = Reading(number::unsigned(x));
    let signed = Reading(number::signed(x));
    let size = number::double_bits(number::magnitude(x));
    let positive = if number::positive(x) { " positive" } else { "" };
    writeln!(
        out,
        "double {bits:016x} is {is:016x} f32 {single:08x} unsigned {unsigned} signed {signed} size {size:016x}{positive}"
    )
}

// A single, by its pattern, as a z step.
fn single(out: &mut impl Write, bits: u32) -> io::Result<()> {
    let class = Class(number::single_of(bits));
    writeln!(out, "single {bits:08x} {class}")
}

// The whole numbers n and -1 - n.
fn whole(out: &mut impl Write, n: u64) -> io::Result<()> {
    let bits = number::double_bits(number::of_whole(n));
    let signed = Reading(number::signed_whole(n));
    let bits_below = number::double_bits(number::of_below(n));
    let signed_below = Reading(number::signed_below(n));
    writeln!(
        out,
        "whole {n} f64 {bits:016x} signed {signed} below f64 {bits_below:016x} signed {signed_below}"
    )
}

// A stated z step.
fn stated(out: &mut impl Write, bits: u64) -> io::Result<()> {
    let step = Reading(number::stated_step(number::double_of(bits)).map(Step));
    writeln!(out, "stated {bits:016x} step {step}")
}

// The z step of a stack.
fn span(out: &mut impl Write, count: u64, high: u64, low: u64) -> io::Result<()> {
    let span = number::span_step(count, number::double_of(high), number::double_of(low));
    let step = Reading(span.map(Step));
    writeln!(
        out,
        "span {count} from {low:016x} to {high:016x} step {step}"
    )
}

fn main(rt: HostRuntime) -> io::Result<()> {
    let mut out = rt.stdout();
    for bits in KINDS {
        double(&mut out, bits)?;
    }
    for bits in LARGE {
        double(&mut out, bits)?;
    }
    for bits in HALFWAY {
        double(&mut out, bits)?;
    }
    for bits in SMALL {
        double(&mut out, bits)?;
    }
    for n in WHOLES {
        whole(&mut out, n)?;
    }
    for bits in CLASSES {
        single(&mut out, bits)?;
    }
    for bits in STATED {
        stated(&mut out, bits)?;
    }
    for (count, high, low) in SPANS {
        span(&mut out, count, high, low)?;
    }
    Ok(())
}
