// The types that every crate of the reader shares. What they have to hold is stated in specs/, document 01 as definitions.
#![tactic(auto)]

ghost use Rattle.std.specs.Prelude.{◌≡◌};
ghost use Rattle.format.specs.Loops.{axis_number};

pub mod clx_type;
pub mod refusal;

// A part of a file: its first byte's position and its length.
#[derive(Clone, Copy)]
pub struct Range {
    pub start: u64,
    pub len: u64,
}

// An axis that a loop runs over: time, focus, points.
#[derive(Clone, Copy, Debug, PartialEq, Eq)]
pub enum Axis {
    T,
    Z,
    P,
}

// The number of an axis.
impl From<Axis> for u64 {
    ghost from_gives = { λ a n. n ≡ axis_number a };

    fn from(a: Axis) -> u64 {
        match a {
            Axis::T => 0,
            Axis::Z => 1,
            Axis::P => 2,
        }
    }
}

// One loop of an experiment.
#[derive(Clone, Copy)]
pub struct Loop {
    pub axis: Axis,
    pub count: u64,
}

// The sizes of a frame. A row has width × components samples, and `stride` bytes ("row bytes").
#[derive(Clone, Copy)]
pub struct Attributes {
    pub width: u64,
    pub stride: u64,
    pub height: u64,
    pub components: u64,
    pub bits: u64,
}

// What a calibration gives. State: 0 nothing is stated, 1 a size is, 2 its tree is packed. Class of the z step: 0 no step, 1 used, 2 too small, 3 too large.
#[derive(Clone, Copy)]
pub struct Calibration {
    pub state: u64,
    pub size: f32,
    pub class: u64,
    pub z: f32,
}

// What opening a file tells of it. Of `loops`, the outermost first, `depth` are used; the others are Axis::T with count 0.
#[derive(Clone, Copy)]
pub struct Summary {
    pub loops: [Loop; 3],
    pub depth: u64,
    pub width: u64,
    pub stride: u64,
    pub height: u64,
    pub components: u64,
    pub bits: u64,
    pub map: Range,
    pub calibration: u64,
    pub x: f32,
    pub y: f32,
    pub class: u64,
    pub z: f32,
}

// One entry of the table: a record's type, the position of its name, the name's units that are kept, the position of its value,
// the value's bytes, and its parent's number plus one, 0 for the outermost record. Positions are those in the file.
#[derive(Clone, Copy)]
pub struct Entry {
    pub kind: u64,
    pub name: u64,
    pub units: u64,
    pub value: u64,
    pub size: u64,
    pub parent: u64,
}

// One channel: whether it has a name, the name's position and units; whether it has a colour, and that.
#[derive(Clone, Copy)]
pub struct Channel {
    pub named: u64,
    pub name: u64,
    pub units: u64,
    pub colored: u64,
    pub red: u64,
    pub green: u64,
    pub blue: u64,
}

// What comparing two names tells: whether they are the same, and how many units were compared.
#[derive(Clone, Copy)]
pub struct Comparison {
    pub same: bool,
    pub units: usize,
}
