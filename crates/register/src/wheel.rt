// The index of an axis, counted up from frame to frame.
ghost use Rattle.std.specs.Prelude.{ℕ, ◌+◌, ◌<◌, List};
ghost use Rattle.format.specs.Summary.{loops_of};
ghost use Rattle.format.specs.Grammar.Loops.{Counted};
ghost use Rattle.format.specs.declared.Axis.{Axis};
ghost use Rattle.format.specs.declared.Loop.{Loop};
ghost use Rattle.register.specs.Turning.{Shows};

use format::{Axis, Summary};
use summary::pace_of;

// A wheel shows an index, of `count`, for `stay` frames each; it has shown the present one for `stood` frames before this.
#[derive(Clone, Copy)]
pub struct Wheel {
    pub stay: u64,
    pub count: u64,
    pub index: u64,
    pub stood: u64,
}

// The wheel of an axis, at frame 0.
pub fn wheel_of(u: Summary, a: Axis) -> Wheel
    requires { Counted (loops_of u) }
    ensures { Shows result a (loops_of u) 0 }
{
    let pace = pace_of(u, a);
    Wheel {
        stay: pace.stay,
        count: pace.count,
        index: 0,
        stood: 0,
    }
}

impl Wheel {
    // One frame on.
    pub fn turn(&mut self)
        requires { (self.old.stood < self.old.stay) × (self.old.index < self.old.count) }
        ensures { (a : Axis) (ls : List Loop) (n : ℕ) → Shows self.old a ls n → Shows self.new a ls (n + 1) }
    {
        self.stood += 1;
        if self.stood == self.stay {
            self.stood = 0;
            self.index += 1;
            if self.index == self.count {
                self.index = 0;
            }
        }
    }
}
