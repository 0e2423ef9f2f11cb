// The types of loops.
ghost use Rattle.std.specs.Prelude.{◌≡◌, ℕ, List};
ghost use Rattle.format.specs.Loops.{typed};
ghost use Rattle.format.specs.declared.Entry.{Entry};
ghost use Rattle.experiment.specs.Kind.{said_by_kind};

use format::refusal::Refusal;

// A type that is read, by its number.
#[derive(Clone, Copy, Debug, PartialEq, Eq)]
pub enum LoopKind {
    Time = 1,
    Points = 2,
    Focus = 4,
    Spectral = 6,
    Custom = 7,
    UnevenTime = 8,
}

// The type of a number: 0 and those above 10 are no loop's, and any other that is not read is refused.
#[tactic(auto, unfolding(format::specs::Loops::typed, format::specs::Loops::supported))]
pub fn kind_of(n: i64) -> Result<Option<LoopKind>, Refusal>
    ensures { (s : List ℕ) (es : List Entry) (i p : ℕ) → typed s es i p n ≡ said_by_kind s es i p result }
{
    match n {
        1 => Ok(Some(LoopKind::Time)),
        2 => Ok(Some(LoopKind::Points)),
        4 => Ok(Some(LoopKind::Focus)),
        6 => Ok(Some(LoopKind::Spectral)),
        7 => Ok(Some(LoopKind::Custom)),
        8 => Ok(Some(LoopKind::UnevenTime)),
        0 | 11.. => Ok(None),
        _ => Err(Refusal::LoopKind),
    }
}
