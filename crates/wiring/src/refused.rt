//! Why a stabilize is refused.
use inc_value::Point;
use std::alloc::AllocError;

/// Why a stabilize is refused. What the parts hold then can't be brought up to date any more.
#[derive(Drop)]
pub enum Refused {
    /// These points read in a circle: each reads the next, and the first is the last.
    Cycle(Vec<Point>),
    /// These 130 points stand in a row: each reads the next.
    Height(Vec<Point>),
    /// No further node can be added.
    Full,
    /// There is no memory.
    Memory,
}

impl From<AllocError> for Refused {
    ghost use Rattle.std.specs.Prelude.{◌≡◌};
    ghost use Rattle.wiring.specs.declared.refused.Refused.TheVariants.{Memory};

    ghost from_gives = { λ _ e. e ≡ Memory };

    fn from(_e: AllocError) -> Refused {
        Refused::Memory
    }
}
