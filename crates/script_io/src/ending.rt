//! How runs end.
use std::alloc::AllocError;

/// How a run ended.
#[derive(Clone, Copy, PartialEq, Eq)]
pub enum Ending {
    /// The input was read to its end, and no line was refused.
    Accepted,

    /// The input was read to its end, and a line was refused.
    Refused,

    /// The source failed.
    ReadFault,

    /// The sink failed.
    WriteFault,

    /// No memory was found.
    Memory,

    /// As many bytes were taken as may be, and another one came.
    Limit,
}

impl Ending {
    ghost use Rattle.std.specs.Prelude.{◌≡◌, if◌then◌else◌};
    ghost use Rattle.script_io.specs.Endings.{number_of};
    ghost use Rattle.script_io.specs.declared.ending.Ending.TheVariants.{Accepted, Refused};

    /// The ending of a run that read its input to the end.
    pub fn at_end(refused: bool) -> Ending
        ensures { result ≡ (if refused then Refused else Accepted) }
    {
        if refused {
            Ending::Refused
        } else {
            Ending::Accepted
        }
    }

    /// The status that the program ends with.
    pub fn status(self) -> u8
        ensures { result ≡ number_of self }
    {
        match self {
            Ending::Accepted => 0,
            Ending::Refused => 1,
            Ending::ReadFault => 3,
            Ending::WriteFault => 4,
            Ending::Memory => 5,
            Ending::Limit => 6,
        }
    }
}

impl From<AllocError> for Ending {
    ghost use Rattle.std.specs.Prelude.{◌≡◌};
    ghost use Rattle.script_io.specs.declared.ending.Ending.TheVariants.{Memory};

    ghost from_gives = { λ _ e. e ≡ Memory };

    fn from(_error: AllocError) -> Ending {
        Ending::Memory
    }
}
