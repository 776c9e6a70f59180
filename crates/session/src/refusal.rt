//! Why lines are refused.
ghost use Rattle.std.specs.Prelude.{◌≡◌};
ghost use Rattle.script_model.specs.Step.{number_of};
ghost use Rattle.session.specs.RefusalView.{refusal_view};

/// Why a line is refused before its command is looked at, or after its names, functions and types
/// were found to fit.
#[derive(Clone, Copy)]
pub(crate) enum Refusal {
    NoCommand,
    LineTooLong,
    NotStabilized,
    NotBuilt,
    NotLinked,
    TooManyLinks,
    TooManyPlaces,
    LineTooDeep,
    /// The session is broken, with the number of what broke it.
    Broken { kept: u8 },
}

impl Refusal {
    /// The number that is printed.
    pub(crate) fn number(self) -> u8
        ensures { result ≡ number_of (refusal_view self) }
    {
        match self {
            Refusal::NoCommand => 1,
            Refusal::LineTooLong => 2,
            Refusal::NotStabilized => 13,
            Refusal::NotBuilt => 9,
            Refusal::NotLinked => 23,
            Refusal::TooManyLinks => 24,
            Refusal::TooManyPlaces => 19,
            Refusal::LineTooDeep => 25,
            Refusal::Broken { .. } => 22,
        }
    }
}
