//! What is told of a notice beside its bytes.
ghost use Rattle.std.specs.Prelude.{◌≡◌};
ghost use Rattle.session_slots.specs.Notices.{nothing_told, told_of};

use session::NoticeParts;

/// The number of the stabilize that was accepted last, 0 before the first, and how many bytes the parts of one of its notices have:
/// the observer's name, what was told of it before, and what it shows now.
#[repr(C)]
#[derive(Clone, Copy)]
pub struct Told {
    pub round: u64,
    pub name: usize,
    pub before: usize,
    pub now: usize,
}

impl Told {
    /// No notice.
    pub(crate) fn nothing(round: u64) -> Told
        ensures { result ≡ nothing_told round }
    {
        Told {
            round,
            name: 0,
            before: 0,
            now: 0,
        }
    }

    /// A notice of these parts.
    pub(crate) fn of(round: u64, parts: NoticeParts) -> Told
        ensures { result ≡ told_of round parts }
    {
        Told {
            round,
            name: parts.name,
            before: parts.before,
            now: parts.now,
        }
    }
}
