//! What a call answers.
ghost use Rattle.std.specs.Prelude.{◌≡◌};
ghost use Rattle.session_slots.specs.Answers.{code_of};

use session::{Did, NoticeKind};

/// How a line was taken, that what was asked for is done, what a notice tells, that there is no further one, or why nothing is done.
#[derive(Clone, Copy)]
pub enum Answer {
    Line(Did),
    Done,
    Notice(NoticeKind),
    NoNotice,
    NoSession,
    NoMemory,
    TooManyLines,
    NoSlot,
    OpenAlready,
}

impl Answer {
    /// The answer as a number.
    pub(crate) fn code(self) -> i32
        ensures { result ≡ code_of self }
    {
        match self {
            Answer::Line(Did::Blank) => 0,
            Answer::Line(Did::Accepted) => 1,
            Answer::Line(Did::Refused(number)) => 100 + i32::from(number),
            Answer::Done => 1,
            Answer::NoNotice => 0,
            Answer::Notice(NoticeKind::Init) => 1,
            Answer::Notice(NoticeKind::Change) => 2,
            Answer::Notice(NoticeKind::Invalid) => 3,
            Answer::NoSession => -1,
            Answer::NoMemory => -2,
            Answer::TooManyLines => -3,
            Answer::NoSlot => -4,
            Answer::OpenAlready => -5,
        }
    }
}
