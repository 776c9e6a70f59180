//! Times and spans that aren't too large.
ghost use Rattle.std.specs.Prelude.{◌≡◌, ◌<◌, ◌^◌, is_none, pos, unwrap_or};
ghost use Rattle.script_model.specs.Check.{is_past};
ghost use Rattle.line_parser.specs.View.{time_view};
ghost use Rattle.line_times.specs.Sought.{is_zero};

use line_parser::Time;
use std::marker::Model;

/// The greatest time, in nanoseconds.
const GREATEST_TIME: u64 = 9_223_372_036_854_775_807;

/// So many nanoseconds: a time or a span that isn't beyond the clock's greatest time.
#[derive(Clone, Copy, PartialEq, Eq)]
pub struct Nanoseconds {
    count: u64,
}

impl Model for Nanoseconds {
    ghost use Rattle.std.specs.Prelude.{◌<◌, ◌^◌, ℕ};

    ghost Value = { ℕ };

    ghost view = { λ n. n.count };

    ghost inverse = { λ n. record { count = n } };

    ghost invariant = { λ n. n.count < 2 ^ 63 };
}

impl Nanoseconds {
    /// So many nanoseconds.
    pub fn new(count: u64) -> Nanoseconds
        requires { count < 2 ^ 63 }
        ensures { result ≡ count }
    {
        Nanoseconds { count }
    }

    /// How many they are.
    pub fn count(self) -> u64
        ensures value { result ≡ self }
        ensures within { result < 2 ^ 63 }
    {
        self.count
    }

    /// The same as a time of a graph, which has a sign.
    pub fn time(self) -> i64
        ensures { result ≡ pos self }
    {
        self.count as i64
    }
}

/// A time or a span; 0 for one that is too large.
pub fn nanoseconds_of(time: Time) -> Nanoseconds
    ensures { result ≡ unwrap_or (time_view time) 0 }
{
    let Time::Nanoseconds(count) = time else {
        return Nanoseconds::new(0);
    };
    if count > GREATEST_TIME {
        Nanoseconds::new(0)
    } else {
        Nanoseconds::new(count)
    }
}

/// Whether a time or a span is too large.
pub(crate) fn is_too_large(time: Time) -> bool
    ensures { result ≡ is_none (time_view time) }
{
    match time {
        Time::Nanoseconds(count) => count > GREATEST_TIME,
        Time::TooLarge => true,
    }
}

/// Whether a span that begins now ends beyond the greatest time, or is too large itself.
pub(crate) fn is_past(span: Time, now: Nanoseconds) -> bool
    ensures { result ≡ is_past now (time_view span) }
{
    match span {
        Time::Nanoseconds(count) => count > GREATEST_TIME - now.count(),
        Time::TooLarge => true,
    }
}

/// Whether a span is empty.
pub(crate) fn is_empty(span: Time) -> bool
    ensures { result ≡ is_zero (time_view span) }
{
    match span {
        Time::Nanoseconds(count) => count == 0,
        Time::TooLarge => false,
    }
}
