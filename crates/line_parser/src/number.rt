//! Integers, times and spans as scripts write them.
ghost use Rattle.std.specs.Prelude.{◌≡◌, ◌*◌, ◌<◌, ◌≤◌, ◌^◌, SomeIff};
ghost use Rattle.line_parser.specs.View.{time_view};
ghost use Rattle.line_tokens.specs.View.{unit_view};
ghost use Rattle.script_model.specs.Grammar.{time_of, unit_scale};
ghost use Rattle.script_model.specs.Language.{integer_of, number_from};

use crate::tree::Time;
use line_tokens::TimeUnit;

/// The greatest time, in nanoseconds.
const GREATEST_TIME: u64 = 9_223_372_036_854_775_807;

/// The number that digits write; none past 64 bits.
fn magnitude(digits: &[u8]) -> Option<u64>
    ensures { SomeIff result (number_from 0 digits.now < 2 ^ 64) (number_from 0 digits.now) }
{
    let mut number = 0u64;
    for digit in digits {
        let value = u64::from(digit.saturating_sub(b'0'));
        number = number.checked_mul(10)?.checked_add(value)?;
    }
    Some(number)
}

/// The integer that a sign and digits write; none where it is no `i64`.
pub(crate) fn integer(negative: bool, digits: &[u8]) -> Option<i64>
    ensures { result ≡ integer_of negative digits.now }
{
    let magnitude = magnitude(digits)?;
    if negative {
        0i64.checked_sub_unsigned(magnitude)
    } else {
        i64::try_from(magnitude).ok()
    }
}

/// How many nanoseconds a unit is.
fn scale(unit: TimeUnit) -> u64
    ensures scale { result ≡ unit_scale (unit_view unit) }
    ensures some { 1 ≤ result }
{
    match unit {
        TimeUnit::Nanoseconds => 1,
        TimeUnit::Microseconds => 1_000,
        TimeUnit::Milliseconds => 1_000_000,
        TimeUnit::Seconds => 1_000_000_000,
    }
}

/// The time or span of so many nanoseconds.
fn nanoseconds(count: u64) -> Time
    ensures { time_view result ≡ time_of count }
{
    if count > GREATEST_TIME {
        Time::TooLarge
    } else {
        Time::Nanoseconds(count)
    }
}

/// The time or span that digits write, in nanoseconds.
pub(crate) fn time_without_unit(digits: &[u8]) -> Time
    ensures { time_view result ≡ time_of (number_from 0 digits.now) }
{
    match magnitude(digits) {
        Some(count) => nanoseconds(count),
        None => Time::TooLarge,
    }
}

/// The time or span that digits write, in a unit.
pub(crate) fn time(digits: &[u8], unit: TimeUnit) -> Time
    ensures { time_view result ≡ time_of (number_from 0 digits.now * unit_scale (unit_view unit)) }
{
    let Some(count) = magnitude(digits) else {
        return Time::TooLarge;
    };
    match count.checked_mul(scale(unit)) {
        Some(count) => nanoseconds(count),
        None => Time::TooLarge,
    }
}
