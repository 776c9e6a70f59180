//! Times of steps.
ghost use Rattle.std.specs.Prelude.{◌≡◌, map};
ghost use Rattle.script_model.specs.Check.{times_rise};
ghost use Rattle.line_parser.specs.View.{time_view, timed_view};
ghost use Rattle.line_times.specs.Sought.{has_large_time, rises_to};

use crate::nanoseconds::{is_too_large, nanoseconds_of};
use line_parser::{Time, TimedLiteral};

/// Whether the time of one of the steps is too large.
pub(crate) fn have_large_time(steps: &[TimedLiteral]) -> bool
    ensures { result ≡ has_large_time (map timed_view steps.now) }
{
    for step in steps {
        if is_too_large(step.time) {
            return true;
        }
    }
    false
}

/// Whether the first of the steps, if there is one, comes after the time.
fn rises_to(time: Time, steps: &[TimedLiteral]) -> bool
    ensures { result ≡ rises_to (time_view time) (map timed_view steps.now) }
{
    match steps {
        [] => true,
        [first, ..] => nanoseconds_of(time).count() < nanoseconds_of(first.time).count(),
    }
}

/// Whether the times of the steps rise strictly.
pub(crate) fn do_rise(steps: &[TimedLiteral]) -> bool
    ensures { result ≡ times_rise (map timed_view steps.now) }
{
    let mut left = steps;
    while let [first, behind @ ..] = left {
        if !rises_to(first.time, behind) {
            return false;
        }
        left = behind;
    }
    true
}
