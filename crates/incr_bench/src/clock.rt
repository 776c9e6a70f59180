//! Times in nanoseconds.
ghost use Rattle.std.specs.Prelude.{◌≡◌, ◌-◌, ◌^◌, min, None, IfSome};
ghost use Rattle.std.specs.Duration.{as_nanos};
ghost use Rattle.std.specs.Time.{instant_nanos, FitsClock};

use std::time::{Clock, Duration, Instant};

/// The time that the clock shows, if it can be read. Which time that is, and whether it can, only the clock says.
pub fn begin<C: Clock>(clock: &C) -> Option<Instant>
    ensures { IfSome result (λ time. FitsClock (instant_nanos time)) }
{
    Instant::now(clock).ok()
}

/// The nanoseconds of a duration, up to 2^64 - 1.
fn nanoseconds(time: Duration) -> u64
    ensures { result ≡ min (as_nanos time) (2 ^ 64 - 1) }
{
    time.as_secs()
        .saturating_mul(1_000_000_000)
        .saturating_add(time.subsec_nanos() as u64)
}

/// The nanoseconds since a time; 0 where the clock can't be read.
pub fn since<C: Clock>(clock: &C, start: Option<Instant>) -> u64
    ensures not_begun { start ≡ None → result ≡ 0 }
{
    match (start, begin(clock)) {
        (Some(start), Some(end)) => nanoseconds(end.duration_since(start)),
        _ => 0,
    }
}
