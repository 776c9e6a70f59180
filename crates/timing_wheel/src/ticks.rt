ghost use Rattle.std.specs.Prelude.{◌≡◌, ◌+ℤ◌, ◌-ℤ◌, ◌^◌, pos};
ghost use Rattle.timing_wheel.specs.Alarms.{time_at};

// How far the least time is below 0.
const BELOW: i128 = 0x8000_0000_0000_0000;

/// How far a time is above the least one.
pub(crate) fn tick_of(time: i64) -> u64
    ensures { time_at result ≡ time }
{
    (i128::from(time) + BELOW) as u64
}

/// The time that is so far above the least one.
pub(crate) fn time_of(tick: u64) -> i64
    ensures { result ≡ time_at tick }
{
    (i128::from(tick) - BELOW) as i64
}
