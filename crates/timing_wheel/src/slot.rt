ghost use Rattle.std.specs.Prelude.{◌≡◌, ◌<◌};
ghost use Rattle.timing_wheel.specs.Slots.{slot};

/// The slot of a deadline after now: on the level of the highest byte in which the two differ, by that byte.
/// A level has 256 slots, and the levels follow each other.
pub(crate) fn slot_of(now: u64, deadline: u64) -> usize
    requires { now < deadline }
    ensures slot { result ≡ slot now deadline }
    ensures within { result < 2048 }
{
    let mut early = now;
    let mut late = deadline;
    let mut base = 0;
    while early / 256 != late / 256 {
        early /= 256;
        late /= 256;
        base += 256;
    }
    base + (late % 256) as usize
}
