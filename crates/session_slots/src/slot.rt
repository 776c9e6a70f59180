//! Slots, in which callers keep their sessions.
ghost use Rattle.std.specs.Prelude.{◌≡◌, ◌<◌, None};
ghost use Rattle.session_slots.specs.Handles.{IsHeld};

mod calls;

use crate::handle::Handle;

/// Where a caller keeps a session: all zeros where it has none.
#[repr(C)]
pub struct Slot {
    live: u64,
    handle: Handle,
    ghost held: { 0 < live → IsHeld handle.value },
    ghost none: { live ≡ 0 → handle.value ≡ None },
}
