ghost use Rattle.std.specs.Prelude.{◌≡◌, ◌↔◌, length, IsTrue, IsFalse, ◌+◌, ◌<◌, ◌≤◌, ◌++◌, ◌∷◌, [], ◌<ℤ◌, ◌≤ℤ◌, vec_len, IsOk, IsErr, IfOk, OnOk, OnErr};
ghost use Rattle.timing_wheel.specs.Alarms.{by_deadline, due_by, due_after, but, keys_of, first_due, IsPending, AllStay, OneLeaves};

use crate::levels::Levels;
use crate::ticks::{tick_of, time_of};
use std::alloc::{AllocError, Global};
use std::marker::Model;

/// Pending alarms, each a key with the time at which it is due. Times are in nanoseconds.
///
/// The alarms stand in slots on eight levels, so that adding and removing one takes constant time, and moving the time on takes
/// time only for alarms that are due or come to a lower level, however far it moves.
pub struct Wheel {
    levels: Levels,
}

// (written out: whoever drops one proves one call, and no drop of its parts)
impl Drop for Wheel {
    fn drop(self) {
        let Wheel { levels } = self;
        drop(levels);
    }
}

impl Model for Wheel {
    ghost use Rattle.timing_wheel.specs.Alarms.{Wheel as Seen, time_at, alarms_of};

    ghost Value = { Seen };

    ghost view = { λ w. record { time = time_at w.levels.time; alarms = alarms_of w.levels.timers; spare = w.levels.spare } };
}

impl Wheel {
    /// A wheel without alarms, at a time in nanoseconds. This takes no memory: the first alarm makes the slots.
    pub fn new(alloc: Global, now: i64) -> Wheel
        ensures time { result.time ≡ now }
        ensures none { result.alarms ≡ [] }
        ensures spare { result.spare ≡ 0 }
    {
        Wheel {
            levels: Levels::new(alloc, tick_of(now)),
        }
    }

    /// The time, in nanoseconds.
    pub fn time(&self) -> i64
        ensures { result ≡ self.now.time }
    {
        time_of(self.levels.now())
    }

    /// How many alarms are pending.
    pub fn len(&self) -> usize
        ensures { result ≡ length self.now.alarms }
    {
        self.levels.len()
    }

    /// Whether the key has an alarm pending.
    pub fn is_pending(&self, key: u64) -> bool
        ensures { IsTrue result ↔ IsPending self.now.alarms key }
    {
        self.levels.is_pending(key)
    }

    /// Adds an alarm for a key that has none pending, due at a later time in nanoseconds. Fails only for want of memory, never
    /// where the wheel has room to spare, and then nothing changes.
    pub fn add(&mut self, deadline: i64, key: u64) -> Result<(), AllocError>
        requires after { self.old.time <ℤ deadline }
        requires fresh { IsPending self.old.alarms key → ⊥ }
        ensures time { self.new.time ≡ self.old.time }
        ensures added { OnOk result (self.new.alarms ≡ by_deadline (self.old.alarms ++ record { deadline = deadline; key = key } ∷ [])) }
        ensures spare { OnOk result (self.old.spare ≤ self.new.spare + 1) }
        ensures err { OnErr result (self.new ≡ self.old) }
        ensures succeeds { 0 < self.old.spare → IsOk result }
    {
        self.levels.add(tick_of(deadline), key)
    }

    /// Takes off the pending alarm of a key. This takes no memory.
    pub fn remove(&mut self, key: u64)
        requires pending { IsPending self.old.alarms key }
        ensures time { self.new.time ≡ self.old.time }
        ensures off { self.new.alarms ≡ but key self.old.alarms }
        ensures spare { self.new.spare ≡ self.old.spare + 1 }
    {
        self.levels.remove(key);
    }

    /// Whether moving the time on to one in nanoseconds, not before the present one, leaves each alarm in its slot, so that none is
    /// due by then. False just where one leaves it. Only one alarm is looked at.
    pub fn is_quiet(&self, to: i64) -> bool
        requires forward { self.now.time ≤ℤ to }
        ensures quiet { IsTrue result → due_by to self.now.alarms ≡ [] }
        ensures stays { IsTrue result → AllStay self.now to }
        ensures leaves { IsFalse result → OneLeaves self.now to }
    {
        self.levels.is_quiet(tick_of(to))
    }

    /// Moves the time on to one in nanoseconds, not before the present one. The keys of the alarms that are due by then are put
    /// behind those of the list, by deadline and then in order of adding, and these alarms are taken off. Fails only where an
    /// alarm leaves its slot and the list can't have room for as many keys as there are alarms, and then nothing changes.
    pub fn advance(&mut self, to: i64, due: &mut Vec<u64>) -> Result<(), AllocError>
        requires forward { self.old.time ≤ℤ to }
        ensures time { OnOk result (self.new.time ≡ to) }
        ensures due { OnOk result (due.new.items ≡ due.old.items ++ keys_of (due_by to self.old.alarms)) }
        ensures rest { OnOk result (self.new.alarms ≡ due_after to self.old.alarms) }
        ensures spare { self.new.spare + vec_len due.old ≡ self.old.spare + vec_len due.new }
        ensures err { OnErr result (self.new ≡ self.old) }
        ensures err_due { OnErr result (due.new.items ≡ due.old.items) }
        ensures memory { IsErr result → OneLeaves self.old to }
    {
        self.levels.advance(tick_of(to), due)
    }

    /// When the first alarm is due, in nanoseconds, or none where no alarm is pending. Only the alarms of one slot are looked at.
    pub fn next_due(&self) -> Option<i64>
        ensures { result ≡ first_due self.now.alarms }
    {
        let tick = self.levels.next_due()?;
        Some(time_of(tick))
    }
}
