ghost use Rattle.std.specs.Prelude.{◌≡◌, ◌↔◌, length, IsTrue, IsFalse, ℕ, ◌+◌, ◌<◌, ◌≤◌, ◌++◌, ◌∷◌, [], None, Some, IsSome, IsOk, IsErr, IfOk, OnOk, OnErr, map, vec_len};
ghost use Rattle.timing_wheel.specs.Timers.{Pending, by_deadline, due_by, due_after, but, keys_of, first_due, IsPending, AllStay, OneLeaves};

use crate::drain::{drain, earliest, first_filled, is_later, is_still, make_room};
use crate::places::{give_up, holds, keep, make_place};
use crate::slot::slot_of;
use index_lists::IndexLists;
use point_map::PointMap;
use std::alloc::{AllocError, Global};
use std::marker::Model;

/// A key with the tick at which it is due.
#[derive(Clone, Copy)]
pub(crate) struct Timer {
    pub(crate) deadline: u64,
    pub(crate) key: u64,
}

/// Timers in slots on eight levels. A contract sees them by deadline, those of one deadline in order of adding.
pub(crate) struct Levels {
    time: u64,
    // The slots below this one are empty.
    least: usize,
    lists: IndexLists<Timer>,
    places: PointMap<usize>,
}

// (written out: whoever drops one proves one call, and no drop of its parts)
impl Drop for Levels {
    fn drop(self) {
        let Levels {
            time: _,
            least: _,
            lists,
            places,
        } = self;
        drop(lists);
        drop(places);
    }
}

impl Model for Levels {
    ghost use Rattle.std.specs.Prelude.{◌≤◌, length};
    ghost use Rattle.timing_wheel.specs.Places.{place_of};
    ghost use Rattle.timing_wheel.specs.Timers.{Pending, by_deadline};
    ghost use Rattle.timing_wheel.specs.Levels.{timers_of, InPlace, IsKeyed, NoneBelow, AreMade};

    ghost Value = { Pending };

    ghost view = { λ w. record { time = w.time; timers = by_deadline (timers_of w.lists.lists); spare = w.lists.spare } };

    ghost invariant = { λ w.
        InPlace w.time w.lists
        × IsKeyed (place_of w.places) w.lists
        × NoneBelow w.lists w.least
        × (w.least ≤ length w.lists.lists)
        × AreMade w.lists
        × (w.lists.spare ≤ w.places.spare) };
}

impl Levels {
    /// No timers, and no slots yet. This takes no memory.
    pub(crate) fn new(alloc: Global, now: u64) -> Levels
        ensures now { result.time ≡ now }
        ensures none { result.timers ≡ [] }
        ensures spare { result.spare ≡ 0 }
    {
        Levels {
            time: now,
            least: 0,
            lists: IndexLists::new(alloc),
            places: PointMap::new(alloc),
        }
    }

    /// The present tick.
    pub(crate) fn now(&self) -> u64
        ensures { result ≡ self.now.time }
    {
        self.time
    }

    /// How many timers there are.
    pub(crate) fn len(&self) -> usize
        ensures { result ≡ length self.now.timers }
    {
        self.lists.len()
    }

    /// Whether the key has a timer.
    pub(crate) fn is_pending(&self, key: u64) -> bool
        ensures { IsTrue result ↔ IsPending self.now.timers key }
    {
        holds(&self.places, key)
    }

    /// Adds a timer for a key that has none. Without memory nothing changes.
    pub(crate) fn add(&mut self, deadline: u64, key: u64) -> Result<(), AllocError>
        requires after { self.old.time < deadline }
        requires fresh { IsPending self.old.timers key → ⊥ }
        ensures now { self.new.time ≡ self.old.time }
        ensures added { OnOk result (self.new.timers ≡ by_deadline (self.old.timers ++ record { deadline = deadline; key = key } ∷ [])) }
        ensures spare { OnOk result (self.old.spare ≤ self.new.spare + 1) }
        ensures err { OnErr result (self.new ≡ self.old) }
        ensures succeeds { 0 < self.old.spare → IsOk result }
    {
        make_place(&mut self.places)?;
        make_room(&mut self.lists)?;
        let slot = slot_of(self.time, deadline);
        let place = self.lists.push_back(slot, Timer { deadline, key });
        keep(&mut self.places, key, place);
        self.least = self.least.min(slot);
        Ok(())
    }

    /// Takes off the timer of a key.
    pub(crate) fn remove(&mut self, key: u64)
        requires pending { IsPending self.old.timers key }
        ensures now { self.new.time ≡ self.old.time }
        ensures off { self.new.timers ≡ but key self.old.timers }
        ensures spare { self.new.spare ≡ self.old.spare + 1 }
    {
        let place = give_up(&mut self.places, key);
        let _timer = self.lists.remove(place);
    }

    /// Whether moving now on to a tick leaves each timer in its slot, so that none is due by then. False just where one leaves it.
    pub(crate) fn is_quiet(&self, to: u64) -> bool
        requires forward { self.now.time ≤ to }
        ensures quiet { IsTrue result → due_by to self.now.timers ≡ [] }
        ensures stays { IsTrue result → AllStay self.now to }
        ensures leaves { IsFalse result → OneLeaves self.now to }
    {
        is_still(&self.lists, self.least, to)
    }

    /// Moves now on to a tick. The keys that are due by then are put behind those of a list, and their timers are taken off.
    /// Fails only where a timer leaves its slot and there is no memory for the keys, and then nothing changes.
    pub(crate) fn advance(&mut self, to: u64, due: &mut Vec<u64>) -> Result<(), AllocError>
        requires forward { self.old.time ≤ to }
        ensures now { OnOk result (self.new.time ≡ to) }
        ensures due { OnOk result (due.new.items ≡ due.old.items ++ keys_of (due_by to self.old.timers)) }
        ensures rest { OnOk result (self.new.timers ≡ due_after to self.old.timers) }
        ensures spare { self.new.spare + vec_len due.old ≡ self.old.spare + vec_len due.new }
        ensures err { OnErr result (self.new ≡ self.old) }
        ensures err_due { OnErr result (due.new.items ≡ due.old.items) }
        ensures memory { IsErr result → OneLeaves self.old to }
    {
        let first = first_filled(&self.lists, self.least);
        self.least = first;
        if is_still(&self.lists, first, to) {
            self.time = to;
            return Ok(());
        }
        due.reserve(self.lists.len())?;
        loop {
            let slot = first_filled(&self.lists, self.least);
            self.least = slot;
            if slot == self.lists.width() || is_later(&self.lists, slot, to) {
                break;
            }
            let tick = earliest(&self.lists, slot).min(to);
            self.time = tick;
            self.least = drain(&mut self.lists, &mut self.places, slot, tick, due);
        }
        self.time = to;
        Ok(())
    }

    /// When the first timer is due. None where there is no timer.
    pub(crate) fn next_due(&self) -> Option<u64>
        ensures { result ≡ first_due self.now.timers }
    {
        let slot = first_filled(&self.lists, self.least);
        if slot == self.lists.width() {
            return None;
        }
        Some(earliest(&self.lists, slot))
    }
}
