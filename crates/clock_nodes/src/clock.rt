//! The time, and the nodes that read it.
ghost use Rattle.std.specs.Prelude.{◌≡◌, ◌≢◌, ◌↔◌, ◌+ℤ◌, ◌<ℤ◌, pos, true, None, Some, IsSome, is_some, IsOk, IsErr, IsErrOf, IfOk, OnOk, OnErr};
ghost use Rattle.inc_terms.specs.Clock.{clock_value, reads_clock, IsTimed};
ghost use Rattle.inc_terms.specs.Code.{def_of};
ghost use Rattle.inc_value.specs.Value.{type_of};
ghost use Rattle.inc_value.specs.declared.node.NodeId.{NodeId};
ghost use Rattle.inc_value.specs.declared.ty.Ty.TheVariants as ty;
ghost use Rattle.inc_value.specs.declared.value.Value.{Value as AValue};
ghost use Rattle.clock_nodes.specs.Clock.{watched, IsFree, KeepsWatched, ListsStale, MayYetTurn, Watches};

use crate::generations::Generations;
use crate::settle::{arm, disarm, make_room, settle_due};
use crate::watch::{Watch, keep};
use inc_terms::Def;
use inc_value::{NodeId, Value};
use std::alloc::{AllocError, Global};
use std::collections::HashMap;
use std::marker::Model;
use timing_wheel::Wheel;

/// Why the time isn't moved on.
#[derive(Clone, Copy, PartialEq, Eq)]
pub enum AdvanceFault {
    /// The time asked for is before the present one.
    Back,
    /// There is no memory for the list.
    Memory,
}

/// Why there is no such time.
#[derive(Clone, Copy, PartialEq, Eq)]
pub enum AfterFault {
    /// It is past the greatest.
    Range,
}

/// The time, and the nodes that read it. Each has an alarm for when it may come to show another value, so moving the time
/// on looks at those alone whose alarms are due, however far it moves. Times are in nanoseconds, from 0 on.
pub struct Clock {
    alloc: Global,
    // The watched nodes, by generation.
    rows: HashMap<u64, Watch, Generations>,
    // Alarms, whose keys are the generations.
    wheel: Wheel,
    // The keys whose alarms were due. None between any two calls.
    due: Vec<u64>,
}

// (written out: whoever drops one proves one call, and no drop of its parts)
impl Drop for Clock {
    fn drop(self) {
        let Clock {
            alloc: _,
            rows,
            wheel,
            due,
        } = self;
        drop(rows);
        drop(wheel);
        drop(due);
    }
}

impl Model for Clock {
    ghost use Rattle.std.specs.Prelude.{◌≡◌, []};
    ghost use Rattle.clock_nodes.specs.Clock.{Clock as Seen};
    ghost use Rattle.clock_nodes.specs.Keeping.{IsAwake};

    ghost Value = { Seen };

    ghost view = { λ c. record { time = c.wheel.time; rows = c.rows.entries } };

    ghost invariant = { λ c. IsAwake c.rows.entries c.wheel [] × (c.due.items ≡ []) };
}

impl Clock {
    /// No nodes, at time 0. This takes no memory.
    pub fn new(alloc: Global) -> Clock
        ensures time { result.time ≡ pos 0 }
        ensures none { (n : NodeId) → watched result n ≡ None }
    {
        Clock {
            alloc,
            rows: HashMap::with_hasher(alloc, Generations::new()),
            wheel: Wheel::new(alloc, 0),
            due: Vec::new(alloc),
        }
    }

    /// The time, in nanoseconds.
    pub fn now(&self) -> i64
        ensures { result ≡ self.now.time }
    {
        self.wheel.time()
    }

    /// Whether the node is watched.
    pub fn is_watched(&self, id: NodeId) -> bool
        ensures { result ≡ is_some (watched self.now id) }
    {
        match self.rows.get(&id.gen_) {
            Some(watch) => watch.slot() == id.slot,
            None => false,
        }
    }

    /// Watches a node that reads the clock, where none of its generation is watched. Fails only for want of memory, and then
    /// the same nodes are watched as before.
    pub fn watch_node(&mut self, id: NodeId, def: &Def) -> Result<(), AllocError>
        requires free { IsFree self.old id }
        requires reads { reads_clock (def_of def.now) ≡ true }
        requires timed { IsTimed self.old.time (def_of def.now) }
        ensures time { self.new.time ≡ self.old.time }
        ensures watched { OnOk result (Watches self.old self.new id (Some (def_of def.now))) }
        ensures err { OnErr result (KeepsWatched self.old self.new) }
    {
        self.rows.reserve(1)?;
        let watch = Watch::of(self.alloc, id.slot, def)?;
        let next = watch.next_change(self.wheel.time());
        match arm(&mut self.wheel, id.gen_, next) {
            Ok(()) => {
                keep(&mut self.rows, id.gen_, watch);
                Ok(())
            }
            Err(AllocError) => {
                drop(watch);
                Err(AllocError)
            }
        }
    }

    /// A node is no longer watched. This takes no memory.
    pub fn drop_node(&mut self, id: NodeId)
        requires there { IsSome (watched self.old id) }
        ensures time { self.new.time ≡ self.old.time }
        ensures dropped { Watches self.old self.new id None }
    {
        disarm(&mut self.wheel, id.gen_);
        let watch = self.rows.remove(&id.gen_);
        drop(watch);
    }

    /// Moves the time on, or leaves it where it is. Just the watched nodes that show another value then than now are put
    /// behind those of a list, each once, in no promised order. Fails only where the time is before the present one, or
    /// there is no memory for the list, and then nothing changes. Memory is needed only where a watched node may
    /// come to show another value after the present time.
    pub fn advance(&mut self, to: i64, stale: &mut Vec<NodeId>) -> Result<(), AdvanceFault>
        ensures back { IsErrOf result AdvanceFault.Back ↔ (to <ℤ self.old.time) }
        ensures memory { IsErrOf result AdvanceFault.Memory → MayYetTurn self.old }
        ensures time { OnOk result (self.new.time ≡ to) }
        ensures watched { KeepsWatched self.old self.new }
        ensures stale { OnOk result (ListsStale self.old self.old.time to stale.old.items stale.new.items) }
        ensures err { OnErr result (self.new ≡ self.old) }
        ensures err_stale { OnErr result (stale.new.items ≡ stale.old.items) }
    {
        let before = self.wheel.time();
        if to < before {
            return Err(AdvanceFault::Back);
        }
        match make_room(&self.wheel, to, stale) {
            Ok(()) => {}
            Err(AllocError) => return Err(AdvanceFault::Memory),
        }
        match self.wheel.advance(to, &mut self.due) {
            Ok(()) => {
                settle_due(&self.rows, &mut self.wheel, &mut self.due, before, stale);
                Ok(())
            }
            Err(AllocError) => Err(AdvanceFault::Memory),
        }
    }

    /// The value that a node shows at present by the clock alone. Only a text needs memory.
    pub fn value_of(&self, def: &Def) -> Result<Option<Value>, AllocError>
        requires timed { IsTimed self.now.time (def_of def.now) }
        ensures ok { IfOk result (λ found. found ≡ clock_value self.now.time (def_of def.now)) }
        ensures scalar { (v : AValue) → clock_value self.now.time (def_of def.now) ≡ Some v → type_of v ≢ ty.Text → IsOk result }
    {
        def.clock_value(self.alloc, self.wheel.time())
    }

    /// The time that is a span after the present one. None is past the greatest.
    pub fn after(&self, span: u64) -> Result<i64, AfterFault>
        ensures ok { IfOk result (λ t. t ≡ (self.now.time +ℤ pos span)) }
        ensures range { IsErr result ↔ (pos 9223372036854775807 <ℤ (self.now.time +ℤ pos span)) }
    {
        self.wheel
            .time()
            .checked_add_unsigned(span)
            .ok_or(AfterFault::Range)
    }
}
