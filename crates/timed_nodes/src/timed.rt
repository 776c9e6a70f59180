//! The nodes that read the clock.
ghost use Rattle.std.specs.Prelude.{◌≡◌, ◌↔◌, ◌+◌, ◌++◌, ◌∷◌, ◌+ℤ◌, ◌<ℤ◌, ◌≤ℤ◌, pos, None, IfOk, IfSome, IfNone, OnOk, OnErr, IsErr, []};
ghost use Rattle.inc_value.specs.declared.node.NodeId.{NodeId};
ghost use Rattle.inc_terms.specs.Clock.{IsTimed};
ghost use Rattle.inc_terms.specs.Code.{def_of};
ghost use Rattle.clock_nodes.specs.Clock.{watched, IsFree, KeepsWatched, ListsStale};
ghost use Rattle.node_arena.specs.Sound.{IsSoundArena, IsFirstSince};
ghost use Rattle.timed_nodes.specs.Timed.{AreTakenIn, Forgets, KeepsClock, WatchesTimed};

use clock_nodes::{AfterFault, Clock};
use inc_terms::Def;
use inc_value::NodeId;
use node_arena::Arena;
use std::alloc::{AllocError, Global};
use std::marker::Model;

/// The nodes of an arena that read the clock, and its time. A new node is taken in when the time moves on for the first
/// time, and one that is dropped is forgotten.
pub struct TimedNodes {
    clock: Clock,
    /// The nodes of lesser generations were taken in.
    taken: u64,
    /// The nodes that a move of the time has found.
    stale: Vec<NodeId>,
}

// (written out: whoever drops one proves one call, and no drop of its parts)
impl Drop for TimedNodes {
    fn drop(self) {
        let TimedNodes {
            clock,
            taken: _,
            stale,
        } = self;
        drop(clock);
        drop(stale);
    }
}

impl Model for TimedNodes {
    ghost use Rattle.timed_nodes.specs.Timed.{Timed};

    ghost Value = { Timed };

    ghost view = { λ t. record { clock = t.clock; taken = t.taken; stale = t.stale.items } };
}

impl TimedNodes {
    /// No nodes, at time 0. This takes no memory.
    pub fn new(alloc: Global) -> TimedNodes
        ensures time { result.clock.time ≡ pos 0 }
        ensures none { (n : NodeId) → watched result.clock n ≡ None }
        ensures taken { result.taken ≡ 0 }
        ensures stale { result.stale ≡ [] }
    {
        TimedNodes {
            clock: Clock::new(alloc),
            taken: 0,
            stale: Vec::new(alloc),
        }
    }

    /// The time that is a span after the present one, both in nanoseconds. None is past the greatest.
    pub fn after(&self, span: u64) -> Result<i64, AfterFault>
        ensures ok { IfOk result (λ t. t ≡ (self.now.clock.time +ℤ pos span)) }
        ensures range { IsErr result ↔ (pos 9223372036854775807 <ℤ (self.now.clock.time +ℤ pos span)) }
    {
        self.clock.after(span)
    }

    /// Takes in the nodes that are new. Without memory some are taken in.
    pub fn take_in(&mut self, arena: &Arena) -> Result<(), AllocError>
        requires kept { KeepsClock arena.now self.old }
        requires sound { IsSoundArena arena.now }
        ensures kept { KeepsClock arena.now self.new }
        ensures all { OnOk result (AreTakenIn arena.now self.new) }
    {
        while let Some(node) = arena.first_since(self.taken) {
            self.take_one(arena, node)?;
        }
        Ok(())
    }

    /// Takes in the first of the nodes that are new.
    fn take_one(&mut self, arena: &Arena, node: NodeId) -> Result<(), AllocError>
        requires kept { KeepsClock arena.now self.old }
        requires sound { IsSoundArena arena.now }
        requires first { IsFirstSince arena.now self.old.taken node }
        ensures kept { KeepsClock arena.now self.new }
        ensures taken { OnOk result (self.new.taken ≡ node.gen_ + 1) }
    {
        match arena.get(node) {
            Some(row) => match watch(&mut self.clock, node, &row.def) {
                Ok(()) => {
                    self.taken = node.gen_ + 1;
                    Ok(())
                }
                Err(AllocError) => Err(AllocError),
            },
            None => Ok(()),
        }
    }

    /// A node is no longer watched. This takes no memory.
    pub fn forget(&mut self, node: NodeId)
        ensures { Forgets self.old self.new node }
    {
        if self.clock.is_watched(node) {
            self.clock.drop_node(node);
        }
    }

    /// Moves the time on to one in nanoseconds, not before the present one, and finds the nodes that show another value
    /// then. Fails only for want of memory, and then nothing changes.
    pub fn move_to(&mut self, to: i64) -> Result<(), AllocError>
        requires forward { self.old.clock.time ≤ℤ to }
        requires none { self.old.stale ≡ [] }
        ensures time { OnOk result (self.new.clock.time ≡ to) }
        ensures watched { KeepsWatched self.old.clock self.new.clock }
        ensures stale { OnOk result (ListsStale self.old.clock self.old.clock.time to [] self.new.stale) }
        ensures taken { self.new.taken ≡ self.old.taken }
        ensures err { OnErr result (self.new ≡ self.old) }
    {
        match self.clock.advance(to, &mut self.stale) {
            Ok(()) => Ok(()),
            Err(_) => Err(AllocError),
        }
    }

    /// Takes the last of the nodes that a move of the time has found. None where none is left.
    pub fn next_stale(&mut self) -> Option<NodeId>
        ensures some { IfSome result (λ node. self.old.stale ≡ self.new.stale ++ node ∷ []) }
        ensures none { IfNone result (self.old.stale ≡ []) }
        ensures same { IfNone result (self.new ≡ self.old) }
        ensures rest { self.new ≡ record self.old { stale = self.new.stale } }
    {
        self.stale.pop()
    }
}

/// Watches a node, if it reads the clock. Without memory the same nodes are watched as before.
fn watch(clock: &mut Clock, node: NodeId, def: &Def) -> Result<(), AllocError>
    requires free { IsFree clock.old node }
    requires timed { IsTimed clock.old.time (def_of def.now) }
    ensures time { clock.new.time ≡ clock.old.time }
    ensures watched { OnOk result (WatchesTimed clock.old clock.new node (def_of def.now)) }
    ensures err { OnErr result (KeepsWatched clock.old clock.new) }
{
    if def.reads_clock() {
        clock.watch_node(node, def)
    } else {
        Ok(())
    }
}
