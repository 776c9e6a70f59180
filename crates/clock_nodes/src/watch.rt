//! Nodes that are watched.
ghost use Rattle.std.specs.Prelude.{◌≡◌, ◌<◌, ◌≤ℤ◌, ◌↔◌, ◌≢◌, ℕ, pos, cond, nat_eq, true, Some, IsTrue, IfOk};
ghost use Rattle.std.specs.HashMap.{spare};
ghost use Rattle.inc_terms.specs.Clock.{clock_value, reads_clock, IsNextChange, IsTimed};
ghost use Rattle.inc_terms.specs.Code.{def_of};
ghost use Rattle.inc_terms.specs.Graph.{Every, Steps};
ghost use Rattle.clock_nodes.specs.Clock.{row_at};
ghost use Rattle.clock_nodes.specs.Kinds.{kind_def, watch_def, watch_slot};

use crate::generations::Generations;
use inc_terms::{Def, StepList};
use inc_value::Value;
use std::alloc::{AllocError, Global};
use std::collections::HashMap;

/// A watched node, whose generation is its key. Most wait for one time in a slot that is a small number, and what else
/// there is to keep of others is kept apart, so that a watched node takes little room.
#[derive(Drop)]
pub(crate) enum Watch {
    Waits { slot: u32, until: i64 },
    Other(Box<Apart>),
}

/// What is kept apart of a watched node: where it stands, and what it is.
#[derive(Drop)]
pub(crate) struct Apart {
    pub(crate) slot: usize,
    pub(crate) kind: Kind,
}

/// What a node is that reads the clock.
#[derive(Drop)]
pub(crate) enum Kind {
    At(i64),
    Now,
    Every { base: i64, span: u64 },
    Steps(Box<Def>),
}

impl Watch {
    /// A node that reads the clock. Only one that waits for a time in a slot that is a small number needs no memory.
    pub(crate) fn of(alloc: Global, slot: usize, def: &Def) -> Result<Watch, AllocError>
        requires { reads_clock (def_of def.now) ≡ true }
        ensures def { IfOk result (λ w. watch_def w ≡ def_of def.now) }
        ensures slot { IfOk result (λ w. watch_slot w ≡ slot) }
    {
        if let Def::At(until) = def {
            if slot <= u32::MAX as usize {
                return Ok(Watch::Waits {
                    slot: slot as u32,
                    until: *until,
                });
            }
        }
        let kind = Kind::of(alloc, def)?;
        let apart = Box::new(alloc, Apart { slot, kind })?;
        Ok(Watch::Other(apart))
    }

    /// The slot in which the node stands.
    pub(crate) fn slot(&self) -> usize
        ensures { result ≡ watch_slot self.now }
    {
        match self {
            Watch::Waits { slot, .. } => *slot as usize,
            Watch::Other(apart) => apart.slot,
        }
    }

    /// Whether the node shows another value at a time than at one before.
    pub(crate) fn is_changed(&self, before: i64, time: i64) -> bool
        requires timed { IsTimed before (watch_def self.now) }
        requires before { pos 0 ≤ℤ before }
        requires time { before ≤ℤ time }
        ensures { IsTrue result ↔ (clock_value time (watch_def self.now) ≢ clock_value before (watch_def self.now)) }
    {
        match self {
            Watch::Waits { until, .. } => changes(Def::At(*until), before, time),
            Watch::Other(apart) => apart.kind.is_changed(before, time),
        }
    }

    /// The time up to which the node goes on to show what it shows at present. Without one it does so for good.
    pub(crate) fn next_change(&self, time: i64) -> Option<i64>
        requires timed { IsTimed time (watch_def self.now) }
        requires time { pos 0 ≤ℤ time }
        ensures { IsNextChange time (watch_def self.now) result }
    {
        match self {
            Watch::Waits { until, .. } => next(Def::At(*until), time),
            Watch::Other(apart) => apart.kind.next_change(time),
        }
    }
}

impl Kind {
    /// What the definition of a node says that reads the clock. Spans and steps need memory.
    pub(crate) fn of(alloc: Global, def: &Def) -> Result<Kind, AllocError>
        requires { reads_clock (def_of def.now) ≡ true }
        ensures { IfOk result (λ k. kind_def k ≡ def_of def.now) }
    {
        match def {
            Def::At(time) => Ok(Kind::At(*time)),
            Def::Steps(initial, steps) => steps_of(alloc, initial, steps),
            Def::Every { base, span } => Ok(Kind::Every {
                base: *base,
                span: *span,
            }),
            _ => Ok(Kind::Now),
        }
    }

    /// Whether the node shows another value at a time than at one before.
    pub(crate) fn is_changed(&self, before: i64, time: i64) -> bool
        requires timed { IsTimed before (kind_def self.now) }
        requires before { pos 0 ≤ℤ before }
        requires time { before ≤ℤ time }
        ensures { IsTrue result ↔ (clock_value time (kind_def self.now) ≢ clock_value before (kind_def self.now)) }
    {
        match self {
            Kind::At(from) => changes(Def::At(*from), before, time),
            Kind::Now => changes(Def::Now, before, time),
            Kind::Every { base, span } => changes(every(*base, *span), before, time),
            Kind::Steps(def) => def.is_changed(before, time),
        }
    }

    /// The time up to which the node goes on to show what it shows at present. Without one it does so for good.
    pub(crate) fn next_change(&self, time: i64) -> Option<i64>
        requires timed { IsTimed time (kind_def self.now) }
        requires time { pos 0 ≤ℤ time }
        ensures { IsNextChange time (kind_def self.now) result }
    {
        match self {
            Kind::At(from) => next(Def::At(*from), time),
            Kind::Now => next(Def::Now, time),
            Kind::Every { base, span } => next(every(*base, *span), time),
            Kind::Steps(def) => def.next_change(time),
        }
    }
}

fn every(base: i64, span: u64) -> Def
    ensures { def_of result ≡ Every base (pos span) }
{
    Def::Every { base, span }
}

fn changes(def: Def, before: i64, time: i64) -> bool
    requires timed { IsTimed before (def_of def) }
    requires before { pos 0 ≤ℤ before }
    requires time { before ≤ℤ time }
    ensures { IsTrue result ↔ (clock_value time (def_of def) ≢ clock_value before (def_of def)) }
{
    let changed = def.is_changed(before, time);
    drop(def);
    changed
}

fn next(def: Def, time: i64) -> Option<i64>
    requires timed { IsTimed time (def_of def) }
    requires time { pos 0 ≤ℤ time }
    ensures { IsNextChange time (def_of def) result }
{
    let until = def.next_change(time);
    drop(def);
    until
}

fn steps_of(alloc: Global, initial: &Value, steps: &StepList) -> Result<Kind, AllocError>
    ensures { IfOk result (λ k. kind_def k ≡ Steps initial.now steps.now) }
{
    let list = match steps.copy(alloc) {
        Ok(list) => list,
        Err(AllocError) => return Err(AllocError),
    };
    let value = match initial.copy(alloc) {
        Ok(value) => value,
        Err(AllocError) => {
            drop(list);
            return Err(AllocError);
        }
    };
    let def = Box::new(alloc, Def::Steps(value, list))?;
    Ok(Kind::Steps(def))
}

/// Keeps a node that isn't watched, where there is room to spare.
pub(crate) fn keep(rows: &mut HashMap<u64, Watch, Generations>, generation: u64, watch: Watch)
    requires spare { 0 < spare rows.old }
    ensures { (k : ℕ) → row_at rows.new.entries k ≡ cond (nat_eq generation k) (Some watch) (row_at rows.old.entries k) }
{
    let kept: Result<_, _> = rows.insert(generation, watch);
    let older = kept.unwrap();
    drop(older);
}
