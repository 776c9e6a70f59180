//! Alarms of one slot, of the next level and of the highest; a removal; a jump to the greatest time. Nodes that read a clock.

use clock_nodes::{AdvanceFault, AfterFault, Clock};
use inc_terms::Def;
use inc_value::{NodeId, Value};
use std::alloc::{AllocError, Global};
use std::test::Fail;
use timing_wheel::Wheel;

#[test]
fn near_and_far(rt: HostRuntime) -> Result<(), Fail> {
    let alloc = rt.alloc();
    let mut due = Vec::new(alloc);
    let mut wheel = Wheel::new(alloc, 0);
    wheel.add(256, 1)?;
    wheel.add(255, 2)?;
    wheel.add(65536, 3)?;
    wheel.add(256, 4)?;
    wheel.advance(255, &mut due)?;
    assert_eq!(rt; due.as_slice(), [2].as_slice());
    wheel.advance(256, &mut due)?;
    assert_eq!(rt; due.as_slice(), [2, 1, 4].as_slice());
    assert_eq!(rt; wheel.next_due(), Some(65536));
    wheel.remove(3);
    wheel.advance(100000, &mut due)?;
    assert_eq!(rt; due.len(), 3);
    assert_eq!(rt; wheel.next_due(), None);
    Ok(())
}

#[test]
fn all_levels(rt: HostRuntime) -> Result<(), Fail> {
    let alloc = rt.alloc();
    let mut due = Vec::new(alloc);
    let mut wheel = Wheel::new(alloc, 0);
    wheel.add(4294967296, 1)?;
    wheel.add(16777216, 2)?;
    wheel.add(9223372036854775807, 3)?;
    wheel.advance(16777215, &mut due)?;
    assert_eq!(rt; due.len(), 0);
    wheel.advance(16777216, &mut due)?;
    assert_eq!(rt; due.as_slice(), [2].as_slice());
    assert_eq!(rt; wheel.next_due(), Some(4294967296));
    wheel.advance(9223372036854775807, &mut due)?;
    assert_eq!(rt; due.as_slice(), [2, 1, 3].as_slice());
    Ok(())
}

/// The first node counts spans of 10 seconds from 3 seconds on, the second waits for 5 seconds.
const EVERY: NodeId = NodeId { slot: 0, gen_: 0 };

const AT: NodeId = NodeId { slot: 1, gen_: 1 };

/// A clock at 3 seconds that watches both.
fn at_three_seconds(alloc: Global, stale: &mut Vec<NodeId>) -> Option<Clock> {
    let mut clock = Clock::new(alloc);
    match clock.advance(3_000_000_000, stale) {
        Ok(()) => {}
        Err(_) => return None,
    }
    let every = Def::Every {
        base: 3_000_000_000,
        span: 10_000_000_000,
    };
    match clock.watch_node(EVERY, &every) {
        Ok(()) => {}
        Err(AllocError) => return None,
    }
    match clock.watch_node(AT, &Def::At(5_000_000_000)) {
        Ok(()) => Some(clock),
        Err(AllocError) => None,
    }
}

/// Moves a clock on, and tells whether it then lists just these nodes.
fn lists(clock: &mut Clock, to: i64, stale: &mut Vec<NodeId>, wanted: &[NodeId]) -> bool {
    stale.clear();
    clock.advance(to, stale).is_ok() && stale.as_slice() == wanted
}

/// What a node shows that waits for a time.
fn has_come(clock: &Clock, time: i64) -> Option<bool> {
    match &clock.value_of(&Def::At(time)) {
        Ok(Some(Value::Bool(come))) => Some(*come),
        _ => None,
    }
}

/// What a node shows that shows the clock.
fn now(clock: &Clock) -> Option<i64> {
    match &clock.value_of(&Def::Now) {
        Ok(Some(Value::Int(time))) => Some(*time),
        _ => None,
    }
}

/// Whether nodes are listed and shown as they must, and one that was dropped isn't listed any more.
fn counted_and_reached(alloc: Global) -> bool {
    let mut stale = Vec::new(alloc);
    let Some(mut clock) = at_three_seconds(alloc, &mut stale) else {
        return false;
    };
    lists(&mut clock, 4_999_999_999, &mut stale, &[])
        && has_come(&clock, 5_000_000_000) == Some(false)
        && lists(&mut clock, 12_000_000_000, &mut stale, &[AT])
        && has_come(&clock, 12_000_000_000) == Some(true)
        && now(&clock) == Some(12_000_000_000)
        && lists(&mut clock, 13_000_000_000, &mut stale, &[EVERY])
        && clock.advance(12_000_000_000, &mut stale) == Err(AdvanceFault::Back)
        && clock.now() == 13_000_000_000
        && clock.after(7) == Ok(13_000_000_007)
        && clock.after(u64::MAX) == Err(AfterFault::Range)
        && forgets(&mut clock, EVERY)
        && lists(&mut clock, 23_000_000_000, &mut stale, &[])
}

/// Whether a watched node isn't watched once it is dropped.
fn forgets(clock: &mut Clock, node: NodeId) -> bool {
    if !clock.is_watched(node) {
        return false;
    }
    clock.drop_node(node);
    !clock.is_watched(node)
}

#[test]
fn clock_lists_what_changes(rt: HostRuntime) {
    assert!(rt; counted_and_reached(rt.alloc()));
}
