//! Watched observers: what is told of them, also of one that turns to Invalid, of one that is watched late, and of none that was
//! ended.

use inc_value::{NodeId, ObsId, Outcome, Value};
use observers::{Notice, Observers, Sight, Told, UseFault, ValueFault};
use std::alloc::Global;

/// Nodes that all show the same.
#[derive(Drop)]
struct Everywhere {
    outcome: Outcome,
}

impl Sight for Everywhere {
    ghost shows = { λ s n. s.outcome };

    fn outcome_of(&self, node: NodeId) -> Option<&Outcome> {
        let _node = node;
        Some(&self.outcome)
    }
}

const X: NodeId = NodeId { slot: 0, gen_: 0 };

const FIRST: ObsId = ObsId(0);

const SECOND: ObsId = ObsId(1);

const NONE: ObsId = ObsId(2);

/// A number as an outcome, where below 0 stands for Invalid.
fn outcome(number: i64) -> Outcome {
    if number < 0 {
        return Outcome::Invalid;
    }
    Outcome::Val(Value::Int(number))
}

/// The number of an outcome.
fn number(outcome: &Outcome) -> i64 {
    match outcome {
        Outcome::Val(Value::Int(number)) => *number,
        Outcome::Val(_) | Outcome::Invalid => -1,
    }
}

/// Whether a notice is of the observer, and tells of a change between numbers; -2 stands for none.
fn is_notice(notice: &Notice, observer: ObsId, old: i64, new: i64) -> bool {
    let (before, now) = match &notice.told {
        Told::Init(outcome) => (-2, number(outcome)),
        Told::Change(before, now) => (number(before), number(now)),
        Told::Invalid => (-2, -1),
    };
    notice.observer == observer && before == old && now == new
}

/// A round in which all nodes show the number: whether just these notices come.
fn tells(observers: &mut Observers, shown: i64, wanted: &[(ObsId, i64, i64)]) -> bool {
    let sight = Everywhere {
        outcome: outcome(shown),
    };
    observers.tell_all(&sight).is_ok() && are_notices(observers.notices(), wanted)
}

/// Whether these are the notices.
fn are_notices(notices: &[Notice], wanted: &[(ObsId, i64, i64)]) -> bool {
    if notices.len() != wanted.len() {
        return false;
    }
    for i in 0..notices.len() {
        let (observer, old, new) = wanted[i];
        if !is_notice(&notices[i], observer, old, new) {
            return false;
        }
    }
    true
}

/// What an observer shows.
fn shown(observers: &Observers, observer: ObsId) -> Result<i64, ValueFault> {
    match observers.value(observer) {
        Ok(outcome) => Ok(number(outcome)),
        Err(fault) => Err(fault),
    }
}

/// Whether two watched observers of a node are told of as they must be.
fn told_in_order(alloc: Global) -> bool {
    let mut observers = Observers::new(alloc);
    observers.observe(X) == Ok(FIRST)
        && observers.watch(FIRST).is_ok()
        && observers.watch(FIRST).is_ok()
        && observers.observe(X) == Ok(SECOND)
        && observers.watch(SECOND).is_ok()
        && observers.watch(NONE) == Err(UseFault::Unknown)
        && shown(&observers, FIRST) == Err(ValueFault::NotStabilized)
        && tells(&mut observers, 1, &[(FIRST, -2, 1), (SECOND, -2, 1)])
        && tells(&mut observers, 1, &[])
        && observers.end(FIRST) == Ok(X)
        && observers.end(FIRST) == Err(UseFault::Unknown)
        && tells(&mut observers, 2, &[(SECOND, 1, 2)])
        && shown(&observers, FIRST) == Err(ValueFault::Unknown)
        && shown(&observers, SECOND) == Ok(2)
}

/// Whether an observer that turns to Invalid is told of, and one that is watched late.
fn told_of_invalid(alloc: Global) -> bool {
    let mut observers = Observers::new(alloc);
    observers.observe(X) == Ok(FIRST)
        && observers.watch(FIRST).is_ok()
        && tells(&mut observers, 1, &[(FIRST, -2, 1)])
        && tells(&mut observers, -1, &[(FIRST, -2, -1)])
        && observers.observe(X) == Ok(SECOND)
        && tells(&mut observers, -1, &[])
        && observers.watch(SECOND).is_ok()
        && tells(&mut observers, -1, &[(SECOND, -2, -1)])
        && tells(&mut observers, 2, &[(FIRST, -1, 2), (SECOND, -1, 2)])
}

#[test]
fn watched_observers_are_told_of(rt: HostRuntime) {
    assert!(rt; told_in_order(rt.alloc()));
    assert!(rt; told_of_invalid(rt.alloc()));
}
