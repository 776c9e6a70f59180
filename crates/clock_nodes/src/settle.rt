//! Alarms, which are set for a node, taken off with it, and set anew once they were due.
ghost use Rattle.std.specs.Prelude.{◌≡◌, ◌+◌, ◌<◌, ◌≤◌, ◌≤ℤ◌, ◌<ℤ◌, IfSome, IfNone, IsOk, IsErr, OnOk, OnErr, ◌++◌, ◌∷◌, [], ℕ, pos, length, IsTrue, IsFalse, vec_len, vec_capacity};
ghost use Rattle.timing_wheel.specs.Alarms.{by_deadline, but, due_by, keys_of, OneLeaves, IsPending};
ghost use Rattle.clock_nodes.specs.Keeping.{IsAwake, TellsOne, TellsDue, WereTimed};

use crate::generations::Generations;
use crate::watch::Watch;
use inc_value::NodeId;
use std::alloc::AllocError;
use std::collections::HashMap;
use timing_wheel::Wheel;

/// Takes the last key off those that were due. Its node is put behind a list where it shows another value than before,
/// and its alarm is set anew, where it may come to show yet another. False where no key is left.
fn settle_last(
    rows: &HashMap<u64, Watch, Generations>,
    wheel: &mut Wheel,
    due: &mut Vec<u64>,
    before: i64,
    stale: &mut Vec<NodeId>,
) -> bool
    requires awake { IsAwake rows.now.entries wheel.old due.old.items }
    requires timed { WereTimed rows.now.entries before }
    requires positive { pos 0 ≤ℤ before }
    requires forward { before ≤ℤ wheel.old.time }
    requires spare { vec_len due.old ≤ wheel.old.spare }
    requires room { vec_len stale.old + vec_len due.old ≤ vec_capacity stale.old }
    ensures awake { IsAwake rows.now.entries wheel.new due.new.items }
    ensures time { wheel.new.time ≡ wheel.old.time }
    ensures spare { vec_len due.new ≤ wheel.new.spare }
    ensures room { vec_len stale.new + vec_len due.new ≤ vec_capacity stale.new }
    ensures told { IsTrue result → (key : ℕ) × (due.old.items ≡ due.new.items ++ key ∷ [])
        × TellsOne rows.now.entries before wheel.old.time key stale.old.items stale.new.items }
    ensures none { IsFalse result → due.old.items ≡ [] }
    ensures same { IsFalse result → stale.new.items ≡ stale.old.items }
    ensures unchanged { IsFalse result → due.new.items ≡ due.old.items }
{
    let Some(key) = due.pop() else {
        return false;
    };
    let time = wheel.time();
    let watch = rows.get(&key).unwrap();
    if watch.is_changed(before, time) {
        stale.push_reserved(NodeId {
            slot: watch.slot(),
            gen_: key,
        });
    }
    let armed: Result<_, _> = arm(wheel, key, watch.next_change(time));
    armed.unwrap();
    true
}

/// Makes room in a list for the nodes whose alarms are due by a time, where some may be. This takes memory only where an alarm
/// leaves its slot.
pub(crate) fn make_room(wheel: &Wheel, to: i64, list: &mut Vec<NodeId>) -> Result<(), AllocError>
    requires forward { wheel.now.time ≤ℤ to }
    ensures items { list.new.items ≡ list.old.items }
    ensures memory { IsErr result → OneLeaves wheel.now to }
    ensures room { OnOk result (vec_len list.new + length (keys_of (due_by to wheel.now.alarms)) ≤ vec_capacity list.new) }
{
    if wheel.is_quiet(to) {
        return Ok(());
    }
    list.reserve(wheel.len())
}

/// Sets a key's alarm, where there is a time for it. Fails only for want of memory, never where there is room to spare, and then
/// nothing changes.
pub(crate) fn arm(wheel: &mut Wheel, key: u64, deadline: Option<i64>) -> Result<(), AllocError>
    requires later { IfSome deadline (λ t. wheel.old.time <ℤ t) }
    requires fresh { IsPending wheel.old.alarms key → ⊥ }
    ensures time { wheel.new.time ≡ wheel.old.time }
    ensures set { OnOk result (IfSome deadline (λ t. wheel.new.alarms ≡ by_deadline (wheel.old.alarms ++ record { deadline = t; key = key } ∷ []))) }
    ensures none { IfNone deadline (wheel.new.alarms ≡ wheel.old.alarms) }
    ensures spare { OnOk result (wheel.old.spare ≤ wheel.new.spare + 1) }
    ensures succeeds { 0 < wheel.old.spare → IsOk result }
    ensures err { OnErr result (wheel.new ≡ wheel.old) }
{
    match deadline {
        Some(deadline) => wheel.add(deadline, key),
        None => Ok(()),
    }
}

/// Takes a key's alarm off, where it has one. This takes no memory.
pub(crate) fn disarm(wheel: &mut Wheel, key: u64)
    ensures time { wheel.new.time ≡ wheel.old.time }
    ensures off { wheel.new.alarms ≡ but key wheel.old.alarms }
{
    if wheel.is_pending(key) {
        wheel.remove(key);
    }
}

/// Settles all keys that were due.
pub(crate) fn settle_due(
    rows: &HashMap<u64, Watch, Generations>,
    wheel: &mut Wheel,
    due: &mut Vec<u64>,
    before: i64,
    stale: &mut Vec<NodeId>,
)
    requires awake { IsAwake rows.now.entries wheel.old due.old.items }
    requires timed { WereTimed rows.now.entries before }
    requires positive { pos 0 ≤ℤ before }
    requires forward { before ≤ℤ wheel.old.time }
    requires spare { vec_len due.old ≤ wheel.old.spare }
    requires room { vec_len stale.old + vec_len due.old ≤ vec_capacity stale.old }
    ensures awake { IsAwake rows.now.entries wheel.new [] }
    ensures time { wheel.new.time ≡ wheel.old.time }
    ensures none { due.new.items ≡ [] }
    ensures told { TellsDue rows.now.entries before wheel.old.time due.old.items [] stale.old.items stale.new.items }
{
    while settle_last(rows, wheel, due, before, stale) {}
}
