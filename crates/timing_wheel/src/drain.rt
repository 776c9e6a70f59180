ghost use Rattle.std.specs.Prelude.{◌≡◌, ℕ, ◌+◌, ◌<◌, ◌≤◌, ◌^◌, true, false, List, ◌++◌, length, ◌⊎◌, ◌≢◌, OnOk, OnErr, IsOk, IsTrue, IsFalse, OnSome, IfSome, IfNone, [], vec_len, vec_capacity};
ghost use Rattle.timing_wheel.specs.Places.{place_of};
ghost use Rattle.index_lists.specs.Lists.{count, list_at, Has};
ghost use Rattle.timing_wheel.specs.Slots.{slot};
ghost use Rattle.timing_wheel.specs.declared.levels.Timer.{Timer};
ghost use Rattle.timing_wheel.specs.Levels.{NoneBelow, IsFilled, IsDrained, KeepsLater, fired, IsFirstLater, InPlace, MovesOne, KeepsTimers, AreMade};

use crate::levels::Timer;
use crate::places::give_up;
use crate::slot::slot_of;
use index_lists::IndexLists;
use point_map::PointMap;
use std::alloc::AllocError;

/// How many slots there are, on all levels.
pub(crate) const SLOTS: usize = 2048;

/// Makes the slots, where they aren't made yet, and room for one more timer.
pub(crate) fn make_room(lists: &mut IndexLists<Timer>) -> Result<(), AllocError>
    ensures timers { KeepsTimers lists.old lists.new }
    ensures width { OnOk result (2048 ≤ length lists.new.lists) }
    ensures room { OnOk result (1 ≤ lists.new.spare) }
    ensures made { AreMade lists.old → AreMade lists.new }
    ensures spare { lists.old.spare ≤ lists.new.spare }
    ensures exact { (lists.new.spare ≡ lists.old.spare) ⊎ (lists.new.spare ≡ 1) }
    ensures err_spare { OnErr result (lists.new.spare ≡ lists.old.spare) }
    ensures succeeds { 2048 ≤ length lists.old.lists → 0 < lists.old.spare → IsOk result }
{
    lists.widen(SLOTS)?;
    lists.reserve(1)
}

/// The first slot that isn't empty, from one on below which all are. Where all are empty, their number.
pub(crate) fn first_filled(lists: &IndexLists<Timer>, least: usize) -> usize
    requires below { NoneBelow lists.now least }
    requires within { least ≤ length lists.now.lists }
    ensures below { NoneBelow lists.now result }
    ensures within { result ≤ length lists.now.lists }
    ensures filled { result < length lists.now.lists → IsFilled lists.now result }
{
    for slot in least..lists.width() {
        if lists.first(slot).is_some() {
            return slot;
        }
    }
    lists.width()
}

/// Whether the first timer of a slot is due after a tick at which it is still in that slot.
pub(crate) fn is_later(lists: &IndexLists<Timer>, at: usize, tick: u64) -> bool
    requires within { at < length lists.now.lists }
    requires filled { IsFilled lists.now at }
    ensures { IsFirstLater lists.now at tick result }
{
    let place = lists.first(at).unwrap();
    let timer = *lists.row(place);
    tick < timer.deadline && slot_of(tick, timer.deadline) == at
}

/// Whether moving the time on to a tick leaves each timer in its slot.
pub(crate) fn is_still(lists: &IndexLists<Timer>, least: usize, tick: u64) -> bool
    requires below { NoneBelow lists.now least }
    requires within { least ≤ length lists.now.lists }
    ensures stays { IsTrue result → (now : ℕ) → InPlace now lists.now → now ≤ tick → InPlace tick lists.now }
    ensures moves { IsFalse result → (now : ℕ) → InPlace now lists.now → MovesOne now tick lists.now }
{
    let slot = first_filled(lists, least);
    if slot == lists.width() {
        return true;
    }
    is_later(lists, slot, tick)
}

/// When the first timer of a slot is due.
pub(crate) fn earliest(lists: &IndexLists<Timer>, slot: usize) -> u64
    requires within { slot < length lists.now.lists }
    requires filled { IsFilled lists.now slot }
    requires range { (place : ℕ) (t : Timer) → Has (list_at lists.now slot) place t → t.deadline < 2 ^ 64 }
    ensures least { (place : ℕ) (t : Timer) → Has (list_at lists.now slot) place t → result ≤ t.deadline }
    ensures found { (place : ℕ) × (t : Timer) × Has (list_at lists.now slot) place t × (t.deadline ≡ result) }
{
    let mut least = u64::MAX;
    for timer in lists.rows(slot) {
        least = least.min(timer.deadline);
    }
    least
}

/// Takes the first timer off a slot that is being emptied at a tick: its key is told where it is due, and else the timer goes into a
/// lower slot. Answers the slot that it went to, or this one. None where the slot is empty.
fn settle_first(
    lists: &mut IndexLists<Timer>,
    places: &mut PointMap<usize>,
    at: usize,
    tick: u64,
    due: &mut Vec<u64>,
) -> Option<usize>
    requires drained { IsDrained tick at (place_of places.old) lists.old }
    requires room { count lists.old + vec_len due.old ≤ vec_capacity due.old }
    ensures drained { IsDrained tick at (place_of places.new) lists.new }
    ensures room { count lists.new + vec_len due.new ≤ vec_capacity due.new }
    ensures spare { lists.new.spare + vec_len due.old ≡ lists.old.spare + vec_len due.new }
    ensures places { lists.old.spare ≤ places.old.spare → lists.new.spare ≤ places.new.spare }
    ensures width { length lists.new.lists ≡ length lists.old.lists }
    ensures later { KeepsLater tick at lists.old lists.new }
    ensures fired { due.new.items ++ fired tick at lists.new ≡ due.old.items ++ fired tick at lists.old }
    ensures fewer { OnSome result (length (list_at lists.new at) + 1 ≡ length (list_at lists.old at)) }
    ensures lower { IfSome result (λ n. n ≤ at) }
    ensures below { IfSome result (λ n. (least : ℕ) → least ≤ n → NoneBelow lists.old least → NoneBelow lists.new least) }
    ensures none { IfNone result (list_at lists.new at ≡ []) }
    ensures same { IfNone result (lists.new ≡ lists.old) }
{
    let (_place, timer) = lists.pop_front(at)?;
    if timer.deadline == tick {
        let _place = give_up(places, timer.key);
        let told: Result<_, _> = due.push(timer.key);
        told.unwrap();
        return Some(at);
    }
    let lower = slot_of(tick, timer.deadline);
    let _same = lists.push_back(lower, timer);
    Some(lower)
}

/// Empties a slot at a tick, and answers a slot below which all are empty.
pub(crate) fn drain(
    lists: &mut IndexLists<Timer>,
    places: &mut PointMap<usize>,
    at: usize,
    tick: u64,
    due: &mut Vec<u64>,
) -> usize
    requires drained { IsDrained tick at (place_of places.old) lists.old }
    requires room { count lists.old + vec_len due.old ≤ vec_capacity due.old }
    requires below { NoneBelow lists.old at }
    ensures drained { IsDrained tick at (place_of places.new) lists.new }
    ensures room { count lists.new + vec_len due.new ≤ vec_capacity due.new }
    ensures spare { lists.new.spare + vec_len due.old ≡ lists.old.spare + vec_len due.new }
    ensures places { lists.old.spare ≤ places.old.spare → lists.new.spare ≤ places.new.spare }
    ensures width { length lists.new.lists ≡ length lists.old.lists }
    ensures later { KeepsLater tick at lists.old lists.new }
    ensures fired { due.new.items ≡ due.old.items ++ fired tick at lists.old }
    ensures none { list_at lists.new at ≡ [] }
    ensures below { NoneBelow lists.new result }
    ensures within { result ≤ at }
{
    let mut least = at;
    while let Some(lower) = settle_first(lists, places, at, tick, due) {
        least = least.min(lower);
    }
    least
}
