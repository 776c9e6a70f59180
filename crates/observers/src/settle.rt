//! What a round makes of the observers that are due, and what it tells of them.
ghost use Rattle.std.specs.Prelude.{◌≡◌, ◌+◌, ◌≤◌, ◌++◌, [], None, OnOk, OnErr, IfOk, IsOk, IfSome, option_copied, length, slice_get, vec_len, vec_capacity, true, false};
ghost use Rattle.inc_value.specs.Outcome.{IsNoText};
ghost use Rattle.observers.specs.Observers.{after, notice_of, notices_of, told_by, AllLight};
ghost use Rattle.observers.specs.Keeping.{distinct, is_left, CoversAll, HasRooms, StayDue, notice_at, notices_at, put_all, put_one, settled_at, settled_of};

use crate::due::Due;
use crate::notice::{Notice, Told};
use crate::observer::{Observer, shows_it, tells_none, told, watch_after};
use crate::sight::Sight;
use inc_value::{NodeId, ObsId, Outcome};
use std::alloc::{AllocError, Global};
use std::mem;

/// The observer at a place, as a round leaves it.
#[derive(Drop)]
pub(crate) struct Settled {
    pub place: u32,
    pub observer: Observer,
}

/// A round ended, by which those that aren't due stay as they are. None is due then. Without memory all are as they were.
pub(crate) fn finish<S: Sight>(
    alloc: Global,
    sight: &S,
    made: &mut Vec<Observer>,
    due: &mut Due,
    settled: &mut Vec<Settled>,
    told: &mut Vec<Notice>,
    notices: &mut Vec<Notice>,
) -> Result<(), AllocError>
    requires covers { CoversAll (S.shows sight.now) made.old.items due.old.places }
    requires settled_none { settled.old.items ≡ [] }
    requires told_none { told.old.items ≡ [] }
    requires rooms { HasRooms due.old.width (vec_capacity settled.old) (vec_capacity told.old) (vec_capacity notices.old) }
    ensures made { OnOk result (made.new.items ≡ told_by (S.shows sight.now) made.old.items) }
    ensures notices { OnOk result (notices.new.items ≡ notices_of (S.shows sight.now) 0 made.old.items) }
    ensures light { AllLight (S.shows sight.now) made.old.items → IsOk result }
    ensures made_stay { OnErr result (made.new.items ≡ made.old.items) }
    ensures notices_stay { OnErr result (notices.new.items ≡ notices.old.items) }
    ensures stay { OnErr result (StayDue due.old.places due.new.places) }
    ensures width { due.new.width ≡ due.old.width }
    ensures settled_none { settled.new.items ≡ [] }
    ensures told_none { told.new.items ≡ [] }
    ensures rooms { HasRooms due.new.width (vec_capacity settled.new) (vec_capacity told.new) (vec_capacity notices.new) }
{
    due.sort();
    match settle_due(alloc, sight, made, due.places(), settled, told) {
        Ok(()) => {
            put_settled(made, settled);
            due.clear();
            mem::swap(notices, told);
            told.clear();
            Ok(())
        }
        Err(AllocError) => {
            settled.clear();
            told.clear();
            Err(AllocError)
        }
    }
}

/// Puts what a round makes of the observers at these places, which stand in order, behind a list, but for those that stay
/// as they are, and what is told of them behind another. Only a text needs memory.
fn settle_due<S: Sight>(
    alloc: Global,
    sight: &S,
    made: &[Observer],
    due: &[u32],
    settled: &mut Vec<Settled>,
    notices: &mut Vec<Notice>,
) -> Result<(), AllocError>
    requires settled_room { vec_len settled.old + length due.now ≤ vec_capacity settled.old }
    requires notices_room { vec_len notices.old + length due.now ≤ vec_capacity notices.old }
    ensures settled { OnOk result (settled.new.items
        ≡ settled.old.items ++ settled_at (S.shows sight.now) made.now (distinct None due.now)) }
    ensures told { OnOk result (notices.new.items
        ≡ notices.old.items ++ notices_at (S.shows sight.now) made.now (distinct None due.now)) }
    ensures settled_capacity { vec_capacity settled.new ≡ vec_capacity settled.old }
    ensures notices_capacity { vec_capacity notices.new ≡ vec_capacity notices.old }
    ensures light { AllLight (S.shows sight.now) made.now → IsOk result }
{
    let mut last = None;
    for place in due {
        if last != Some(*place) {
            last = Some(*place);
            settle_one(alloc, sight, made, *place, settled, notices)?;
        }
    }
    Ok(())
}

/// What a round makes of the observer at a place, unless it stays as it is, and what is told of it go behind the others.
fn settle_one<S: Sight>(
    alloc: Global,
    sight: &S,
    made: &[Observer],
    place: u32,
    settled: &mut Vec<Settled>,
    notices: &mut Vec<Notice>,
) -> Result<(), AllocError>
    requires settled_room { vec_len settled.old + 1 ≤ vec_capacity settled.old }
    requires notices_room { vec_len notices.old + 1 ≤ vec_capacity notices.old }
    ensures settled { OnOk result (settled.new.items
        ≡ settled.old.items ++ settled_of (S.shows sight.now) place (slice_get made.now place)) }
    ensures told { OnOk result (notices.new.items
        ≡ notices.old.items ++ notice_at (S.shows sight.now) place (slice_get made.now place)) }
    ensures settled_len { vec_len settled.new ≤ vec_len settled.old + 1 }
    ensures notices_len { vec_len notices.new ≤ vec_len notices.old + 1 }
    ensures settled_capacity { vec_capacity settled.new ≡ vec_capacity settled.old }
    ensures notices_capacity { vec_capacity notices.new ≡ vec_capacity notices.old }
    ensures light { AllLight (S.shows sight.now) made.now → IsOk result }
{
    let Some(observer) = at(made, place) else {
        return Ok(());
    };
    let invalid = Outcome::Invalid;
    let now = shown_now(sight, observer.node, &invalid);
    if is_left(observer, now) {
        return Ok(());
    }
    let told = told(alloc, &observer.watch, now)?;
    let observer = after(alloc, observer, now)?;
    push_told(notices, place, told);
    settled.push_reserved(Settled { place, observer });
    Ok(())
}

/// The observer at a place.
fn at(made: &[Observer], place: u32) -> Option<&Observer>
    ensures { option_copied result ≡ slice_get made.now place }
{
    made.get(place as usize)
}

/// What a node shows now.
fn shown_now<'a, S: Sight>(sight: &'a S, node: NodeId, invalid: &'a Outcome) -> &'a Outcome
    requires invalid { invalid.now ≡ Outcome.Invalid }
    ensures { result.now ≡ S.shows sight.now node }
{
    match sight.outcome_of(node) {
        Some(outcome) => outcome,
        None => invalid,
    }
}

/// Whether an observer stays as it is where its node shows this now.
fn is_left(observer: &Observer, now: &Outcome) -> bool
    ensures { result ≡ is_left now.now observer.now }
{
    !observer.in_use || (shows_it(&observer.shown, now) && tells_none(&observer.watch, now))
}

/// An observer in use, as it is once it shows this. Only a text needs memory.
fn after(alloc: Global, observer: &Observer, now: &Outcome) -> Result<Observer, AllocError>
    requires used { observer.now.in_use ≡ true }
    ensures after { IfOk result (λ o. o ≡ after now.now observer.now) }
    ensures light { IsNoText now.now → IsOk result }
{
    Ok(Observer {
        node: observer.node,
        in_use: true,
        shown: Some(now.copy(alloc)?),
        watch: watch_after(alloc, &observer.watch, now)?,
    })
}

/// The notice of what is told goes behind the rest, if something is.
fn push_told(notices: &mut Vec<Notice>, place: u32, told: Option<Told>)
    requires room { vec_len notices.old + 1 ≤ vec_capacity notices.old }
    ensures told { notices.new.items ≡ notices.old.items ++ notice_of place told }
    ensures len { vec_len notices.new ≤ vec_len notices.old + 1 }
    ensures capacity { vec_capacity notices.new ≡ vec_capacity notices.old }
{
    if let Some(told) = told {
        notices.push_reserved(Notice {
            observer: ObsId(place),
            told,
        });
    }
}

/// The observers that were settled are as a round leaves them. None of these is left in the list.
fn put_settled(made: &mut Vec<Observer>, settled: &mut Vec<Settled>)
    ensures made { made.new.items ≡ put_all settled.old.items made.old.items }
    ensures none { settled.new.items ≡ [] }
    ensures capacity { vec_capacity settled.new ≡ vec_capacity settled.old }
{
    while let Some(one) = settled.pop() {
        put_one(made, one);
    }
}

/// An observer that was settled is as a round leaves it.
fn put_one(made: &mut Vec<Observer>, one: Settled)
    ensures { made.new.items ≡ put_one one made.old.items }
{
    let place = one.place as usize;
    if place < made.len() {
        made[place] = one.observer;
    } else {
        drop(one.observer);
    }
}
