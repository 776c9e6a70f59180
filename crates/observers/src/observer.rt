//! Observers.
ghost use Rattle.std.specs.Prelude.{◌≡◌, ◌↔◌, ◌<◌, ℕ, None, Some, IfOk, IsOk, IsTrue, OnErr, drop, length, option_copied, slice_get, true};
ghost use Rattle.inc_value.specs.Outcome.{IsNoText};
ghost use Rattle.observers.specs.Observers.{in_use, looked_at, tells, watch_after, watched, IsToldNoText};
ghost use Rattle.inc_terms.specs.Same.{same_outcome};
ghost use Rattle.observers.specs.Keeping.{is_used, open_in, shows_it, tells_none};

use crate::notice::{Told, change};
use inc_value::{NodeId, Outcome};
use std::alloc::{AllocError, Global};

/// Whether an observer is watched, and the outcome that was told of it last.
#[derive(Drop)]
pub enum Watch {
    Off,
    /// Watched, and nothing was told since the watch began.
    Fresh,
    Since(Outcome),
}

/// An observer of a node: whether it is in use, the outcome that it shows, if it shows one yet, and whether it is watched.
/// One that isn't in use shows nothing and isn't watched.
#[derive(Drop)]
pub struct Observer {
    pub node: NodeId,
    pub in_use: bool,
    pub shown: Option<Outcome>,
    pub watch: Watch,
}

/// Whether the observer at a place is in use.
pub(crate) fn is_used(made: &[Observer], place: u32) -> bool
    ensures { result ≡ is_used made.now place }
{
    match made.get(place as usize) {
        Some(observer) => observer.in_use,
        None => false,
    }
}

/// The node of the observer at a place, if it is in use.
pub(crate) fn node_at(made: &[Observer], place: u32) -> Option<NodeId>
    ensures { result ≡ looked_at (slice_get made.now place) }
{
    match made.get(place as usize) {
        Some(observer) if observer.in_use => Some(observer.node),
        _ => None,
    }
}

/// Whether the observer at a place is in use and isn't watched.
pub(crate) fn is_open(made: &[Observer], place: u32) -> bool
    ensures { result ≡ open_in (slice_get made.now place) }
{
    match made.get(place as usize) {
        Some(observer) => observer.in_use && matches!(observer.watch, Watch::Off),
        None => false,
    }
}

/// The observer at a place is watched from now on.
pub(crate) fn begin(made: &mut Vec<Observer>, place: u32)
    requires open { open_in (slice_get made.old.items place) ≡ true }
    ensures { made.new.items ≡ watched place made.old.items }
{
    made[place as usize].watch = Watch::Fresh;
}

/// The nodes of the observers in use among these, in order.
pub(crate) fn nodes_in_use(alloc: Global, made: &[Observer]) -> Result<Vec<NodeId>, AllocError>
    ensures used { IfOk result (λ nodes. nodes.items ≡ in_use made.now) }
    ensures some { OnErr result (0 < length made.now) }
{
    let mut nodes = Vec::new(alloc);
    for observer in made {
        if observer.in_use {
            nodes.push(observer.node)?;
        }
    }
    Ok(nodes)
}

/// Whether an outcome that is shown is what is shown now.
pub(crate) fn shows_it(shown: &Option<Outcome>, now: &Outcome) -> bool
    ensures { result ≡ shows_it shown.now now.now }
{
    match shown {
        Some(old) => is_same(old, now),
        None => false,
    }
}

/// Whether nothing is told of an observer that is watched so, and shows this now.
pub(crate) fn tells_none(watch: &Watch, now: &Outcome) -> bool
    ensures { result ≡ tells_none watch.now now.now }
{
    match watch {
        Watch::Off => true,
        Watch::Fresh => false,
        Watch::Since(old) => is_same(old, now),
    }
}

/// Whether two outcomes are the same.
fn is_same(a: &Outcome, b: &Outcome) -> bool
    ensures { result ≡ same_outcome a.now b.now }
{
    a.same(b)
}

/// What is told of an observer that is watched so and shows this now, if something is. Only a text needs memory.
pub(crate) fn told(alloc: Global, watch: &Watch, now: &Outcome) -> Result<Option<Told>, AllocError>
    ensures told { IfOk result (λ t. t ≡ tells watch.now now.now) }
    ensures light { IsNoText now.now → IsToldNoText watch.now → IsOk result }
{
    match watch {
        Watch::Off => Ok(None),
        Watch::Fresh => Ok(Some(Told::Init(now.copy(alloc)?))),
        Watch::Since(old) => {
            if is_same(old, now) {
                return Ok(None);
            }
            Ok(Some(change(alloc, old, now)?))
        }
    }
}

/// How an observer that is watched so is watched once it was told of what it shows now. Only a text needs memory.
pub(crate) fn watch_after(alloc: Global, watch: &Watch, now: &Outcome) -> Result<Watch, AllocError>
    ensures after { IfOk result (λ w. w ≡ watch_after watch.now now.now) }
    ensures light { IsNoText now.now → IsOk result }
{
    match watch {
        Watch::Off => Ok(Watch::Off),
        Watch::Fresh | Watch::Since(_) => Ok(Watch::Since(now.copy(alloc)?)),
    }
}
