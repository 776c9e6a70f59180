//! The observers of names in use.
ghost use Rattle.std.specs.Prelude.{◌≡◌, ◌<◌, ◌++◌, ℕ, [], ◌∷◌, length, slice_get, swap_remove, IfSome, OnOk, Some};
ghost use Rattle.session.specs.ObserverIds.{IsAbsent, key_of};

use inc_value::{NodeId, ObsId, Part, Point};
use point_map::PointMap;
use std::alloc::{AllocError, Global};
use std::marker::Model;

/// The observers of the names in use, in the order of these, and the position of each. `reserve` makes room, and no other call
/// takes memory.
pub(crate) struct ObserverIds {
    ids: Vec<ObsId>,
    positions: PointMap<usize>,
}

// (written out: whoever drops one proves one call, and no drop of its parts)
impl Drop for ObserverIds {
    fn drop(self) {
        let ObserverIds { ids, positions } = self;
        drop(ids);
        drop(positions);
    }
}

impl Model for ObserverIds {
    ghost use Rattle.std.specs.Prelude.{◌-◌, min, vec_len, vec_capacity};
    ghost use Rattle.session.specs.ObserverIds.{ArePlaced, IdsView};

    ghost Value = { IdsView };

    ghost view = { λ s. record {
      items = s.ids.items;
      spare = min (vec_capacity s.ids - vec_len s.ids) s.positions.spare;
    } };

    ghost invariant = { λ s. ArePlaced s.ids.items s.positions };
}

/// The point at which the position of an observer is kept.
fn key_of(observer: ObsId) -> Point
    ensures { result ≡ key_of observer }
{
    Point::main(NodeId {
        slot: observer.0 as usize,
        gen_: observer.0 as u64,
    })
}

impl ObserverIds {
    /// No observers. This takes no memory.
    pub(crate) fn new(alloc: Global) -> ObserverIds
        ensures items { result.items ≡ [] }
    {
        ObserverIds {
            ids: Vec::new(alloc),
            positions: PointMap::new(alloc),
        }
    }

    /// The observer at a position.
    pub(crate) fn at(&self, position: usize) -> ObsId
        requires { position < length self.now.items }
        ensures { slice_get self.entry.now.items position ≡ Some result }
    {
        self.ids[position]
    }

    /// The position of an observer, if it is one of them.
    pub(crate) fn position(&self, observer: ObsId) -> Option<usize>
        ensures found { (i : ℕ) → slice_get self.entry.now.items i ≡ Some observer → result ≡ Some i }
        ensures there { IfSome result (λ i. slice_get self.entry.now.items i ≡ Some observer) }
    {
        Some(*self.positions.get(key_of(observer))?)
    }

    /// Makes room for one observer more.
    pub(crate) fn reserve(&mut self) -> Result<(), AllocError>
        ensures items { self.new.items ≡ self.old.items }
        ensures room { OnOk result (0 < self.new.spare) }
    {
        self.ids.reserve(1)?;
        self.positions.reserve(1)
    }

    /// Puts an observer behind the others. This takes one of the spare places.
    pub(crate) fn push(&mut self, observer: ObsId)
        requires spare { 0 < self.old.spare }
        requires absent { IsAbsent self.old.items observer }
        ensures { self.new.items ≡ self.old.items ++ observer ∷ [] }
    {
        let position = self.ids.len();
        self.ids.push_reserved(observer);
        self.positions.insert(key_of(observer), position);
    }

    /// Takes off the observer at a position: the last one stands in its place then.
    pub(crate) fn swap_remove(&mut self, position: usize) -> ObsId
        requires { position < length self.old.items }
        ensures value { slice_get self.old.items position ≡ Some result }
        ensures items { self.new.items ≡ swap_remove self.old.items position result }
    {
        let observer = self.ids.swap_remove(position);
        let _ = self.positions.remove(key_of(observer));
        if position < self.ids.len() {
            let moved = self.ids[position];
            let _ = self.positions.replace(key_of(moved), position);
        }
        observer
    }
}
