//! The places of one node's links.
ghost use Rattle.std.specs.Prelude.{◌≡◌, ◌<◌, ◌↔◌, [], ◌∷◌, ◌++◌, IsTrue, IfOk, IfSome, IfNone, OnOk};

use std::alloc::{AllocError, Global};
use std::collections::VecDeque;
use std::marker::Model;

/// The places of one node's links, the earliest first. A contract also sees how many more have room.
pub(crate) struct Queue {
    places: VecDeque<usize>,
}

// (written out: whoever drops one proves one call, and no drop of its parts)
impl Drop for Queue {
    fn drop(self) {
        let Queue { places } = self;
        drop(places);
    }
}

impl Model for Queue {
    ghost use Rattle.std.specs.Prelude.{◌-◌};
    ghost use Rattle.std.specs.VecDeque.{deque_len, deque_capacity};
    ghost use Rattle.expert_nodes.specs.Links.{Queue as Seen};

    ghost Value = { Seen };

    ghost view = { λ q. record {
      items = q.places.items;
      spare = deque_capacity q.places - deque_len q.places;
    } };
}

impl Queue {
    /// No places, with room for one.
    pub(crate) fn with_room(alloc: Global) -> Result<Queue, AllocError>
        ensures items { IfOk result (λ q. q.items ≡ []) }
        ensures room { IfOk result (λ q. 0 < q.spare) }
    {
        Ok(Queue {
            places: VecDeque::with_capacity(alloc, 1)?,
        })
    }

    /// Makes room for one more.
    pub(crate) fn reserve(&mut self) -> Result<(), AllocError>
        ensures items { self.new.items ≡ self.old.items }
        ensures room { OnOk result (0 < self.new.spare) }
    {
        self.places.reserve(1)
    }

    /// Puts a place behind the others.
    pub(crate) fn push(&mut self, place: usize)
        requires room { 0 < self.old.spare }
        ensures { self.new.items ≡ self.old.items ++ place ∷ [] }
    {
        self.places.push_back_reserved(place);
    }

    /// Takes off the earliest place, if there is one.
    pub(crate) fn pop(&mut self) -> Option<usize>
        ensures popped { IfSome result (λ p. self.old.items ≡ p ∷ self.new.items) }
        ensures none { IfNone result (self.old.items ≡ []) }
        ensures unchanged { IfNone result (self.new.items ≡ []) }
    {
        self.places.pop_front()
    }

    /// Whether there is none.
    pub(crate) fn is_empty(&self) -> bool
        ensures { IsTrue result ↔ (self.now.items ≡ []) }
    {
        self.places.is_empty()
    }
}
