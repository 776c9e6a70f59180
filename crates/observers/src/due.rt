//! Places of observers that are to be looked at.
ghost use Rattle.std.specs.Prelude.{◌≡◌, ◌<◌, ◌≤◌, ◌-◌, ◌^◌, ℕ, [], length, max, vec_capacity, OnOk, OnErr};
ghost use Rattle.inc_value.specs.Choice.{Among};
ghost use Rattle.observers.specs.Keeping.{IsMarked, IsOrdered, StayDue};

use std::alloc::{AllocError, Global};
use std::marker::Model;

/// The places of the observers that the next round is to look at. There is room for each place once, so that none of these
/// calls but `widen` takes memory.
pub(crate) struct Due {
    places: Vec<u32>,
    /// By place, whether it is among them.
    marked: Vec<bool>,
}

// (written out: whoever drops one proves one call, and no drop of its parts)
impl Drop for Due {
    fn drop(self) {
        let Due { places, marked } = self;
        drop(places);
        drop(marked);
    }
}

impl Model for Due {
    ghost use Rattle.std.specs.Prelude.{◌≤◌, length, vec_capacity};
    ghost use Rattle.observers.specs.Keeping.{Due as Seen, IsMarked};

    ghost Value = { Seen };

    ghost view = { λ d. record { places = d.places.items; width = length d.marked.items } };

    ghost invariant = { λ d. IsMarked d.places.items d.marked.items × (length d.marked.items ≤ vec_capacity d.places) };
}

impl Due {
    /// No places. This takes no memory.
    pub(crate) fn new(alloc: Global) -> Due
        ensures places { result.places ≡ [] }
        ensures width { result.width ≡ 0 }
    {
        Due {
            places: Vec::new(alloc),
            marked: Vec::new(alloc),
        }
    }

    /// Makes room for at least so many places. Without memory the same are due.
    pub(crate) fn widen(&mut self, width: usize) -> Result<(), AllocError>
        ensures places { self.new.places ≡ self.old.places }
        ensures width { OnOk result (self.new.width ≡ max self.old.width width) }
        ensures err { OnErr result (self.new.width ≡ self.old.width) }
    {
        if width <= self.marked.len() {
            return Ok(());
        }
        self.places.reserve(width)?;
        self.marked.resize(width, false)
    }

    /// A place is due, if there is room for it.
    pub(crate) fn put(&mut self, place: u32)
        ensures there { place < self.old.width → Among place self.new.places }
        ensures stay { StayDue self.old.places self.new.places }
        ensures width { self.new.width ≡ self.old.width }
    {
        let i = place as usize;
        if i < self.marked.len() && !self.marked[i] {
            self.marked[i] = true;
            self.places.push_reserved(place);
        }
    }

    /// All places below a number are due, if there is room for them.
    pub(crate) fn put_below(&mut self, count: usize)
        requires few { count ≤ 2 ^ 32 - 1 }
        ensures there { (i : ℕ) → i < count → i < self.old.width → Among i self.new.places }
        ensures stay { StayDue self.old.places self.new.places }
        ensures width { self.new.width ≡ self.old.width }
    {
        for place in 0..count {
            self.put(place as u32);
        }
    }

    /// Puts the places in order.
    pub(crate) fn sort(&mut self)
        ensures ordered { IsOrdered self.new.places }
        ensures stay { StayDue self.old.places self.new.places }
        ensures width { self.new.width ≡ self.old.width }
    {
        self.places.sort_unstable();
    }

    /// The places.
    pub(crate) fn places(&self) -> &[u32]
        ensures places { result.now ≡ self.now.places }
        ensures few { length self.now.places ≤ self.now.width }
    {
        &self.places
    }

    /// No place is due any more.
    pub(crate) fn clear(&mut self)
        ensures none { self.new.places ≡ [] }
        ensures width { self.new.width ≡ self.old.width }
    {
        unmark(&mut self.places, &mut self.marked);
    }
}

/// Takes all places off, and their marks.
fn unmark(places: &mut Vec<u32>, marked: &mut Vec<bool>)
    requires marked { IsMarked places.old.items marked.old.items }
    ensures none { places.new.items ≡ [] }
    ensures marked { IsMarked places.new.items marked.new.items }
    ensures width { length marked.new.items ≡ length marked.old.items }
    ensures capacity { vec_capacity places.new ≡ vec_capacity places.old }
{
    while let Some(place) = places.pop() {
        let i = place as usize;
        if i < marked.len() {
            marked[i] = false;
        }
    }
}
