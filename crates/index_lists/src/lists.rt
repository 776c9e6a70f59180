ghost use Rattle.std.specs.Prelude.{[], ◌∷◌, ◌++◌, ℕ, ◌≡◌, ◌⊎◌, ◌+◌, ◌-◌, ◌<◌, ◌≤◌, List, None, Some, IfSome, IfNone, OnSome, IsOk, OnOk, OnErr, length, map, option_map, slice_get, slice_set, replicate};
ghost use Rattle.index_lists.specs.Lists.{list_at, count, Has, IsThere, IsPopped, without};
ghost use Rattle.index_lists.specs.Walks.{rows_left};

use crate::link::{Ends, Link, set_after, set_before};
use crate::walk::Walk;
use slab::Slab;
use std::alloc::{AllocError, Global};
use std::marker::Model;

/// Numbered lists of rows, each row at a place of its own, where it stays until it is taken off. A push and a removal
/// take constant time and no memory: `widen` makes lists, and `reserve` room for rows. A contract sees each list as its
/// rows in order, each with its place.
pub struct IndexLists<R> {
    ends: Vec<Ends>,
    links: Slab<Link<R>>,
    spare: usize,
}

// (written out: whoever drops one proves one call, and no drop of its parts)
impl<R: Drop> Drop for IndexLists<R> {
    fn drop(self) {
        let IndexLists {
            ends,
            links,
            spare: _,
        } = self;
        drop(ends);
        drop(links);
    }
}

impl<R> Model for IndexLists<R> {
    ghost use Rattle.std.specs.Prelude.{◌+◌, ◌≡◌, ◌≤◌, sum_by, length};
    ghost use Rattle.slab.specs.Slab.{slab_len};
    ghost use Rattle.index_lists.specs.Lists.{Lists, rows_of, links_at, IsLinked};

    ghost Value = { Lists R };

    ghost view = { λ s. record {
      lists = rows_of s.ends.items s.links.slots;
      spare = s.spare;
      next = s.links.vacant_key;
    } };

    ghost invariant = { λ s.
        IsLinked s.ends.items (links_at s.links.slots)
        × (slab_len s.links + s.spare ≤ s.links.capacity)
        × (slab_len s.links ≡ sum_by length (rows_of s.ends.items s.links.slots)) };
}

impl<R> IndexLists<R> {
    /// No lists, and no room for rows. This takes no memory.
    pub fn new(alloc: Global) -> IndexLists<R>
        ensures none { result.lists ≡ [] }
        ensures spare { result.spare ≡ 0 }
    {
        IndexLists {
            ends: Vec::new(alloc),
            links: Slab::new(alloc),
            spare: 0,
        }
    }

    /// Makes at least so many lists, the new ones empty. Without memory the lists stay as they are.
    pub fn widen(&mut self, width: usize) -> Result<(), AllocError>
        ensures lists { OnOk result (self.new.lists ≡ self.old.lists ++ replicate (width - length self.old.lists) []) }
        ensures next { self.new.next ≡ self.old.next }
        ensures spare { self.new.spare ≡ self.old.spare }
        ensures err { OnErr result (self.new ≡ self.old) }
        ensures succeeds { width ≤ length self.old.lists → IsOk result }
    {
        let len = self.ends.len();
        if width <= len {
            return Ok(());
        }
        let none = Ends {
            first: None,
            last: None,
        };
        self.ends.resize(width, none)
    }

    /// How many lists there are.
    pub fn width(&self) -> usize
        ensures { result ≡ length self.now.lists }
    {
        self.ends.len()
    }

    /// Makes room for `n` more rows. Without memory the lists stay as they are.
    pub fn reserve(&mut self, n: usize) -> Result<(), AllocError>
        ensures lists { self.new.lists ≡ self.old.lists }
        ensures next { self.new.next ≡ self.old.next }
        ensures room { OnOk result (n ≤ self.new.spare) }
        ensures spare { self.old.spare ≤ self.new.spare }
        ensures exact { (self.new.spare ≡ self.old.spare) ⊎ (self.new.spare ≡ n) }
        ensures err { OnErr result (self.new ≡ self.old) }
        ensures succeeds { n ≤ self.old.spare → IsOk result }
    {
        if n <= self.spare {
            return Ok(());
        }
        self.links.reserve(n)?;
        self.spare = n;
        Ok(())
    }

    /// How many rows there are.
    pub fn len(&self) -> usize
        ensures { result ≡ count self.now }
    {
        self.links.len()
    }

    /// The place of a list's first row, or none where it is empty.
    pub fn first(&self, list: usize) -> Option<usize>
        requires { list < length self.now.lists }
        ensures { result ≡ option_map (λ e. e.0) (slice_get (list_at self.now list) 0) }
    {
        self.ends[list].first
    }

    /// The row at a place.
    pub fn row(&self, place: usize) -> &R
        requires { IsThere self.now place }
        ensures { (list : ℕ) (row : R) → Has (list_at self.now list) place row → result.now ≡ row }
    {
        &self.links.get(place).unwrap().row
    }

    /// The rows of a list in order.
    pub fn rows(&self, list: usize) -> Walk<'_, R>
        requires { list < length self.now.lists }
        ensures { rows_left result ≡ map (λ e. e.1) (list_at self.now list) }
    {
        Walk {
            links: &self.links,
            at: self.ends[list].first,
            most: self.links.capacity(),
        }
    }

    /// Puts a row behind the others of a list, at the place that is answered. This takes one of the spare places.
    pub fn push_back(&mut self, list: usize, row: R) -> usize
        requires list { list < length self.old.lists }
        requires spare { 0 < self.old.spare }
        ensures place { result ≡ self.old.next }
        ensures vacant { IsThere self.old result → ⊥ }
        ensures lists { self.new.lists ≡ slice_set self.old.lists list (list_at self.old list ++ (result, row) ∷ []) }
        ensures count { count self.new ≡ count self.old + 1 }
        ensures spare { self.new.spare + 1 ≡ self.old.spare }
    {
        let mut ends = self.ends[list];
        let last = ends.last;
        let place = self.links.insert_reserved(Link {
            list,
            before: last,
            after: None,
            row,
        });
        set_after(&mut self.links, &mut ends, last, Some(place));
        set_before(&mut self.links, &mut ends, None, Some(place));
        self.ends[list] = ends;
        self.spare -= 1;
        place
    }

    /// Takes off the first row of a list, with its place, where the next row that is pushed stands. None where the list
    /// is empty.
    pub fn pop_front(&mut self, list: usize) -> Option<(usize, R)>
        requires { list < length self.old.lists }
        ensures popped { IfSome result (λ r. IsPopped self.old self.new list r.0 r.1) }
        ensures vacant { IfSome result (λ r. IsThere self.new r.0 → ⊥) }
        ensures next { IfSome result (λ r. self.new.next ≡ r.0) }
        ensures count { OnSome result (count self.new + 1 ≡ count self.old) }
        ensures spare { OnSome result (self.new.spare ≡ self.old.spare + 1) }
        ensures none { IfNone result (list_at self.old list ≡ []) }
        ensures unchanged { IfNone result (self.new ≡ self.old) }
    {
        let place = self.ends[list].first?;
        let row = self.remove(place);
        Some((place, row))
    }

    /// Takes off the row at a place. The next row that is pushed stands there.
    pub fn remove(&mut self, place: usize) -> R
        requires { IsThere self.old place }
        ensures row { (list : ℕ) (row : R) → Has (list_at self.old list) place row → result ≡ row }
        ensures lists { self.new.lists ≡ map (without place) self.old.lists }
        ensures next { self.new.next ≡ place }
        ensures count { count self.new + 1 ≡ count self.old }
        ensures spare { self.new.spare ≡ self.old.spare + 1 }
    {
        let Link {
            list,
            before,
            after,
            row,
        } = self.links.try_remove(place).unwrap();
        let mut ends = self.ends[list];
        set_after(&mut self.links, &mut ends, before, after);
        set_before(&mut self.links, &mut ends, after, before);
        self.ends[list] = ends;
        // The capacity is what says that `spare + 1` fits.
        let _room = self.links.capacity();
        self.spare += 1;
        row
    }
}
