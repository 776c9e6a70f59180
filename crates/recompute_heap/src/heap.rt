ghost use Rattle.std.specs.Prelude.{[], ◌≡◌, ◌+◌, ◌<◌, ◌≤◌, None, Some, is_some, IfSome, IfNone, OnSome, IsOk, OnOk, OnErr};
ghost use Rattle.point_map.specs.Rows.{at, count, Holds, Changes, KeepsRows};
ghost use Rattle.recompute_heap.specs.Agree.{IsLeast, IsEmpty};

use inc_value::Point;
use point_map::{Buckets, PointMap};
use std::alloc::{AllocError, Global};
use std::marker::Model;

/// The points to be recomputed, each with its height of at most 128. A contract sees a heap as a
/// finite map from points to heights. `reserve` makes room, the buckets too, and no other call takes memory.
pub struct RecomputeHeap {
    places: PointMap<usize>,
    buckets: Buckets<()>,
    least: usize,
}

// (written out: whoever drops one proves one call, and no drop of its parts)
impl Drop for RecomputeHeap {
    fn drop(self) {
        let RecomputeHeap {
            places,
            buckets,
            least: _,
        } = self;
        drop(places);
        drop(buckets);
    }
}

impl Model for RecomputeHeap {
    ghost use Rattle.std.specs.Prelude.{ℕ, ◌≡◌, ◌≤◌};
    ghost use Rattle.point_map.specs.Rows.{Rows, at};
    ghost use Rattle.point_map.specs.Buckets.{kept_at};
    ghost use Rattle.recompute_heap.specs.Agree.{heights_of, Agree, HasBuckets, NoneBelow, NoneAbove};

    ghost Value = { Rows ℕ };

    ghost view = { λ h. record { places = heights_of h.buckets.kept; spare = h.buckets.spare } };

    ghost invariant = { λ h.
        Agree (at h.places) (kept_at h.buckets)
        × NoneBelow h.buckets h.least
        × HasBuckets h.buckets 129
        × (h.buckets.spare ≤ h.places.spare)
        × (h.least ≤ 129)
        × NoneAbove h.buckets 128 };
}

impl RecomputeHeap {
    /// An empty heap without room. This takes no memory.
    pub fn new(alloc: Global) -> RecomputeHeap
        ensures empty { result.places ≡ [] }
        ensures spare { result.spare ≡ 0 }
    {
        RecomputeHeap {
            places: PointMap::new(alloc),
            buckets: Buckets::none(alloc),
            least: 129,
        }
    }

    /// Makes room for `n` more points, so that as many inserts need no memory. Without memory the heap stays as it is.
    pub fn reserve(&mut self, n: usize) -> Result<(), AllocError>
        ensures points { KeepsRows self.old self.new }
        ensures count { count self.new ≡ count self.old }
        ensures room { OnOk result (n ≤ self.new.spare) }
        ensures spare { self.old.spare ≤ self.new.spare }
        ensures err { OnErr result (self.new ≡ self.old) }
        ensures succeeds { n ≤ self.old.spare → IsOk result }
    {
        if n <= self.buckets.spare() {
            return Ok(());
        }
        self.places.reserve(n)?;
        self.buckets.widen(129)?;
        self.buckets.reserve(n)
    }

    /// How many points are there.
    pub fn len(&self) -> usize
        ensures { result ≡ count self.now }
    {
        self.buckets.len()
    }

    /// Whether the point is there.
    pub fn holds(&self, p: Point) -> bool
        ensures { result ≡ is_some (at self.now p) }
    {
        self.places.holds(p)
    }

    /// Puts a point in that isn't there, at a height of at most 128. This takes one of the spare places.
    pub fn insert(&mut self, p: Point, height: u32)
        requires absent { at self.old p ≡ None }
        requires spare { 0 < self.old.spare }
        requires low { height ≤ 128 }
        ensures changes { Changes self.old self.new p (Some height) }
        ensures count { count self.new ≡ count self.old + 1 }
        ensures spare { self.new.spare + 1 ≡ self.old.spare }
    {
        let bucket = height as usize;
        let place = self.buckets.push(bucket, p, ());
        self.places.insert(p, place);
        self.least = self.least.min(bucket);
    }

    /// Takes off a point that is there.
    pub fn remove(&mut self, p: Point)
        requires there { Holds self.old p }
        ensures changes { Changes self.old self.new p None }
        ensures count { count self.new + 1 ≡ count self.old }
        ensures spare { self.new.spare ≡ self.old.spare + 1 }
    {
        let place = self.places.remove(p);
        let _taken = self.buckets.take(place);
        if let Some(moved) = self.buckets.point_at(place) {
            let _was = self.places.replace(moved, place);
        }
    }

    /// Gives a point that is there another height of at most 128, higher or lower.
    pub fn raise(&mut self, p: Point, height: u32)
        requires there { Holds self.old p }
        requires low { height ≤ 128 }
        ensures changes { Changes self.old self.new p (Some height) }
        ensures count { count self.new ≡ count self.old }
        ensures spare { self.new.spare ≡ self.old.spare }
    {
        self.remove(p);
        self.insert(p, height);
    }

    /// Takes off a point of least height and gives it with its height, any one of them. None where the heap is empty.
    pub fn pop_least(&mut self) -> Option<(Point, u32)>
        ensures was { IfSome result (λ r. at self.old r.0 ≡ Some r.1) }
        ensures least { IfSome result (λ r. IsLeast self.old r.1) }
        ensures low { IfSome result (λ r. r.1 ≤ 128) }
        ensures changes { IfSome result (λ r. Changes self.old self.new r.0 None) }
        ensures count { OnSome result (count self.new + 1 ≡ count self.old) }
        ensures spare { OnSome result (self.new.spare ≡ self.old.spare + 1) }
        ensures none { IfNone result (IsEmpty self.old) }
        ensures unchanged { IfNone result (self.new ≡ self.old) }
    {
        if self.buckets.len() == 0 {
            return None;
        }
        while self.least <= 128 {
            let height = self.least;
            if let Some((_place, p, ())) = self.buckets.pop(height) {
                let _place = self.places.remove(p);
                return Some((p, height as u32));
            }
            self.least += 1;
        }
        None
    }
}
