//! The rows of all points, and the heap.
ghost use Rattle.std.specs.Prelude.{[], ◌≡◌, ◌≢◌, ◌+◌, ◌<◌, ◌≤◌, ◌↔◌, None, Some, is_some, length, slice_get, IsTrue, IfSome, IfNone, OnSome, IsOk, OnOk, OnErr};
ghost use Rattle.inc_value.specs.declared.node.Point.{Point};
ghost use Rattle.point_map.specs.Rows.{at, count, Holds, Changes, KeepsRows};
ghost use Rattle.link_table.specs.Links.{times, Reads, IsRead, KeepsLinks, OneLinkMore, AreKids, AreReaders};
ghost use Rattle.link_table.specs.Walks.{kids_left, readers_left};
ghost use Rattle.recompute_heap.specs.Agree.{IsLeast, IsEmpty};
ghost use Rattle.necessity.specs.Need.{root_times, KeepsRoots, OneRootMore};
ghost use Rattle.height_order.specs.Levels.{level};
ghost use Rattle.point_rows.specs.Standing.{IsHeld, readers_in};

use crate::ends::ends_of;
use crate::heap::{Heap, make_room, place_in, put_in, take_at, take_least};
use crate::row::{Row, Side, fewer_roots, more_roots, new_row};
use crate::sides::{add_ends, kid_place, pop_ends, remove_ends};
use inc_value::Point;
use link_table::{End, Kids, Readers, last_beside};
use point_map::Buckets;
use row_map::RowMap;
use std::alloc::{AllocError, Global};
use std::marker::Model;

/// Points that have heights, are roots, read each other and wait in a heap. All that is kept of a point stands in one
/// row, from `add` to `drop_point`, so that no other call makes or drops one.
pub struct PointRows {
    alloc: Global,
    rows: RowMap<Row>,
    heap: Heap,
}

// (written out: whoever drops one proves one call, and no drop of its parts)
impl Drop for PointRows {
    fn drop(self) {
        let PointRows {
            alloc: _,
            rows,
            heap,
        } = self;
        drop(rows);
        drop(heap);
    }
}

impl Model for PointRows {
    ghost use Rattle.point_rows.specs.Standing.{Standing};
    ghost use Rattle.point_rows.specs.Written.{IsKept, standing_of};

    ghost Value = { Standing };

    ghost view = { λ s. standing_of s.rows s.heap.buckets };

    ghost invariant = { λ s. IsKept s.rows s.heap.buckets s.heap.least };
}

/// The points and their heights.
impl PointRows {
    /// No points, and no room in the heap. This takes no memory.
    pub fn new(alloc: Global) -> PointRows
        ensures heights { result.heights.places ≡ [] }
        ensures roots { result.roots.counts ≡ [] }
        ensures links { result.links.all ≡ [] }
        ensures heap { result.heap.places ≡ [] }
        ensures spare { result.heap.spare ≡ 0 }
    {
        PointRows {
            alloc,
            rows: RowMap::new(alloc),
            heap: Heap {
                buckets: Buckets::none(alloc),
                least: 129,
            },
        }
    }

    /// Adds a point that isn't there, at a height. Without memory nothing changes.
    pub fn add(&mut self, p: Point, height: u32) -> Result<(), AllocError>
        requires absent { at self.old.heights p ≡ None }
        ensures added { OnOk result (Changes self.old.heights self.new.heights p (Some height)) }
        ensures err { OnErr result (self.new ≡ self.old) }
        ensures rest { self.new ≡ record self.old { heights = self.new.heights } }
    {
        self.rows.add(p, new_row(self.alloc, height))
    }

    /// Drops a point that reads none, isn't held and isn't in the heap.
    pub fn drop_point(&mut self, p: Point)
        requires there { Holds self.old.heights p }
        requires reads_none { (q : Point) → times self.old.links p q ≡ 0 }
        requires unheld { IsHeld self.old.links self.old.roots p → ⊥ }
        requires out { at self.old.heap p ≡ None }
        ensures dropped { Changes self.old.heights self.new.heights p None }
        ensures rest { self.new ≡ record self.old { heights = self.new.heights } }
    {
        let _row = self.rows.remove(p);
    }

    /// Whether the point is there.
    #[inline]
    pub fn holds(&self, p: Point) -> bool
        ensures { result ≡ is_some (at self.now.heights p) }
    {
        self.rows.holds(p)
    }

    /// The height of a point, 0 where it isn't there.
    #[inline]
    pub fn level_of(&self, p: Point) -> u32
        ensures { result ≡ level self.now.heights p }
    {
        match self.rows.get(p) {
            Some(row) => row.height,
            None => 0,
        }
    }

    /// Gives a point another height. In the heap it stays at its old one.
    pub fn set_level(&mut self, p: Point, height: u32)
        requires there { Holds self.old.heights p }
        ensures changes { Changes self.old.heights self.new.heights p (Some height) }
        ensures rest { self.new ≡ record self.old { heights = self.new.heights } }
    {
        let row = self.rows.get_mut(p).unwrap();
        row.height = height;
    }
}

/// The links.
impl PointRows {
    /// Makes p read q, once more. Without memory the links stay as they are.
    pub fn add_link(&mut self, p: Point, q: Point) -> Result<(), AllocError>
        requires reader { Holds self.old.heights p }
        requires kid { Holds self.old.heights q }
        ensures added { OnOk result (OneLinkMore self.old.links self.new.links p q) }
        ensures err { OnErr result (KeepsLinks self.old.links self.new.links) }
        ensures rest { self.new ≡ record self.old { links = self.new.links; read = self.new.read } }
    {
        add_ends(&mut self.rows, p, q)
    }

    /// Takes a link from p to q off, once. This takes no memory.
    pub fn remove_link(&mut self, p: Point, q: Point)
        requires there { Reads self.old.links p q }
        ensures removed { OneLinkMore self.new.links self.old.links p q }
        ensures rest { self.new ≡ record self.old { links = self.new.links; read = self.new.read } }
    {
        let (i, back) = kid_place(&self.rows, p, q).unwrap();
        remove_ends(&mut self.rows, p, i, End { point: q, back });
    }

    /// Takes the last link of p off, and gives the point that it led to. None where p reads none. Nothing is
    /// searched for, and this takes no memory.
    pub fn pop_kid(&mut self, p: Point) -> Option<Point>
        ensures removed { IfSome result (λ q. OneLinkMore self.new.links self.old.links p q) }
        ensures none { IfNone result ((q : Point) → times self.old.links p q ≡ 0) }
        ensures unchanged { IfNone result (self.new ≡ self.old) }
        ensures rest { self.new ≡ record self.old { links = self.new.links; read = self.new.read } }
    {
        pop_ends(&mut self.rows, p)
    }

    /// Takes the last link of p off that leads to another point than this one, and gives the point that it led to. None
    /// where p reads no other. This takes no memory.
    pub fn pop_kid_beside(&mut self, p: Point, kept: Point) -> Option<Point>
        ensures removed { IfSome result (λ q. OneLinkMore self.new.links self.old.links p q) }
        ensures other { IfSome result (λ q. q ≢ kept) }
        ensures none { IfNone result ((q : Point) → Reads self.old.links p q → q ≡ kept) }
        ensures unchanged { IfNone result (self.new ≡ self.old) }
        ensures rest { self.new ≡ record self.old { links = self.new.links; read = self.new.read } }
    {
        let Some((i, last)) = last_beside(ends_of(&self.rows, Side::Kids, p), kept) else {
            return None;
        };
        remove_ends(&mut self.rows, p, i, last);
        Some(last.point)
    }

    /// Whether p reads q.
    pub fn reads(&self, p: Point, q: Point) -> bool
        ensures { IsTrue result ↔ Reads self.now.links p q }
    {
        kid_place(&self.rows, p, q).is_some()
    }

    /// Whether some point reads q.
    #[inline]
    pub fn is_read(&self, q: Point) -> bool
        ensures { IsTrue result ↔ IsRead self.now.links q }
    {
        !ends_of(&self.rows, Side::Readers, q).is_empty()
    }

    /// The points that p reads, each once for each link.
    #[inline]
    pub fn kids(&self, p: Point) -> Kids<'_>
        ensures { AreKids self.now.links p (kids_left result) }
    {
        Kids::over(ends_of(&self.rows, Side::Kids, p))
    }

    /// The points that read q, each once for each link.
    #[inline]
    pub fn readers(&self, q: Point) -> Readers<'_>
        ensures { AreReaders self.now.links q (readers_left result) }
    {
        Readers::over(ends_of(&self.rows, Side::Readers, q))
    }

    /// How many readers stand at a point.
    #[inline]
    pub fn reader_count(&self, q: Point) -> usize
        ensures count { result ≡ length (readers_in self.now q) }
        ensures readers { AreReaders self.now.links q (readers_in self.now q) }
    {
        ends_of(&self.rows, Side::Readers, q).len()
    }

    /// The i-th reader of a point, while no link changes.
    #[inline]
    pub fn reader_at(&self, q: Point, i: usize) -> Option<Point>
        ensures { result ≡ slice_get (readers_in self.now q) i }
    {
        let ends = ends_of(&self.rows, Side::Readers, q);
        if i < ends.len() {
            Some(ends[i].point)
        } else {
            None
        }
    }
}

/// The roots.
impl PointRows {
    /// How often a point is a root.
    #[inline]
    pub fn root_count(&self, p: Point) -> usize
        ensures { result ≡ root_times self.now.roots p }
    {
        match self.rows.get(p) {
            Some(row) => row.roots,
            None => 0,
        }
    }

    /// Whether a point is a root, or some point reads it.
    #[inline]
    pub fn is_held(&self, p: Point) -> bool
        ensures { IsTrue result ↔ IsHeld self.now.links self.now.roots p }
    {
        match self.rows.get(p) {
            Some(row) => row.roots > 0 || !row.readers.is_empty(),
            None => false,
        }
    }

    /// Puts a root on, once more. A point that is a root 2^64 - 1 times finds no room, and nothing changes.
    pub fn add_root(&mut self, p: Point) -> Result<(), AllocError>
        requires there { Holds self.old.heights p }
        ensures more { OnOk result (OneRootMore self.old.roots self.new.roots p) }
        ensures err { OnErr result (KeepsRoots self.old.roots self.new.roots) }
        ensures rest { self.new ≡ record self.old { roots = self.new.roots } }
    {
        let row = self.rows.get_mut(p).unwrap();
        more_roots(row)
    }

    /// Takes a root off, once.
    pub fn remove_root(&mut self, p: Point)
        requires root { 0 < root_times self.old.roots p }
        ensures less { OneRootMore self.new.roots self.old.roots p }
        ensures rest { self.new ≡ record self.old { roots = self.new.roots } }
    {
        let row = self.rows.get_mut(p).unwrap();
        fewer_roots(row);
    }
}

/// The heap.
impl PointRows {
    /// Makes room in the heap for `n` more points, so that as many come in without memory. Without memory all stays as it is.
    pub fn reserve(&mut self, n: usize) -> Result<(), AllocError>
        ensures points { KeepsRows self.old.heap self.new.heap }
        ensures count { count self.new.heap ≡ count self.old.heap }
        ensures room { OnOk result (n ≤ self.new.heap.spare) }
        ensures spare { self.old.heap.spare ≤ self.new.heap.spare }
        ensures err { OnErr result (self.new ≡ self.old) }
        ensures succeeds { n ≤ self.old.heap.spare → IsOk result }
        ensures rest { self.new ≡ record self.old { heap = self.new.heap } }
    {
        make_room(&mut self.heap, n)
    }

    /// How many points are in the heap.
    #[inline]
    pub fn heap_len(&self) -> usize
        ensures { result ≡ count self.now.heap }
    {
        self.heap.buckets.len()
    }

    /// Whether the point is in the heap.
    #[inline]
    pub fn in_heap(&self, p: Point) -> bool
        ensures { result ≡ is_some (at self.now.heap p) }
    {
        place_in(&self.rows, p).is_some()
    }

    /// Puts a point into the heap, at its height, unless it is in. This takes one of the spare places at most.
    #[inline]
    pub fn put(&mut self, p: Point)
        requires there { Holds self.old.heights p }
        requires spare { at self.old.heap p ≡ None → 0 < self.old.heap.spare }
        requires low { level self.old.heights p ≤ 128 }
        ensures was_in { Holds self.old.heap p → self.new ≡ self.old }
        ensures out { at self.old.heap p ≡ None → Changes self.old.heap self.new.heap p (at self.old.heights p) }
        ensures out_count { at self.old.heap p ≡ None → count self.new.heap ≡ count self.old.heap + 1 }
        ensures out_spare { at self.old.heap p ≡ None → self.new.heap.spare + 1 ≡ self.old.heap.spare }
        ensures rest { self.new ≡ record self.old { heap = self.new.heap } }
    {
        put_in(&mut self.rows, &mut self.heap, p);
    }

    /// Takes a point off the heap, if it is in.
    pub fn take_out(&mut self, p: Point)
        ensures changes { Changes self.old.heap self.new.heap p None }
        ensures unchanged { at self.old.heap p ≡ None → self.new ≡ self.old }
        ensures fewer { Holds self.old.heap p → count self.new.heap + 1 ≡ count self.old.heap }
        ensures room { count self.new.heap + self.new.heap.spare ≡ count self.old.heap + self.old.heap.spare }
        ensures rest { self.new ≡ record self.old { heap = self.new.heap } }
    {
        if let Some(place) = place_in(&self.rows, p) {
            take_at(&mut self.rows, &mut self.heap, p, place);
        }
    }

    /// Moves a point of the heap to the height that it has.
    pub fn raise(&mut self, p: Point)
        requires in_heap { Holds self.old.heap p }
        requires there { Holds self.old.heights p }
        requires low { level self.old.heights p ≤ 128 }
        ensures changes { Changes self.old.heap self.new.heap p (Some (level self.old.heights p)) }
        ensures count { count self.new.heap ≡ count self.old.heap }
        ensures spare { self.new.heap.spare ≡ self.old.heap.spare }
        ensures rest { self.new ≡ record self.old { heap = self.new.heap } }
    {
        self.take_out(p);
        self.put(p);
    }

    /// Takes off the heap a point of least height, any one of them. None where the heap is empty.
    pub fn pop_least(&mut self) -> Option<Point>
        ensures was { IfSome result (λ p. Holds self.old.heap p) }
        ensures least { IfSome result (λ p. IsLeast self.old.heap (level self.old.heap p)) }
        ensures changes { IfSome result (λ p. Changes self.old.heap self.new.heap p None) }
        ensures count { OnSome result (count self.new.heap + 1 ≡ count self.old.heap) }
        ensures spare { OnSome result (self.new.heap.spare ≡ self.old.heap.spare + 1) }
        ensures none { IfNone result (IsEmpty self.old.heap) }
        ensures unchanged { IfNone result (self.new ≡ self.old) }
        ensures rest { self.new ≡ record self.old { heap = self.new.heap } }
    {
        let Some((p, _height)) = take_least(&mut self.rows, &mut self.heap) else {
            return None;
        };
        Some(p)
    }
}
