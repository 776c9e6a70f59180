//! The heap of points to be recomputed. Each point that is in it has its place there in its row.
ghost use Rattle.std.specs.Prelude.{◌≡◌, ◌+◌, ◌<◌, ◌≤◌, None, Some, IfSome, IfNone, OnSome, IsOk, OnOk, OnErr};
ghost use Rattle.point_map.specs.Rows.{at, count, Holds, Changes, KeepsRows, StandsOnce};
ghost use Rattle.recompute_heap.specs.Agree.{IsLeast, IsEmpty};
ghost use Rattle.height_order.specs.Levels.{level};
ghost use Rattle.point_rows.specs.Cells.{heights_of, place_of};
ghost use Rattle.point_rows.specs.Heap.{IsHeap, seen};
ghost use Rattle.point_rows.specs.Written.{KeepsViews, IsPlaced};

use crate::row::Row;
use inc_value::Point;
use point_map::Buckets;
use row_map::RowMap;
use std::alloc::AllocError;

/// The points to be recomputed, in buckets by their heights. No bucket below the least has a point.
pub(crate) struct Heap {
    pub(crate) buckets: Buckets<()>,
    pub(crate) least: usize,
}

// (written out: whoever drops one proves one call, and no drop of its parts)
impl Drop for Heap {
    fn drop(self) {
        let Heap { buckets, least: _ } = self;
        drop(buckets);
    }
}

/// Where a point is in the heap, if it is.
#[inline]
pub(crate) fn place_in(rows: &RowMap<Row>, p: Point) -> Option<usize>
    ensures { result ≡ place_of rows.now p }
{
    match rows.get(p) {
        Some(row) => row.place,
        None => None,
    }
}

// Writes where a point is in the heap.
#[inline]
fn set_place(rows: &mut RowMap<Row>, p: Point, place: Option<usize>)
    requires there { Holds rows.old p }
    requires once { StandsOnce rows.old.places }
    ensures { IsPlaced rows.old rows.new p place }
{
    let row = rows.get_mut(p).unwrap();
    row.place = place;
}

/// Makes room for `n` more points. Without memory the heap stays as it is.
pub(crate) fn make_room(heap: &mut Heap, n: usize) -> Result<(), AllocError>
    ensures heap { (place : _) → IsHeap place heap.old.buckets heap.old.least → IsHeap place heap.new.buckets heap.new.least }
    ensures points { KeepsRows (seen heap.old.buckets) (seen heap.new.buckets) }
    ensures count { count (seen heap.new.buckets) ≡ count (seen heap.old.buckets) }
    ensures room { OnOk result (n ≤ heap.new.buckets.spare) }
    ensures spare { heap.old.buckets.spare ≤ heap.new.buckets.spare }
    ensures err { OnErr result (seen heap.new.buckets ≡ seen heap.old.buckets) }
    ensures succeeds { n ≤ heap.old.buckets.spare → IsOk result }
{
    if n <= heap.buckets.spare() {
        return Ok(());
    }
    heap.buckets.widen(129)?;
    heap.buckets.reserve(n)
}

/// Puts a point into the heap, at its height, unless it is in. This takes one of the spare places at most.
#[inline]
pub(crate) fn put_in(rows: &mut RowMap<Row>, heap: &mut Heap, p: Point)
    requires there { Holds rows.old p }
    requires once { StandsOnce rows.old.places }
    requires heap { IsHeap (place_of rows.old) heap.old.buckets heap.old.least }
    requires spare { at (seen heap.old.buckets) p ≡ None → 0 < heap.old.buckets.spare }
    requires low { level (heights_of rows.old) p ≤ 128 }
    ensures heap { IsHeap (place_of rows.new) heap.new.buckets heap.new.least }
    ensures rest { KeepsViews rows.old rows.new }
    ensures once { StandsOnce rows.new.places }
    ensures was_in { Holds (seen heap.old.buckets) p → heap.new.buckets ≡ heap.old.buckets }
    ensures changes { at (seen heap.old.buckets) p ≡ None → Changes (seen heap.old.buckets) (seen heap.new.buckets) p (at (heights_of rows.old) p) }
    ensures count { at (seen heap.old.buckets) p ≡ None → count (seen heap.new.buckets) ≡ count (seen heap.old.buckets) + 1 }
    ensures spare { at (seen heap.old.buckets) p ≡ None → heap.new.buckets.spare + 1 ≡ heap.old.buckets.spare }
{
    let row = rows.get_mut(p).unwrap();
    if row.place.is_some() {
        return;
    }
    let bucket = row.height as usize;
    let place = heap.buckets.push(bucket, p, ());
    row.place = Some(place);
    heap.least = heap.least.min(bucket);
}

/// Takes off the point at a place of the heap.
pub(crate) fn take_at(rows: &mut RowMap<Row>, heap: &mut Heap, p: Point, place: usize)
    requires there { place_of rows.old p ≡ Some place }
    requires once { StandsOnce rows.old.places }
    requires heap { IsHeap (place_of rows.old) heap.old.buckets heap.old.least }
    ensures heap { IsHeap (place_of rows.new) heap.new.buckets heap.new.least }
    ensures rest { KeepsViews rows.old rows.new }
    ensures once { StandsOnce rows.new.places }
    ensures changes { Changes (seen heap.old.buckets) (seen heap.new.buckets) p None }
    ensures count { count (seen heap.new.buckets) + 1 ≡ count (seen heap.old.buckets) }
    ensures spare { heap.new.buckets.spare ≡ heap.old.buckets.spare + 1 }
{
    set_place(rows, p, None);
    let _taken = heap.buckets.take(place);
    if let Some(moved) = heap.buckets.point_at(place) {
        set_place(rows, moved, Some(place));
    }
}

/// Takes off a point of least height and gives it with its height, any one of them. None where the heap is empty.
pub(crate) fn take_least(rows: &mut RowMap<Row>, heap: &mut Heap) -> Option<(Point, u32)>
    requires once { StandsOnce rows.old.places }
    requires heap { IsHeap (place_of rows.old) heap.old.buckets heap.old.least }
    ensures heap { IsHeap (place_of rows.new) heap.new.buckets heap.new.least }
    ensures rest { KeepsViews rows.old rows.new }
    ensures once { StandsOnce rows.new.places }
    ensures was { IfSome result (λ r. at (seen heap.old.buckets) r.0 ≡ Some r.1) }
    ensures least { IfSome result (λ r. IsLeast (seen heap.old.buckets) r.1) }
    ensures low { IfSome result (λ r. r.1 ≤ 128) }
    ensures changes { IfSome result (λ r. Changes (seen heap.old.buckets) (seen heap.new.buckets) r.0 None) }
    ensures count { OnSome result (count (seen heap.new.buckets) + 1 ≡ count (seen heap.old.buckets)) }
    ensures spare { OnSome result (heap.new.buckets.spare ≡ heap.old.buckets.spare + 1) }
    ensures none { IfNone result (IsEmpty (seen heap.old.buckets)) }
    ensures unchanged { IfNone result (heap.new.buckets ≡ heap.old.buckets) }
{
    if heap.buckets.len() == 0 {
        return None;
    }
    while heap.least <= 128 {
        let height = heap.least;
        if let Some((_place, p, ())) = heap.buckets.pop(height) {
            set_place(rows, p, None);
            return Some((p, height as u32));
        }
        heap.least += 1;
    }
    None
}
