//! Heights that climb for one link more, and the search for a cycle on the way.
ghost use Rattle.std.specs.Prelude.{[], ◌≡◌, ◌≢◌, ◌+◌, ◌<◌, ◌≤◌, None, Some, List, IfOk, OnOk, IfSome, IfNone, IsTrue, IsFalse};
ghost use Rattle.inc_value.specs.declared.node.Point.{Point};
ghost use Rattle.point_map.specs.Rows.{at, Holds};
ghost use Rattle.link_table.specs.Links.{Reads, AreReaders};
ghost use Rattle.recompute_heap.specs.Agree.{IsEmpty};
ghost use Rattle.height_order.specs.Chains.{IsPath};
ghost use Rattle.height_order.specs.Levels.{level, AreSoundHeights};
ghost use Rattle.height_order.specs.Climbs.{AllAsked, IsDone, IsClimbing, IsClimbed, IsLifted, ComesAbove, KeepsDone};

use crate::lifts::{Lift, lifted_level};
use crate::table::HeightTable;
use inc_value::Point;
use link_table::Link;
use point_map::PointMap;
use recompute_heap::RecomputeHeap;
use std::alloc::{AllocError, Global};
use std::marker::Model;

/// The points that a climb lifted and whose readers weren't looked at. Between climbs there are none, and the
/// queue is kept for its room.
pub struct ClimbQueue {
    points: RecomputeHeap,
}

// (written out: whoever drops one proves one call, and no drop of its parts)
impl Drop for ClimbQueue {
    fn drop(self) {
        let ClimbQueue { points } = self;
        drop(points);
    }
}

impl Model for ClimbQueue {
    ghost use Rattle.recompute_heap.specs.Agree.{IsEmpty};

    ghost Value = { Unit {0} };

    ghost view = { λ _. tt };

    ghost invariant = { λ q. IsEmpty q.points };
}

impl ClimbQueue {
    /// An empty queue. This takes no memory.
    pub fn new(alloc: Global) -> ClimbQueue {
        ClimbQueue {
            points: RecomputeHeap::new(alloc),
        }
    }
}

/// Lifts points until heights rise along the links with the new one, or tells the path from its kid to its
/// reader, if there is one: that path is met on the way, since all its points are lifted.
pub fn climb<T: HeightTable>(
    alloc: Global,
    table: &T,
    new: Link,
    lifts: &mut PointMap<Lift>,
    queue: &mut ClimbQueue,
) -> Result<Option<Vec<Point>>, AllocError>
    requires sound { AreSoundHeights (T.web table.now).heights (T.web table.now).links }
    requires reader { Holds (T.web table.now).heights new.reader }
    requires none { lifts.old.places ≡ [] }
    ensures path { IfOk result (λ o. IfSome o (λ list. IsPath (Reads (T.web table.now).links) list.items new.kid new.reader)) }
    ensures climbed { IfOk result (λ o. IfNone o
        (IsClimbed (T.web table.now).heights (T.web table.now).links new.reader new.kid lifts.new)) }
{
    let mut path = Vec::new(alloc);
    let found = find_path(table, new, lifts, &mut queue.points, &mut path);
    clear(&mut queue.points);
    match found {
        Ok(true) => Ok(Some(path)),
        Ok(false) => Ok(None),
        Err(e) => Err(e),
    }
}

/// Does so over a queue, in which points are left where there is a path or no memory, and appends the path to an
/// empty list. Whether there is one.
fn find_path<T: HeightTable>(
    table: &T,
    new: Link,
    lifts: &mut PointMap<Lift>,
    queue: &mut RecomputeHeap,
    path: &mut Vec<Point>,
) -> Result<bool, AllocError>
    requires sound { AreSoundHeights (T.web table.now).heights (T.web table.now).links }
    requires reader { Holds (T.web table.now).heights new.reader }
    requires none { lifts.old.places ≡ [] }
    requires idle { IsEmpty queue.old }
    requires empty { path.old.items ≡ [] }
    ensures path { IfOk result (λ found. IsTrue found
        → IsPath (Reads (T.web table.now).links) path.new.items new.kid new.reader) }
    ensures climbed { IfOk result (λ found. IsFalse found
        → IsClimbed (T.web table.now).heights (T.web table.now).links new.reader new.kid lifts.new) }
{
    path.push(new.kid)?;
    if new.reader == new.kid {
        return Ok(true);
    }
    let Some(met) = lift_queued(table, new, lifts, queue)? else {
        return Ok(false);
    };
    let mut last = met;
    path.push(last)?;
    while last != new.reader {
        last = lifts.get(last).unwrap().kid;
        path.push(last)?;
    }
    Ok(true)
}

/// Lifts the new link's reader above its kid, and then readers above what they read, until heights rise or a
/// point is met that the kid reads. Only readers of lifted points are looked at, each point's once.
/// Points are left in the queue where such a point is met or there is no memory.
fn lift_queued<T: HeightTable>(
    table: &T,
    new: Link,
    lifts: &mut PointMap<Lift>,
    queue: &mut RecomputeHeap,
) -> Result<Option<Point>, AllocError>
    requires sound { AreSoundHeights (T.web table.now).heights (T.web table.now).links }
    requires reader { Holds (T.web table.now).heights new.reader }
    requires other { new.reader ≢ new.kid }
    requires none { lifts.old.places ≡ [] }
    requires empty { IsEmpty queue.old }
    ensures met { IfOk result (λ o. IfSome o (λ x. Reads (T.web table.now).links new.kid x × Holds lifts.new x)) }
    ensures asked { IfOk result (λ _. AllAsked (T.web table.now).links new.reader new.kid lifts.new) }
    ensures climbed { IfOk result (λ o. IfNone o
        (IsClimbed (T.web table.now).heights (T.web table.now).links new.reader new.kid lifts.new)) }
{
    let height = table.level_of(new.kid) + 1;
    if table.level_of(new.reader) < height {
        let kid = new.kid;
        lift(table, lifts, queue, new.reader, Lift { height, kid })?;
    }
    while let Some((x, _height)) = queue.pop_least() {
        if lift_readers(table, new, lifts, queue, x)? {
            return Ok(Some(x));
        }
    }
    Ok(None)
}

/// Takes all points out.
fn clear(queue: &mut RecomputeHeap)
    ensures { IsEmpty queue.new }
{
    while let Some(_left) = queue.pop_least() {}
}

/// Lifts each reader of a point above it. Where the new link's kid reads it, that is the answer, and the rest is left.
fn lift_readers<T: HeightTable>(
    table: &T,
    new: Link,
    lifts: &mut PointMap<Lift>,
    queue: &mut RecomputeHeap,
    x: Point,
) -> Result<bool, AllocError>
    requires sound { AreSoundHeights (T.web table.now).heights (T.web table.now).links }
    requires done { IsDone lifts.old queue.old x }
    requires climbing { (left : List Point) → AreReaders (T.web table.now).links x left
        → IsClimbing (T.web table.now).heights (T.web table.now).links new.reader new.kid lifts.old queue.old
        (level (T.web table.now).heights x) x left }
    ensures met { IfOk result (λ met. IsTrue met → Reads (T.web table.now).links new.kid x) }
    ensures climbing { IfOk result (λ met. IsFalse met
        → IsClimbing (T.web table.now).heights (T.web table.now).links new.reader new.kid lifts.new queue.new
        (level (T.web table.now).heights x) x []) }
    ensures asked { IfOk result (λ _. AllAsked (T.web table.now).links new.reader new.kid lifts.new) }
    ensures kept { IfOk result (λ _. KeepsDone lifts.old lifts.new queue.old queue.new) }
{
    for reader in table.readers(x) {
        if reader == new.kid {
            return Ok(true);
        }
        lift_above(table, lifts, queue, reader, x)?;
    }
    Ok(false)
}

/// Lifts a point above another that it reads, if it isn't higher already. No height passes 129.
fn lift_above<T: HeightTable>(
    table: &T,
    lifts: &mut PointMap<Lift>,
    queue: &mut RecomputeHeap,
    reader: Point,
    kid: Point,
) -> Result<(), AllocError>
    requires low { level (T.web table.now).heights reader ≤ 128 }
    requires fresh { at lifts.old reader ≡ None → at queue.old reader ≡ None }
    ensures { OnOk result (ComesAbove (T.web table.now).heights lifts.old lifts.new queue.old queue.new reader kid) }
{
    let height = lifted_level(table, lifts, kid).min(128) + 1;
    if lifted_level(table, lifts, reader) < height {
        return lift(table, lifts, queue, reader, Lift { height, kid });
    }
    Ok(())
}

/// Lifts a point, and puts it into the queue by its old height if it isn't lifted yet.
fn lift<T: HeightTable>(
    table: &T,
    lifts: &mut PointMap<Lift>,
    queue: &mut RecomputeHeap,
    p: Point,
    lift: Lift,
) -> Result<(), AllocError>
    requires low { level (T.web table.now).heights p ≤ 128 }
    requires fresh { at lifts.old p ≡ None → at queue.old p ≡ None }
    ensures { OnOk result (IsLifted (T.web table.now).heights lifts.old lifts.new queue.old queue.new p lift) }
{
    if lifts.holds(p) {
        lifts.replace(p, lift);
        return Ok(());
    }
    lifts.reserve(1)?;
    queue.reserve(1)?;
    lifts.insert(p, lift);
    queue.insert(p, table.level_of(p));
    Ok(())
}
