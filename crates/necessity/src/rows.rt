//! Rows of what is counted at points.
ghost use Rattle.std.specs.Prelude.{◌≡◌, ◌≢◌, ◌+◌, ◌<◌, ◌≤◌, ◌↔◌, IsTrue, Some, None};
ghost use Rattle.inc_value.specs.declared.node.Point.{Point};
ghost use Rattle.point_map.specs.Rows.{at, Holds, Changes};
ghost use Rattle.necessity.specs.Counting.{need_at, IsAtRest, IsIdle, NoNewRows};

use crate::need::Need;
use inc_value::Point;
use link_table::LinkTable;
use point_map::PointMap;

/// What is counted at a point.
pub fn need_of(rows: &PointMap<Need>, p: Point) -> Need
    ensures { result ≡ need_at rows.now p }
{
    match rows.get(p) {
        Some(need) => *need,
        None => Need { roots: 0, by: 0 },
    }
}

/// Gives a point another row, or its first.
pub fn put(rows: &mut PointMap<Need>, p: Point, need: Need)
    requires room { 0 < rows.old.spare }
    ensures { Changes rows.old rows.new p (Some need) }
{
    if rows.holds(p) {
        let _was = rows.replace(p, need);
    } else {
        rows.insert(p, need);
    }
}

/// Gives a point a row, if it has none. This takes one of the spare places at most.
pub fn open(rows: &mut PointMap<Need>, p: Point)
    requires room { 0 < rows.old.spare }
    ensures there { Holds rows.new p }
    ensures held { (k : Point) → Holds rows.old k → Holds rows.new k }
    ensures others { (k : Point) → k ≢ p → Holds rows.new k → Holds rows.old k }
    ensures needs { (k : Point) → need_at rows.new k ≡ need_at rows.old k }
    ensures spare { rows.old.spare ≤ rows.new.spare + 1 }
{
    if !rows.holds(p) {
        rows.insert(p, Need { roots: 0, by: 0 });
    }
}

/// Whether a point is no root and has no links.
pub fn is_idle(links: &LinkTable, rows: &PointMap<Need>, p: Point) -> bool
    ensures { IsTrue result ↔ IsIdle links.now rows.now p }
{
    if need_of(rows, p).roots > 0 {
        return false;
    }
    if links.kids(p).next().is_some() {
        return false;
    }
    links.readers(p).next().is_none()
}

/// Takes the row of a point off, if it is no root and has no links.
pub fn forget(links: &LinkTable, rows: &mut PointMap<Need>, p: Point)
    requires at_rest { IsAtRest links.now rows.old }
    ensures at_rest { IsAtRest links.now rows.new }
    ensures needs { (k : Point) → need_at rows.new k ≡ need_at rows.old k }
    ensures gone { IsIdle links.now rows.old p → at rows.new p ≡ None }
    ensures rows { NoNewRows rows.old rows.new }
{
    if rows.holds(p) && is_idle(links, rows, p) {
        let _row = rows.remove(p);
    }
}
