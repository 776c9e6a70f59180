//! Tables of heights, and levels: the lengths of points' longest chains.
ghost use Rattle.std.specs.Prelude.{ℕ, ◌≡◌, ◌≢◌, ◌⊎◌, ◌+◌, ◌<◌, ◌≤◌, None, Some, option_copied, length, IfOk, IfSome, IfNone, OnOk, OnErr};
ghost use Rattle.inc_value.specs.declared.node.Point.{Point};
ghost use Rattle.point_map.specs.Rows.{at, Holds, Changes, KeepsRows};
ghost use Rattle.link_table.specs.Links.{Reads};
ghost use Rattle.height_order.specs.Chains.{IsChain, Leads, NoneLonger};
ghost use Rattle.height_order.specs.Levels.{level, bound, AreBounds, HaveNext, AreLevels, AddsBelow};

use crate::table::HeightTable;
use inc_value::Point;
use point_map::PointMap;
use std::alloc::{AllocError, Global};

/// The height of a point, 0 where it isn't there.
pub fn level_of(heights: &PointMap<u32>, p: Point) -> u32
    ensures { result ≡ level heights.now p }
{
    heights.get(p).copied().unwrap_or(0)
}

/// Adds a point that isn't there, with its height.
pub fn add_at(heights: &mut PointMap<u32>, p: Point, height: u32) -> Result<(), AllocError>
    requires absent { at heights.old p ≡ None }
    ensures added { OnOk result (Changes heights.old heights.new p (Some height)) }
    ensures err { OnErr result (KeepsRows heights.old heights.new) }
{
    heights.reserve(1)?;
    heights.insert(p, height);
    Ok(())
}

/// The greatest level that a point may have: its height. The height of a free point tells nothing of its level,
/// but no level is above 257. Without a map all points are free.
fn bound_of<T: HeightTable, R>(table: &T, free: Option<&PointMap<R>>, p: Point) -> u32
    ensures { result ≡ bound (T.web table.now).heights (option_copied free.entry) p }
{
    let Some(free) = free else {
        return 257;
    };
    if free.holds(p) {
        return 257;
    }
    table.level_of(p)
}

/// A point that this one reads, of greatest bound.
fn highest_kid<T: HeightTable, R>(table: &T, free: Option<&PointMap<R>>, p: Point) -> Option<Point>
    ensures kid { IfSome result (λ k. Reads (T.web table.now).links p k) }
    ensures highest { IfSome result (λ k. (q : Point) → Reads (T.web table.now).links p q
        → bound (T.web table.now).heights (option_copied free.entry) q
        ≤ bound (T.web table.now).heights (option_copied free.entry) k) }
    ensures none { IfNone result ((q : Point) → Reads (T.web table.now).links p q → ⊥) }
{
    let mut kids = table.kids(p);
    let Some(mut highest) = kids.next() else {
        return None;
    };
    let mut most = bound_of(table, free, highest);
    for kid in kids {
        let bound = bound_of(table, free, kid);
        if bound <= most {
            continue;
        }
        highest = kid;
        most = bound;
    }
    Some(highest)
}

/// The level of a point, over at most so many links. It is kept, with those of the points that it rests on.
/// The kid of greatest bound is looked at first, and then those whose bound isn't below the level that was
/// found: no other can raise it.
pub fn level_below<T: HeightTable, R>(
    table: &T,
    free: Option<&PointMap<R>>,
    levels: &mut PointMap<u32>,
    p: Point,
    most: u32,
) -> Result<u32, AllocError>
    requires levels { AreLevels (T.web table.now).links (bound (T.web table.now).heights (option_copied free)) levels.old }
    requires bounds { AreBounds (T.web table.now).links (bound (T.web table.now).heights (option_copied free)) }
    requires short { NoneLonger (Reads (T.web table.now).links) p most }
    ensures level { IfOk result (λ n. at levels.new p ≡ Some n) }
    ensures levels { OnOk result
        (AreLevels (T.web table.now).links (bound (T.web table.now).heights (option_copied free.entry)) levels.new) }
    ensures adds { OnOk result (AddsBelow (T.web table.now).links levels.old levels.new p) }
{
    if let Some(level) = levels.get(p).copied() {
        return Ok(level);
    }
    let Some(highest) = highest_kid(table, free, p) else {
        add_at(levels, p, 0)?;
        return Ok(0);
    };
    let mut level = level_below(table, free, levels, highest, most - 1)? + 1;
    for kid in table.kids(p) {
        if bound_of(table, free, kid) < level {
            continue;
        }
        level = level.max(level_below(table, free, levels, kid, most - 1)? + 1);
    }
    add_at(levels, p, level)?;
    Ok(level)
}

/// Levels the points of a map, which are free, and what these rest on.
pub fn level_each<T: HeightTable, R>(
    table: &T,
    points: &PointMap<R>,
    levels: &mut PointMap<u32>,
    most: u32,
) -> Result<(), AllocError>
    requires levels { AreLevels (T.web table.now).links (bound (T.web table.now).heights (Some points.now)) levels.old }
    requires bounds { AreBounds (T.web table.now).links (bound (T.web table.now).heights (Some points.now)) }
    requires short { (p : Point) → NoneLonger (Reads (T.web table.now).links) p most }
    ensures levels { OnOk result
        (AreLevels (T.web table.now).links (bound (T.web table.now).heights (Some points.now)) levels.new) }
    ensures each { OnOk result ((p : Point) → Holds points.now p → Holds levels.new p) }
    ensures below { OnOk result ((x : Point) → Holds levels.new x
        → Holds levels.old x ⊎ ((p : Point) × Holds points.now p × Leads (Reads (T.web table.now).links) p x)) }
{
    for i in 0..points.places() {
        let Some(p) = points.point_at(i) else {
            continue;
        };
        level_below(table, Some(points), levels, p, most)?;
    }
    Ok(())
}

/// A point whose level is above the greatest height, if there is one.
pub fn too_long(levels: &PointMap<u32>) -> Option<Point>
    ensures some { IfSome result (λ p. 128 < level levels.now p) }
    ensures none { IfNone result ((p : Point) → level levels.now p ≤ 128) }
{
    for i in 0..levels.places() {
        if let Some(p) = levels.point_at(i) {
            if level_of(levels, p) > 128 {
                return Some(p);
            }
        }
    }
    None
}

/// A chain of 130 points, from one whose level is above the greatest height.
pub fn long_chain<T: HeightTable>(
    alloc: Global,
    table: &T,
    levels: &PointMap<u32>,
    top: Point,
) -> Result<Vec<Point>, AllocError>
    requires next { HaveNext (T.web table.now).links levels.now }
    requires high { 128 < level levels.now top }
    ensures chain { IfOk result (λ list. IsChain (Reads (T.web table.now).links) list.items) }
    ensures length { IfOk result (λ list. length list.items ≡ 130) }
{
    let mut list = Vec::new(alloc);
    let mut last = top;
    list.push(last)?;
    while list.len() < 130 {
        last = kid_below(table, levels, last).unwrap();
        list.push(last)?;
    }
    Ok(list)
}

/// A point that this one reads and whose level is at most one lower.
fn kid_below<T: HeightTable>(table: &T, levels: &PointMap<u32>, p: Point) -> Option<Point>
    ensures kid { IfSome result (λ k. Reads (T.web table.now).links p k × (level levels.now p ≤ level levels.now k + 1)) }
    ensures none { IfNone result ((k : Point) → Reads (T.web table.now).links p k → level levels.now k + 1 < level levels.now p) }
{
    let level = level_of(levels, p);
    for kid in table.kids(p) {
        if level.saturating_sub(1) <= level_of(levels, kid) {
            return Some(kid);
        }
    }
    None
}
