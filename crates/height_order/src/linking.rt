//! A link more, over heights that are lifted or levelled for it.
ghost use Rattle.std.specs.Prelude.{[], ◌≡◌, ◌≤◌, OnOk, OnErr};
ghost use Rattle.inc_value.specs.declared.node.Point.{Point};
ghost use Rattle.point_map.specs.Rows.{Holds};
ghost use Rattle.link_table.specs.Links.{Reads};
ghost use Rattle.height_order.specs.Levels.{level, levelled, AllLow, Ends, AreSoundHeights, KeepsPoints, IsExact, Tells};
ghost use Rattle.height_order.specs.Climbs.{IsClimbed, IsRanked};
ghost use Rattle.height_order.specs.Answers.{IsLinkAnswer, IsFitted, AreEndsLevelled};

use crate::climb::{ClimbQueue, climb};
use crate::heights::LinkFault;
use crate::levels::{level_below, level_each, level_of, long_chain, too_long};
use crate::lifts::{Lift, any_too_high, write_lifts};
use crate::table::{HeightTable, Tables};
use inc_value::Point;
use link_table::Link;
use point_map::PointMap;
use std::alloc::{AllocError, Global};

/// Makes one link more. Where its reader is higher than its kid already, heights stay.
pub fn make_link<T: HeightTable>(
    alloc: Global,
    table: &mut T,
    queue: &mut ClimbQueue,
    new: Link,
    moved: &mut Vec<Point>,
) -> Result<(), LinkFault>
    requires sound { AreSoundHeights (T.web table.old).heights (T.web table.old).links }
    requires reader { Holds (T.web table.old).heights new.reader }
    requires kid { Holds (T.web table.old).heights new.kid }
    ensures sound { AreSoundHeights (T.web table.new).heights (T.web table.new).links }
    ensures rest { T.rest table.new ≡ T.rest table.old }
    ensures answer { IsLinkAnswer (T.web table.old) (T.web table.new)
        new.reader new.kid moved.old.items moved.new.items result }
{
    if table.level_of(new.kid) < table.level_of(new.reader) {
        return match table.add_link(new.reader, new.kid) {
            Ok(()) => Ok(()),
            Err(AllocError) => Err(LinkFault::Memory),
        };
    }
    let mut lifts = PointMap::new(alloc);
    let linked = link_climbing(alloc, table, queue, new, &mut lifts, moved);
    drop(lifts);
    linked
}

/// Lifts points until the link fits. Where some are lifted too high they are levelled, with what they rest on.
fn link_climbing<T: HeightTable>(
    alloc: Global,
    table: &mut T,
    queue: &mut ClimbQueue,
    new: Link,
    lifts: &mut PointMap<Lift>,
    moved: &mut Vec<Point>,
) -> Result<(), LinkFault>
    requires sound { AreSoundHeights (T.web table.old).heights (T.web table.old).links }
    requires reader { Holds (T.web table.old).heights new.reader }
    requires kid { Holds (T.web table.old).heights new.kid }
    requires not_higher { level (T.web table.old).heights new.reader ≤ level (T.web table.old).heights new.kid }
    requires none { lifts.old.places ≡ [] }
    ensures sound { AreSoundHeights (T.web table.new).heights (T.web table.new).links }
    ensures rest { T.rest table.new ≡ T.rest table.old }
    ensures answer { IsLinkAnswer (T.web table.old) (T.web table.new)
        new.reader new.kid moved.old.items moved.new.items result }
{
    match climb(alloc, table, new, lifts, queue) {
        Ok(None) => link_climbed(alloc, table, new, lifts, moved),
        Ok(Some(path)) => Err(LinkFault::Path(path)),
        Err(AllocError) => Err(LinkFault::Memory),
    }
}

/// Makes the link over what a climb lifted.
fn link_climbed<T: HeightTable>(
    alloc: Global,
    table: &mut T,
    new: Link,
    lifts: &PointMap<Lift>,
    moved: &mut Vec<Point>,
) -> Result<(), LinkFault>
    requires sound { AreSoundHeights (T.web table.old).heights (T.web table.old).links }
    requires reader { Holds (T.web table.old).heights new.reader }
    requires kid { Holds (T.web table.old).heights new.kid }
    requires not_higher { level (T.web table.old).heights new.reader ≤ level (T.web table.old).heights new.kid }
    requires climbed { IsClimbed (T.web table.old).heights (T.web table.old).links new.reader new.kid lifts.now }
    ensures sound { AreSoundHeights (T.web table.new).heights (T.web table.new).links }
    ensures rest { T.rest table.new ≡ T.rest table.old }
    ensures answer { IsLinkAnswer (T.web table.old) (T.web table.new)
        new.reader new.kid moved.old.items moved.new.items result }
{
    if any_too_high(table, lifts) {
        return link_levelled(alloc, table, new, lifts, moved);
    }
    let places = lifts.places();
    match moved.reserve(places) {
        Ok(()) => {}
        Err(AllocError) => return Err(LinkFault::Memory),
    }
    match table.add_link(new.reader, new.kid) {
        Ok(()) => {
            write_lifts(table, lifts, places, moved);
            Ok(())
        }
        Err(AllocError) => Err(LinkFault::Memory),
    }
}

/// Makes the link and levels the lifted points over it, with what they rest on. Where this doesn't fit the link
/// is taken off again, and all that stands below its two ends is levelled without it.
fn link_levelled<T: HeightTable>(
    alloc: Global,
    table: &mut T,
    new: Link,
    lifts: &PointMap<Lift>,
    moved: &mut Vec<Point>,
) -> Result<(), LinkFault>
    requires sound { AreSoundHeights (T.web table.old).heights (T.web table.old).links }
    requires reader { Holds (T.web table.old).heights new.reader }
    requires kid { Holds (T.web table.old).heights new.kid }
    requires not_higher { level (T.web table.old).heights new.reader ≤ level (T.web table.old).heights new.kid }
    requires climbed { IsClimbed (T.web table.old).heights (T.web table.old).links new.reader new.kid lifts.now }
    ensures sound { AreSoundHeights (T.web table.new).heights (T.web table.new).links }
    ensures rest { T.rest table.new ≡ T.rest table.old }
    ensures answer { IsLinkAnswer (T.web table.old) (T.web table.new)
        new.reader new.kid moved.old.items moved.new.items result }
{
    match table.add_link(new.reader, new.kid) {
        Ok(()) => {}
        Err(AllocError) => return Err(LinkFault::Memory),
    }
    let chain = match fit(alloc, table, lifts, moved) {
        Ok(None) => return Ok(()),
        Ok(Some(chain)) => chain,
        Err(AllocError) => {
            table.remove_link(new.reader, new.kid);
            return Err(LinkFault::Memory);
        }
    };
    table.remove_link(new.reader, new.kid);
    match level_ends(alloc, table, new, moved) {
        Ok(()) => Err(LinkFault::Over(chain)),
        Err(AllocError) => Err(LinkFault::Memory),
    }
}

/// Levels points that are to be lifted, and what they rest on, or tells a chain that is too long.
fn fit<T: HeightTable>(
    alloc: Global,
    table: &mut T,
    lifts: &PointMap<Lift>,
    moved: &mut Vec<Point>,
) -> Result<Option<Vec<Point>>, AllocError>
    requires ends { Ends (T.web table.old).heights (T.web table.old).links }
    requires low { AllLow (level (T.web table.old).heights) }
    requires ranked { IsRanked (Reads (T.web table.old).links) (T.web table.old).heights lifts.now }
    requires there { (x : Point) → Holds lifts.now x → Holds (T.web table.old).heights x }
    ensures links { (T.web table.new).links ≡ (T.web table.old).links }
    ensures rest { T.rest table.new ≡ T.rest table.old }
    ensures fitted { IsFitted (T.web table.old).heights (T.web table.new).heights (T.web table.old).links lifts.now
        moved.old.items moved.new.items result }
{
    let mut levels = PointMap::new(alloc);
    let fitted = fit_levels(alloc, table, lifts, &mut levels, moved);
    drop(levels);
    fitted
}

/// Does so over a map for the levels.
fn fit_levels<T: HeightTable>(
    alloc: Global,
    table: &mut T,
    lifts: &PointMap<Lift>,
    levels: &mut PointMap<u32>,
    moved: &mut Vec<Point>,
) -> Result<Option<Vec<Point>>, AllocError>
    requires ends { Ends (T.web table.old).heights (T.web table.old).links }
    requires low { AllLow (level (T.web table.old).heights) }
    requires ranked { IsRanked (Reads (T.web table.old).links) (T.web table.old).heights lifts.now }
    requires there { (x : Point) → Holds lifts.now x → Holds (T.web table.old).heights x }
    requires none { levels.old.places ≡ [] }
    ensures links { (T.web table.new).links ≡ (T.web table.old).links }
    ensures rest { T.rest table.new ≡ T.rest table.old }
    ensures fitted { IsFitted (T.web table.old).heights (T.web table.new).heights (T.web table.old).links lifts.now
        moved.old.items moved.new.items result }
{
    match level_each(table, lifts, levels, 257) {
        Ok(()) => {}
        Err(e) => return Err(e),
    }
    if let Some(top) = too_long(levels) {
        return match long_chain(alloc, table, levels, top) {
            Ok(chain) => Ok(Some(chain)),
            Err(e) => Err(e),
        };
    }
    match adopt(table, levels, moved) {
        Ok(()) => Ok(None),
        Err(e) => Err(e),
    }
}

/// Levels a link's two ends and all that they lead to, and tells which heights changed. Without memory
/// nothing changes.
fn level_ends<T: HeightTable>(
    alloc: Global,
    table: &mut T,
    new: Link,
    moved: &mut Vec<Point>,
) -> Result<(), AllocError>
    requires sound { AreSoundHeights (T.web table.old).heights (T.web table.old).links }
    requires reader { Holds (T.web table.old).heights new.reader }
    requires kid { Holds (T.web table.old).heights new.kid }
    ensures links { (T.web table.new).links ≡ (T.web table.old).links }
    ensures rest { T.rest table.new ≡ T.rest table.old }
    ensures levelled { AreEndsLevelled (T.web table.old).heights (T.web table.new).heights (T.web table.old).links
        new.reader new.kid moved.old.items moved.new.items result }
{
    let mut levels = PointMap::new(alloc);
    let levelled = adopt_ends(table, new, &mut levels, moved);
    drop(levels);
    levelled
}

/// Does so over a map for the levels.
fn adopt_ends<T: HeightTable>(
    table: &mut T,
    new: Link,
    levels: &mut PointMap<u32>,
    moved: &mut Vec<Point>,
) -> Result<(), AllocError>
    requires sound { AreSoundHeights (T.web table.old).heights (T.web table.old).links }
    requires reader { Holds (T.web table.old).heights new.reader }
    requires kid { Holds (T.web table.old).heights new.kid }
    requires none { levels.old.places ≡ [] }
    ensures links { (T.web table.new).links ≡ (T.web table.old).links }
    ensures rest { T.rest table.new ≡ T.rest table.old }
    ensures levelled { AreEndsLevelled (T.web table.old).heights (T.web table.new).heights (T.web table.old).links
        new.reader new.kid moved.old.items moved.new.items result }
{
    // (each point that is led to gets its level, since all are free)
    let free: Option<&PointMap<Lift>> = None;
    level_below(table, free, levels, new.reader, 128)?;
    level_below(table, free, levels, new.kid, 128)?;
    adopt(table, levels, moved)
}

/// Levels all points, and tells which heights changed. Without memory nothing changes.
pub fn adopt_all(
    tables: &mut Tables,
    levels: &mut PointMap<u32>,
    moved: &mut Vec<Point>,
) -> Result<(), AllocError>
    requires sound { AreSoundHeights tables.old.heights tables.old.links }
    requires none { levels.old.places ≡ [] }
    ensures sound { AreSoundHeights tables.new.heights tables.new.links }
    ensures exact { OnOk result (IsExact tables.new.heights tables.new.links) }
    ensures links { tables.new.links ≡ tables.old.links }
    ensures points { KeepsPoints tables.old.heights tables.new.heights }
    ensures moved { Tells (level tables.old.heights) (level tables.new.heights) moved.old.items moved.new.items }
    ensures err { OnErr result (tables.new.heights ≡ tables.old.heights) }
{
    level_each(tables, &tables.heights, levels, 128)?;
    adopt(tables, levels, moved)
}

/// Takes levels for the heights of their points, and tells which changed. Without memory nothing changes.
fn adopt<T: HeightTable>(
    table: &mut T,
    levels: &PointMap<u32>,
    moved: &mut Vec<Point>,
) -> Result<(), AllocError>
    requires there { (p : Point) → Holds levels.now p → Holds (T.web table.old).heights p }
    ensures links { (T.web table.new).links ≡ (T.web table.old).links }
    ensures rest { T.rest table.new ≡ T.rest table.old }
    ensures adopted { OnOk result ((p : Point)
        → level (T.web table.new).heights p ≡ levelled (T.web table.old).heights levels.now p) }
    ensures err { OnErr result ((T.web table.new).heights ≡ (T.web table.old).heights) }
    ensures untold { OnErr result (moved.new.items ≡ moved.old.items) }
    ensures points { KeepsPoints (T.web table.old).heights (T.web table.new).heights }
    ensures moved { Tells (level (T.web table.old).heights) (level (T.web table.new).heights) moved.old.items moved.new.items }
{
    let places = levels.places();
    moved.reserve(places)?;
    for i in 0..places {
        let Some(p) = levels.point_at(i) else {
            continue;
        };
        let height = level_of(levels, p);
        if table.level_of(p) == height {
            continue;
        }
        table.set_level(p, height);
        moved.push_reserved(p);
    }
    Ok(())
}
