//! New heights of some points, over the old heights of all.
ghost use Rattle.std.specs.Prelude.{◌≡◌, ◌+◌, ◌<◌, ◌≤◌, IsTrue, IsFalse, vec_len, vec_capacity};
ghost use Rattle.inc_value.specs.declared.node.Point.{Point};
ghost use Rattle.point_map.specs.Rows.{Holds, IsWalk};
ghost use Rattle.height_order.specs.Levels.{level, KeepsPoints, Tells};
ghost use Rattle.height_order.specs.Climbs.{lifted};

use crate::table::HeightTable;
use inc_value::Point;
use point_map::PointMap;

/// A point's new height, and the point that it reads and that asks for this.
#[derive(Clone, Copy)]
pub struct Lift {
    pub height: u32,
    pub kid: Point,
}

/// The height of a point once it is lifted.
pub fn lifted_level<T: HeightTable>(table: &T, lifts: &PointMap<Lift>, p: Point) -> u32
    ensures { result ≡ lifted (T.web table.now).heights lifts.now p }
{
    match lifts.get(p) {
        Some(lift) => lift.height,
        None => table.level_of(p),
    }
}

/// Gives each lifted point its new height, and appends those whose height changes to `moved`, each once.
/// There are so many places, and `moved` has room for as many points.
pub fn write_lifts<T: HeightTable>(
    table: &mut T,
    lifts: &PointMap<Lift>,
    places: usize,
    moved: &mut Vec<Point>,
)
    requires walk { IsWalk lifts.now places }
    requires there { (p : Point) → Holds lifts.now p → Holds (T.web table.old).heights p }
    requires room { vec_len moved.old + places ≤ vec_capacity moved.old }
    ensures points { KeepsPoints (T.web table.old).heights (T.web table.new).heights }
    ensures links { (T.web table.new).links ≡ (T.web table.old).links }
    ensures rest { T.rest table.new ≡ T.rest table.old }
    ensures written { (p : Point) → level (T.web table.new).heights p ≡ lifted (T.web table.old).heights lifts.now p }
    ensures moved { Tells (level (T.web table.old).heights) (level (T.web table.new).heights) moved.old.items moved.new.items }
{
    for i in 0..places {
        let Some(p) = lifts.point_at(i) else {
            continue;
        };
        let height = lifted_level(table, lifts, p);
        if table.level_of(p) == height {
            continue;
        }
        table.set_level(p, height);
        moved.push_reserved(p);
    }
}

/// Whether a point is lifted above the greatest height.
pub fn any_too_high<T: HeightTable>(table: &T, lifts: &PointMap<Lift>) -> bool
    ensures high { IsTrue result → (p : Point) × (128 < lifted (T.web table.now).heights lifts.now p) }
    ensures low { IsFalse result → (p : Point) → Holds lifts.now p → lifted (T.web table.now).heights lifts.now p ≤ 128 }
{
    for i in 0..lifts.places() {
        if let Some(p) = lifts.point_at(i) {
            if lifted_level(table, lifts, p) > 128 {
                return true;
            }
        }
    }
    false
}
