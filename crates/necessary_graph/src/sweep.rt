//! Taking off what is no longer needed, and following new heights.
ghost use Rattle.std.specs.Prelude.{◌≡◌, ◌⊎◌, ◌<◌, ℕ, None, Some, Contains};
ghost use Rattle.inc_value.specs.declared.node.Point.{Point};
ghost use Rattle.point_map.specs.Rows.{Rows, at, count, Holds, Changes};
ghost use Rattle.link_table.specs.Links.{times, Reads};
ghost use Rattle.necessity.specs.Need.{root_times};
ghost use Rattle.height_order.specs.Levels.{level, AllLow, Rises, Ends, KeepsPoints};
ghost use Rattle.necessary_graph.specs.Room.{HasRoom};
ghost use Rattle.necessary_graph.specs.Part.{part_of, Needed};
ghost use Rattle.necessary_graph.specs.Sweep.{IsSwept, IsBare, IsDealtWith, IsGone, IsLeft};

use inc_value::Point;
use point_rows::PointRows;

/// Tells which points are leaves: those that are there only while they are needed.
pub trait Leaves {
    ghost use Rattle.std.specs.Prelude.{◌≡◌, Bool};
    ghost use Rattle.inc_value.specs.declared.node.Point.{Point};

    // whether a point is a leaf
    ghost is_leaf: { Self → Point → Bool };

    /// Whether the point is a leaf.
    fn has(&self, p: Point) -> bool
        ensures { result ≡ is_leaf self.now p };
}

/// Takes a point that isn't needed from the heap, and its links off. A kid that is no root and that nobody reads any more
/// is swept in turn; one that is still read by a point to be swept is swept with that point's link. Heights fall along
/// links, so this goes at most 129 deep. A leaf that nobody reads any more is
/// dropped; `points` counts the points that are there.
pub fn sweep<L: Leaves>(rows: &mut PointRows, points: &mut usize, p: Point, leaves: &L)
    requires ends { Ends rows.old.heights rows.old.links }
    requires rises { Rises (Reads rows.old.links) (level rows.old.heights) }
    requires there { Holds rows.old.heights p }
    requires unneeded { Needed (part_of rows.old) p → ⊥ }
    requires room { HasRoom rows.old.heights rows.old.heap points.old }
    ensures swept { IsSwept (L.is_leaf leaves.now) p (part_of rows.old) (part_of rows.new) }
    ensures bare { IsBare (L.is_leaf leaves.now) (part_of rows.new) p }
    ensures ends { Ends rows.new.heights rows.new.links }
    ensures room { HasRoom rows.new.heights rows.new.heap points.new }
{
    take_out(rows, p);
    while let Some(kid) = rows.pop_kid(p) {
        if !rows.is_held(kid) {
            sweep(rows, points, kid, leaves);
        }
    }
    drop_leaf(rows, points, p, leaves);
}

/// Sweeps a point that lost a root or a reader, unless it is held still.
pub fn sweep_unheld<L: Leaves>(rows: &mut PointRows, points: &mut usize, p: Point, leaves: &L)
    requires ends { Ends rows.old.heights rows.old.links }
    requires rises { Rises (Reads rows.old.links) (level rows.old.heights) }
    requires there { Holds rows.old.heights p }
    requires room { HasRoom rows.old.heights rows.old.heap points.old }
    ensures swept { IsSwept (L.is_leaf leaves.now) p (part_of rows.old) (part_of rows.new) }
    ensures dealt { IsDealtWith (L.is_leaf leaves.now) (part_of rows.new) p }
    ensures room { HasRoom rows.new.heights rows.new.heap points.new }
{
    if !rows.is_held(p) {
        sweep(rows, points, p, leaves);
    }
}

/// Drops a point that is no root, reads none and isn't in the heap, if it is a leaf that nobody reads.
fn drop_leaf<L: Leaves>(rows: &mut PointRows, points: &mut usize, p: Point, leaves: &L)
    requires there { Holds rows.old.heights p }
    requires unrooted { 0 < root_times rows.old.roots p → ⊥ }
    requires reads_none { (q : Point) → times rows.old.links p q ≡ 0 }
    requires out { at rows.old.heap p ≡ None }
    requires room { 0 < points.old }
    ensures leaf { IsGone (L.is_leaf leaves.now) rows.old.links p rows.old.heights rows.new.heights points.old points.new
        ⊎ IsLeft (L.is_leaf leaves.now) rows.old.links p rows.old.heights rows.new.heights points.old points.new }
    ensures rest { rows.new ≡ record rows.old { heights = rows.new.heights } }
{
    if leaves.has(p) && !rows.is_read(p) {
        rows.drop_point(p);
        *points -= 1;
    }
}

/// Takes a point from the heap, if it is in.
pub fn take_out(rows: &mut PointRows, p: Point)
    ensures out { Changes rows.old.heap rows.new.heap p None }
    ensures rest { rows.new ≡ record rows.old { heap = rows.new.heap } }
    ensures room { (points : ℕ) (heights : Rows ℕ) → HasRoom heights rows.old.heap points → HasRoom heights rows.new.heap points }
{
    rows.take_out(p);
}

/// Gives each of these points that is in the heap its present height. All others have theirs.
pub fn raise_moved(rows: &mut PointRows, moved: &[Point])
    requires there { (p : Point) → Holds rows.old.heap p → Holds rows.old.heights p }
    requires low { AllLow (level rows.old.heights) }
    requires due { (p : Point) (h : ℕ) → at rows.old.heap p ≡ Some h → (h ≡ level rows.old.heights p) ⊎ Contains moved.now p }
    ensures heights { (p : Point) (h : ℕ) → at rows.new.heap p ≡ Some h → h ≡ level rows.old.heights p }
    ensures points { KeepsPoints rows.old.heap rows.new.heap }
    ensures count { count rows.new.heap ≡ count rows.old.heap }
    ensures spare { rows.new.heap.spare ≡ rows.old.heap.spare }
    ensures rest { rows.new ≡ record rows.old { heap = rows.new.heap } }
{
    for p in moved {
        if rows.in_heap(*p) {
            rows.raise(*p);
        }
    }
}
