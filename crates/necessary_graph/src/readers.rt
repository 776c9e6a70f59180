//! Putting points into the heap.
ghost use Rattle.std.specs.Prelude.{◌≡◌, ℕ, Some};
ghost use Rattle.inc_value.specs.declared.node.Point.{Point};
ghost use Rattle.point_map.specs.Rows.{at, Holds, Changes};
ghost use Rattle.link_table.specs.Links.{Reads};
ghost use Rattle.height_order.specs.Levels.{level, AllLow};
ghost use Rattle.necessary_graph.specs.Readers.{HasHeights, HasReaders};
ghost use Rattle.necessary_graph.specs.Room.{HasRoom};

use inc_value::Point;
use point_rows::PointRows;

/// Tells which points to pass over.
pub trait Skip {
    ghost use Rattle.std.specs.Prelude.{◌≡◌, Bool};
    ghost use Rattle.inc_value.specs.declared.node.Point.{Point};

    // whether a point is to be passed over
    ghost skipped: { Self → Point → Bool };

    /// Whether the point is to be passed over.
    fn skips(&self, p: Point) -> bool
        ensures { result ≡ skipped self.now p };
}

/// Puts a point into the heap at its height, unless it is in.
pub fn put(rows: &mut PointRows, p: Point)
    requires there { Holds rows.old.heights p }
    requires low { AllLow (level rows.old.heights) }
    requires heights { HasHeights rows.old.heights rows.old.heap }
    requires room { (points : ℕ) × HasRoom rows.old.heights rows.old.heap points }
    ensures put { Changes rows.old.heap rows.new.heap p (at rows.old.heights p) }
    ensures rest { rows.new ≡ record rows.old { heap = rows.new.heap } }
    ensures heights { HasHeights rows.old.heights rows.new.heap }
    ensures room { (points : ℕ) → HasRoom rows.old.heights rows.old.heap points → HasRoom rows.old.heights rows.new.heap points }
{
    rows.put(p);
}

/// Puts the readers of a point into the heap, each at its height, but for those that are passed over.
pub fn put_readers<S: Skip>(rows: &mut PointRows, q: Point, skip: &S)
    requires there { (p : Point) → Reads rows.old.links p q → Holds rows.old.heights p }
    requires low { AllLow (level rows.old.heights) }
    requires heights { HasHeights rows.old.heights rows.old.heap }
    requires room { (points : ℕ) × HasRoom rows.old.heights rows.old.heap points }
    ensures put { HasReaders rows.old.heights rows.old.links q (S.skipped skip.now) rows.old.heap rows.new.heap }
    ensures rest { rows.new ≡ record rows.old { heap = rows.new.heap } }
    ensures heights { HasHeights rows.old.heights rows.new.heap }
    ensures room { (points : ℕ) → HasRoom rows.old.heights rows.old.heap points → HasRoom rows.old.heights rows.new.heap points }
{
    let count = rows.reader_count(q);
    for i in 0..count {
        let Some(reader) = rows.reader_at(q, i) else {
            continue;
        };
        if !skip.skips(reader) {
            put(rows, reader);
        }
    }
}
