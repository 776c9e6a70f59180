//! Links put on and off both sides of rows.
ghost use Rattle.std.specs.Prelude.{[], ◌≡◌, ◌<◌, length, Some, IfSome, IfNone, OnOk, OnErr};
ghost use Rattle.point_map.specs.Rows.{Holds, StandsOnce};
ghost use Rattle.link_table.specs.Ends.{end, ends_at, end_at, ends_with, KeepsEnds, OneEndMoreWith, PlaceIsTaken, LastIsKnown, IsTold};
ghost use Rattle.point_rows.specs.declared.row.Side.TheVariants.{Kids, Readers};
ghost use Rattle.point_rows.specs.Cells.{beyond, side_of};
ghost use Rattle.point_rows.specs.Written.{KeepsRest, KeepsViews, AreSound};

use crate::ends::{ends_of, push_end, set, take, take_last};
use crate::row::{Row, Side};
use inc_value::Point;
use link_table::{End, place_of};
use row_map::RowMap;
use std::alloc::AllocError;

/// Makes p read q, once more. Without memory the links stay as they are.
pub(crate) fn add_ends(rows: &mut RowMap<Row>, p: Point, q: Point) -> Result<(), AllocError>
    requires reader { Holds rows.old p }
    requires kid { Holds rows.old q }
    requires sound { AreSound rows.old }
    ensures sound { AreSound rows.new }
    ensures added { OnOk result (OneEndMoreWith (side_of Kids rows.old) (side_of Kids rows.new) p q) }
    ensures err { OnErr result (KeepsEnds (side_of Kids rows.old) (side_of Kids rows.new)) }
    ensures rest { KeepsRest rows.old rows.new }
{
    let i = ends_of(rows, Side::Kids, p).len();
    let back = push_end(rows, Side::Readers, q, End { point: p, back: i })?;
    if let Err(e) = push_end(rows, Side::Kids, p, End { point: q, back }) {
        take_last(rows, Side::Readers, q);
        return Err(e);
    }
    Ok(())
}

/// Takes the link off whose end is the i-th of p's kids.
pub(crate) fn remove_ends(rows: &mut RowMap<Row>, p: Point, i: usize, end: End)
    requires sound { AreSound rows.old }
    requires there { end_at (side_of Kids rows.old) p i ≡ Some end }
    ensures sound { AreSound rows.new }
    ensures removed { OneEndMoreWith (side_of Kids rows.new) (side_of Kids rows.old) p end.point }
    ensures rest { KeepsRest rows.old rows.new }
{
    take_end(rows, Side::Kids, p, i);
    take_end(rows, Side::Readers, end.point, end.back);
}

/// Takes the last link of p off, and gives its kid, if there is one. No list is searched.
pub(crate) fn pop_ends(rows: &mut RowMap<Row>, p: Point) -> Option<Point>
    requires sound { AreSound rows.old }
    ensures sound { AreSound rows.new }
    ensures removed { IfSome result (λ q. OneEndMoreWith (side_of Kids rows.new) (side_of Kids rows.old) p q) }
    ensures none { IfNone result (ends_at (side_of Kids rows.old) p ≡ []) }
    ensures unchanged { IfNone result (KeepsViews rows.old rows.new) }
    ensures rest { KeepsRest rows.old rows.new }
{
    let Some(end) = take_last(rows, Side::Kids, p) else {
        return None;
    };
    take_end(rows, Side::Readers, end.point, end.back);
    Some(end.point)
}

/// The place of q among the kids of p, if it is one, and that of p among the readers of q. The shorter of the two lists
/// is searched.
pub(crate) fn kid_place(rows: &RowMap<Row>, p: Point, q: Point) -> Option<(usize, usize)>
    requires sound { AreSound rows.now }
    ensures some { IfSome result (λ r. end_at (side_of Kids rows.now) p r.0 ≡ Some (end q r.1)) }
    ensures none { IfNone result (ends_with (ends_at (side_of Kids rows.now) p) q ≡ 0) }
{
    let kids = ends_of(rows, Side::Kids, p);
    let readers = ends_of(rows, Side::Readers, q);
    if kids.len() <= readers.len() {
        place_of(kids, q)
    } else {
        let Some((back, i)) = place_of(readers, p) else {
            return None;
        };
        Some((i, back))
    }
}

// The other side.
#[inline]
fn beyond(side: Side) -> Side
    ensures { result ≡ beyond side }
{
    match side {
        Side::Kids => Side::Readers,
        Side::Readers => Side::Kids,
    }
}

// Takes the i-th end of p off one side. The last end of p comes into its place, and the other side is told so.
// What belongs to the end that went stays there.
#[inline]
fn take_end(rows: &mut RowMap<Row>, side: Side, p: Point, i: usize)
    requires there { i < length (ends_at (side_of side rows.old) p) }
    requires known { LastIsKnown (side_of side rows.old) (side_of (beyond side) rows.old) p i }
    requires once { StandsOnce rows.old.places }
    ensures taken { PlaceIsTaken (side_of side rows.old) (side_of side rows.new) p i }
    ensures told { IsTold (end_at (side_of side rows.new) p i) (side_of (beyond side) rows.old) (side_of (beyond side) rows.new) p i }
    ensures rest { KeepsRest rows.old rows.new }
    ensures once { StandsOnce rows.new.places }
{
    if let Some(moved) = take(rows, side, p, i) {
        set(
            rows,
            beyond(side),
            moved.point,
            moved.back,
            End { point: p, back: i },
        );
    }
}
