//! The ends of links in rows.
ghost use Rattle.std.specs.Prelude.{[], ◌∷◌, ◌++◌, ◌≡◌, ◌<◌, length, slice_get, slice_set, IfSome, IfNone, OnOk, IfOk, OnErr};
ghost use Rattle.point_map.specs.Rows.{Holds, StandsOnce};
ghost use Rattle.link_table.specs.Ends.{ends_at, end_at, OneEndMore, EndIsSet, EndIsTaken, PlaceIsTaken, ItemIsTaken};
ghost use Rattle.point_rows.specs.Cells.{side_ends, beyond, side_of};
ghost use Rattle.point_rows.specs.Written.{KeepsBeyond, KeepsRest, KeepsViews};

use crate::row::{Row, Side};
use inc_value::Point;
use link_table::{End, take_from};
use row_map::RowMap;
use std::alloc::AllocError;

// The ends at one side of a row.
#[inline]
fn ends_in(row: &Row, side: Side) -> &[End]
    ensures { result.now ≡ (side_ends side row.now).items }
{
    match side {
        Side::Kids => row.kids.as_slice(),
        Side::Readers => row.readers.as_slice(),
    }
}

// Puts an end behind the others, and answers its place.
#[inline]
fn push_in(row: &mut Row, side: Side, end: End) -> Result<usize, AllocError>
    ensures place { IfOk result (λ i. i ≡ length (side_ends side row.old).items) }
    ensures more { OnOk result ((side_ends side row.new).items ≡ (side_ends side row.old).items ++ end ∷ []) }
    ensures err { OnErr result (row.new ≡ row.old) }
    ensures rest { KeepsBeyond side row.old row.new }
{
    match side {
        Side::Kids => {
            let place = row.kids.len();
            row.kids.push(end)?;
            Ok(place)
        }
        Side::Readers => {
            let place = row.readers.len();
            row.readers.push(end)?;
            Ok(place)
        }
    }
}

// Takes the last end off, if there is one.
#[inline]
fn pop_in(row: &mut Row, side: Side) -> Option<End>
    ensures some { IfSome result (λ e. (side_ends side row.old).items ≡ (side_ends side row.new).items ++ e ∷ []) }
    ensures none { IfNone result ((side_ends side row.old).items ≡ []) }
    ensures unchanged { IfNone result (row.new ≡ row.old) }
    ensures rest { KeepsBeyond side row.old row.new }
{
    match side {
        Side::Kids => row.kids.pop(),
        Side::Readers => row.readers.pop(),
    }
}

// Takes the i-th end off. The last one comes into its place and is given, unless it was that end itself.
#[inline]
fn take_in(row: &mut Row, side: Side, i: usize) -> Option<End>
    requires there { i < length (side_ends side row.old).items }
    ensures taken { ItemIsTaken (side_ends side row.old).items (side_ends side row.new).items i }
    ensures moved { result ≡ slice_get (side_ends side row.new).items i }
    ensures rest { KeepsBeyond side row.old row.new }
{
    match side {
        Side::Kids => take_from(&mut row.kids, i),
        Side::Readers => take_from(&mut row.readers, i),
    }
}

// Puts another end in place of one.
#[inline]
fn set_in(row: &mut Row, side: Side, i: usize, end: End)
    requires there { i < length (side_ends side row.old).items }
    ensures set { (side_ends side row.new).items ≡ slice_set (side_ends side row.old).items i end }
    ensures rest { KeepsBeyond side row.old row.new }
{
    match side {
        Side::Kids => {
            row.kids[i] = end;
        }
        Side::Readers => {
            row.readers[i] = end;
        }
    }
}

/// The ends at one side of a point.
#[inline]
pub(crate) fn ends_of(rows: &RowMap<Row>, side: Side, p: Point) -> &[End]
    ensures { result.now ≡ ends_at (side_of side rows.now) p }
{
    match rows.get(p) {
        Some(row) => ends_in(row, side),
        None => &[],
    }
}

/// Puts an end behind those at one side of a point, and answers its place. Without memory nothing changes.
#[inline]
pub(crate) fn push_end(
    rows: &mut RowMap<Row>,
    side: Side,
    p: Point,
    end: End,
) -> Result<usize, AllocError>
    requires there { Holds rows.old p }
    requires once { StandsOnce rows.old.places }
    ensures place { IfOk result (λ i. i ≡ length (ends_at (side_of side rows.old) p)) }
    ensures more { OnOk result (OneEndMore (side_of side rows.old) (side_of side rows.new) p end) }
    ensures err { OnErr result (side_of side rows.new ≡ side_of side rows.old) }
    ensures beyond { side_of (beyond side) rows.new ≡ side_of (beyond side) rows.old }
    ensures rest { KeepsRest rows.old rows.new }
    ensures once { StandsOnce rows.new.places }
{
    let row = rows.get_mut(p).unwrap();
    push_in(row, side, end)
}

/// Takes the i-th end at one side of a point off. The last one comes into its place and is given, unless it was that end
/// itself. What stood in the place isn't read.
#[inline]
pub(crate) fn take(rows: &mut RowMap<Row>, side: Side, p: Point, i: usize) -> Option<End>
    requires there { i < length (ends_at (side_of side rows.old) p) }
    requires once { StandsOnce rows.old.places }
    ensures taken { PlaceIsTaken (side_of side rows.old) (side_of side rows.new) p i }
    ensures moved { result ≡ end_at (side_of side rows.new) p i }
    ensures beyond { side_of (beyond side) rows.new ≡ side_of (beyond side) rows.old }
    ensures rest { KeepsRest rows.old rows.new }
    ensures once { StandsOnce rows.new.places }
{
    let row = rows.get_mut(p).unwrap();
    take_in(row, side, i)
}

/// Takes the last end at one side of a point off, if there is one.
#[inline]
pub(crate) fn take_last(rows: &mut RowMap<Row>, side: Side, p: Point) -> Option<End>
    requires once { StandsOnce rows.old.places }
    ensures taken { IfSome result (λ e. EndIsTaken (side_of side rows.old) (side_of side rows.new) p (length (ends_at (side_of side rows.new) p)) e) }
    ensures none { IfNone result (ends_at (side_of side rows.old) p ≡ []) }
    ensures unchanged { IfNone result (KeepsViews rows.old rows.new) }
    ensures beyond { side_of (beyond side) rows.new ≡ side_of (beyond side) rows.old }
    ensures rest { KeepsRest rows.old rows.new }
    ensures once { StandsOnce rows.new.places }
{
    let Some(row) = rows.get_mut(p) else {
        return None;
    };
    pop_in(row, side)
}

/// Puts another end in place of one at one side of a point.
#[inline]
pub(crate) fn set(rows: &mut RowMap<Row>, side: Side, p: Point, i: usize, end: End)
    requires there { i < length (ends_at (side_of side rows.old) p) }
    requires once { StandsOnce rows.old.places }
    ensures set { EndIsSet (side_of side rows.old) (side_of side rows.new) p i end }
    ensures beyond { side_of (beyond side) rows.new ≡ side_of (beyond side) rows.old }
    ensures rest { KeepsRest rows.old rows.new }
    ensures once { StandsOnce rows.new.places }
{
    let row = rows.get_mut(p).unwrap();
    set_in(row, side, i, end);
}
