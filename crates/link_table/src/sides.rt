//! The two sides of a table of links: the ends at each reader, and the ends at each kid.
ghost use Rattle.std.specs.Prelude.{[], ◌≡◌, ◌≢◌, ◌<◌, length, slice_get, Some, IfSome, IfNone, OnOk, OnErr};
ghost use Rattle.inc_value.specs.declared.node.Point.{Point as APoint};
ghost use Rattle.link_table.specs.Ends.{end, ends_at, end_at, ends_with, HasNoEmptyRow, KeepsEnds, OneEndMoreWith, PlaceIsTaken, LastIsKnown, IsTold, IsTwoWay, AreSound};

use crate::ends::{End, EndLists};
use inc_value::Point;
use std::alloc::{AllocError, Global};

/// Makes p read q, once more. Without memory the links stay as they are.
pub(crate) fn add_ends(
    alloc: Global,
    kids: &mut EndLists,
    readers: &mut EndLists,
    p: Point,
    q: Point,
) -> Result<(), AllocError>
    requires sound { AreSound kids.old readers.old }
    ensures sound { AreSound kids.new readers.new }
    ensures added { OnOk result (OneEndMoreWith kids.old kids.new p q) }
    ensures err { OnErr result (KeepsEnds kids.old kids.new) }
{
    let i = kids.of(p).len();
    let back = readers.of(q).len();
    kids.push(alloc, p, End { point: q, back })?;
    if let Err(e) = readers.push(alloc, q, End { point: p, back: i }) {
        kids.take_last(p);
        return Err(e);
    }
    Ok(())
}

/// Takes the link off whose end is the i-th of p's kids.
pub(crate) fn remove_ends(kids: &mut EndLists, readers: &mut EndLists, p: Point, i: usize, end: End)
    requires sound { AreSound kids.old readers.old }
    requires there { end_at kids.old p i ≡ Some end }
    ensures sound { AreSound kids.new readers.new }
    ensures removed { OneEndMoreWith kids.new kids.old p end.point }
{
    take_end(kids, readers, p, i);
    take_end(readers, kids, end.point, end.back);
}

/// Takes the last link of p off, and gives its kid, if there is one. No list is searched.
pub(crate) fn pop_ends(kids: &mut EndLists, readers: &mut EndLists, p: Point) -> Option<Point>
    requires sound { AreSound kids.old readers.old }
    ensures sound { AreSound kids.new readers.new }
    ensures removed { IfSome result (λ q. OneEndMoreWith kids.new kids.old p q) }
    ensures none { IfNone result (ends_at kids.old p ≡ []) }
    ensures unchanged { IfNone result ((kids.new ≡ kids.old) × (readers.new ≡ readers.old)) }
{
    let Some(end) = kids.take_last(p) else {
        return None;
    };
    take_end(readers, kids, end.point, end.back);
    Some(end.point)
}

/// The place of q among the kids of p, if it is one, and that of p among the readers of q. The shorter of the two lists
/// is searched.
pub(crate) fn kid_place(
    kids: &EndLists,
    readers: &EndLists,
    p: Point,
    q: Point,
) -> Option<(usize, usize)>
    requires two_way { IsTwoWay kids.now readers.now }
    ensures some { IfSome result (λ r. end_at kids.now p r.0 ≡ Some (end q r.1)) }
    ensures none { IfNone result (ends_with (ends_at kids.now p) q ≡ 0) }
{
    let kids = kids.of(p);
    let readers = readers.of(q);
    if kids.len() <= readers.len() {
        place_of(kids, q)
    } else {
        let Some((back, i)) = place_of(readers, p) else {
            return None;
        };
        Some((i, back))
    }
}

// Takes the i-th end of p off one side. The last end of p comes into its place, and the other side is told so.
// What belongs to the end that went stays there.
#[inline]
fn take_end(side: &mut EndLists, other: &mut EndLists, p: Point, i: usize)
    requires there { i < length (ends_at side.old p) }
    requires known { LastIsKnown side.old other.old p i }
    ensures taken { PlaceIsTaken side.old side.new p i }
    ensures told { IsTold (end_at side.new p i) other.old other.new p i }
    ensures tight { HasNoEmptyRow side.old → HasNoEmptyRow side.new }
    ensures other_tight { HasNoEmptyRow other.old → HasNoEmptyRow other.new }
{
    if let Some(moved) = side.take(p, i) {
        other.set(moved.point, moved.back, End { point: p, back: i });
    }
}

/// A place of an end of a link with q, and the place of the link's other end.
pub fn place_of(ends: &[End], q: Point) -> Option<(usize, usize)>
    ensures some { IfSome result (λ r. slice_get ends.now r.0 ≡ Some (end q r.1)) }
    ensures none { IfNone result (ends_with ends.now q ≡ 0) }
{
    for i in 0..ends.len() {
        if ends[i].point == q {
            return Some((i, ends[i].back));
        }
    }
    None
}

/// The last end that leads to another point than this one, with its place.
pub fn last_beside(ends: &[End], kept: Point) -> Option<(usize, End)>
    ensures there { IfSome result (λ r. slice_get ends.now r.0 ≡ Some r.1) }
    ensures other { IfSome result (λ r. r.1.point ≢ kept) }
    ensures none { IfNone result ((q : APoint) → q ≢ kept → ends_with ends.now q ≡ 0) }
{
    let mut i = ends.len();
    while i > 0 {
        i -= 1;
        let end = ends[i];
        if end.point != kept {
            return Some((i, end));
        }
    }
    None
}
