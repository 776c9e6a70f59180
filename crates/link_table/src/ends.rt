//! The ends of links at each point.
ghost use Rattle.std.specs.Prelude.{[], ◌≡◌, ◌<◌, length, slice_get, None, IfSome, IfNone, OnOk, OnErr};
ghost use Rattle.point_map.specs.Rows.{at};
ghost use Rattle.link_table.specs.Ends.{ends_at, end_at, HasNoEmptyRow, KeepsEnds, OneEndMore, EndIsSet, EndIsTaken, PlaceIsTaken, ItemIsTaken};

use inc_value::{NodeId, Part, Point};
use point_map::PointMap;
use smallvec::SmallVec;
use std::alloc::{AllocError, Global};

/// What a point knows of one of its links: the point at the other end, and the place of the link
/// among the ends that are kept there.
#[derive(Clone, Copy)]
pub struct End {
    pub point: Point,
    pub back: usize,
}

/// What stands in a place that is not used.
impl Default for End {
    fn default() -> End {
        End {
            point: Point {
                node: NodeId { slot: 0, gen_: 0 },
                part: Part::Main,
            },
            back: 0,
        }
    }
}

/// The ends of links at each point. A point at which there are none takes no room.
pub(crate) struct EndLists {
    pub(crate) rows: PointMap<SmallVec<End, 2>>,
}

// (written out: whoever drops one proves one call, and no drop of its parts)
impl Drop for EndLists {
    fn drop(self) {
        let EndLists { rows } = self;
        drop(rows);
    }
}

impl EndLists {
    /// No ends. This takes no memory.
    pub fn new(alloc: Global) -> EndLists
        ensures none { result.rows.places ≡ [] }
    {
        EndLists {
            rows: PointMap::new(alloc),
        }
    }

    /// The ends at a point.
    pub fn of(&self, p: Point) -> &[End]
        ensures { result.now ≡ ends_at self.now p }
    {
        match self.rows.get(p) {
            Some(row) => row.as_slice(),
            None => &[],
        }
    }

    /// Puts an end behind those of a point. Without memory every point keeps its ends.
    pub fn push(&mut self, alloc: Global, p: Point, end: End) -> Result<(), AllocError>
        ensures more { OnOk result (OneEndMore self.old self.new p end) }
        ensures err { OnErr result (KeepsEnds self.old self.new) }
        ensures tight { HasNoEmptyRow self.old → HasNoEmptyRow self.new }
    {
        match self.rows.get_mut(p) {
            Some(row) => {
                row.push(end)?;
                Ok(())
            }
            None => self.push_first(alloc, p, end),
        }
    }

    /// Takes the i-th end of a point off. The last one comes into its place and is given, unless it was that end itself.
    /// What stood in the place isn't read.
    pub fn take(&mut self, p: Point, i: usize) -> Option<End>
        requires there { i < length (ends_at self.old p) }
        ensures taken { PlaceIsTaken self.old self.new p i }
        ensures moved { result ≡ end_at self.new p i }
        ensures tight { HasNoEmptyRow self.old → HasNoEmptyRow self.new }
    {
        let row = self.rows.get_mut(p).unwrap();
        if let Some(moved) = take_from(row, i) {
            return Some(moved);
        }
        let was_only = row.is_empty();
        if was_only {
            self.rows.remove(p);
        }
        None
    }

    /// Takes the last end of a point off, if there is one. The point is looked up once, unless it was its only end.
    pub fn take_last(&mut self, p: Point) -> Option<End>
        requires tight { HasNoEmptyRow self.old }
        ensures taken { IfSome result (λ e. EndIsTaken self.old self.new p (length (ends_at self.new p)) e) }
        ensures none { IfNone result (ends_at self.old p ≡ []) }
        ensures unchanged { IfNone result (self.new ≡ self.old) }
        ensures tight { HasNoEmptyRow self.new }
    {
        let Some(row) = self.rows.get_mut(p) else {
            return None;
        };
        let end = row.pop().unwrap();
        let was_only = row.is_empty();
        if was_only {
            self.rows.remove(p);
        }
        Some(end)
    }

    /// Puts another end in place of one.
    pub fn set(&mut self, p: Point, i: usize, end: End)
        requires there { i < length (ends_at self.old p) }
        ensures set { EndIsSet self.old self.new p i end }
        ensures tight { HasNoEmptyRow self.old → HasNoEmptyRow self.new }
    {
        let row = self.rows.get_mut(p).unwrap();
        row[i] = end;
    }

    fn push_first(&mut self, alloc: Global, p: Point, end: End) -> Result<(), AllocError>
        requires absent { at self.old.rows p ≡ None }
        ensures more { OnOk result (OneEndMore self.old self.new p end) }
        ensures err { OnErr result (KeepsEnds self.old self.new) }
        ensures tight { HasNoEmptyRow self.old → HasNoEmptyRow self.new }
    {
        self.rows.reserve(1)?;
        let mut row = SmallVec::new(alloc);
        row.push_reserved(end);
        self.rows.insert(p, row);
        Ok(())
    }
}

/// Takes the i-th of these ends off. The last one comes into its place and is given, unless it was that end itself.
pub fn take_from(row: &mut SmallVec<End, 2>, i: usize) -> Option<End>
    requires there { i < length row.old.items }
    ensures taken { ItemIsTaken row.old.items row.new.items i }
    ensures moved { result ≡ slice_get row.new.items i }
{
    let last = row.pop().unwrap();
    if i == row.len() {
        return None;
    }
    row[i] = last;
    Some(last)
}
