//! The row of a point.
ghost use Rattle.std.specs.Prelude.{[], ◌≡◌, ◌+◌, ◌<◌, None, OnOk, OnErr};

use link_table::End;
use smallvec::SmallVec;
use std::alloc::{AllocError, Global};

/// What is kept of one point.
pub(crate) struct Row {
    pub(crate) height: u32,
    pub(crate) roots: usize,
    pub(crate) place: Option<usize>,
    pub(crate) kids: SmallVec<End, 2>,
    pub(crate) readers: SmallVec<End, 2>,
}

// (written out: whoever drops one proves one call, and no drop of its parts)
impl Drop for Row {
    fn drop(self) {
        let Row {
            height: _,
            roots: _,
            place: _,
            kids,
            readers,
        } = self;
        drop(kids);
        drop(readers);
    }
}

/// One of the two lists of ends in a row.
#[derive(Clone, Copy)]
pub(crate) enum Side {
    Kids,
    Readers,
}

/// The row of a point that is no root, has no links and isn't in the heap.
#[inline]
pub(crate) fn new_row(alloc: Global, height: u32) -> Row
    ensures height { result.height ≡ height }
    ensures roots { result.roots ≡ 0 }
    ensures place { result.place ≡ None }
    ensures kids { result.kids.items ≡ [] }
    ensures readers { result.readers.items ≡ [] }
{
    Row {
        height,
        roots: 0,
        place: None,
        kids: SmallVec::new(alloc),
        readers: SmallVec::new(alloc),
    }
}

/// Counts one root more. The greatest count can't grow.
#[inline]
pub(crate) fn more_roots(row: &mut Row) -> Result<(), AllocError>
    ensures more { OnOk result (row.new.roots ≡ row.old.roots + 1) }
    ensures err { OnErr result (row.new.roots ≡ row.old.roots) }
    ensures rest { row.new ≡ record row.old { roots = row.new.roots } }
{
    row.roots = row.roots.checked_add(1).ok_or(AllocError)?;
    Ok(())
}

/// Counts one root less.
#[inline]
pub(crate) fn fewer_roots(row: &mut Row)
    requires some { 0 < row.old.roots }
    ensures less { row.new.roots + 1 ≡ row.old.roots }
    ensures rest { row.new ≡ record row.old { roots = row.new.roots } }
{
    row.roots -= 1;
}
