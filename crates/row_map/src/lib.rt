//! A finite map by whole points, in which each row stays at its place until it is removed. A call changes one place, so
//! what is read off all places in turn changes there alone.
#![tactic(auto)]

mod map;

use inc_value::Point;
pub use map::RowMap;

/// A row, and the point whose it is.
#[derive(Drop)]
pub(crate) struct Entry<R> {
    pub(crate) point: Point,
    pub(crate) row: R,
}
