//! Counted links between points, with a walk over what a point reads and one over its readers.
#![tactic(auto)]

mod ends;
mod link;
mod sides;
mod table;
mod walks;

pub use ends::{End, take_from};
pub use link::Link;
pub use sides::{last_beside, place_of};
pub use table::LinkTable;
pub use walks::{Kids, Readers};
