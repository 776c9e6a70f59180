//! Heights of points that rise along every link, so that each point stands higher than what it
//! reads. A link that would close a cycle, or make a chain too long, is refused with its witness.
//!
//! [`Heights`] has its own tables. `make_link` does the same over any table of heights and links ([`HeightTable`]), and
//! a queue, that are lent.
#![tactic(auto)]

mod climb;
mod heights;
mod levels;
mod lifts;
mod linking;
mod table;

pub use climb::ClimbQueue;
pub use heights::{Heights, LinkFault};
pub use levels::{add_at, level_of};
pub use linking::make_link;
pub use table::HeightTable;
