//! The nodes of an arena that read the clock: they are taken in when the time moves on, which tells those that show another
//! value then.
#![tactic(auto)]

mod timed;

pub use clock_nodes::{AdvanceFault, AfterFault};
pub use timed::TimedNodes;
