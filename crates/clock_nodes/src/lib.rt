//! The nodes that read the clock: which of them show another value once the time moved on.
#![tactic(auto)]

mod clock;
mod generations;
mod settle;
mod watch;

pub use clock::{AdvanceFault, AfterFault, Clock};
