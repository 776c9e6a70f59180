//! The stabilizer: brings what is needed of a graph up to date, one point at a time.
#![tactic(auto)]

mod build;
mod kill;
mod news;
mod parts;
mod rebuild;
mod stabilizer;

pub use expert_nodes::{LinkFault, UnlinkFault};
pub use parts::Parts;
pub use stabilizer::Stabilizer;
pub use timed_nodes::{AdvanceFault, AfterFault};
pub use wiring::Refused;
