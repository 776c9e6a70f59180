//! Experts: the nodes that each reads at present, in order, and which of them are made stale.
#![tactic(auto)]

mod expert;
mod experts;
mod index;
mod links;
mod queue;

pub use expert::{LinkFault, UnlinkFault};
pub use experts::Experts;
