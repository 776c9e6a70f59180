//! Nodes in lists: those of one kind, and those that died in a round.
#![tactic(auto)]

mod deaths;
mod listed;

pub use deaths::{Death, Deaths};
pub use listed::Listed;
