//! What a node that calls its function on its children's values was last called on, and where a change of its outcome
//! ends.
#![tactic(auto)]

mod cutoff;
mod kept;
mod last_args;

pub use cutoff::{Cutoff, stops};
pub use last_args::LastArgs;
