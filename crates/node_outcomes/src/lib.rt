//! What is kept of each point of a graph, and what a node gives by what its children show.
#![tactic(auto)]

mod call;
mod choosing;
mod last_call;
mod outcome;
mod row;
mod sight;

pub use choosing::{ran_with, right_side};
pub use last_call::{Called, LastCall};
pub use outcome::compute;
pub use row::{
    Progress, Stage, fires, forget_outcome, freeze, is_bare, is_frozen, is_full, is_gated,
    is_static, set_cutoff, set_outcome, set_stage, stage_of, unsettled, was_settled,
};
pub use sight::shown;
