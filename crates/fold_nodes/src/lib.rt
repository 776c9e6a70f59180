//! What a fold was last computed from.
#![tactic(auto)]

mod last_fold;

pub use last_fold::LastFold;
