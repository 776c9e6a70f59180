//! Times and spans of lines, and the reasons against a line that are of these.
#![tactic(auto)]

mod nanoseconds;
mod reasons;
mod search;
mod steps;

pub use nanoseconds::{Nanoseconds, nanoseconds_of};
pub use reasons::{
    is_back, is_not_rising, is_not_whole, is_span_zero, is_time_too_large, is_top_form,
};
