//! Which points are needed: those that are reached from the roots over attached links. Roots and links
//! are counted, and each is taken off once for each time that it was put on.
#![tactic(auto)]

mod cascade;
mod need;
mod needs;
mod rows;

pub use link_table::{Kids, Readers};
pub use needs::Needs;
