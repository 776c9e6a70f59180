//! Doubly linked lists by index: numbered lists whose rows all stand in one slab.
#![tactic(auto)]

mod link;
mod lists;
mod walk;

pub use lists::IndexLists;
pub use walk::Walk;
