//! Functions in boxes, kept as those of a graph.
#![tactic(auto)]

mod closures;
mod signature;
mod table;

pub use closures::{Closures, NewFn};
