//! Functions as a program hands them over in boxes, and callers that keep them and build with them, over any functions.
//! Who makes the boxes and calls these is a test of `graph_tests`.
#![tactic(auto)]

mod adding;
mod building;
mod holding;
mod maps;
mod negation;
mod reading;
mod table;
mod types;

pub use building::{Bound, bind_and_build};
pub use holding::{Holder, held, kept};
pub use maps::{Neg, Sum};
pub use negation::NegOfLeft;
pub use reading::{Named, builds_as_listed};
pub use table::Table;
