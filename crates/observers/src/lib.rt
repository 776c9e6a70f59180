//! Observers of nodes: what each shows, and what is told of those that are watched.
#![tactic(auto)]

mod due;
mod looking;
mod notice;
mod observer;
mod observers;
mod settle;
mod sight;

pub use notice::{Notice, Told};
pub use observer::{Observer, Watch};
pub use observers::{ObserveFault, Observers, UseFault, ValueFault};
pub use sight::Sight;
