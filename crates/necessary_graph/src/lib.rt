//! The necessary part of a graph: who is needed, the heights of points, and the recompute heap, in step.
//! All changes of links and roots go through it, so that what is no longer needed loses its links at once.
#![tactic(auto)]

mod graph;
mod readers;
mod sweep;

pub use graph::NecessaryGraph;
pub use height_order::LinkFault;
pub use link_table::{Kids, Readers};
pub use readers::Skip;
pub use sweep::Leaves;
