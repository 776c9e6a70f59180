//! A finite map by whole points. Points of one slot with different generations, and the two parts
//! of one node, each have a row of their own.
#![tactic(auto)]

mod buckets;
mod map;

pub use buckets::Buckets;
pub use map::PointMap;
