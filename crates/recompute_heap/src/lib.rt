//! A multiset of points by height: which points are to be recomputed, the lowest first.
#![tactic(auto)]

mod heap;

pub use heap::RecomputeHeap;
