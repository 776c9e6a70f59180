//! Nodes in a list, with an index that tells where each of them stands first.
#![tactic(auto)]

mod nodes;

pub use nodes::IndexedNodes;
