//! A finite map by whole points that finds them by their slots. The main point of a node stands in the cell of its slot, where
//! no other generation has it; all other points stand in a map beside.
#![tactic(auto)]

mod map;

pub use map::SlotMap;
