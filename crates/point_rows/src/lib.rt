//! What is kept of each point, in one row: its height, how often it is a root, its links both ways, and its place in the heap.
//! A call finds each of its points once or twice, and `add` and `drop_point` alone make and drop rows.
#![tactic(auto)]

mod ends;
mod heap;
mod row;
mod rows;
mod sides;
mod table;

pub use rows::PointRows;
