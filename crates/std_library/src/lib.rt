//! The standard library: the functions that scripts may use, by name.
#![tactic(auto)]

mod arguments;
mod function;
mod operations;
mod std_lib;

pub use function::Function;
pub use std_lib::StdLib;
