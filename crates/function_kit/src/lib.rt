//! Functions of graphs that need little text and no proof of their own: maps of one or two integers, and right sides of binds that hold
//! the left value or choose one of the captured nodes by it.
#![tactic(auto)]

mod adding;
mod constant;
mod maps;
mod pick;

pub use constant::Const;
pub use maps::{Fn1, Fn2, IntFn, IntFn2};
pub use pick::Pick;
