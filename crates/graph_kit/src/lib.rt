//! Shortcuts for programs over graphs. Each stands for a few calls of `graph`, and its contract says for which. Functions that need no
//! proof, for maps and right sides of binds, are handed on from `function_kit`.
#![tactic(auto)]

mod choosing;
mod reading;
mod setting;
mod settling;
mod summing;

pub use choosing::{if_of, join_of};
pub use function_kit::{Const, Fn1, Fn2, IntFn, IntFn2, Pick};
pub use reading::{boolean, int, outcome, text};
pub use setting::{set_bool, set_int};
pub use settling::settle;
pub use summing::sum;
