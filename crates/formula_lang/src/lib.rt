//! The script language: from the tree of a line to a command whose names and types are checked.
#![tactic(auto)]

mod checking;
mod command;
mod mentioning;
mod names;
mod refusal;
mod scope;
mod typing;

pub use checking::{CheckFault, check};
pub use command::{Command, Constant, Declaration, Formula, TimedConstant};
pub use line_times::Nanoseconds;
pub use names::{Declared, Kind, Names};
