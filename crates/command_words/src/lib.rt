//! The words of the command line, as clap reads them.
#![tactic(auto)]

mod asked;
mod command;
mod reading;

pub use asked::Asked;
pub use reading::asked_by;
