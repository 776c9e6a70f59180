//! Generated scripts: their text, which is made from two numbers, and what the lines that are printed of them come to.
#![tactic(auto)]

mod draws;
mod lines;
mod numbers;
mod tally;
mod text;

pub use lines::first_line;
pub use tally::Tally;
pub use text::{append_text, gen_text};
