//! Lines of scripts: from the bytes of a line to its tree, by the whole grammar.
#![tactic(auto)]

mod name;
mod number;
mod parser;
mod reserved;
mod tree;

pub use name::Name;
pub use parser::{ParseFault, parse};
pub use tree::{Line, Literal, Time, TimedLiteral, Tree};
