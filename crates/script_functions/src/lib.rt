//! The functions that a script's nodes call: those of a library by name, and the right sides of its binds.
#![tactic(auto)]

mod body;
mod building;
mod draft;
mod functions;
mod keeping;
mod line;
mod typing;

pub use body::Body;
pub use draft::{Draft, LineFault};
pub use functions::ScriptFns;
pub use line::{Line, ListedNode, Part, Parts, TypedLine};
pub use typing::is_listed;
