//! Values of incremental computations: what nodes hold, their types, and the names of nodes and
//! functions.
#![tactic(auto)]

mod function;
mod node;
mod outcome;
mod text;
mod ty;
mod value;

pub use function::{FnId, FnKind, FnRef, Sig};
pub use node::{NodeId, ObsId, Part, Point};
pub use outcome::Outcome;
pub use text::{Text, TextFault};
pub use ty::{Base, Ty};
pub use value::Value;
