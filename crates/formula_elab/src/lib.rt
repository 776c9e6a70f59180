//! What scripts become in a graph: the nodes and functions to be made for a declaration.
#![tactic(auto)]

mod body;
mod laws;
mod lay;
mod make;
mod opened;
mod plan;
mod types;
mod value;
mod write;

pub use laws::{
    few_makes, laid_in_order, laid_typed, none_stands, one_line_each, one_more_stands,
    one_node_each, root_declares,
};
pub use lay::elaborate;
pub use make::{Made, Make};
pub use plan::Plan;
pub use value::value_of;
