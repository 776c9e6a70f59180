//! The nodes of a graph, and the functions that they call.
#![tactic(auto)]

mod arena;
mod builder;
mod functions;
mod laws;
mod library;
mod right_side;
mod stored;

pub use arena::{AddFault, Arena, Row, SetFault};
pub use builder::Builder;
pub use functions::Functions;
pub use laws::{
    building_fits, fit_lasts, fit_lists_given, functions_stay_fit, killed_and_built,
    maps_name_no_node, names_are_given, new_in_scope, same_rows_unfold, sides_are_lawful,
};
pub use library::Library;
pub use stored::{BuildFault, MapFn, MoreFault, RhsFn};
