//! What a script means against what the nodes of a graph mean. Nothing here runs.
#![tactic(auto)]

mod laws;

pub use laws::{
    body_has_nodes, builds_keep_scopes, cycles_are_named, deep_has_item, met_is_covered,
    names_agree, needed_has_nodes, needed_is_covered, needed_is_on_no_cycle, needed_is_shallow,
    places_agree, ran_is_within_work, some_fit, visits_have_nodes, work_is_covered,
};
