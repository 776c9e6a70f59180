//! What nodes of a graph mean, what they depend on, and laws about it. Of code only `Def`, what a node
//! is, stands here.
#![tactic(auto)]

mod clock;
mod def;
mod laws;
mod steps;

pub use def::{Def, Nodes};
pub use laws::{
    binds_work, building_kills, dead_were_invalid, depends_grows, every_depth_agrees, flat_depends,
    idle_is_free, keeping_names, local_is_right, lost_are_deaths, low_is_exact, low_is_not_deep,
    map_visits, met_grows, one_outcome, one_visit, plan_is_depends, rebuild_keeps,
    rebuilding_keeps, rising_walks_end, unfolds_gives, unfolds_stays, walks_reach,
};
pub use steps::{Step, StepList};
