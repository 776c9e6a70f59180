//! The round of a stabilize as an abstract machine: its state, its moves, what holds before and after each
//! of them, and laws about runs of them. Nothing here runs.
#![tactic(auto)]

mod laws;

pub use laws::{
    again_wakes_main, attached_stays, builds_once, built_stays, constant_works,
    dead_were_unsettled, deaths_are_known, given_again, given_stays, gives_stay, listed_are_met,
    listed_once, low_are_final, mains_once, needed_are_fresh, new_binds_built, new_links_confirmed,
    new_nodes_inside, new_nodes_stand, refused_calls, refused_keeps, rest_stays, round_again,
    round_ends, round_is_moves, round_is_right, round_is_within_work, round_keeps, run_adds,
    run_builds, run_kills, settled_reads_live, settled_stays, settling_falls, start_stays,
    step_builds, steps_fall, stops_leave, strict_is_met, sweeps_compose, taken_is_due,
    taken_is_ready, wiring_falls,
};
