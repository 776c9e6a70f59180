//! The meaning of scripts: definitions that the contracts of the other crates cite, and laws about
//! them. Nothing here runs.
#![tactic(auto)]

mod laws;

pub use laws::{
    bind_is_one_call, bind_is_shown, blocked_is_refused, calls_are_typed, chain_is_too_deep,
    declarations_have_types, deep_lines_are_well_formed, every_depth_agrees, every_line_asks,
    few_binds, given_is_on_no_cycle, grab_dies, grab_state_is_valid, halts_keep_validity,
    libraries_keep_to_types, lines_are_shallow, lines_are_well_formed, lines_keep_validity,
    meets_once, name_is_on_cycle, needed_gives, nothing_due_after_settling, one_beginning,
    one_effect, one_end, one_line, one_outcome, one_request, one_spelling, one_transcript,
    one_transcript_past_refusals, one_visit, one_writing, only_stabilizes_call, reads_suffice,
    refusals_change_nothing, refused_stabilizes_break, runs_are_valid, start_is_valid,
    steps_keep_validity, sum_is_one_call, sum_is_shown, unblocked_is_accepted, values_have_types,
    visits_count_calls, what_is_read_is_written,
};
