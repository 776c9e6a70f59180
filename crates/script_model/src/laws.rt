//! Laws of the definitions. Each function does nothing: its contract is the law.
ghost use Rattle.script_model.specs.GrammarLaws.{OneWriting, OneLine, LinesAreShallow, LinesAreWellFormed, DeepLinesAreWellFormed, WhatIsReadIsWritten};
ghost use Rattle.script_model.specs.Laws.{FewBinds, NothingDueAfterSettling, EveryDepthAgrees, OneOutcome, RefusalsChangeNothing, RefusedStabilizesBreak, OneRequest, OneEffect, StartIsValid, StepsKeepValidity, LinesKeepValidity, HaltsKeepValidity, RunsAreValid, ValuesHaveTypes, DeclarationsHaveTypes, CallsAreTyped, VisitsCountCalls, NeededGives, GivenIsOnNoCycle, LibrariesKeepToTypes, EveryLineAsks, OnlyStabilizesCall, OneVisit, MeetsOnce, ReadsSuffice, OneTranscript, OneBeginning, OneTranscriptPastRefusals, OneEnd, OneCourse, UnblockedIsAccepted, BlockedIsRefused};
ghost use Rattle.script_model.specs.TokenLaws.{OneSpelling};
ghost use Rattle.script_model.specs.Row.{SumIsShown, SumIsOneCall, BindIsShown, BindIsOneCall, NameIsOnCycle, GrabDies, ChainIsTooDeep, GrabStateIsValid};

/// What a line declares has at most 64 binds.
pub fn few_binds()
    ensures { FewBinds }
{}

/// What a formula gives within a depth it gives within every greater one.
pub fn every_depth_agrees()
    ensures { EveryDepthAgrees }
{}

/// A formula gives at most one outcome.
pub fn one_outcome()
    ensures { OneOutcome }
{}

/// A refusal changes nothing, but for those of a stabilize that met a cycle or was too deep.
pub fn refusals_change_nothing()
    ensures { RefusalsChangeNothing }
{}

/// A stabilize that met a cycle or was too deep breaks the session and changes nothing else.
pub fn refused_stabilizes_break()
    ensures { RefusedStabilizesBreak }
{}

/// A line asks for one thing at most.
pub fn one_request()
    ensures { OneRequest }
{}

/// A line that asks for no stabilize leads to one moment, with one answer.
pub fn one_effect()
    ensures { OneEffect }
{}

/// The bytes of a line spell at most one list of tokens.
pub fn one_spelling()
    ensures { OneSpelling }
{}

/// The tokens of a line write at most one command.
pub fn one_writing()
    ensures { OneWriting }
{}

/// The bytes of a line are at most one line of the grammar.
pub fn one_line()
    ensures { OneLine }
{}

/// No line of the grammar is nested too deep.
pub fn lines_are_shallow()
    ensures { LinesAreShallow }
{}

/// No line of the grammar is none.
pub fn lines_are_well_formed()
    ensures { LinesAreWellFormed }
{}

/// No line is nested too deep and malformed.
pub fn deep_lines_are_well_formed()
    ensures { DeepLinesAreWellFormed }
{}

/// Where nothing changed since the last accepted stabilize, no call of a function is due.
pub fn nothing_due_after_settling()
    ensures { NothingDueAfterSettling }
{}

/// The reader gives a command, with nothing left, exactly where the tokens write it.
pub fn what_is_read_is_written()
    ensures { WhatIsReadIsWritten }
{}

/// Every line asks for something: it is too long, blank, malformed or nested too deep, or it is a
/// line of the grammar.
pub fn every_line_asks()
    ensures { EveryLineAsks }
{}

/// A line that asks for no stabilize makes no call of a function.
pub fn only_stabilizes_call()
    ensures { OnlyStabilizesCall }
{}

/// The five lines of the worked script print these bytes, with one call due.
pub fn sum_is_shown()
    ensures { SumIsShown }
{}

/// In no run of them more calls than one are due.
pub fn sum_is_one_call()
    ensures { SumIsOneCall }
{}

/// A bind is built anew where its left side changed: nine lines print these bytes, with one call due
/// in each of two stabilizes.
pub fn bind_is_shown()
    ensures { BindIsShown }
{}

/// In the second of them no more calls than one are due.
pub fn bind_is_one_call()
    ensures { BindIsOneCall }
{}

/// Five lines make a name that reads itself, and a stabilize meets it.
pub fn name_is_on_cycle()
    ensures { NameIsOnCycle }
{}

/// A grab dies in the stabilize that builds its bind anew, and an observer tells it.
pub fn grab_dies()
    ensures { GrabDies }
{}

/// The last of 130 names, each of which reads the one before, is too deep.
pub fn chain_is_too_deep()
    ensures { ChainIsTooDeep }
{}

/// An item makes one visit at most, at one state.
pub fn one_visit()
    ensures { OneVisit }
{}

/// A place that is met has one list of values of the binds round it.
pub fn meets_once()
    ensures { MeetsOnce }
{}

/// What a declaration gives depends on what is reached from it by reads, and on the clock.
pub fn reads_suffice()
    ensures { ReadsSuffice }
{}

/// In a valid state what a formula of a type gives is Invalid or a value of the type.
pub fn values_have_types()
    ensures { ValuesHaveTypes }
{}

/// In a valid state what a declaration gives is Invalid or a value of its type.
pub fn declarations_have_types()
    ensures { DeclarationsHaveTypes }
{}

/// In a valid state each call that a visit of what is met makes is given values of the types that its function takes.
pub fn calls_are_typed()
    ensures { CallsAreTyped }
{}

/// A visit counts the calls that it makes.
pub fn visits_count_calls()
    ensures { VisitsCountCalls }
{}

/// In a valid state where no name that is needed is on a cycle, whatever is needed gives an outcome.
pub fn needed_gives()
    ensures { NeededGives }
{}

/// What gives an outcome is on no cycle.
pub fn given_is_on_no_cycle()
    ensures { GivenIsOnNoCycle }
{}

/// Functions of a library that keep to their types do so as the model has them.
pub fn libraries_keep_to_types()
    ensures { LibrariesKeepToTypes }
{}

/// A script begins valid.
pub fn start_is_valid()
    ensures { StartIsValid }
{}

/// Where the functions keep to their types, every line keeps the settled and the present state
/// valid.
pub fn steps_keep_validity()
    ensures { StepsKeepValidity }
{}

/// So does what any line of the grammar comes to.
pub fn lines_keep_validity()
    ensures { LinesKeepValidity }
{}

/// So does a line that finds no memory.
pub fn halts_keep_validity()
    ensures { HaltsKeepValidity }
{}

/// In a run all states are valid.
pub fn runs_are_valid()
    ensures { RunsAreValid }
{}

/// A state with a bind, a live grab of it, a reference to that, a join and a watched observer is
/// valid.
pub fn grab_state_is_valid()
    ensures { GrabStateIsValid }
{}

/// The same lines print the same bytes, where no stabilize was refused and no bind is grabbed.
pub fn one_transcript()
    ensures { OneTranscript }
{}

/// What the same lines print before the first refused stabilize is the same, whatever follows.
pub fn one_beginning()
    ensures { OneBeginning }
{}

/// Where the same stabilizes are refused with the same numbers and no bind is grabbed, the same
/// lines print the same bytes, but for the names that a refused stabilize tells.
pub fn one_transcript_past_refusals()
    ensures { OneTranscriptPastRefusals }
{}

/// Then they lead to one end, but for what binds were last built for.
pub fn one_end()
    ensures { OneEnd }
{}

/// Where the left of each declared bind that is met is needed, the same lines lead to the same, also past grabs.
pub fn one_course()
    ensures { OneCourse }
{}

/// A stabilize is accepted where nothing that it meets stands in the way.
pub fn unblocked_is_accepted()
    ensures { UnblockedIsAccepted }
{}

/// A stabilize is refused where something that is needed stands in the way.
pub fn blocked_is_refused()
    ensures { BlockedIsRefused }
{}
