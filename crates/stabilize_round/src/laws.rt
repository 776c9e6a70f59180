//! Laws of a round. Each function does nothing: its contract is the law.
ghost use Rattle.stabilize_round.specs.Laws.{RoundKeeps, RoundIsRight, StrictIsMet, SettledStays, GivesStay};
ghost use Rattle.stabilize_round.specs.Laws.{TakenIsReady, RoundAgain, DeadWereUnsettled, SettlingFalls};
ghost use Rattle.stabilize_round.specs.Laws.{MainsOnce, RestStays, AttachedStays, AgainWakesMain, BuildsOnce};
ghost use Rattle.stabilize_round.specs.Rows.{ConstantWorks};
ghost use Rattle.stabilize_round.specs.Runs.{RunBuilds, BuiltStays, RunAdds, RunKills, DeathsAreKnown};
ghost use Rattle.stabilize_round.specs.Runs.{RefusedKeeps, NewNodesStand};
ghost use Rattle.stabilize_round.specs.StepLaws.{RoundIsMoves, RoundEnds, NeededAreFresh, LowAreFinal};
ghost use Rattle.stabilize_round.specs.StepLaws.{TakenIsDue, SettledReadsLive, NewLinksConfirmed, StepBuilds};
ghost use Rattle.stabilize_round.specs.StepLaws.{StepsFall, WiringFalls};
ghost use Rattle.stabilize_round.specs.Calls.{RoundIsWithinWork, RefusedCalls};
ghost use Rattle.stabilize_round.specs.Composing.{SweepsCompose};
ghost use Rattle.stabilize_round.specs.Stopped.{GivenStays};
ghost use Rattle.stabilize_round.specs.Stopped.{StartStays};
ghost use Rattle.stabilize_round.specs.Stopped.{NewBindsBuilt};
ghost use Rattle.stabilize_round.specs.Stopped.{NewNodesInside};
ghost use Rattle.stabilize_round.specs.Stopped.{StopsLeave};
ghost use Rattle.stabilize_round.specs.StepLaws.{ListedAreMet};
ghost use Rattle.stabilize_round.specs.StepLaws.{ListedOnce};
ghost use Rattle.stabilize_round.specs.Stopped.{GivenAgain};

/// The invariant holds at each state of a round.
pub fn round_keeps()
    ensures { RoundKeeps }
{}

/// Moves that leave heap and worklist empty leave all right.
pub fn round_is_right()
    ensures { RoundIsRight }
{}

/// Once refusals are final each link is depended on, and what is needed is met.
pub fn strict_is_met()
    ensures { StrictIsMet }
{}

/// No move unsettles a point.
pub fn settled_stays()
    ensures { SettledStays }
{}

/// A round changes what no node gives that was given before.
pub fn gives_stay()
    ensures { GivesStay }
{}

/// What is taken stands and has all its links, and they are exact.
pub fn taken_is_ready()
    ensures { TakenIsReady }
{}

/// A round that ended and was closed is right without its dead, and another one may begin.
pub fn round_again()
    ensures { RoundAgain }
{}

/// What dies wasn't settled.
pub fn dead_were_unsettled()
    ensures { DeadWereUnsettled }
{}

/// Moves that settle one more of some points leave fewer of them that aren't.
pub fn settling_falls()
    ensures { SettlingFalls }
{}

/// A main in the heap wasn't settled.
pub fn mains_once()
    ensures { MainsOnce }
{}

/// The clock, kept values, lists and rows stay, but for what dies.
pub fn rest_stays()
    ensures { RestStays }
{}

/// Only a cut takes a main's links.
pub fn attached_stays()
    ensures { AttachedStays }
{}

/// A change taken though it was settled wakes its own main alone.
pub fn again_wakes_main()
    ensures { AgainWakesMain }
{}

/// One constant, observed, worked out.
pub fn constant_works()
    ensures { ConstantWorks }
{}

/// A bind whose change was taken isn't due again in the round.
pub fn builds_once()
    ensures { BuildsOnce }
{}

/// A run builds each bind at most once, and of those that were given before just ones whose left gave
/// another outcome than they were built for; the count of builds rises by at most one for each.
pub fn run_builds()
    ensures { RunBuilds }
{}

/// What a bind is built for stays, or becomes what its left gives; then its change is met.
pub fn built_stays()
    ensures { BuiltStays }
{}

/// As many nodes are added as ids are given.
pub fn run_adds()
    ensures { RunAdds }
{}

/// Of the nodes that lived before just those die that stand in scopes of binds whose built outcome
/// differs at the end, or in scopes within these.
pub fn run_kills()
    ensures { RunKills }
{}

/// What died is known with the scope in which it stood.
pub fn deaths_are_known()
    ensures { DeathsAreKnown }
{}

/// Where a refused round stops the invariant holds.
pub fn refused_keeps()
    ensures { RefusedKeeps }
{}

/// A round is a run of moves, and between its steps the worklist is empty.
pub fn round_is_moves()
    ensures { RoundIsMoves }
{}

/// A round that has emptied its heap is right.
pub fn round_ends()
    ensures { RoundEnds }
{}

/// Between steps a needed point is in the heap, agrees with the points that it is linked to, or waits.
pub fn needed_are_fresh()
    ensures { NeededAreFresh }
{}

/// What is needed and lower than all of the heap has all its links and is exact.
pub fn low_are_final()
    ensures { LowAreFinal }
{}

/// A bind's change that is taken, and isn't built for what its left shows, is due.
pub fn taken_is_due()
    ensures { TakenIsDue }
{}

/// What a settled point is linked to doesn't die.
pub fn settled_reads_live()
    ensures { SettledReadsLive }
{}

/// A new link is its gate's, or put on after its gate ran, and a right link in a step of its own change.
pub fn new_links_confirmed()
    ensures { NewLinksConfirmed }
{}

/// A step builds at most once, and for the bind alone whose change it takes.
pub fn step_builds()
    ensures { StepBuilds }
{}

/// Each step makes the measure of a round less.
pub fn steps_fall()
    ensures { StepsFall }
{}

/// Wiring makes its own measure less with each point that leaves the worklist.
pub fn wiring_falls()
    ensures { WiringFalls }
{}

/// Whatever was called so far is within the work.
pub fn round_is_within_work()
    ensures { RoundIsWithinWork }
{}

/// Where a refused round stops, the count of calls rose by at most the cost of each of some live and met nodes.
pub fn refused_calls()
    ensures { RefusedCalls }
{}

/// Sweeping, taking links off and sweeping again leaves what taking them off and sweeping once leaves.
pub fn sweeps_compose()
    ensures { SweepsCompose }
{}

/// Where all live nodes were given, new ones stand in scopes.
pub fn new_nodes_stand()
    ensures { NewNodesStand }
{}

/// All that a round speaks of stays given, also where it stops.
pub fn given_stays()
    ensures { GivenStays }
{}

/// What a round began with says nothing of ids that are given later.
pub fn start_stays()
    ensures { StartStays }
{}

/// A bind that was made in the round is built for nothing, or for what its left gives.
pub fn new_binds_built()
    ensures { NewBindsBuilt }
{}

/// New nodes stand where a bind that was given before is built for another outcome.
pub fn new_nodes_inside()
    ensures { NewNodesInside }
{}

/// What a round leaves of the graph wherever it stops: who died and why, roots, new nodes.
pub fn stops_leave()
    ensures { StopsLeave }
{}

/// Once refusals are final what a refusal lists is a walk of what points depend on, and met.
pub fn listed_are_met()
    ensures { ListedAreMet }
{}

/// A walk over links has no point twice, and is short.
pub fn listed_once()
    ensures { ListedOnce }
{}

/// After a round that was closed all that the next one speaks of is given.
pub fn given_again()
    ensures { GivenAgain }
{}
