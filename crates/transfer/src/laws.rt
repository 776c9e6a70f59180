//! Laws of the definitions. Each function does nothing: its contract is the law.
ghost use Rattle.transfer.specs.Laws.{NamesAgree, PlacesAgree, NeededIsCovered, NeededHasNodes, VisitsHaveNodes};
ghost use Rattle.transfer.specs.Laws.{NeededIsOnNoCycle, NeededIsShallow, DeepHasItem, CyclesAreNamed, BuildsKeepScopes};
ghost use Rattle.transfer.specs.Laws.{MetIsCovered, WorkIsCovered, RanIsWithinWork, SomeFit, BodyHasNodes};

/// What the node of a name gives, the name gives.
pub fn names_agree()
    ensures { NamesAgree }
{}

/// What the node of a place gives, the place gives, where the scope round it stands.
pub fn places_agree()
    ensures { PlacesAgree }
{}

/// What is needed over the graph is covered by what is needed of the script.
pub fn needed_is_covered()
    ensures { NeededIsCovered }
{}

/// Where every point that is needed over the graph is right, whatever is needed of the script has a node that is
/// needed there.
pub fn needed_has_nodes()
    ensures { NeededHasNodes }
{}

/// There each visit of what is needed of the script is a visit of a node that is needed.
pub fn visits_have_nodes()
    ensures { VisitsHaveNodes }
{}

/// There no name that is needed of the script is on a cycle.
pub fn needed_is_on_no_cycle()
    ensures { NeededIsOnNoCycle }
{}

/// There, where no needed point begins a walk of 130 points, nothing that is needed of the script is too deep.
pub fn needed_is_shallow()
    ensures { NeededIsShallow }
{}

/// A covered point that begins a walk of 130 distinct points tells of a met item that is too deep.
pub fn deep_has_item()
    ensures { DeepHasItem }
{}

/// The names that a listed cycle of covered points passes are a cycle of met names.
pub fn cycles_are_named()
    ensures { CyclesAreNamed }
{}

/// Binds built anew, one after the other, keep what scopes have.
pub fn builds_keep_scopes()
    ensures { BuildsKeepScopes }
{}

/// What is met over a graph, from what was held since the last round, is covered by what is met of the script.
pub fn met_is_covered()
    ensures { MetIsCovered }
{}

/// Calls that are within the work of the graph are within the work of the script.
pub fn work_is_covered()
    ensures { WorkIsCovered }
{}

/// Distinct nodes that ran are due work of the script.
pub fn ran_is_within_work()
    ensures { RanIsWithinWork }
{}

/// Some script with a bind and some graph fit.
pub fn some_fit()
    ensures { SomeFit }
{}

/// There the places of the bind's body have nodes, for the value that it is built for.
pub fn body_has_nodes()
    ensures { BodyHasNodes }
{}
