//! Laws of the definitions. Each function does nothing: its contract is the law.
ghost use Rattle.inc_terms.specs.Laws.{EveryDepthAgrees, OneOutcome, KeepingNames, RebuildKeeps, DeadWereInvalid};
ghost use Rattle.inc_terms.specs.Laws.{DependsGrows, MetGrows, UnfoldsStays, UnfoldsGives, PlanIsDepends, LowIsExact};
ghost use Rattle.inc_terms.specs.Laws.{LocalIsRight};
ghost use Rattle.inc_terms.specs.Rebuilding.{RebuildingKeeps, BuildingKills};
ghost use Rattle.inc_terms.specs.Depend.{FlatDepends, LostAreDeaths};
ghost use Rattle.inc_terms.specs.Work.{OneVisit, MapVisits, IdleIsFree};
ghost use Rattle.inc_terms.specs.Walk.{WalksReach, RisingWalksEnd, LowIsNotDeep};
ghost use Rattle.inc_terms.specs.Rows.{BindsWork};

/// What is answered within a depth is answered within every greater one.
pub fn every_depth_agrees()
    ensures { EveryDepthAgrees }
{}

/// A node and a term give one outcome at most.
pub fn one_outcome()
    ensures { OneOutcome }
{}

/// What an arena keeps of each row is enough for its graph to name given nodes and fit functions
/// alone.
pub fn keeping_names()
    ensures { KeepingNames }
{}

/// Building a bind anew changes what no node gives that was given before.
pub fn rebuild_keeps()
    ensures { RebuildKeeps }
{}

/// What dies by it gave Invalid before, and gives Invalid after.
pub fn dead_were_invalid()
    ensures { DeadWereInvalid }
{}

/// What a point depends on it still depends on.
pub fn depends_grows()
    ensures { DependsGrows }
{}

/// What is met is still met.
pub fn met_grows()
    ensures { MetGrows }
{}

/// What a node of another scope reads back as it still reads back as.
pub fn unfolds_stays()
    ensures { UnfoldsStays }
{}

/// Building any number of binds anew changes what no node gives that was given before.
pub fn rebuilding_keeps()
    ensures { RebuildingKeeps }
{}

/// Of the nodes that lived before, just those die that stand in scopes of binds whose built outcome
/// differs at the end, or in scopes within these.
pub fn building_kills()
    ensures { BuildingKills }
{}

/// In a scope that stands a node gives what the term gives that it reads back as.
pub fn unfolds_gives()
    ensures { UnfoldsGives }
{}

/// A point that stands and whose change has run right depends on just what is in its plan.
pub fn plan_is_depends()
    ensures { PlanIsDepends }
{}

/// Points that are exact already, or agree and have plans of lower such points, are all exact.
pub fn low_is_exact()
    ensures { LowIsExact }
{}

/// Where outcomes agree place by place and no needed point is on a cycle, what is shown of a needed
/// node is what it gives.
pub fn local_is_right()
    ensures { LocalIsRight }
{}

/// Where no node is of two points and none stands in a scope, a main depends on the mains of its
/// children and on nothing else.
pub fn flat_depends()
    ensures { FlatDepends }
{}

/// The nodes that lived before a call and don't after it, with the scopes in which they stood, are
/// the deaths of that call.
pub fn lost_are_deaths()
    ensures { LostAreDeaths }
{}

/// A node has one visit at most.
pub fn one_visit()
    ensures { OneVisit }
{}

/// A visit of a map is its evaluation, and a map that gives a value has a visit.
pub fn map_visits()
    ensures { MapVisits }
{}

/// Where nothing is to do no call is within the work.
pub fn idle_is_free()
    ensures { IdleIsFree }
{}

/// What stands on a walk is reached from its first point.
pub fn walks_reach()
    ensures { WalksReach }
{}

/// Where heights rise along links a walk is no longer than its first point is high, and has no
/// point twice.
pub fn rising_walks_end()
    ensures { RisingWalksEnd }
{}

/// Where moreover heights are at most 128 no walk of 130 points begins anywhere.
pub fn low_is_not_deep()
    ensures { LowIsNotDeep }
{}

/// A bind within a bind, worked out: it gives 3 whatever it is built for, and the nodes of scopes
/// that don't stand give Invalid.
pub fn binds_work()
    ensures { BindsWork }
{}
