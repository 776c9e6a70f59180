//! Laws of functions and of what they build. Each function does nothing: its contract is the law. A
//! function is fit in an arena where each node that it lists was given there, and is of the type listed
//! or dead.
ghost use Rattle.node_arena.specs.Graph.{NamesAreGiven, StillFit};
ghost use Rattle.node_arena.specs.Meanings.{MapsNameNoNode};
ghost use Rattle.node_arena.specs.RightSideLaws.{SidesAreLawful, FitListsGiven, FitLasts, BuildingFits};
ghost use Rattle.node_arena.specs.RightSideLaws.{SameRowsUnfold, NewInScope, KilledAndBuilt};

/// A sound arena whose live nodes call known functions, which list given nodes alone, keeps enough that
/// its graph names given nodes and such functions alone, whatever binds are built for.
pub fn names_are_given()
    ensures { NamesAreGiven }
{}

/// Where the functions of live nodes are known and list given nodes alone, so it is after a node is
/// dropped, after one is added whose functions are and do, and when more functions are known.
pub fn functions_stay_fit()
    ensures { StillFit }
{}

/// What a known map gives that gives no reference names no node.
pub fn maps_name_no_node()
    ensures { MapsNameNoNode }
{}

/// Where known maps give no reference, and right sides are what their keeper promises, maps and terms
/// name and call no more than the laws of graphs ask.
pub fn sides_are_lawful()
    ensures { SidesAreLawful }
{}

/// Where the functions of live nodes are known and fit, the nodes that they list were given.
pub fn fit_lists_given()
    ensures { FitListsGiven }
{}

/// A function that is known and fit stays so while nodes are added and dropped and more functions get
/// known.
pub fn fit_lasts()
    ensures { FitLasts }
{}

/// Where the functions of live nodes are known and fit, they still are after a known and fit function
/// built a right side, also where that was refused.
pub fn building_fits()
    ensures { BuildingFits }
{}

/// In a graph that has the rows of an arena, a node reads back as each term that it reads back as in
/// the arena.
pub fn same_rows_unfold()
    ensures { SameRowsUnfold }
{}

/// A live node that wasn't given before a right side was built stands in its scope, and was given.
pub fn new_in_scope()
    ensures { NewInScope }
{}

/// Where the nodes inside a bind's scope died, and a root was built then for a left value, just those
/// of the nodes given before are gone, all others are as they were, new ones stand in the scope, and
/// the root reads back as the function's term for that value.
pub fn killed_and_built()
    ensures { KilledAndBuilt }
{}
