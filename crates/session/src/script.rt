//! A script in the making: its names, and the graph of its formulas.
ghost use Rattle.std.specs.Prelude.{◌≡◌, [], None, Some, IfOk, IfErr, OnErr, IsErr, Ok};
ghost use Rattle.script_model.specs.Formula.{meanings_of};
ghost use Rattle.script_model.specs.Step.{first_moment};
ghost use Rattle.script_graph.specs.Kept.{arena_of};
ghost use Rattle.script_graph.specs.State.{Stands};
ghost use Rattle.session.specs.Replies.{name_in};

mod advancing;
mod declaring;
mod grabbing;
mod linking;
mod naming;
mod observing;
mod setting;
mod stabilizing;

use crate::observer_ids::ObserverIds;
use formula_lang::Names;
use graph::{Graph, GraphFault};
use indexed_nodes::IndexedNodes;
use naming::name_at;
use node_arena::Library;
use script_functions::ScriptFns;
pub(crate) use stabilizing::Stabilized;
use std::alloc::{AllocError, Global};
use std::marker::Model;

/// The most places that a script may have.
const PLACE_LIMIT: usize = 1_048_575;

/// The names of a script; its graph, with the node of each declaration, indexed by node, and the observer of each observer's name in use; the
/// room that is left for places; how many stabilizes were accepted; and the number of what broke the session, if something did.
#[derive(Drop)]
pub(crate) struct Script<L: Library> {
    alloc: Global,
    graph: Graph<ScriptFns<L>>,
    names: Names,
    nodes: IndexedNodes,
    observers: ObserverIds,
    room: usize,
    accepted: u64,
    broken: Option<u8>,
}

impl<L: Library> Model for Script<L> {
    ghost use Rattle.script_graph.specs.Kept as kept;
    ghost use Rattle.script_graph.specs.Kept.{without_functions};
    ghost use Rattle.script_graph.specs.Sound.{IsSoundSession};

    ghost Value = { kept.Script L };

    ghost view = { λ s. record {
      library = s.graph.functions.library;
      builds = s.graph.functions.builds;
      kept = record {
        names = s.names;
        nodes = s.nodes.items;
        observers = s.observers.items;
        room = s.room;
        accepted = s.accepted;
        broken = s.broken;
        bodies = s.graph.functions.bodies.items;
        graph = without_functions s.graph;
      };
    } };

    ghost invariant = { λ s. IsSoundSession (record {
      names = s.names;
      nodes = s.nodes.items;
      observers = s.observers.items;
      room = s.room;
      accepted = s.accepted;
      broken = s.broken;
      bodies = s.graph.functions.bodies.items;
      graph = without_functions s.graph;
    }) };
}

impl<L: Library> Script<L> {
    /// A script before its first line. It owns the library. This takes no memory.
    pub(crate) fn new(alloc: Global, library: L) -> Script<L>
        ensures library { result.library ≡ library }
        ensures builds { result.builds ≡ 0 }
        ensures first { Stands (meanings_of (L.named library) (L.value library)) result.kept first_moment }
        ensures accepted { result.kept.accepted ≡ 0 }
        ensures given { (arena_of result.kept).given ≡ 0 }
        ensures bodies { result.kept.bodies ≡ [] }
        ensures observers { result.kept.graph.observers ≡ [] }
    {
        Script {
            alloc,
            graph: Graph::new(alloc, ScriptFns::new(alloc, library)),
            names: Names::new(alloc),
            nodes: IndexedNodes::new(alloc),
            observers: ObserverIds::new(alloc),
            room: PLACE_LIMIT,
            accepted: 0,
            broken: None,
        }
    }

    /// The library.
    pub(crate) fn library(&self) -> &L
        ensures { result.now ≡ self.now.library }
    {
        self.graph.functions().library()
    }

    /// The library, given back.
    pub(crate) fn into_library(self) -> L
        ensures { result ≡ self.library }
    {
        self.graph.into_functions().into_library()
    }

    /// The names.
    pub(crate) fn names(&self) -> &Names
        ensures { result.now ≡ self.now.kept.names }
    {
        &self.names
    }

    /// The name of the declaration at a position; nothing where there is none.
    pub(crate) fn name_at(&self, position: usize) -> &[u8]
        ensures { result.now ≡ name_in self.now.kept.names position }
    {
        name_at(&self.names, position)
    }

    /// How many places the script may still have.
    pub(crate) fn room(&self) -> usize
        ensures { result ≡ self.now.kept.room }
    {
        self.room
    }

    /// How many stabilizes were accepted.
    pub(crate) fn accepted(&self) -> u64
        ensures { result ≡ self.now.kept.accepted }
    {
        self.accepted
    }

    /// How often a right side of a bind was built, or was to be.
    pub(crate) fn builds(&self) -> u64
        ensures { result ≡ self.now.builds }
    {
        self.graph.functions().builds()
    }

    /// The number of what broke the session, if something did.
    pub(crate) fn broken(&self) -> Option<u8>
        ensures { result ≡ self.now.kept.broken }
    {
        self.broken
    }

    /// Breaks the session, with a number.
    pub(crate) fn break_with(&mut self, number: u8)
        ensures { self.new ≡ record self.old { kept = record self.old.kept { broken = Some number } } }
    {
        self.broken = Some(number);
    }
}

/// What was given, where only memory may have been wanting.
fn or_no_memory<T: Copy>(given: Result<T, GraphFault>) -> Result<T, AllocError>
    requires memory { IfErr given (λ e. e ≡ GraphFault.Memory) }
    ensures ok { IfOk result (λ x. given ≡ Ok x) }
    ensures err { OnErr result (IsErr given) }
{
    match given {
        Ok(x) => Ok(x),
        Err(fault) => Err(no_memory(fault)),
    }
}

/// The fault, where only memory may have been wanting.
fn no_memory(fault: GraphFault) -> AllocError
    requires { fault ≡ GraphFault.Memory }
{
    match fault {
        GraphFault::Memory => AllocError,
        _ => unreachable!(),
    }
}
