//! Graphs.
ghost use Rattle.std.specs.Prelude.{◌≡◌, pos, false, [], None, Some, IfErr, IfSome, IfNone, OnOk, option_copied};
ghost use Rattle.inc_value.specs.declared.node.NodeId.{NodeId};
ghost use Rattle.node_arena.specs.Arena.{row_at, live, IsLive};
ghost use Rattle.inc_value.specs.declared.node.Point.{Point};
ghost use Rattle.map_nodes.specs.declared.cutoff.Cutoff.TheVariants.{Equal};
ghost use Rattle.node_outcomes.specs.Meaning.{meaning_of};
ghost use Rattle.graph.specs.Few.{AreFew, ScopesAreFew};
ghost use Rattle.graph.specs.Sound.{IsSoundGraph};
ghost use Rattle.graph.specs.Standing.{IsUnbroken, IsBroken, IsOwner, graph};
ghost use Rattle.graph.specs.Standing.{called_last, cutoff_of, is_marked, times_linked, times_rooted};
ghost use Rattle.graph.specs.declared.fault.Kept.{Kept as ACause};

mod bind;
mod build;
mod edit;
mod expert;
mod observe;
mod stabilize;
mod timed;
mod undo;

use crate::fault::{GraphFault, Kept, cause_of};
use inc_value::NodeId;
use node_arena::Functions;
use observers::Observers;
pub use stabilize::Round;
use stabilizer::{Parts, Refused};
use std::alloc::Global;
use std::marker::Model;
pub use undo::Mark;

/// A graph of constants, variables, maps, folds, ifs, joins, binds, freezes, experts and nodes that read the clock over the
/// functions of `F`. What is observed is brought up to date by `stabilize` and shows until the next one.
///
/// A graph whose functions are kept in boxes is made and used by functions that are generic in `F`: its invariant speaks
/// of `F`, and of a keeper of boxes such a type can't be named. An example is `held` of closure_examples.
pub struct Graph<F: Functions> {
    alloc: Global,
    functions: F,
    parts: Parts,
    observers: Observers,
    /// How many observers had been made when the last stabilize was accepted. Their nodes are roots, where they are in use.
    rooted: usize,
    /// How many ids had been given when the last stabilize was accepted. Need begins at freezes that were given before, while
    /// they keep no value.
    since: u64,
    refused: Option<Refused>,
}

// (written out: whoever drops one proves one call, and no drop of its parts)
impl<F: Functions> Drop for Graph<F> {
    fn drop(self) {
        let Graph {
            alloc: _,
            functions,
            parts,
            observers,
            rooted: _,
            since: _,
            refused,
        } = self;
        drop(functions);
        drop(parts);
        drop(observers);
        drop(refused);
    }
}

impl<F: Functions> Model for Graph<F> {
    ghost use Rattle.graph.specs.Standing.{GraphView};

    ghost Value = { GraphView F };

    ghost view = { λ g. record {
      functions = g.functions;
      nodes = g.parts.arena;
      observers = g.observers.made;
      rooted = g.rooted;
      since = g.since;
      notices = g.observers.notices;
      ran = g.parts.ran.items;
      refused = g.refused;
      work = g.parts.work;
    } };

    ghost use Rattle.graph.specs.Inside.{FitsInside};
    ghost use Rattle.stabilizer.specs.Weights.{SidesFit};
    ghost use Rattle.node_outcomes.specs.Meaning.{meaning_of};

    ghost invariant = { λ g. FitsInside (meaning_of F.Functions g.functions) g.parts g.observers.made g.rooted g.since g.refused
        × F.is_sound g.functions
        × SidesFit (F.known g.functions) (F.right g.functions) g.parts.arena };
}

impl<F: Functions> Graph<F> {
    /// A graph without nodes. It owns the functions. This takes no memory.
    pub fn new(alloc: Global, functions: F) -> Graph<F>
        requires sound { F.is_sound functions }
        ensures functions { result.functions ≡ functions }
        ensures nodes { (n : NodeId) → row_at result.nodes n ≡ None }
        ensures live { live result.nodes ≡ 0 }
        ensures given { result.nodes.given ≡ 0 }
        ensures time { result.nodes.time ≡ pos 0 }
        ensures cutoff { (n : NodeId) → cutoff_of result n ≡ Equal }
        ensures observers { result.observers ≡ [] }
        ensures rooted { result.rooted ≡ 0 }
        ensures since { result.since ≡ 0 }
        ensures marks { (n : NodeId) → is_marked result n ≡ false }
        ensures notices { result.notices ≡ [] }
        ensures roots { (p : Point) → times_rooted result p ≡ 0 }
        ensures links { (p q : Point) → times_linked result p q ≡ 0 }
        ensures uncalled { (n : NodeId) → called_last result n ≡ None }
        ensures ran { result.ran ≡ [] }
        ensures unbroken { IsUnbroken result }
    {
        Graph {
            alloc,
            functions,
            parts: Parts::new(alloc),
            observers: Observers::new(alloc),
            rooted: 0,
            since: 0,
            refused: None,
        }
    }

    /// The functions.
    pub fn functions(&self) -> &F
        ensures functions { result.now ≡ self.now.functions }
        ensures sound { F.is_sound result.now }
    {
        &self.functions
    }

    /// The functions, given back.
    pub fn into_functions(self) -> F
        ensures functions { result ≡ self.functions }
        ensures sound { F.is_sound result }
    {
        let Graph {
            alloc: _,
            functions,
            parts,
            observers,
            rooted: _,
            since: _,
            refused,
        } = self;
        drop(parts);
        drop(observers);
        drop(refused);
        functions
    }

    /// What a refused stabilize met, if one was refused.
    pub fn broken(&self) -> Option<&Refused>
        ensures { option_copied result ≡ self.now.refused }
    {
        self.refused.as_ref()
    }

    /// The node outside all scopes that the node is, or in whose scope, or one within that, it stands: the outermost bind
    /// round it. None of a node that isn't live.
    pub fn owner(&self, node: NodeId) -> Option<NodeId>
        ensures live { IfSome result (λ top. IsOwner (graph self.now) node top) }
        ensures dead { IfNone result (IsLive self.now.nodes node → ⊥) }
    {
        let mut top = node;
        while let Some(bind) = self.parts.arena().get(top)?.scope {
            top = bind;
        }
        Some(top)
    }

    /// What is kept fits together. No more nodes live than those outside all scopes count as, and in a bind's scope, with the
    /// scopes within it, no more than its function takes. A node that is not live has cutoff Equal. These are facts for a
    /// caller's proof: nothing runs.
    pub fn keeps_sound(&self)
        ensures sound { IsSoundGraph (meaning_of F.Functions self.entry.now.functions) self.entry.now }
        ensures functions { F.is_sound self.entry.now.functions }
        ensures few { AreFew (F.right self.entry.now.functions) self.entry.now.nodes }
        ensures scopes { ScopesAreFew (F.right self.entry.now.functions) (graph self.entry.now) }
        ensures dead { (n : NodeId) → row_at self.entry.now.nodes n ≡ None → cutoff_of self.entry.now n ≡ Equal }
    {
        let _ = &self.parts;
    }

    /// What broke the graph, if it is broken.
    fn cause(&self) -> Option<Kept>
        ensures some { IfSome result (λ cause. IsBroken self.now cause) }
        ensures none { IfNone result (IsUnbroken self.now) }
    {
        match &self.refused {
            Some(refused) => Some(cause_of(refused)),
            None => None,
        }
    }

    /// Whether the graph is unbroken.
    fn check(&self) -> Result<(), GraphFault>
        ensures unbroken { OnOk result (IsUnbroken self.now) }
        ensures broken { IfErr result (λ e. (cause : ACause) × IsBroken self.now cause × (e ≡ GraphFault.Broken cause)) }
    {
        match self.cause() {
            Some(cause) => Err(GraphFault::Broken(cause)),
            None => Ok(()),
        }
    }
}
