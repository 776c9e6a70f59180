//! Nodes that are made.
ghost use Rattle.std.specs.Prelude.{◌≡◌, ◌↔◌, [], IfOk, IfErr, IsTrue};
ghost use Rattle.inc_value.specs.Value.{type_of};
ghost use Rattle.inc_terms.specs.Clock.{IsTimed};
ghost use Rattle.inc_terms.specs.Code.{def_of};
ghost use Rattle.inc_terms.specs.Graph.{Const, Var, Map, Fold, If, Join, Freeze, Expert};
ghost use Rattle.graph.specs.Effects.{CallsKnown, RefusesList, AnswersAdd, AnswersListed, taken_first};

use super::Graph;
use crate::fault::{GraphFault, add_fault, untimed_fault};
use inc_terms::{Def, Nodes};
use inc_value::{FnRef, NodeId, Ty, Value};
use node_arena::{Arena, Functions};
use std::alloc::AllocError;

impl<F: Functions> Graph<F> {
    /// A node of the type that is so defined, whose function is known. Spans are counted from the present time or an earlier
    /// one, and none is empty. The calls below are this one for each form.
    pub fn add(&mut self, def: Def, ty: Ty) -> Result<NodeId, GraphFault>
        requires known { CallsKnown (F.known self.old.functions) (F.right self.old.functions) self.old.nodes (def_of def) }
        ensures { AnswersAdd self.old self.new (def_of def) ty result }
    {
        match self.check() {
            Ok(()) => {}
            Err(fault) => {
                drop(def);
                return Err(fault);
            }
        }
        if !is_timed(self.parts.arena(), &def) {
            drop(def);
            return Err(untimed_fault(ty));
        }
        let added = self.parts.add(def, ty);
        match added {
            Ok(id) => Ok(id),
            Err(fault) => Err(add_fault(fault)),
        }
    }

    /// A node that always has the value.
    /// Refused as `Unknown` where the value names a node that was never given, `WrongType` where that isn't of its
    /// type, and `Full`.
    pub fn constant(&mut self, value: Value) -> Result<NodeId, GraphFault>
        ensures { AnswersAdd self.old self.new (Const value) (type_of value) result }
    {
        let ty = value.ty();
        self.add(Def::Const(value), ty)
    }

    /// A variable with its first value.
    /// Refused as `Unknown` where the value names a node that was never given, `WrongType` where that isn't of its
    /// type, and `Full`.
    pub fn var(&mut self, value: Value) -> Result<NodeId, GraphFault>
        ensures { AnswersAdd self.old self.new (Var value) (type_of value) result }
    {
        let ty = value.ty();
        self.add(Def::Var(value), ty)
    }

    /// A node that applies a function, which is known, to the values of one to nine nodes.
    /// Refused as `Unknown` where a node was never given, `WrongType` where the nodes aren't what it takes, and
    /// `Full`.
    pub fn map(&mut self, f: FnRef, kids: &[NodeId]) -> Result<NodeId, GraphFault>
        requires known { IsTrue (F.known self.old.functions f) }
        ensures { AnswersListed self.old self.new (Map f kids.now) f.sig.gives result }
    {
        let nodes = self.listed(kids)?;
        self.add(Def::Map(f, nodes), f.sig.gives())
    }

    /// A node that folds the values of nodes by a function of two arguments, which is known: from the initial value
    /// on it calls the function for each node in order, on what it gave last and the node's value. Of no nodes it
    /// gives the initial value.
    /// Refused as `Unknown` where a node was never given, `WrongType` where nodes or value aren't what it takes, and
    /// `Full`.
    pub fn fold(&mut self, f: FnRef, initial: Value, kids: &[NodeId]) -> Result<NodeId, GraphFault>
        requires known { IsTrue (F.known self.old.functions f) }
        ensures { AnswersListed self.old self.new (Fold f initial kids.now) f.sig.gives result }
    {
        let nodes = self.listed(kids)?;
        self.add(Def::Fold(f, initial, nodes), f.sig.gives())
    }

    /// A node that reads a test, and the first of two nodes where the test gives true, the second where it gives false,
    /// whose outcome it shows. Both are of its type. Where the test is Invalid it shows Invalid, and reads neither.
    /// Refused as `Unknown` where a node was never given, `WrongType` where the test or a side has another type, and
    /// `Full`.
    pub fn if_(
        &mut self,
        ty: Ty,
        test: NodeId,
        yes: NodeId,
        no: NodeId,
    ) -> Result<NodeId, GraphFault>
        ensures { AnswersAdd self.old self.new (If test yes no) ty result }
    {
        self.add(Def::If { test, yes, no }, ty)
    }

    /// A node that reads a node whose values are references, and the node that its value names, whose outcome it shows:
    /// one of its type. Where the child is Invalid it shows Invalid, and reads no other.
    /// Refused as `Unknown` where the node was never given, `WrongType` where it has no references to the type, and
    /// `Full`.
    pub fn join(&mut self, ty: Ty, kid: NodeId) -> Result<NodeId, GraphFault>
        ensures { AnswersAdd self.old self.new (Join kid) ty result }
    {
        self.add(Def::Join(kid), ty)
    }

    /// A node that shows what its child shows, up to the first stabilize in which that is a value on which a predicate, which is
    /// known, is true: that value it keeps for good, and reads nothing more. Until then it is kept up to date as if it were
    /// observed.
    /// Refused as `Unknown` where the node was never given, `WrongType` where the function is no predicate on its
    /// type, and `Full`.
    pub fn freeze(&mut self, kid: NodeId, f: FnRef) -> Result<NodeId, GraphFault>
        requires known { IsTrue (F.known self.old.functions f) }
        ensures { AnswersAdd self.old self.new (Freeze kid f) (taken_first f) result }
    {
        let ty = taken_first(&f);
        self.add(Def::Freeze { kid, function: f }, ty)
    }

    /// A node that folds the values of a list of nodes by a function of two arguments, which is known, from the initial value
    /// on. The list is empty at first; `link` and `unlink` change it.
    /// Refused as `Unknown` where the value names a node that was never given, `WrongType` where function and value
    /// don't fit, and `Full`.
    pub fn expert(&mut self, f: FnRef, initial: Value) -> Result<NodeId, GraphFault>
        requires known { IsTrue (F.known self.old.functions f) }
        ensures { AnswersAdd self.old self.new (Expert f initial []) f.sig.gives result }
    {
        let def = Def::Expert {
            function: f,
            initial,
        };
        self.add(def, f.sig.gives())
    }

    /// The nodes as a list of a definition, for an unbroken graph.
    pub(super) fn listed(&self, nodes: &[NodeId]) -> Result<Nodes, GraphFault>
        ensures ok { IfOk result (λ list. list ≡ nodes.now) }
        ensures err { IfErr result (RefusesList self.now) }
    {
        self.check()?;
        match Nodes::from_slice(self.alloc, nodes) {
            Ok(list) => Ok(list),
            Err(AllocError) => Err(GraphFault::Memory),
        }
    }
}

/// The type of the first value that a function takes; of one that takes none, that of what it gives.
fn taken_first(f: &FnRef) -> Ty
    ensures { result ≡ taken_first f.now }
{
    match f.sig.takes() {
        [ty, ..] => *ty,
        [] => f.sig.gives(),
    }
}

/// Whether the spans that a node counts, if it counts any, begin between 0 and the present time, and aren't empty.
fn is_timed(arena: &Arena, def: &Def) -> bool
    ensures { IsTrue result ↔ IsTimed arena.now.time (def_of def.now) }
{
    match def {
        Def::Every { base, span } => 0 <= *base && *base <= arena.time() && 0 < *span,
        Def::Const(_)
        | Def::Var(_)
        | Def::Map(_, _)
        | Def::Fold(_, _, _)
        | Def::If { .. }
        | Def::Join(_)
        | Def::Bind { .. }
        | Def::At(_)
        | Def::Steps(_, _)
        | Def::Now
        | Def::Freeze { .. }
        | Def::Expert { .. } => true,
    }
}
