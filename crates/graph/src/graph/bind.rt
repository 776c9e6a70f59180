//! Binds, whose right sides functions build, and functions that are kept beside the others.
ghost use Rattle.std.specs.Prelude.{◌≡◌, ◌↔◌, ◌<◌, Some, IfOk, IfErr, OnOk, OnErr, IsErrOf, IsTrue, IsOk};
ghost use Rattle.inc_value.specs.declared.node.NodeId.{NodeId};
ghost use Rattle.inc_value.specs.declared.function.FnRef.{FnRef as AFunction};
ghost use Rattle.inc_terms.specs.Graph.{Bind};
ghost use Rattle.inc_terms.specs.Within.{Given};
ghost use Rattle.node_arena.specs.RightSide.{AreFit, IsKeepable, Means, KeepsMeanings, one_taken};
ghost use Rattle.node_arena.specs.Typing.{Fits};
ghost use Rattle.graph.specs.Standing.{IsUnbroken, IsBroken, graph, root_in};
ghost use Rattle.graph.specs.Effects.{IsKeepFault, AnswersListed};
ghost use Rattle.graph.specs.declared.fault.Kept.{Kept as ACause};

use super::Graph;
use crate::fault::{GraphFault, more_fault};
use inc_terms::Def;
use inc_value::{FnRef, NodeId, Ty};
use node_arena::Functions;

impl<F: Functions> Graph<F> {
    /// A node that reads a left node, and the right side that a function of right sides, which is known, builds of its
    /// value and the captured nodes, whose outcome it shows. The right side is built anew exactly where the left gives
    /// another outcome than the one that it was built for; the nodes of the old one then die. Where the left is Invalid it
    /// shows Invalid, and nothing is built.
    /// Refused as `Unknown` where a node was never given, `WrongType` where left or captures aren't what it takes,
    /// and `Full`.
    pub fn bind(
        &mut self,
        left: NodeId,
        function: FnRef,
        captures: &[NodeId],
    ) -> Result<NodeId, GraphFault>
        requires known { IsTrue (F.known self.old.functions function) }
        requires fit { AreFit self.old.nodes (F.right self.old.functions function).ids }
        ensures { AnswersListed self.old self.new (Bind left function captures.now) function.sig.gives result }
    {
        let captures = self.listed(captures)?;
        let def = Def::Bind {
            left,
            function,
            captures,
        };
        self.add(def, function.sig.gives())
    }

    /// Keeps one more function beside the others, and gives its name. Functions that were known stay so and mean what they
    /// meant; what else stays, the functions tell by themselves. A refused call hands the function back and makes none known.
    /// A broken graph stays as it is.
    pub fn more(&mut self, function: F::More) -> Result<FnRef, (GraphFault, F::More)>
        requires keepable { IsKeepable (F.known self.old.functions) (F.right self.old.functions)
            (F.brings function).kind (F.brings function).sig (F.brings function).side }
        ensures broken { IfErr result (λ e. (cause : ACause) → (e.0 ≡ GraphFault.Broken cause) ↔ IsBroken self.old cause) }
        ensures keeping { IfErr result (λ e. IsKeepFault e.0) }
        ensures too_many { IfErr result (λ e. (e.0 ≡ GraphFault.TooMany)
            ↔ (IsUnbroken self.old × ((F.tally self.old.functions).taken ≡ (F.tally self.old.functions).most))) }
        ensures known { IfOk result (λ f. IsTrue (F.known self.new.functions f)) }
        ensures means { IfOk result (λ f. Means (F.value self.new.functions) (F.right self.new.functions) f (F.brings function)) }
        ensures keeps_meanings { KeepsMeanings (F.named self.old.functions) (F.named self.new.functions)
            (F.known self.old.functions) (F.known self.new.functions) (F.value self.old.functions) (F.value self.new.functions)
            (F.right self.old.functions) (F.right self.new.functions) }
        ensures keeps { IsUnbroken self.old → F.keeps self.old.functions self.new.functions }
        ensures unbroken { OnOk result (IsUnbroken self.old) }
        ensures stays { (cause : ACause) → IsBroken self.old cause → self.new ≡ self.old }
        ensures room { OnOk result ((F.tally self.old.functions).taken < (F.tally self.old.functions).most) }
        ensures no_more { OnErr result ((f : AFunction) → F.known self.new.functions f ≡ F.known self.old.functions f) }
        ensures tally { F.tally self.new.functions ≡ one_taken result (F.tally self.old.functions) }
        ensures calls { F.calls self.new.functions ≡ F.calls self.old.functions }
        ensures back { IfErr result (λ e. e.1 ≡ function) }
        ensures rest { self.new ≡ record self.old { functions = self.new.functions } }
    {
        match self.check() {
            Ok(()) => {}
            Err(fault) => return Err((fault, function)),
        }
        match self.functions.more(self.alloc, function) {
            Ok(f) => Ok(f),
            Err((fault, function)) => Err((more_fault(fault), function)),
        }
    }

    /// Whether the node was given, and is of the type or dead. `bind` wants it so of each node that right sides list.
    pub fn fits(&self, node: NodeId, ty: Ty) -> bool
        ensures { IsTrue result ↔ (Given self.now.nodes.given node × Fits self.now.nodes node ty) }
    {
        let arena = self.parts.arena();
        if node.gen_ >= arena.given() {
            return false;
        }
        match arena.get(node) {
            Some(row) => row.ty == ty,
            None => true,
        }
    }

    /// The root of what a bind is built for. None where the node is no live bind, or isn't built for a value.
    /// Refused only where the graph is broken.
    pub fn right_side(&self, node: NodeId) -> Result<Option<NodeId>, GraphFault>
        ensures broken { (cause : ACause) → IsErrOf result (GraphFault.Broken cause) ↔ IsBroken self.now cause }
        ensures root { IfOk result (λ root. root ≡ root_in ((graph self.now).built node)) }
        ensures unbroken { IsOk result ↔ IsUnbroken self.now }
    {
        self.check()?;
        let Some(row) = self.parts.arena().get(node) else {
            return Ok(None);
        };
        match row.def {
            Def::Bind { .. } => Ok(self.parts.root_of(node)),
            _ => Ok(None),
        }
    }
}
