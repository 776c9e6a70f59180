//! The lists of experts, which their callers change.
ghost use Rattle.std.specs.Prelude.{◌≡◌, ◌⊎◌, ◌↔◌, ◌<◌, ◌∷◌, ◌++◌, [], length, Some, IfOk, IfErr, IsErrOf, IsTrue, IsFalse, OnErr, OnOk};
ghost use Rattle.inc_value.specs.Choice.{Among};
ghost use Rattle.expert_nodes.specs.Experts.{without_first};
ghost use Rattle.inc_terms.specs.Graph.{Row as ARow};
ghost use Rattle.inc_terms.specs.Within.{Given};
ghost use Rattle.node_arena.specs.Arena.{row_at};
ghost use Rattle.node_arena.specs.Sound.{IsSoundArena};
ghost use Rattle.graph.specs.Effects.{AnswersLink, AnswersUnlink, IsExpertIn, IsNoExpert, IsStaleFault, KeepsAll, KeepsNeed};
ghost use Rattle.graph.specs.Effects.{BothGiven, MakesStale, MayBeListed, Relists, TakesBeside};
ghost use Rattle.graph.specs.Standing.{IsBroken, IsUnbroken, listed_by};
ghost use Rattle.graph.specs.declared.fault.Kept.{Kept as ACause};

use super::Graph;
use crate::fault::{GraphFault, link_fault, unlink_fault};
use inc_terms::Def;
use inc_value::{NodeId, Ty};
use node_arena::{Arena, Functions};
use std::alloc::AllocError;

impl<F: Functions> Graph<F> {
    /// Puts a node behind the list of an expert. What observes the expert shows it after the next stabilize. A node may be
    /// listed more than once, and also one that is dead or was made later than the expert.
    /// Refused as `Unknown`, `NotExpert`, `WrongType` where the function takes other elements, and `LinksFull` at
    /// 4,096 nodes.
    pub fn link(&mut self, expert: NodeId, node: NodeId) -> Result<(), GraphFault>
        ensures { AnswersLink self.old self.new expert node result }
    {
        self.check()?;
        let takes = match listed_type(self.parts.arena(), expert, node) {
            Ok(takes) => takes,
            Err(fault) => return Err(fault),
        };
        if !is_of_type(self.parts.arena(), node, takes) {
            return Err(GraphFault::WrongType);
        }
        match self.parts.link(expert, node) {
            Ok(()) => Ok(()),
            Err(fault) => Err(link_fault(fault)),
        }
    }

    /// Takes the first occurrence of a node off the list of an expert. What observes the expert shows it after the next
    /// stabilize. This takes no memory.
    /// Refused as `Unknown`, `NotExpert`, and `NotLinked` where the node isn't in the list.
    pub fn unlink(&mut self, expert: NodeId, node: NodeId) -> Result<(), GraphFault>
        ensures { AnswersUnlink self.old self.new expert node result }
    {
        self.check()?;
        match listed_type(self.parts.arena(), expert, node) {
            Ok(_) => {}
            Err(fault) => return Err(fault),
        }
        match self.parts.unlink(expert, node) {
            Ok(()) => Ok(()),
            Err(fault) => Err(unlink_fault(fault)),
        }
    }

    /// Has an expert's function called anew by the next stabilize in which the expert is needed, though its list shows what it
    /// did. This takes no memory.
    /// Refused as `Unknown` and `NotExpert`.
    pub fn make_stale(&mut self, expert: NodeId) -> Result<(), GraphFault>
        ensures marked { OnOk result (MakesStale self.old self.new expert) }
        ensures broken { (cause : ACause) → IsErrOf result (GraphFault.Broken cause) ↔ IsBroken self.old cause }
        ensures unknown { IsErrOf result GraphFault.Unknown ↔ (IsUnbroken self.old × ¬ BothGiven self.old expert expert) }
        ensures not_expert { IsErrOf result GraphFault.NotExpert
            ↔ (IsUnbroken self.old × BothGiven self.old expert expert × IsNoExpert self.old expert) }
        ensures fault { IfErr result IsStaleFault }
        ensures err { OnErr result (self.new ≡ self.old) }
    {
        self.check()?;
        let _takes = listed_type(self.parts.arena(), expert, expert)?;
        self.parts.make_stale(expert);
        Ok(())
    }

    /// Puts a node behind the list of an expert, for a caller who knows that it may stand there and that the graph is unbroken.
    /// False where the list has 4,096 nodes; then nothing changes.
    pub fn relink(&mut self, expert: NodeId, node: NodeId) -> Result<bool, AllocError>
        requires unbroken { IsUnbroken self.old }
        requires given { BothGiven self.old expert node }
        requires listable { MayBeListed self.old expert node }
        ensures room { IfOk result (λ done. IsTrue done ↔ (length (listed_by self.old expert) < 4096)) }
        ensures linked { IfOk result (λ done. IsTrue done
            → Relists self.old self.new expert (listed_by self.old expert ++ node ∷ []) × KeepsNeed self.old self.new) }
        ensures same { IfOk result (λ done. IsFalse done → self.new ≡ self.old) }
        ensures err { OnErr result (KeepsAll self.old self.new) }
    {
        match self.link(expert, node) {
            Ok(()) => Ok(true),
            Err(GraphFault::LinksFull) => Ok(false),
            // (here nothing else is refused but for want of memory)
            Err(_) => Err(AllocError),
        }
    }

    /// Takes the first occurrence of a node off the list of an expert, for a caller who knows that it is one and that the graph
    /// is unbroken. False where the node isn't there; then nothing changes. This takes no memory.
    pub fn take_off(&mut self, expert: NodeId, node: NodeId) -> bool
        requires unbroken { IsUnbroken self.old }
        requires given { BothGiven self.old expert node }
        requires is_expert { IsExpertIn self.old.nodes expert }
        ensures there { IsTrue result ↔ Among node (listed_by self.old expert) }
        ensures unlinked { IsTrue result → Relists self.old self.new expert (without_first node (listed_by self.old expert)) }
        ensures same { IsFalse result → self.new ≡ self.old }
    {
        match self.unlink(expert, node) {
            Ok(()) => true,
            // (here nothing is refused but a node that isn't there)
            Err(_) => false,
        }
    }

    /// Has an expert's function called anew by the next stabilize in which the expert is needed, for a caller who knows that it
    /// is one and that the graph is unbroken. This takes no memory.
    pub fn renew(&mut self, expert: NodeId)
        requires unbroken { IsUnbroken self.old }
        requires given { Given self.old.nodes.given expert }
        requires is_expert { IsExpertIn self.old.nodes expert }
        ensures { MakesStale self.old self.new expert }
    {
        match self.make_stale(expert) {
            Ok(()) => {}
            Err(_) => unreachable!(),
        }
    }
}

/// Whether the node is of the type, or dead.
fn is_of_type(arena: &Arena, node: NodeId, ty: Ty) -> bool
    ensures { IsTrue result ↔ ((r : ARow) → row_at arena.now node ≡ Some r → r.ty ≡ ty) }
{
    match arena.get(node) {
        Some(row) => row.ty == ty,
        None => true,
    }
}

/// The type of the nodes of an expert's list. The other node was given too.
fn listed_type(arena: &Arena, expert: NodeId, node: NodeId) -> Result<Ty, GraphFault>
    requires sound { IsSoundArena arena.now }
    ensures unknown { IsErrOf result GraphFault.Unknown ↔ ¬ (Given arena.now.given expert × Given arena.now.given node) }
    ensures not_expert { IsErrOf result GraphFault.NotExpert
        ↔ (Given arena.now.given expert × Given arena.now.given node × ¬ IsExpertIn arena.now expert) }
    ensures given { OnOk result (Given arena.now.given expert × Given arena.now.given node) }
    ensures ty { IfOk result (λ ty. TakesBeside arena.now expert ty) }
    ensures fault { IfErr result (λ e. (e ≡ GraphFault.Unknown) ⊎ (e ≡ GraphFault.NotExpert)) }
{
    let given = arena.given();
    if expert.gen_ >= given || node.gen_ >= given {
        return Err(GraphFault::Unknown);
    }
    let Some(row) = arena.get(expert) else {
        return Err(GraphFault::NotExpert);
    };
    match &row.def {
        Def::Expert { function, .. } => Ok(function.sig.takes()[1]),
        _ => Err(GraphFault::NotExpert),
    }
}
