//! One call that brings what is observed up to date.
ghost use Rattle.std.specs.Prelude.{◌≡◌, [], ◌⊎◌, ◌↔◌, None, IfOk, OnErr, OnOk, IsErrOf, length, ◌<◌, ◌≤◌, ◌+◌};
ghost use Rattle.inc_value.specs.declared.node.NodeId.{NodeId};
ghost use Rattle.node_arena.specs.Arena.{live};
ghost use Rattle.stabilize_round.specs.Calling.{costs_of};
ghost use Rattle.stabilize_round.specs.Counts.{RoseBy};
ghost use Rattle.stabilizer.specs.Giving.{HasBuilt};
ghost use Rattle.node_outcomes.specs.Meaning.{functions_of};
ghost use Rattle.stabilizer.specs.Kept.{HasNoBinds, KeepsMeaning, counts_by};
ghost use Rattle.graph.specs.Few.{IdsAreFew, IsFilled};
ghost use Rattle.graph.specs.Inside.{AreNewRoots};
ghost use Rattle.graph.specs.Standing.{IsBroken, IsUnbroken, graph, newly_linked};
ghost use Rattle.graph.specs.Steady.{FindsMemory, IsSteady};
ghost use Rattle.graph.specs.Stabilizes.{Stabilizes, BuildsAnew, IsRefusedFor, HasCalledMet, LeavesNodes, WantsTell, left_by};
ghost use Rattle.graph.specs.declared.fault.Kept.{Kept as ACause};
ghost use Rattle.graph.specs.declared.fault.Kept.TheVariants as kept;

use super::Graph;
use crate::fault::{Kept, StabilizeFault, cause_of};
use inc_value::NodeId;
use node_arena::Functions;
use observers::Notice;
use stabilizer::{Refused, Stabilizer};
use std::alloc::AllocError;

/// What the last accepted stabilize did.
#[derive(Clone, Copy)]
pub struct Round<'a> {
    /// The maps, folds, freezes and experts whose functions were called, each once. A fold or an expert of no nodes takes no
    /// call and isn't listed.
    pub ran: &'a [NodeId],
    /// What was told of watched observers, in the order in which these were made.
    pub notices: &'a [Notice],
}

impl<F: Functions> Graph<F> {
    /// Brings all that is observed up to date. A refusal breaks the graph: every later call but `broken`, `owner`,
    /// `round`, `fits`, `functions` and `into_functions` is refused. Where it is refused for want of memory, the functions'
    /// count of wants tells whether it was a function that found none. Nothing else refuses it where the graph is steady: no
    /// observer, node or link of an expert is new, no left side, test or child of a join changes, and no text is met.
    pub fn stabilize(&mut self) -> Result<(), StabilizeFault>
        ensures broken { (cause : ACause) → IsErrOf result (StabilizeFault.Broken cause) ↔ IsBroken self.old cause }
        ensures brought { OnOk result (Stabilizes (functions_of F.Functions self.old.functions) self.old self.new) }
        ensures calls { OnOk result (RoseBy (F.calls self.old.functions) (costs_of (left_by self.old self.new) self.new.ran)
            (F.calls self.new.functions)) }
        ensures refused { (cause : ACause) → IsErrOf result (StabilizeFault.Refused cause)
            → IsRefusedFor (functions_of F.Functions self.old.functions) self.old self.new cause }
        ensures few { (cause : ACause) → IsErrOf result (StabilizeFault.Refused cause)
            → HasCalledMet (functions_of F.Functions self.old.functions) self.old self.new
            (F.calls self.old.functions) (F.calls self.new.functions) }
        ensures left { IsUnbroken self.old → LeavesNodes (functions_of F.Functions self.old.functions) self.old self.new
            (counts_by F.Functions self.old.functions) (counts_by F.Functions self.new.functions) }
        ensures builds { OnOk result (BuildsAnew (functions_of F.Functions self.old.functions) self.old self.new
            (counts_by F.Functions self.old.functions).builds (counts_by F.Functions self.new.functions).builds) }
        ensures ids { IdsAreFew (F.right self.new.functions) self.old.nodes.given self.new.nodes }
        ensures full { IsErrOf result (StabilizeFault.Refused kept.Full) → IsFilled (F.right self.new.functions) self.new.nodes
            × HasBuilt (counts_by F.Functions self.old.functions) (counts_by F.Functions self.new.functions) }
        ensures lives { OnOk result (self.new.nodes.given ≤ self.old.nodes.given + live self.new.nodes) }
        ensures flat { HasNoBinds self.old.nodes → self.new.nodes ≡ self.old.nodes }
        ensures linked { OnOk result (newly_linked self.new ≡ []) }
        ensures calls_grow { F.calls self.old.functions ≤ F.calls self.new.functions }
        ensures wants { WantsTell result (F.wants self.old.functions) (F.wants self.new.functions) }
        ensures unchanged { (cause : ACause) → IsErrOf result (StabilizeFault.Broken cause) → self.new ≡ self.old }
        ensures functions { KeepsMeaning F.Functions self.old.functions self.new.functions }
        ensures steady { IsSteady (functions_of F.Functions self.old.functions) self.old
            → FindsMemory result (F.wants self.old.functions) (F.wants self.new.functions) }
    {
        if let Some(cause) = self.cause() {
            return Err(StabilizeFault::Broken(cause));
        }
        let roots = match self.new_roots() {
            Ok(roots) => roots,
            Err(AllocError) => {
                self.refused = Some(Refused::Memory);
                return Err(StabilizeFault::Refused(Kept::Memory));
            }
        };
        let ended = Stabilizer::run(
            &mut self.parts,
            &mut self.functions,
            &roots,
            &mut self.observers,
        );
        drop(roots);
        match ended {
            Ok(()) => {
                self.rooted = self.observers.made().len();
                self.since = self.parts.arena().given();
                Ok(())
            }
            Err(refused) => {
                let cause = cause_of(&refused);
                self.refused = Some(refused);
                Err(StabilizeFault::Refused(cause))
            }
        }
    }

    /// Where need begins from the next stabilize on: at the nodes of observers in use that were made since the last one was
    /// accepted, and at freezes that were made since. Where neither an observer nor a node was made since, this takes no
    /// memory.
    fn new_roots(&self) -> Result<Vec<NodeId>, AllocError>
        ensures roots { IfOk result (λ roots.
            AreNewRoots self.now.nodes self.now.work self.now.observers self.now.rooted self.now.since roots.items) }
        ensures some { OnErr result ((self.now.rooted < length self.now.observers) ⊎ (self.now.since < self.now.nodes.given)) }
    {
        let mut roots = self.observers.in_use(self.rooted)?;
        match self.parts.freezes_since(self.since, &mut roots) {
            Ok(()) => Ok(roots),
            Err(AllocError) => {
                drop(roots);
                Err(AllocError)
            }
        }
    }

    /// What the last accepted stabilize did.
    pub fn round(&self) -> Round<'_>
        ensures ran { result.ran.now ≡ self.now.ran }
        ensures notices { result.notices.now ≡ self.now.notices }
    {
        Round {
            ran: self.parts.ran(),
            notices: self.observers.notices(),
        }
    }
}
