//! Nodes that are taken back.
ghost use Rattle.std.specs.Prelude.{◌≡◌, ◌↔◌, ◌<◌, IfOk, OnOk, OnErr, IsOk, IsErrOf};
ghost use Rattle.inc_value.specs.declared.node.NodeId.{NodeId};
ghost use Rattle.inc_value.specs.declared.node.Point.{Point};
ghost use Rattle.inc_value.specs.Choice.{Among};
ghost use Rattle.graph.specs.Standing.{IsUnbroken, IsBroken, IsNeeded, in_use, rooted_nodes};
ghost use Rattle.graph.specs.Effects.{TakesBack, NoneScopedSince};
ghost use Rattle.graph.specs.declared.fault.Kept.{Kept as ACause};

use super::Graph;
use crate::fault::GraphFault;
use node_arena::Functions;

/// How many ids had been given.
#[derive(Clone, Copy)]
pub struct Mark {
    given: u64,
}

impl<F: Functions> Graph<F> {
    /// A mark to which `back_to` leads.
    /// Refused only where the graph is broken.
    pub fn mark(&self) -> Result<Mark, GraphFault>
        ensures broken { (cause : ACause) → IsErrOf result (GraphFault.Broken cause) ↔ IsBroken self.now cause }
        ensures mark { IfOk result (λ mark. mark.given ≡ self.now.nodes.given) }
        ensures observed { IfOk result (λ mark. (n : NodeId) → Among n (in_use self.now.observers) → n.gen_ < mark.given) }
        ensures rooted { IfOk result (λ mark. (n : NodeId) → Among n (rooted_nodes self.now) → n.gen_ < mark.given) }
        ensures needed { IfOk result (λ mark. (p : Point) → IsNeeded self.now p → p.node.gen_ < mark.given) }
        ensures unscoped { IfOk result (λ mark. NoneScopedSince self.now.nodes mark.given) }
        ensures unbroken { IsOk result ↔ IsUnbroken self.now }
    {
        self.check()?;
        Ok(Mark {
            given: self.parts.arena().given(),
        })
    }

    /// A mark to which `take_back` leads, for a caller who knows that the graph is unbroken.
    pub fn current_mark(&self) -> Mark
        requires unbroken { IsUnbroken self.now }
        ensures mark { result.given ≡ self.now.nodes.given }
        ensures observed { (n : NodeId) → Among n (in_use self.now.observers) → n.gen_ < result.given }
        ensures rooted { (n : NodeId) → Among n (rooted_nodes self.now) → n.gen_ < result.given }
        ensures needed { (p : Point) → IsNeeded self.now p → p.node.gen_ < result.given }
        ensures unscoped { NoneScopedSince self.now.nodes result.given }
    {
        match self.mark() {
            Ok(mark) => mark,
            Err(_) => unreachable!(),
        }
    }

    /// Drops the nodes that were added since the mark. None of them is needed, and none stands in a scope: `mark` says so
    /// of the nodes then, and only a stabilize makes more be needed, and nodes that stand in scopes. This takes no memory.
    /// Refused only where the graph is broken.
    pub fn back_to(&mut self, mark: Mark) -> Result<(), GraphFault>
        requires unneeded { IsUnbroken self.old → (p : Point) → IsNeeded self.old p → p.node.gen_ < mark.given }
        requires unscoped { IsUnbroken self.old → NoneScopedSince self.old.nodes mark.given }
        ensures broken { (cause : ACause) → IsErrOf result (GraphFault.Broken cause) ↔ IsBroken self.old cause }
        ensures taken { OnOk result (TakesBack self.old self.new mark.given) }
        ensures unbroken { IsOk result ↔ IsUnbroken self.old }
        ensures err { OnErr result (self.new ≡ self.old) }
    {
        self.check()?;
        self.parts.back_to(mark.given);
        Ok(())
    }

    /// Drops the nodes that were added since the mark, for a caller who knows that the graph is unbroken. None of them is
    /// needed, and none stands in a scope. This takes no memory.
    pub fn take_back(&mut self, mark: Mark)
        requires unbroken { IsUnbroken self.old }
        requires unneeded { (p : Point) → IsNeeded self.old p → p.node.gen_ < mark.given }
        requires unscoped { NoneScopedSince self.old.nodes mark.given }
        ensures { TakesBack self.old self.new mark.given }
    {
        match self.back_to(mark) {
            Ok(()) => {}
            Err(_) => unreachable!(),
        }
    }
}
