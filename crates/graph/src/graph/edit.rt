//! Nodes that are set: variables and cutoffs; which nodes are live.
ghost use Rattle.std.specs.Prelude.{◌≡◌, ◌↔◌, ◌<◌, IfOk, IfErr, OnOk, OnErr, IsOk, IsErrOf, IsTrue};
ghost use Rattle.inc_value.specs.declared.node.NodeId.{NodeId};
ghost use Rattle.inc_terms.specs.Within.{Given, ValueWithin};
ghost use Rattle.node_arena.specs.Arena.{IsLive, IsVariable};
ghost use Rattle.node_arena.specs.Typing.{FitsNode};
ghost use Rattle.graph.specs.Standing.{IsUnbroken, IsBroken};
ghost use Rattle.graph.specs.Effects.{IsSetFault, IsCutoffFault, Sets, SetsCutoff};
ghost use Rattle.graph.specs.declared.fault.Kept.{Kept as ACause};

use super::Graph;
use crate::fault::{GraphFault, set_fault};
use inc_value::{NodeId, Value};
use map_nodes::Cutoff;
use node_arena::Functions;

impl<F: Functions> Graph<F> {
    /// Gives a variable another value. What observes it shows it after the next stabilize. This takes no memory.
    /// Refused as `Unknown` where an id was never given, `NotVar` where it is no live variable, and `WrongType`.
    pub fn set_var(&mut self, node: NodeId, value: Value) -> Result<(), GraphFault>
        ensures broken { (cause : ACause) → IsErrOf result (GraphFault.Broken cause) ↔ IsBroken self.old cause }
        ensures set { OnOk result (Sets self.old self.new node value) }
        ensures unknown { IsErrOf result GraphFault.Unknown ↔ (IsUnbroken self.old
            × ¬ (Given self.old.nodes.given node × ValueWithin (Given self.old.nodes.given) value)) }
        ensures not_var { IsErrOf result GraphFault.NotVar ↔ (IsUnbroken self.old × (Given self.old.nodes.given node
            × ValueWithin (Given self.old.nodes.given) value × ¬ IsVariable self.old.nodes node)) }
        ensures wrong_type { IsErrOf result GraphFault.WrongType ↔ (IsUnbroken self.old
            × (ValueWithin (Given self.old.nodes.given) value × IsVariable self.old.nodes node
            × ¬ FitsNode self.old.nodes node value)) }
        ensures setting { IfErr result IsSetFault }
        ensures err { OnErr result (self.new ≡ self.old) }
    {
        match self.check() {
            Ok(()) => {}
            Err(fault) => {
                drop(value);
                return Err(fault);
            }
        }
        match self.parts.set_var(node, value) {
            Ok(()) => Ok(()),
            Err(fault) => Err(set_fault(fault)),
        }
    }

    /// Gives a variable another value that fits, for a caller who knows that it does and that the graph is unbroken. What
    /// observes it shows it after the next stabilize. This takes no memory.
    pub fn assign(&mut self, node: NodeId, value: Value)
        requires unbroken { IsUnbroken self.old }
        requires variable { IsVariable self.old.nodes node }
        requires given { Given self.old.nodes.given node }
        requires within { ValueWithin (Given self.old.nodes.given) value }
        requires fits { FitsNode self.old.nodes node value }
        ensures { Sets self.old self.new node value }
    {
        match self.set_var(node, value) {
            Ok(()) => {}
            Err(_) => unreachable!(),
        }
    }

    /// Sets a node's cutoff, which is Equal at first: whether its readers are told of an outcome that is the one before.
    /// A dead node has none, and nothing changes. Last calls stay. This takes no memory.
    /// Refused as `Unknown` where the id was never given.
    pub fn set_cutoff(&mut self, node: NodeId, cutoff: Cutoff) -> Result<(), GraphFault>
        ensures broken { (cause : ACause) → IsErrOf result (GraphFault.Broken cause) ↔ IsBroken self.old cause }
        ensures set { OnOk result (SetsCutoff self.old self.new node cutoff) }
        ensures unknown { IsErrOf result GraphFault.Unknown ↔ (IsUnbroken self.old × ¬ Given self.old.nodes.given node) }
        ensures setting { IfErr result IsCutoffFault }
        ensures err { OnErr result (self.new ≡ self.old) }
    {
        self.check()?;
        if node.gen_ >= self.parts.arena().given() {
            return Err(GraphFault::Unknown);
        }
        self.parts.set_cutoff(node, cutoff);
        Ok(())
    }

    /// Whether the node is live.
    /// Refused only where the graph is broken.
    pub fn is_live(&self, node: NodeId) -> Result<bool, GraphFault>
        ensures broken { (cause : ACause) → IsErrOf result (GraphFault.Broken cause) ↔ IsBroken self.now cause }
        ensures live { IfOk result (λ live. IsTrue live ↔ IsLive self.now.nodes node) }
        ensures unbroken { IsOk result ↔ IsUnbroken self.now }
    {
        self.check()?;
        Ok(self.parts.arena().is_live(node))
    }
}
