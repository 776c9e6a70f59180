//! Observers that are made, asked and ended.
ghost use Rattle.std.specs.Prelude.{◌≡◌, ◌↔◌, ◌<◌, ◌≤◌, ◌-◌, ◌^◌, None, Some, length, IfOk, IfErr, OnOk, OnErr, IsErrOf, IsSome};
ghost use Rattle.inc_value.specs.declared.node.NodeId.{NodeId};
ghost use Rattle.inc_terms.specs.Within.{Given};
ghost use Rattle.observers.specs.Observers.{node_at, shown_at};
ghost use Rattle.graph.specs.Standing.{IsUnbroken, IsBroken, shown_of};
ghost use Rattle.graph.specs.Effects.{Observes, Ends, Watches, IsObserveFault, IsEndFault, IsObserverFault};
ghost use Rattle.graph.specs.declared.fault.Kept.{Kept as ACause};

use super::Graph;
use crate::fault::GraphFault;
use inc_value::{NodeId, ObsId, Outcome};
use node_arena::Functions;
use observers::{ObserveFault, UseFault, ValueFault};

impl<F: Functions> Graph<F> {
    /// Observes a node: from the next stabilize on it is kept up to date.
    /// Refused as `Unknown` where the id was never given, and `TooMany` where there are 4,294,967,295 observers.
    pub fn observe(&mut self, node: NodeId) -> Result<ObsId, GraphFault>
        ensures broken { (cause : ACause) → IsErrOf result (GraphFault.Broken cause) ↔ IsBroken self.old cause }
        ensures observed { IfOk result (λ o. Observes self.old self.new o node) }
        ensures unknown { IsErrOf result GraphFault.Unknown ↔ (IsUnbroken self.old × ¬ Given self.old.nodes.given node) }
        ensures too_many { IsErrOf result GraphFault.TooMany ↔ (IsUnbroken self.old × (Given self.old.nodes.given node
            × (2 ^ 32 - 1 ≤ length self.old.observers))) }
        ensures observing { IfErr result IsObserveFault }
        ensures err { OnErr result (self.new ≡ self.old) }
    {
        self.check()?;
        if node.gen_ >= self.parts.arena().given() {
            return Err(GraphFault::Unknown);
        }
        match self.observers.observe(node) {
            Ok(observer) => Ok(observer),
            Err(ObserveFault::TooMany) => Err(GraphFault::TooMany),
            Err(ObserveFault::Memory) => Err(GraphFault::Memory),
        }
    }

    /// Ends an observer. What is then observed by none isn't kept up to date any more. This takes no memory.
    /// Refused as `Unknown` where there is no such observer, or it is ended.
    pub fn unobserve(&mut self, observer: ObsId) -> Result<(), GraphFault>
        ensures broken { (cause : ACause) → IsErrOf result (GraphFault.Broken cause) ↔ IsBroken self.old cause }
        ensures ended { OnOk result (Ends self.old self.new observer) }
        ensures unknown { IsErrOf result GraphFault.Unknown ↔ (IsUnbroken self.old × (node_at self.old.observers observer ≡ None)) }
        ensures ending { IfErr result IsEndFault }
        ensures err { OnErr result (self.new ≡ self.old) }
    {
        self.check()?;
        match self.observers.end(observer) {
            Ok(node) => {
                if (observer.0 as usize) < self.rooted {
                    self.parts.unroot(node);
                }
                Ok(())
            }
            Err(UseFault::Unknown) => Err(GraphFault::Unknown),
        }
    }

    /// Watches an observer: the next accepted stabilize tells what it shows then, and each one after it what changed. One
    /// that is watched stays as it is. This takes no memory.
    /// Refused as `Unknown` where there is no such observer, or it is ended.
    pub fn watch(&mut self, observer: ObsId) -> Result<(), GraphFault>
        ensures broken { (cause : ACause) → IsErrOf result (GraphFault.Broken cause) ↔ IsBroken self.old cause }
        ensures watched { OnOk result (Watches self.old self.new observer) }
        ensures unknown { IsErrOf result GraphFault.Unknown ↔ (IsUnbroken self.old × (node_at self.old.observers observer ≡ None)) }
        ensures watching { IfErr result IsEndFault }
        ensures err { OnErr result (self.new ≡ self.old) }
    {
        self.check()?;
        match self.observers.watch(observer) {
            Ok(()) => Ok(()),
            Err(UseFault::Unknown) => Err(GraphFault::Unknown),
        }
    }

    /// Ends an observer in use, for a caller who knows that it is and that the graph is unbroken. What is then observed by
    /// none isn't kept up to date any more. This takes no memory.
    pub fn end_observer(&mut self, observer: ObsId)
        requires unbroken { IsUnbroken self.old }
        requires in_use { IsSome (node_at self.old.observers observer) }
        ensures { Ends self.old self.new observer }
    {
        match self.unobserve(observer) {
            Ok(()) => {}
            Err(_) => unreachable!(),
        }
    }

    /// Watches an observer in use, for a caller who knows that it is and that the graph is unbroken. The next accepted
    /// stabilize tells what it shows then, and each one after it what changed. One that is watched stays as it is. This takes
    /// no memory.
    pub fn watch_observer(&mut self, observer: ObsId)
        requires unbroken { IsUnbroken self.old }
        requires in_use { IsSome (node_at self.old.observers observer) }
        ensures { Watches self.old self.new observer }
    {
        match self.watch(observer) {
            Ok(()) => {}
            Err(_) => unreachable!(),
        }
    }

    /// What an observer shows: the outcome that its node had when a stabilize was last accepted.
    /// Refused as `Unknown` where there is no such observer, and `NotStabilized` where it shows nothing yet.
    pub fn value(&self, observer: ObsId) -> Result<&Outcome, GraphFault>
        ensures broken { (cause : ACause) → IsErrOf result (GraphFault.Broken cause) ↔ IsBroken self.now cause }
        ensures value { IfOk result (λ outcome. shown_at self.now.observers observer ≡ Some outcome.now) }
        ensures shown { IfOk result (λ outcome. (n : NodeId) × (node_at self.now.observers observer ≡ Some n)
            × (shown_of self.now n ≡ Some outcome.now)) }
        ensures unknown { IsErrOf result GraphFault.Unknown ↔ (IsUnbroken self.now × (node_at self.now.observers observer ≡ None)) }
        ensures not_shown { IsErrOf result GraphFault.NotStabilized
            ↔ (IsUnbroken self.now × IsSome (node_at self.now.observers observer) × (shown_at self.now.observers observer ≡ None)) }
        ensures not_stabilized { IsErrOf result GraphFault.NotStabilized
            ↔ (IsUnbroken self.now × IsSome (node_at self.now.observers observer) × (self.now.rooted ≤ observer.0)) }
        ensures telling { IfErr result IsObserverFault }
    {
        self.check()?;
        match self.observers.value(observer) {
            Ok(outcome) => Ok(outcome),
            Err(ValueFault::Unknown) => Err(GraphFault::Unknown),
            Err(ValueFault::NotStabilized) => Err(GraphFault::NotStabilized),
        }
    }
}
