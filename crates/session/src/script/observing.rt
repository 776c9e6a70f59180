//! Observers of a script.
ghost use Rattle.std.specs.Prelude.{ℕ, ◌≡◌, ◌<◌, ◌+◌, ◌-◌, ◌^◌, ◌++◌, ◌∷◌, [], length, None, Some, IfSome, IfNone, OnOk, OnErr, IsTrue};
ghost use Rattle.formula_lang.specs.Fits.{ObserverFits};
ghost use Rattle.graph.specs.Effects.{Observes};
ghost use Rattle.graph.specs.Standing.{IsUnbroken};
ghost use Rattle.inc_terms.specs.Within.{Given};
ghost use Rattle.inc_value.specs.declared.node.ObsId.{ObsId as AnObserver};
ghost use Rattle.script_graph.specs.Kept.{arena_of, node_in};
ghost use Rattle.script_graph.specs.Shown.{ShowsIt, ShowsNothing};
ghost use Rattle.script_graph.specs.State.{MatchesMoment};
ghost use Rattle.script_model.specs.Check.{Observe, Unobserve, Watch, is_among};
ghost use Rattle.script_model.specs.Formula.{Meanings};
ghost use Rattle.script_model.specs.Step.{Moment, moved};
ghost use Rattle.session.specs.Carried.{IsBeside};
ghost use Rattle.session.specs.ObserverIds.{IsAbsent};
ghost use Rattle.session.specs.Replies.{IsObserverName};

use super::{Script, or_no_memory};
use crate::observer_ids::ObserverIds;
use graph::{Graph, Notice};
use inc_value::{NodeId, ObsId, Outcome};
use node_arena::Library;
use script_functions::ScriptFns;
use std::alloc::AllocError;

impl<L: Library> Script<L> {
    /// Adds an observer that fits. It shows nothing yet. Without memory nothing changes.
    pub(crate) fn observe(&mut self, name: &[u8], target: usize) -> Result<(), AllocError>
        requires fits { ObserverFits self.old.kept.names name.now target }
        requires unbroken { self.old.kept.broken ≡ None }
        requires few { length self.old.kept.graph.observers < 2 ^ 32 - 1 }
        ensures observed { OnOk result ((F : Meanings) (m : Moment) → MatchesMoment F self.old.kept m
            → MatchesMoment F self.new.kept (moved m (Observe name.now target))) }
        ensures kept { OnErr result (self.new.kept ≡ self.old.kept) }
        ensures beside { IsBeside 0 1 self.old self.new }
    {
        self.graph.keeps_sound();
        let node = self.nodes.at(target);
        match self.names.observe(name) {
            Ok(()) => match observe_node(&mut self.graph, &mut self.observers, node) {
                Ok(()) => Ok(()),
                Err(fault) => {
                    self.names.end(name);
                    Err(fault)
                }
            },
            Err(fault) => Err(fault),
        }
    }

    /// Ends the observer of a name in use. This takes no memory.
    pub(crate) fn unobserve(&mut self, name: &[u8])
        requires in_use { IsTrue (is_among self.old.kept.names.observers name.now) }
        requires unbroken { self.old.kept.broken ≡ None }
        ensures ended { (F : Meanings) (m : Moment) → MatchesMoment F self.old.kept m → MatchesMoment F self.new.kept (moved m (Unobserve name.now)) }
        ensures nodes { self.new.kept.nodes ≡ self.old.kept.nodes }
        ensures arena { arena_of self.new.kept ≡ arena_of self.old.kept }
        ensures beside { IsBeside 0 0 self.old self.new }
    {
        self.graph.keeps_sound();
        let Some(position) = self.names.observer(name) else {
            unreachable!()
        };
        let observer = self.observers.swap_remove(position);
        self.graph.end_observer(observer);
        self.names.end(name);
    }

    /// Watches the observer of a name in use. This takes no memory.
    pub(crate) fn watch(&mut self, name: &[u8])
        requires in_use { IsTrue (is_among self.old.kept.names.observers name.now) }
        requires unbroken { self.old.kept.broken ≡ None }
        ensures watched { (F : Meanings) (m : Moment) → MatchesMoment F self.old.kept m → MatchesMoment F self.new.kept (moved m (Watch name.now)) }
        ensures beside { IsBeside 0 0 self.old self.new }
    {
        let Some(position) = self.names.observer(name) else {
            unreachable!()
        };
        self.graph.watch_observer(self.observers.at(position));
    }

    /// What was told of watched observers by the stabilize that was accepted last.
    pub(crate) fn notices(&self) -> &[Notice]
        ensures { result.now ≡ self.now.kept.graph.notices }
    {
        self.graph.round().notices
    }

    /// The name of an observer in use; nothing of another.
    pub(crate) fn observer_name(&self, observer: ObsId) -> &[u8]
        ensures { IsObserverName self.now.kept observer result.now }
    {
        match self.observers.position(observer) {
            Some(position) => self.names.observer_at(position),
            None => b"",
        }
    }

    /// What the observer of a name in use shows, once a stabilize was accepted since it was made.
    pub(crate) fn shown(&self, name: &[u8]) -> Option<&Outcome>
        requires in_use { IsTrue (is_among self.now.kept.names.observers name.now) }
        requires unbroken { self.now.kept.broken ≡ None }
        ensures some { IfSome result (λ outcome. (F : Meanings) (m : Moment) → MatchesMoment F self.now.kept m → ShowsIt (node_in self.now.kept.nodes) m.present name.now outcome.now) }
        ensures none { IfNone result ((F : Meanings) (m : Moment) → MatchesMoment F self.now.kept m → ShowsNothing m.present name.now) }
    {
        let Some(position) = self.names.observer(name) else {
            unreachable!()
        };
        match self.graph.value(self.observers.at(position)) {
            Ok(outcome) => Some(outcome),
            // No stabilize was accepted since the observer was made.
            Err(_) => None,
        }
    }
}

/// Observes a node, as the last observer's. Without memory nothing changes.
fn observe_node<L: Library>(
    graph: &mut Graph<ScriptFns<L>>,
    observers: &mut ObserverIds,
    node: NodeId,
) -> Result<(), AllocError>
    requires unbroken { IsUnbroken graph.old }
    requires given { Given graph.old.nodes.given node }
    requires few { length graph.old.observers < 2 ^ 32 - 1 }
    requires absent { (o : AnObserver) → o.0 ≡ length graph.old.observers → IsAbsent observers.old.items o }
    ensures ok { OnOk result ((o : AnObserver) × Observes graph.old graph.new o node × (observers.new.items ≡ observers.old.items ++ o ∷ [])) }
    ensures graph_kept { OnErr result (graph.new ≡ graph.old) }
    ensures observers_kept { OnErr result (observers.new.items ≡ observers.old.items) }
{
    observers.reserve()?;
    match or_no_memory(graph.observe(node)) {
        Ok(observer) => {
            observers.push(observer);
            Ok(())
        }
        Err(fault) => Err(fault),
    }
}
