//! Stabilizes of a script.
ghost use Rattle.std.specs.Prelude.{◌≡◌, ◌<◌, ◌+◌, ◌-◌, ◌^◌, length, None, IfSome, IfNone};
ghost use Rattle.inc_value.specs.declared.node.Point.{Point};
ghost use Rattle.script_model.specs.Formula.{meanings_of};
ghost use Rattle.script_graph.specs.Kept.{arena_of};
ghost use Rattle.script_graph.specs.Stabilizing.{AllOlder, ChainBegins, IsFirstNotOlder, IsTold, NoneTold};
ghost use Rattle.session.specs.Carried.{EndsStabilize};
ghost use Rattle.session.specs.Replies.{HaveTargets};

use super::Script;
use super::naming::own_declaration;
use formula_lang::Names;
use graph::{Graph, Kept, Refused, StabilizeFault};
use inc_value::NodeId;
use indexed_nodes::IndexedNodes;
use node_arena::Library;
use script_functions::ScriptFns;
use std::alloc::AllocError;

/// How a stabilize ended.
#[derive(Clone, Copy)]
pub(crate) enum Stabilized {
    /// It was accepted.
    Accepted,
    /// It was refused for a cycle, which the graph tells.
    Circular,
    /// It was refused for a chain of points that is too long, which begins in the formula of this declaration.
    TooDeep { target: usize },
}

impl<L: Library> Script<L> {
    /// Brings all that is observed up to date. A refusal breaks the session, and so does want of memory.
    pub(crate) fn stabilize(&mut self) -> Result<Stabilized, AllocError>
        requires unbroken { self.old.kept.broken ≡ None }
        requires count { self.old.kept.accepted + 1 < 2 ^ 64 }
        requires ids { (arena_of self.old.kept).given + 2 ^ 20 < 2 ^ 64 - 1 }
        ensures { EndsStabilize (λ l. meanings_of (L.named l) (L.value l)) L.known L.calls self.old self.new result }
    {
        // The count of builds is one that can be shown.
        let _ = self.graph.functions().builds();
        self.graph.keeps_sound();
        let stabilized = self.graph.stabilize();
        self.graph.keeps_sound();
        match stabilized {
            Ok(()) => {
                self.accepted += 1;
                Ok(Stabilized::Accepted)
            }
            Err(StabilizeFault::Refused(Kept::Height)) => {
                match deep_owner(&self.graph, &self.names, &self.nodes) {
                    Some(target) => {
                        self.broken = Some(21);
                        Ok(Stabilized::TooDeep { target })
                    }
                    // The chain begins in one of the script's formulas, so that this never comes.
                    None => {
                        self.broken = Some(0);
                        Err(AllocError)
                    }
                }
            }
            Err(StabilizeFault::Refused(Kept::Memory)) => {
                self.broken = Some(0);
                Err(AllocError)
            }
            Err(StabilizeFault::Refused(Kept::Cycle)) => {
                self.broken = Some(20);
                Ok(Stabilized::Circular)
            }
            // An unbroken graph meets none of these.
            Err(StabilizeFault::Refused(Kept::Full)) => unreachable!(),
            Err(StabilizeFault::Broken(_)) => unreachable!(),
        }
    }
}

/// The declaration in whose formula the chain of points begins that was too long. A chain begins in one of a script's
/// formulas, so that there is none only where nothing is too deep.
fn deep_owner<L: Library>(
    graph: &Graph<ScriptFns<L>>,
    names: &Names,
    nodes: &IndexedNodes,
) -> Option<usize>
    requires one_each { length nodes.now.items ≡ length names.now.declared }
    requires targets { HaveTargets names.now.declared nodes.now.items }
    ensures found { IfSome result (λ i. (p : Point) → ChainBegins graph.now.refused p → IsTold names.entry.now.declared nodes.now.items graph.now p.node i) }
    ensures within { IfSome result (λ i. i < length nodes.now.items) }
    ensures none { IfNone result ((p : Point) → ChainBegins graph.now.refused p → NoneTold names.entry.now.declared nodes.now.items graph.now p.node) }
{
    match graph.broken() {
        Some(Refused::Height(points)) => match points.first() {
            Some(point) => owned_by(graph, names, nodes, point.node),
            None => None,
        },
        _ => None,
    }
}

/// The first declaration whose node isn't older than the node's owner; of a dead node the grab whose own node it is.
fn owned_by<L: Library>(
    graph: &Graph<ScriptFns<L>>,
    names: &Names,
    nodes: &IndexedNodes,
    node: NodeId,
) -> Option<usize>
    requires one_each { length nodes.now.items ≡ length names.now.declared }
    requires targets { HaveTargets names.now.declared nodes.now.items }
    ensures found { IfSome result (IsTold names.entry.now.declared nodes.now.items graph.now node) }
    ensures within { IfSome result (λ i. i < length nodes.now.items) }
    ensures none { IfNone result (NoneTold names.entry.now.declared nodes.now.items graph.now node) }
{
    match graph.owner(node) {
        Some(top) => first_not_older(nodes.as_slice(), top),
        None => own_declaration(names, nodes, node),
    }
}

/// The first declaration whose node isn't older.
fn first_not_older(nodes: &[NodeId], node: NodeId) -> Option<usize>
    ensures found { IfSome result (λ i. IsFirstNotOlder nodes.now node i) }
    ensures within { IfSome result (λ i. i < length nodes.now) }
    ensures none { IfNone result (AllOlder nodes.now node) }
{
    for i in 0..nodes.len() {
        if node.gen_ <= nodes[i].gen_ {
            return Some(i);
        }
    }
    None
}
