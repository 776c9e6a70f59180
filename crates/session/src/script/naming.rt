//! The declarations whose nodes a graph tells: those that references are to, and those that a cycle passes.
ghost use Rattle.std.specs.Prelude.{ℕ, ◌≡◌, ◌↔◌, ◌<◌, ◌++◌, List, [], length, slice_get, IfOk, IfSome, IfNone, OnOk, OnErr, IsTrue, None, Some};
ghost use Rattle.std.specs.List.{flat_map};
ghost use Rattle.script_graph.specs.Stabilizing.{CyclePasses, IsCycleMet, IsOwnRoot, IsPassed, PassesAll, closed};
ghost use Rattle.inc_terms.specs.Depend.{main};
ghost use Rattle.session.specs.Naming.{closing_name, either_of};
ghost use Rattle.session.specs.Replies.{HaveTargets, IsOwnNode, IsReferredName, cycle_line, name_in, named_of, referred_node};

use super::Script;
use formula_lang::Names;
use graph::{Graph, Refused};
use inc_value::{NodeId, Outcome, Part, Point, Value};
use indexed_nodes::IndexedNodes;
use node_arena::Library;
use script_functions::ScriptFns;
use std::alloc::{AllocError, Global};

impl<L: Library> Script<L> {
    /// The name that is printed of a reference: that of the declaration whose own node it is to; nothing of what is none.
    pub(crate) fn referred_name(&self, outcome: &Outcome) -> &[u8]
        ensures { IsReferredName self.now.kept.names self.now.kept.nodes (referred_node outcome.now) result.now }
    {
        let Some(node) = referred_node(outcome) else {
            return b"";
        };
        match own_declaration(&self.names, &self.nodes, node) {
            Some(position) => self.name_at(position),
            None => b"",
        }
    }

    /// Appends the reply to a stabilize that was refused for a cycle: the declarations whose mains it passes, by their names, and the first of them
    /// once more.
    pub(crate) fn write_cycle(&self, out: &mut Vec<u8>) -> Result<(), AllocError>
        requires met { IsCycleMet self.now.kept.graph.refused }
        ensures ok { OnOk result ((targets : List ℕ)
            × CyclePasses self.now.kept.graph self.now.kept.names.declared self.now.kept.nodes targets
            × (out.new.items ≡ out.old.items ++ cycle_line (name_in self.now.kept.names) (closed targets))) }
        ensures err { OnErr result (out.new.items ≡ out.old.items) }
    {
        match self.graph.broken() {
            Some(Refused::Cycle(points)) => {
                write_passed(
                    self.alloc,
                    &self.graph,
                    &self.names,
                    &self.nodes,
                    points,
                    out,
                )
            }
            _ => unreachable!(),
        }
    }
}

/// The node that a reference is to; none of what is no reference.
fn referred_node(outcome: &Outcome) -> Option<NodeId>
    ensures { result ≡ referred_node outcome.now }
{
    match outcome {
        Outcome::Val(Value::Node(node, _)) => Some(*node),
        _ => None,
    }
}

/// The declaration that stands for itself whose node it is: the first that has the node, as no other name comes before the one that
/// it stands for.
pub(super) fn own_declaration(names: &Names, nodes: &IndexedNodes, node: NodeId) -> Option<usize>
    requires one_each { length nodes.now.items ≡ length names.now.declared }
    requires targets { HaveTargets names.now.declared nodes.now.items }
    ensures some { IfSome result (IsOwnNode names.entry.now nodes.now.items node) }
    ensures within { IfSome result (λ i. i < length names.entry.now.declared) }
    ensures none { IfNone result ((position : ℕ) → IsOwnNode names.entry.now nodes.now.items node position → ⊥) }
{
    names.keeps_order();
    nodes.first(node)
}

/// The declaration whose main the point is, which stands for itself, and which a cycle passes there that comes from another
/// point. The right side of a bind that its main reads is passed as a part of the bind's formula, also where it is grabbed.
fn passed<L: Library>(
    graph: &Graph<ScriptFns<L>>,
    names: &Names,
    nodes: &IndexedNodes,
    before: Point,
    point: Point,
) -> Option<usize>
    requires one_each { length nodes.now.items ≡ length names.now.declared }
    requires targets { HaveTargets names.now.declared nodes.now.items }
    ensures some { IfSome result (IsPassed graph.now names.entry.now.declared nodes.now.items before point) }
    ensures none { IfNone result ((n : ℕ) → IsPassed graph.now names.entry.now.declared nodes.now.items before point n → ⊥) }
{
    match point.part {
        Part::Main if !is_own_root(graph, before, point.node) => {
            own_declaration(names, nodes, point.node)
        }
        Part::Main | Part::Change => None,
    }
}

/// Whether the point is the main of the bind in whose scope, or one within, the node stands.
fn is_own_root<L: Library>(graph: &Graph<ScriptFns<L>>, point: Point, node: NodeId) -> bool
    ensures { IsTrue result ↔ IsOwnRoot graph.now point node }
{
    match graph.owner(node) {
        Some(bind) => bind != node && is_main_of(point, bind),
        None => false,
    }
}

/// Whether the point is the main of the node.
fn is_main_of(point: Point, node: NodeId) -> bool
    ensures { IsTrue result ↔ (point ≡ main node) }
{
    point.part == Part::Main && point.node == node
}

/// Appends the reply to a stabilize that was refused for a cycle: the declarations that its points pass, by their names, and the first of them once
/// more.
fn write_passed<L: Library>(
    alloc: Global,
    graph: &Graph<ScriptFns<L>>,
    names: &Names,
    nodes: &IndexedNodes,
    points: &[Point],
    out: &mut Vec<u8>,
) -> Result<(), AllocError>
    requires one_each { length nodes.now.items ≡ length names.now.declared }
    requires targets { HaveTargets names.now.declared nodes.now.items }
    ensures ok { OnOk result ((targets : List ℕ) × PassesAll graph.now names.entry.now.declared nodes.now.items points.now targets
        × (out.new.items ≡ out.old.items ++ cycle_line (name_in names.entry.now) (closed targets))) }
    ensures err { OnErr result (out.new.items ≡ out.old.items) }
{
    let mut line = Vec::new(alloc);
    line.extend_from_slice(b"refused 20 cycle")?;
    let first = write_each_passed(graph, names, nodes, points, &mut line)?;
    write_first(names, first, &mut line)?;
    line.push(b'\n')?;
    out.extend_from_slice(&line)
}

/// Appends a space and the name of each declaration that the points pass. The answer is the first of them.
fn write_each_passed<L: Library>(
    graph: &Graph<ScriptFns<L>>,
    names: &Names,
    nodes: &IndexedNodes,
    points: &[Point],
    line: &mut Vec<u8>,
) -> Result<Option<usize>, AllocError>
    requires one_each { length nodes.now.items ≡ length names.now.declared }
    requires targets { HaveTargets names.now.declared nodes.now.items }
    ensures { IfOk result (λ first. (targets : List ℕ) × PassesAll graph.now names.entry.now.declared nodes.now.items points.now targets
        × (first ≡ slice_get targets 0) × (line.new.items ≡ line.old.items ++ flat_map (named_of (name_in names.entry.now)) targets)) }
{
    let mut first = None;
    for place in 1..points.len() {
        let (before, point) = (points[place - 1], points[place]);
        match passed(graph, names, nodes, before, point) {
            Some(position) => {
                write_name(names, position, line)?;
                first = either_of(first, position);
            }
            None => {}
        }
    }
    Ok(first)
}

/// The first of declarations, and of one more.
fn either_of(first: Option<usize>, position: usize) -> Option<usize>
    ensures { result ≡ either_of first position }
{
    match first {
        Some(_) => first,
        None => Some(position),
    }
}

/// Appends a space and the name of the declaration that was named first, if one was.
fn write_first(names: &Names, first: Option<usize>, line: &mut Vec<u8>) -> Result<(), AllocError>
    ensures ok { OnOk result (line.new.items ≡ line.old.items ++ closing_name (name_in names.entry.now) first) }
{
    match first {
        Some(position) => write_name(names, position, line),
        None => Ok(()),
    }
}

/// Appends a space and the name of the declaration at a position; no name where there is none.
fn write_name(names: &Names, position: usize, line: &mut Vec<u8>) -> Result<(), AllocError>
    ensures ok { OnOk result (line.new.items ≡ line.old.items ++ named_of (name_in names.entry.now) position) }
{
    line.push(b' ')?;
    line.extend_from_slice(name_at(names, position))
}

/// The name of the declaration at a position; nothing where there is none.
pub(super) fn name_at(names: &Names, position: usize) -> &[u8]
    ensures { result.now ≡ name_in names.entry.now position }
{
    if position < names.len() {
        return names.get(position).name.bytes();
    }
    b""
}
