//! Bodies that are kept as functions of right sides, and binds of them.
ghost use Rattle.std.specs.Prelude.{◌≡◌, ◌↔◌, ◌≤◌, ℕ, [], Some, IsTrue, IfOk};
ghost use Rattle.inc_value.specs.Choice.{Every};
ghost use Rattle.inc_value.specs.declared.function.FnRef.{FnRef};
ghost use Rattle.inc_value.specs.declared.node.Point.{Point};
ghost use Rattle.graph.specs.Effects.{NoneScopedSince};
ghost use Rattle.graph.specs.Standing.{IsNeeded};
ghost use Rattle.script_functions.specs.Bodies.{side_of};
ghost use Rattle.graph_tests.specs.Usable.{IsFit, CallsKept, IsSmall};

use crate::bodies::{Side, body, inner, outer};
use crate::tests::{Scripted, code, made, nth};
use inc_value::{FnId, FnRef, NodeId, Sig, Ty};
use node_arena::{Functions, Library};
use script_functions::{Body, Line, ListedNode, ScriptFns, TypedLine};
use std::alloc::{AllocError, Global};
use std_library::StdLib;

/// What an act answers that found no memory.
pub(crate) const NO_MEMORY: i64 = -108;

/// What an act answers whose body can't be kept: a line calls what isn't known, or lists a node that isn't of its type.
const UNUSABLE: i64 = -115;

/// Whether both names are of one function.
fn is_same_id(left: FnId, right: FnId) -> bool
    ensures { IsTrue result ↔ (left ≡ right) }
{
    left == right
}

/// Whether the types are the same, one for one.
fn are_same(left: &[Ty], right: &[Ty]) -> bool
    ensures { IsTrue result ↔ (left.now ≡ right.now) }
{
    left == right
}

/// Whether both take the same types and give the same one.
fn has_same_types(left: Sig, right: Sig) -> bool
    ensures { IsTrue result ↔ (left ≡ right) }
{
    are_same(left.takes(), right.takes()) && left.gives() == right.gives()
}

/// Whether both references are of one function, their types too.
fn is_same(left: FnRef, right: FnRef) -> bool
    ensures { IsTrue result ↔ (left ≡ right) }
{
    is_same_id(left.id, right.id) && has_same_types(left.sig, right.sig)
}

/// Whether a bind's function is the one within, and may take two nodes.
fn calls_within(within: Option<FnRef>, function: FnRef, most: u64) -> bool
    ensures { IsTrue result ↔ ((within ≡ Some function) × (2 ≤ most)) }
{
    match within {
        Some(kept) => is_same(kept, function) && most >= 2,
        None => false,
    }
}

/// Whether the line calls functions of the library alone, and the one within.
fn is_usable(within: Option<FnRef>, line: &TypedLine) -> bool
    ensures { IsTrue result ↔ CallsKept within line.now.line }
{
    match &line.line {
        Line::Map(function, _) => StdLib::new().knows(*function),
        Line::Fold(function, _, _) => StdLib::new().knows(*function),
        Line::Bind { function, most, .. } => calls_within(within, *function, *most),
        _ => true,
    }
}

/// Whether each of the lines does.
fn are_usable(within: Option<FnRef>, lines: &[TypedLine]) -> bool
    ensures { IsTrue result ↔ Every (λ x. CallsKept within x.line) lines.now }
{
    lines.iter().all(|line| is_usable(within, line))
}

/// Whether the listed node was given, and is of its type or dead.
fn is_fit(graph: &Scripted, listed: ListedNode) -> bool
    ensures { IsTrue result ↔ IsFit graph.now.nodes listed }
{
    graph.fits(listed.node(), listed.ty())
}

/// Whether each of the listed nodes was, and is.
fn are_fit(graph: &Scripted, listed: &[ListedNode]) -> bool
    ensures { IsTrue result ↔ Every (IsFit graph.now.nodes) listed.now }
{
    listed.iter().all(|listed| is_fit(graph, *listed))
}

/// Keeps a body's function, whose lines call functions of the library, and the one within, whose right sides are small.
fn kept(graph: &mut Scripted, within: Option<FnRef>, body: Body) -> Result<FnRef, i64>
    requires small { (f : FnRef) → within ≡ Some f
        → IsSmall (⟦<ScriptFns<StdLib> as Functions>⟧.known graph.old.functions)
        (⟦<ScriptFns<StdLib> as Functions>⟧.right graph.old.functions) f }
    ensures known { IfOk result (λ f. IsTrue (⟦<ScriptFns<StdLib> as Functions>⟧.known graph.new.functions f)) }
    ensures side { IfOk result (λ f. ⟦<ScriptFns<StdLib> as Functions>⟧.right graph.new.functions f ≡ side_of body) }
    ensures rest { graph.new ≡ record graph.old { functions = graph.new.functions } }
{
    if !are_usable(within, body.draft().lines()) {
        drop(body);
        return Err(UNUSABLE);
    }
    match graph.more(body) {
        Ok(f) => Ok(f),
        Err((fault, body)) => {
            drop(body);
            Err(code(fault))
        }
    }
}

/// Makes a bind on a node, whose right sides are made by a body. Its lines may call the function within.
fn bind_body(
    graph: &mut Scripted,
    nodes: &mut Vec<NodeId>,
    within: Option<FnRef>,
    left: NodeId,
    body: Body,
) -> i64
    requires small { (f : FnRef) → within ≡ Some f
        → IsSmall (⟦<ScriptFns<StdLib> as Functions>⟧.known graph.old.functions)
        (⟦<ScriptFns<StdLib> as Functions>⟧.right graph.old.functions) f }
    ensures needed { (p : Point) → IsNeeded graph.new p → IsNeeded graph.old p }
    ensures unscoped { (count : ℕ) → NoneScopedSince graph.old.nodes count → NoneScopedSince graph.new.nodes count }
{
    if !are_fit(graph, body.draft().listed()) {
        drop(body);
        return UNUSABLE;
    }
    match kept(graph, within, body) {
        Ok(f) => made(nodes, graph.bind(left, f, &[])),
        Err(number) => number,
    }
}

/// Makes a bind on a node.
pub(crate) fn bind(
    alloc: Global,
    graph: &mut Scripted,
    nodes: &mut Vec<NodeId>,
    left: usize,
    side: Side,
) -> i64
    ensures needed { (p : Point) → IsNeeded graph.new p → IsNeeded graph.old p }
    ensures unscoped { (count : ℕ) → NoneScopedSince graph.old.nodes count → NoneScopedSince graph.new.nodes count }
{
    let left = nth(nodes, left);
    match body(alloc, nodes, side) {
        Ok(body) => bind_body(graph, nodes, None, left, body),
        Err(AllocError) => NO_MEMORY,
    }
}

/// Whether a body takes two nodes at most, and lists none.
fn is_small(body: &Body) -> bool
    ensures none { IsTrue result → body.now.draft.listed ≡ [] }
    ensures small { IsTrue result → (side_of body.now).size ≤ 2 }
{
    body.size() <= 2 && body.draft().listed().is_empty()
}

/// Keeps the function of sums of a captured number and the left value.
fn kept_inner(alloc: Global, graph: &mut Scripted) -> Result<FnRef, i64>
    ensures { IfOk result (λ f. IsSmall (⟦<ScriptFns<StdLib> as Functions>⟧.known graph.new.functions)
        (⟦<ScriptFns<StdLib> as Functions>⟧.right graph.new.functions) f) }
{
    let body = match inner(alloc) {
        Ok(body) => body,
        Err(AllocError) => return Err(NO_MEMORY),
    };
    if !is_small(&body) {
        drop(body);
        return Err(UNUSABLE);
    }
    kept(graph, None, body)
}

/// Makes a bind on a node, whose right sides are binds on another one, whose right sides the function within makes.
fn bind_outer(
    alloc: Global,
    graph: &mut Scripted,
    nodes: &mut Vec<NodeId>,
    left: NodeId,
    right: NodeId,
    within: &FnRef,
) -> i64
    requires { IsSmall (⟦<ScriptFns<StdLib> as Functions>⟧.known graph.old.functions)
        (⟦<ScriptFns<StdLib> as Functions>⟧.right graph.old.functions) within.now }
{
    match outer(alloc, right, *within, 2) {
        Ok(body) => bind_body(graph, nodes, Some(*within), left, body),
        Err(AllocError) => NO_MEMORY,
    }
}

/// Makes a bind of binds.
pub(crate) fn nested(
    alloc: Global,
    graph: &mut Scripted,
    nodes: &mut Vec<NodeId>,
    left: usize,
    right: usize,
) -> i64 {
    let left = nth(nodes, left);
    let right = nth(nodes, right);
    match kept_inner(alloc, graph) {
        Ok(within) => bind_outer(alloc, graph, nodes, left, right, &within),
        Err(number) => number,
    }
}

/// Makes a bind on a node and takes it back.
pub(crate) fn bind_and_take_back(
    alloc: Global,
    graph: &mut Scripted,
    nodes: &mut Vec<NodeId>,
    left: usize,
) -> i64 {
    let mark = match graph.mark() {
        Ok(mark) => mark,
        Err(fault) => return code(fault),
    };
    let bound = bind(alloc, graph, nodes, left, Side::NegLeft);
    match graph.back_to(mark) {
        Ok(()) => bound,
        Err(fault) => code(fault),
    }
}
