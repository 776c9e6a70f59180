//! Whether what a node names was given, and is of the types that the node wants.
ghost use Rattle.std.specs.Prelude.{◌≡◌, ◌↔◌, IsTrue, map};
ghost use Rattle.inc_value.specs.Choice.{Every};
ghost use Rattle.inc_value.specs.Ty.{base_of};
ghost use Rattle.std.specs.List.{AllZip};
ghost use Rattle.inc_terms.specs.Code.{def_of};
ghost use Rattle.inc_terms.specs.Steps.{step_of};
ghost use Rattle.inc_terms.specs.Term.{Step as AStep};
ghost use Rattle.inc_terms.specs.Within.{Given};
ghost use Rattle.inc_terms.specs.Within.{ValueWithin};
ghost use Rattle.node_arena.specs.Arena.{NamesGiven};
ghost use Rattle.node_arena.specs.Typing.{Makes, Fits, BindMakes, BindTakes, FoldMakes, FoldTakes, FreezeMakes, JoinMakes, HasType, ReferenceFits};

use super::Arena;
use inc_terms::{Def, Step};
use inc_value::{FnKind, FnRef, NodeId, Ty, Value};

/// Whether each of the nodes was given, of so many.
fn all_given(given: u64, nodes: &[NodeId]) -> bool
    ensures { IsTrue result ↔ Every (Given given) nodes.now }
{
    nodes.iter().all(|node| node.gen_ < given)
}

/// Whether the value names no node that was never given, of so many.
pub(super) fn value_given(given: u64, value: &Value) -> bool
    ensures { IsTrue result ↔ ValueWithin (Given given) value.now }
{
    match value {
        Value::Node(node, _) => node.gen_ < given,
        _ => true,
    }
}

/// Whether the steps' values name no node that was never given, of so many.
fn steps_given(given: u64, steps: &[Step]) -> bool
    ensures { IsTrue result ↔ Every (λ (s : AStep). ValueWithin (Given given) s.value) (map step_of steps.now) }
{
    for step in steps {
        if !value_given(given, &step.value) {
            return false;
        }
    }
    true
}

/// Whether each node that the definition names was given, of so many.
pub(super) fn names_given(given: u64, def: &Def) -> bool
    ensures { IsTrue result ↔ NamesGiven given (def_of def.now) }
{
    match def {
        Def::Const(value) | Def::Var(value) => value_given(given, value),
        Def::Map(_, kids) => all_given(given, kids.as_slice()),
        Def::Fold(_, initial, kids) => {
            value_given(given, initial) && all_given(given, kids.as_slice())
        }
        Def::If { test, yes, no } => all_given(given, &[*test, *yes, *no]),
        Def::Join(kid) => kid.gen_ < given,
        Def::Bind { left, captures, .. } => {
            left.gen_ < given && all_given(given, captures.as_slice())
        }
        Def::Steps(initial, steps) => value_given(given, initial)
            && steps_given(given, steps.as_slice()),
        Def::At(_) | Def::Now | Def::Every { .. } => true,
        Def::Freeze { kid, .. } => kid.gen_ < given,
        Def::Expert { initial, .. } => value_given(given, initial),
    }
}

/// Whether the node is of the type, or dead.
fn fits(arena: &Arena, node: NodeId, ty: Ty) -> bool
    ensures { IsTrue result ↔ Fits arena.now node ty }
{
    match arena.get(node) {
        Some(row) => row.ty == ty,
        None => true,
    }
}

/// Whether a reference names a node of its base type, or a dead one.
fn reference_fits(arena: &Arena, value: &Value) -> bool
    ensures { IsTrue result ↔ ReferenceFits arena.now value.now }
{
    match value {
        Value::Node(node, base) => fits(arena, *node, base.ty()),
        _ => true,
    }
}

/// Whether references of the node lead to nodes of the type; a dead node is of every type.
fn leads_to(arena: &Arena, node: NodeId, ty: Ty) -> bool
    ensures { IsTrue result ↔ JoinMakes arena.now node ty }
{
    match ty.base() {
        Some(base) => fits(arena, node, Ty::Node(base)),
        None => false,
    }
}

/// Whether the value is of the type.
pub(super) fn has_type(arena: &Arena, value: &Value, ty: Ty) -> bool
    ensures { IsTrue result ↔ HasType arena.now value.now ty }
{
    value.ty() == ty && reference_fits(arena, value)
}

/// Whether the steps' values are of the type.
fn steps_have_type(arena: &Arena, steps: &[Step], ty: Ty) -> bool
    ensures { IsTrue result ↔ Every (λ (s : AStep). HasType arena.now s.value ty) (map step_of steps.now) }
{
    for step in steps {
        if !has_type(arena, &step.value, ty) {
            return false;
        }
    }
    true
}

/// Whether the nodes are of the types, one for one; a dead node is of every type.
fn all_fit(arena: &Arena, nodes: &[NodeId], types: &[Ty]) -> bool
    ensures { IsTrue result ↔ AllZip (Fits arena.now) nodes.now types.now }
{
    if nodes.len() != types.len() {
        return false;
    }
    for (node, ty) in nodes.iter().zip(types) {
        if !fits(arena, *node, *ty) {
            return false;
        }
    }
    true
}

/// Whether each of the nodes is of the type; a dead node is of every type.
fn each_fits(arena: &Arena, nodes: &[NodeId], ty: Ty) -> bool
    ensures { IsTrue result ↔ Every (λ n. Fits arena.now n ty) nodes.now }
{
    nodes.iter().all(|node| fits(arena, *node, ty))
}

/// Whether a function that takes the types folds the nodes to the type; a dead node is of every type.
fn fold_takes(arena: &Arena, ty: Ty, nodes: &[NodeId], takes: &[Ty]) -> bool
    ensures { IsTrue result ↔ FoldTakes arena.now ty nodes.now takes.now }
{
    match takes {
        [first, element] => *first == ty && each_fits(arena, nodes, *element),
        _ => false,
    }
}

/// Whether the function folds the nodes from the value on to the type.
fn folds(arena: &Arena, f: FnRef, initial: &Value, nodes: &[NodeId], ty: Ty) -> bool
    ensures { IsTrue result ↔ FoldMakes arena.now f initial.now nodes.now ty }
{
    f.id.kind == FnKind::Map
        && f.sig.gives() == ty
        && has_type(arena, initial, ty)
        && fold_takes(arena, ty, nodes, f.sig.takes())
}

/// Whether a function of right sides that takes the types takes the nodes, the left first and then the
/// captures; a dead node is of every type.
fn right_takes(arena: &Arena, left: NodeId, captures: &[NodeId], takes: &[Ty]) -> bool
    ensures { IsTrue result ↔ BindTakes arena.now left captures.now takes.now }
{
    match takes {
        [first, rest @ ..] => fits(arena, left, *first) && all_fit(arena, captures, rest),
        _ => false,
    }
}

/// Whether the function makes right sides of the type, of the left and the captures.
fn binds(arena: &Arena, left: NodeId, f: FnRef, captures: &[NodeId], ty: Ty) -> bool
    ensures { IsTrue result ↔ BindMakes arena.now left f captures.now ty }
{
    f.id.kind == FnKind::Rhs
        && f.sig.gives() == ty
        && right_takes(arena, left, captures, f.sig.takes())
}

/// Whether the function is a predicate on the type, which the node is of; a dead node is of every type.
fn freezes(arena: &Arena, kid: NodeId, f: FnRef, ty: Ty) -> bool
    ensures { IsTrue result ↔ FreezeMakes arena.now kid f ty }
{
    f.id.kind == FnKind::Map
        && f.sig.gives() == Ty::Bool
        && f.sig.takes() == [ty].as_slice()
        && fits(arena, kid, ty)
}

/// Whether the definition makes the type.
pub(super) fn makes(arena: &Arena, def: &Def, ty: Ty) -> bool
    ensures { IsTrue result ↔ Makes arena.now (def_of def.now) ty }
{
    match def {
        Def::Const(value) | Def::Var(value) => has_type(arena, value, ty),
        Def::Map(f, kids) => {
            f.id.kind == FnKind::Map
                && f.sig.gives() == ty
                && all_fit(arena, kids.as_slice(), f.sig.takes())
        }
        Def::Fold(f, initial, kids) => folds(arena, *f, initial, kids.as_slice(), ty),
        Def::If { test, yes, no } => {
            fits(arena, *test, Ty::Bool) && fits(arena, *yes, ty) && fits(arena, *no, ty)
        }
        Def::Join(kid) => leads_to(arena, *kid, ty),
        Def::Bind {
            left,
            function,
            captures,
        } => binds(arena, *left, *function, captures.as_slice(), ty),
        Def::At(_) => ty == Ty::Bool,
        Def::Steps(initial, steps) => {
            has_type(arena, initial, ty) && steps_have_type(arena, steps.as_slice(), ty)
        }
        Def::Now | Def::Every { .. } => ty == Ty::Int,
        Def::Freeze { kid, function } => freezes(arena, *kid, *function, ty),
        Def::Expert { function, initial } => folds(arena, *function, initial, &[], ty),
    }
}
