//! The types of lines, over what stands before them.
ghost use Rattle.std.specs.Prelude.{◌≡◌, ◌≤◌, ◌+◌, ◌^◌, ◌↔◌, map, Any, Some, IfOk, IfSome, IfNone, IsErrOf, IsTrue};
ghost use Rattle.inc_terms.specs.Steps.{step_of};
ghost use Rattle.inc_terms.specs.Term.{Step as AStep};
ghost use Rattle.inc_value.specs.Choice.{Every};
ghost use Rattle.inc_value.specs.Ty.{base_of};
ghost use Rattle.inc_value.specs.declared.ty.Base.{Base};
ghost use Rattle.inc_value.specs.declared.ty.Ty.{Ty};
ghost use Rattle.node_arena.specs.RightSide.{ReferenceHas, ValueHas};
ghost use Rattle.script_functions.specs.Bodies.{type_at, IsThere, IsTypable, NextHas, size_of};
ghost use Rattle.script_functions.specs.Lines.{IsListedAs, PartsHave, MapHas, FoldTakes, FoldHas, JoinHas, BindTakes, BindHas};
ghost use Rattle.script_functions.specs.Lines.{line_size, parts_of};

use crate::{Draft, Line, LineFault, ListedNode, Part};
use inc_terms::Step;
use inc_value::{FnKind, FnRef, NodeId, Ty, Value};

/// Whether one of the listed nodes is the wanted one, of the same type.
fn holds(listed: &[ListedNode], wanted: ListedNode) -> bool
    ensures { IsTrue result ↔ Any (λ x. wanted ≡ x) listed.now }
{
    listed.iter().any(|listed| wanted == *listed)
}

/// Whether the node is listed with the type.
pub fn is_listed(listed: &[ListedNode], node: NodeId, ty: Ty) -> bool
    ensures { IsTrue result ↔ IsListedAs listed.now node ty }
{
    holds(listed, ListedNode::new(node, ty))
}

/// Whether a reference names a node that is listed with its base type.
fn names_listed(listed: &[ListedNode], value: &Value) -> bool
    ensures { IsTrue result ↔ ReferenceHas (IsListedAs listed.now) value.now }
{
    match value {
        Value::Node(node, base) => is_listed(listed, *node, base.ty()),
        _ => true,
    }
}

/// Whether the value is of the type, and names listed nodes alone.
fn value_has(draft: &Draft, value: &Value, ty: Ty) -> bool
    ensures { IsTrue result ↔ ValueHas (IsListedAs draft.now.listed) value.now ty }
{
    value.ty() == ty && names_listed(draft.listed(), value)
}

/// Whether the values of all steps are of the type, and name listed nodes alone.
fn steps_have(draft: &Draft, steps: &[Step], ty: Ty) -> bool
    ensures { IsTrue result ↔ Every (λ (s : AStep). ValueHas (IsListedAs draft.now.listed) s.value ty) (map step_of steps.now) }
{
    for step in steps {
        if !value_has(draft, &step.value, ty) {
            return false;
        }
    }
    true
}

/// Whether a type is the wanted one.
fn is_type(ty: Ty, wanted: Ty) -> bool
    ensures { IsTrue result ↔ (ty ≡ wanted) }
{
    ty == wanted
}

/// Whether the part is there.
fn is_there(draft: &Draft, part: Part) -> bool
    ensures { IsTrue result ↔ IsThere draft.now part }
{
    draft.type_of(part).is_some()
}

/// Whether the part is of the type.
fn has(draft: &Draft, part: Part, ty: Ty) -> bool
    ensures { IsTrue result ↔ (type_at draft.now part ≡ Some ty) }
{
    draft.type_of(part) == Some(ty)
}

/// Whether each of the parts is there.
fn are_there(draft: &Draft, parts: &[Part]) -> bool
    ensures { IsTrue result ↔ Every (IsThere draft.now) parts.now }
{
    for part in parts {
        if !is_there(draft, *part) {
            return false;
        }
    }
    true
}

/// Whether each of the parts is of the type.
fn each_has(draft: &Draft, parts: &[Part], ty: Ty) -> bool
    ensures { IsTrue result ↔ Every (λ p. type_at draft.now p ≡ Some ty) parts.now }
{
    for part in parts {
        if !has(draft, *part, ty) {
            return false;
        }
    }
    true
}

/// Whether the parts are of the types, one for one.
fn all_have(draft: &Draft, parts: &[Part], types: &[Ty]) -> bool
    ensures { IsTrue result ↔ PartsHave (type_at draft.now) parts.now types.now }
{
    if parts.len() != types.len() {
        return false;
    }
    for (part, ty) in parts.iter().zip(types) {
        if !has(draft, *part, *ty) {
            return false;
        }
    }
    true
}

/// Whether the function maps the parts to the type.
fn maps(draft: &Draft, f: FnRef, parts: &[Part], ty: Ty) -> bool
    ensures { IsTrue result ↔ MapHas (type_at draft.now) f parts.now ty }
{
    f.id.kind == FnKind::Map && f.sig.gives() == ty && all_have(draft, parts, f.sig.takes())
}

/// Whether a function that takes the types folds the parts to the type.
fn fold_takes(draft: &Draft, ty: Ty, parts: &[Part], takes: &[Ty]) -> bool
    ensures { IsTrue result ↔ FoldTakes (type_at draft.now) ty parts.now takes.now }
{
    match takes {
        [first, element] => *first == ty && each_has(draft, parts, *element),
        _ => false,
    }
}

/// Whether the function folds the parts from the value on to the type.
fn folds(draft: &Draft, f: FnRef, initial: &Value, parts: &[Part], ty: Ty) -> bool
    ensures { IsTrue result ↔ FoldHas draft.now.listed (type_at draft.now) f initial.now parts.now ty }
{
    f.id.kind == FnKind::Map
        && f.sig.gives() == ty
        && value_has(draft, initial, ty)
        && fold_takes(draft, ty, parts, f.sig.takes())
}

/// Whether references of the part lead to nodes of the type.
fn leads_to(draft: &Draft, part: Part, ty: Ty) -> bool
    ensures { IsTrue result ↔ JoinHas (type_at draft.now) part ty }
{
    match ty.base() {
        Some(base) => has(draft, part, Ty::Node(base)),
        None => false,
    }
}

/// Whether a right side takes the parts: the left first, then the captures.
fn right_takes(draft: &Draft, left: Part, captures: &[Part], takes: &[Ty]) -> bool
    ensures { IsTrue result ↔ BindTakes (type_at draft.now) left captures.now takes.now }
{
    match takes {
        [first, rest @ ..] => has(draft, left, *first) && all_have(draft, captures, rest),
        _ => false,
    }
}

/// Whether the function makes a right side of the type of the left and the captures.
fn binds(draft: &Draft, left: Part, f: FnRef, captures: &[Part], ty: Ty) -> bool
    ensures { IsTrue result ↔ BindHas (type_at draft.now) left f captures.now ty }
{
    f.id.kind == FnKind::Rhs
        && f.sig.gives() == ty
        && right_takes(draft, left, captures, f.sig.takes())
}

/// Whether the line is of the type.
fn line_has(draft: &Draft, line: &Line, ty: Ty) -> bool
    ensures { IsTrue result ↔ NextHas draft.now line.now ty }
{
    match line {
        Line::Const(value) => value_has(draft, value, ty),
        Line::Map(f, parts) => maps(draft, *f, parts.as_slice(), ty),
        Line::Fold(f, initial, parts) => folds(draft, *f, initial, parts.as_slice(), ty),
        Line::If { test, yes, no } => {
            has(draft, *test, Ty::Bool) && has(draft, *yes, ty) && has(draft, *no, ty)
        }
        Line::Join(part) => leads_to(draft, *part, ty),
        Line::Bind {
            left,
            function,
            captures,
            ..
        } => binds(draft, *left, *function, captures.as_slice(), ty),
        Line::At(_) => is_type(ty, Ty::Bool),
        Line::Steps(first, steps) => {
            value_has(draft, first, ty) && steps_have(draft, steps.as_slice(), ty)
        }
        Line::Now => is_type(ty, Ty::Int),
    }
}

/// The type that the references lead to, if they are references.
fn referred(ty: Option<Ty>) -> Option<Ty>
    ensures { (b : Base) (t : Ty) → base_of t ≡ Some b → ty ≡ Some (Ty.Node b) → result ≡ Some t }
{
    match ty {
        Some(Ty::Node(base)) => Some(base.ty()),
        _ => None,
    }
}

/// The only type that the line can be of.
fn only_type(draft: &Draft, line: &Line) -> Option<Ty>
    ensures { (t : Ty) → NextHas draft.now line.now t → result ≡ Some t }
{
    match line {
        Line::Const(value) | Line::Steps(value, _) => Some(value.ty()),
        Line::At(_) => Some(Ty::Bool),
        Line::Now => Some(Ty::Int),
        Line::Map(f, _) | Line::Fold(f, _, _) => Some(f.sig.gives()),
        Line::If { yes, .. } => draft.type_of(*yes),
        Line::Join(part) => referred(draft.type_of(*part)),
        Line::Bind { function, .. } => Some(function.sig.gives()),
    }
}

/// The type of the line, if it has one.
fn type_of_line(draft: &Draft, line: &Line) -> Option<Ty>
    ensures some { IfSome result (NextHas draft.now line.now) }
    ensures none { IfNone result (¬ IsTypable draft.now line.now) }
{
    match only_type(draft, line) {
        Some(ty) if line_has(draft, line, ty) => Some(ty),
        _ => None,
    }
}

/// Whether all that the line reads is there.
fn reads_what_is_there(draft: &Draft, line: &Line) -> bool
    ensures { IsTrue result ↔ Every (IsThere draft.now) (parts_of line.now) }
{
    match line {
        Line::Const(_) | Line::At(_) | Line::Steps(_, _) | Line::Now => true,
        Line::Map(_, parts) | Line::Fold(_, _, parts) => are_there(draft, parts.as_slice()),
        Line::If { test, yes, no } => are_there(draft, &[*test, *yes, *no]),
        Line::Join(part) => is_there(draft, *part),
        Line::Bind { left, captures, .. } => {
            is_there(draft, *left) && are_there(draft, captures.as_slice())
        }
    }
}

/// How many nodes are taken with those of the line, where they can be counted.
fn size_with(size: u64, line: &Line) -> Option<u64>
    ensures some { IfSome result (λ n. n ≡ size + line_size line.now) }
    ensures none { IfNone result (2 ^ 64 ≤ size + line_size line.now) }
{
    match line {
        Line::Bind { most, .. } => size.checked_add(1)?.checked_add(*most),
        _ => size.checked_add(1),
    }
}

/// The type of the line, and how many nodes are taken with those of it, or else why it isn't added.
pub(crate) fn admitted(draft: &Draft, line: &Line) -> Result<(Ty, u64), LineFault>
    ensures typed { IfOk result (λ r. NextHas draft.now line.now r.0) }
    ensures size { IfOk result (λ r. r.1 ≡ size_of draft.now + line_size line.now) }
    ensures unknown { IsErrOf result LineFault.Unknown ↔ ¬ Every (IsThere draft.now) (parts_of line.now) }
    ensures wrong_type { IsErrOf result LineFault.WrongType
        ↔ (Every (IsThere draft.now) (parts_of line.now) × ¬ IsTypable draft.now line.now) }
    ensures too_large { IsErrOf result LineFault.TooLarge
        ↔ (IsTypable draft.now line.now × (2 ^ 64 ≤ size_of draft.now + line_size line.now)) }
    ensures memory { ¬ IsErrOf result LineFault.Memory }
{
    if !reads_what_is_there(draft, line) {
        return Err(LineFault::Unknown);
    }
    let Some(ty) = type_of_line(draft, line) else {
        return Err(LineFault::WrongType);
    };
    let Some(size) = size_with(draft.size(), line) else {
        return Err(LineFault::TooLarge);
    };
    Ok((ty, size))
}
