//! Calls of a node's function on the values that its children show.
ghost use Rattle.std.specs.Prelude.{◌≡◌, ◌<◌, ◌≤◌, [], ◌∷◌, min, length, IsTrue, IfOk, OnOk, OnErr, vec_capacity, vec_len};
ghost use Rattle.std.specs.List.{filter_map};
ghost use Rattle.inc_value.specs.Value.{type_of, HaveTypes};
ghost use Rattle.inc_terms.specs.Depend.{main};
ghost use Rattle.inc_terms.specs.Evaluate.{folded};
ghost use Rattle.point_map.specs.Rows.{Holds};
ghost use Rattle.stabilize_round.specs.Counts.{RoseBy, RoseAtMost};
ghost use Rattle.node_outcomes.specs.Computing.{Calls, FoldFits, IsMade, noted, value_shown};
ghost use Rattle.node_outcomes.specs.Lacking.{HasText, LacksList, LacksRoom};
ghost use Rattle.node_outcomes.specs.LastCall.{bare, call_of, room_in, values_in};
ghost use Rattle.node_outcomes.specs.Looking.{LacksCall};
ghost use Rattle.node_outcomes.specs.Meaning.{KeepsFunctions, WantsFollow};

use crate::last_call::{Kept, LastCall, Spare, keep_call};
use crate::row::{Progress, give_back, lend_call};
use crate::sight::fill_shown;
use inc_value::{FnKind, FnRef, NodeId, Outcome, Point, Value};
use node_arena::Functions;
use slot_map::SlotMap;
use smallvec::SmallVec;
use std::alloc::{AllocError, Global};

/// Calls a map's function on the values that its children show, and keeps the call.
pub(crate) fn call_map<F: Functions>(
    alloc: Global,
    rows: &mut SlotMap<Progress>,
    ran: &mut Vec<NodeId>,
    functions: &mut F,
    node: NodeId,
    f: &FnRef,
    kids: &[NodeId],
) -> Result<Outcome, AllocError>
    requires there { Holds rows.old (main node) }
    requires sound { F.is_sound functions.old }
    requires known { IsTrue (F.known functions.old f.now) }
    requires kind { f.now.id.kind ≡ FnKind.Map }
    requires fit { HaveTypes (filter_map (value_shown rows.old) kids.now) f.now.sig.takes }
    ensures called { Calls (F.value functions.old f.now) f.now.sig.gives
        (noted rows.old ran.old.items (F.calls functions.old)) (noted rows.new ran.new.items (F.calls functions.new))
        node (filter_map (value_shown rows.old) kids.now) 1 result }
    ensures functions { KeepsFunctions F.Functions functions.old functions.new }
    ensures wants { WantsFollow (LacksRoom rows.old (vec_capacity ran.old) (length ran.old.items) node f.now.sig.gives
        kids.now) result (F.wants functions.old) (F.wants functions.new) }
    ensures room { vec_capacity ran.old ≤ vec_capacity ran.new }
{
    if ran.reserve(1).is_err() {
        return Err(AllocError);
    }
    let p = Point::main(node);
    let mut last = lend_call(alloc, rows, p);
    let called = map_shown(alloc, rows, &mut last, ran, functions, node, f, kids);
    give_back(rows, p, last);
    called
}

/// Calls a map's function on the values that its children show, keeps the call and lists the node.
fn map_shown<F: Functions>(
    alloc: Global,
    rows: &SlotMap<Progress>,
    last: &mut LastCall,
    ran: &mut Vec<NodeId>,
    functions: &mut F,
    node: NodeId,
    f: &FnRef,
    kids: &[NodeId],
) -> Result<Outcome, AllocError>
    requires room { vec_len ran.old < vec_capacity ran.old }
    requires sound { F.is_sound functions.old }
    requires known { IsTrue (F.known functions.old f.now) }
    requires kind { f.now.id.kind ≡ FnKind.Map }
    requires fit { HaveTypes (filter_map (value_shown rows.now) kids.now) f.now.sig.takes }
    ensures made { IsMade (F.value functions.old f.now) f.now.sig.gives last.old last.new ran.old.items ran.new.items
        (F.calls functions.old) (F.calls functions.new) node (filter_map (value_shown rows.now) kids.now) 1 result }
    ensures functions { KeepsFunctions F.Functions functions.old functions.new }
    ensures wants { WantsFollow (LacksList rows.now last.old.room f.now.sig.gives kids.now) result
        (F.wants functions.old) (F.wants functions.new) }
    ensures capacity { vec_capacity ran.new ≡ vec_capacity ran.old }
{
    match &mut last.spare {
        Spare::Many(many) => map_in(
            alloc,
            rows,
            &mut many.list,
            &mut last.kept,
            &mut last.given,
            ran,
            functions,
            node,
            f,
            kids,
        ),
        Spare::Few(_) => {
            let mut list = SmallVec::new(alloc);
            let called = map_in(
                alloc,
                rows,
                &mut list,
                &mut last.kept,
                &mut last.given,
                ran,
                functions,
                node,
                f,
                kids,
            );
            drop(list);
            called
        }
    }
}

/// Calls a map's function on the values that its children show, which are gathered in a list, keeps the call and lists the
/// node. The list may be another then.
fn map_in<F: Functions>(
    alloc: Global,
    rows: &SlotMap<Progress>,
    list: &mut SmallVec<Value, 2>,
    kept: &mut Kept,
    given: &mut Option<Value>,
    ran: &mut Vec<NodeId>,
    functions: &mut F,
    node: NodeId,
    f: &FnRef,
    kids: &[NodeId],
) -> Result<Outcome, AllocError>
    requires room { vec_len ran.old < vec_capacity ran.old }
    requires sound { F.is_sound functions.old }
    requires known { IsTrue (F.known functions.old f.now) }
    requires kind { f.now.id.kind ≡ FnKind.Map }
    requires fit { HaveTypes (filter_map (value_shown rows.now) kids.now) f.now.sig.takes }
    ensures made { IsMade (F.value functions.old f.now) f.now.sig.gives (bare (call_of (values_in kept.old) given.old))
        (bare (call_of (values_in kept.new) given.new)) ran.old.items ran.new.items (F.calls functions.old)
        (F.calls functions.new) node (filter_map (value_shown rows.now) kids.now) 1 result }
    ensures functions { KeepsFunctions F.Functions functions.old functions.new }
    ensures wants { WantsFollow (LacksList rows.now list.old.capacity f.now.sig.gives kids.now) result
        (F.wants functions.old) (F.wants functions.new) }
    ensures capacity { vec_capacity ran.new ≡ vec_capacity ran.old }
    ensures kept { min (room_in kept.old) list.old.capacity ≤ room_in kept.new }
    ensures list { min (room_in kept.old) list.old.capacity ≤ list.new.capacity }
{
    list.clear();
    if fill_shown(alloc, rows, kids, list).is_err() {
        return Err(AllocError);
    }
    let value = match functions.apply(alloc, f, list.as_slice()) {
        Ok(value) => value,
        Err(AllocError) => return Err(AllocError),
    };
    let copy = match value.copy(alloc) {
        Ok(copy) => copy,
        Err(AllocError) => {
            drop(value);
            return Err(AllocError);
        }
    };
    keep_call(kept, given, list, value);
    ran.push_reserved(node);
    Ok(Outcome::Val(copy))
}

/// Folds the values that a fold's children show, and keeps these and the result. A fold of no values takes no call, and
/// isn't listed.
pub(crate) fn call_fold<F: Functions>(
    alloc: Global,
    rows: &mut SlotMap<Progress>,
    ran: &mut Vec<NodeId>,
    functions: &mut F,
    node: NodeId,
    f: &FnRef,
    initial: &Value,
    kids: &[NodeId],
) -> Result<Outcome, AllocError>
    requires there { Holds rows.old (main node) }
    requires sound { F.is_sound functions.old }
    requires known { IsTrue (F.known functions.old f.now) }
    requires kind { f.now.id.kind ≡ FnKind.Map }
    requires fit { FoldFits f.now initial.now (filter_map (value_shown rows.old) kids.now) }
    ensures called { Calls (folded (F.value functions.old f.now) initial.now) f.now.sig.gives
        (noted rows.old ran.old.items (F.calls functions.old)) (noted rows.new ran.new.items (F.calls functions.new))
        node (filter_map (value_shown rows.old) kids.now)
        (length (filter_map (value_shown rows.old) kids.now)) result }
    ensures functions { KeepsFunctions F.Functions functions.old functions.new }
    ensures wants { WantsFollow (LacksRoom rows.old (vec_capacity ran.old) (length ran.old.items) node f.now.sig.gives
        kids.now) result (F.wants functions.old) (F.wants functions.new) }
    ensures room { vec_capacity ran.old ≤ vec_capacity ran.new }
{
    if ran.reserve(1).is_err() {
        return Err(AllocError);
    }
    let p = Point::main(node);
    let mut last = lend_call(alloc, rows, p);
    let called = fold_shown(
        alloc, rows, &mut last, ran, functions, node, f, initial, kids,
    );
    give_back(rows, p, last);
    called
}

/// Folds the values that a fold's children show, keeps these and the result, and lists the node where there are any.
fn fold_shown<F: Functions>(
    alloc: Global,
    rows: &SlotMap<Progress>,
    last: &mut LastCall,
    ran: &mut Vec<NodeId>,
    functions: &mut F,
    node: NodeId,
    f: &FnRef,
    initial: &Value,
    kids: &[NodeId],
) -> Result<Outcome, AllocError>
    requires room { vec_len ran.old < vec_capacity ran.old }
    requires sound { F.is_sound functions.old }
    requires known { IsTrue (F.known functions.old f.now) }
    requires kind { f.now.id.kind ≡ FnKind.Map }
    requires fit { FoldFits f.now initial.now (filter_map (value_shown rows.now) kids.now) }
    ensures made { IsMade (folded (F.value functions.old f.now) initial.now) f.now.sig.gives last.old last.new ran.old.items
        ran.new.items (F.calls functions.old) (F.calls functions.new) node (filter_map (value_shown rows.now) kids.now)
        (length (filter_map (value_shown rows.now) kids.now)) result }
    ensures functions { KeepsFunctions F.Functions functions.old functions.new }
    ensures wants { WantsFollow (LacksList rows.now last.old.room f.now.sig.gives kids.now) result
        (F.wants functions.old) (F.wants functions.new) }
    ensures capacity { vec_capacity ran.new ≡ vec_capacity ran.old }
{
    match &mut last.spare {
        Spare::Many(many) => fold_in(
            alloc,
            rows,
            &mut many.list,
            &mut last.kept,
            &mut last.given,
            ran,
            functions,
            node,
            f,
            initial,
            kids,
        ),
        Spare::Few(_) => {
            let mut list = SmallVec::new(alloc);
            let called = fold_in(
                alloc,
                rows,
                &mut list,
                &mut last.kept,
                &mut last.given,
                ran,
                functions,
                node,
                f,
                initial,
                kids,
            );
            drop(list);
            called
        }
    }
}

/// Folds the values that a fold's children show, which are gathered in a list, keeps these and the result, and lists the
/// node where there are any. The list may be another then.
fn fold_in<F: Functions>(
    alloc: Global,
    rows: &SlotMap<Progress>,
    list: &mut SmallVec<Value, 2>,
    kept: &mut Kept,
    given: &mut Option<Value>,
    ran: &mut Vec<NodeId>,
    functions: &mut F,
    node: NodeId,
    f: &FnRef,
    initial: &Value,
    kids: &[NodeId],
) -> Result<Outcome, AllocError>
    requires room { vec_len ran.old < vec_capacity ran.old }
    requires sound { F.is_sound functions.old }
    requires known { IsTrue (F.known functions.old f.now) }
    requires kind { f.now.id.kind ≡ FnKind.Map }
    requires fit { FoldFits f.now initial.now (filter_map (value_shown rows.now) kids.now) }
    ensures made { IsMade (folded (F.value functions.old f.now) initial.now) f.now.sig.gives
        (bare (call_of (values_in kept.old) given.old)) (bare (call_of (values_in kept.new) given.new)) ran.old.items
        ran.new.items (F.calls functions.old) (F.calls functions.new) node (filter_map (value_shown rows.now) kids.now)
        (length (filter_map (value_shown rows.now) kids.now)) result }
    ensures functions { KeepsFunctions F.Functions functions.old functions.new }
    ensures wants { WantsFollow (LacksList rows.now list.old.capacity f.now.sig.gives kids.now) result
        (F.wants functions.old) (F.wants functions.new) }
    ensures capacity { vec_capacity ran.new ≡ vec_capacity ran.old }
    ensures kept { min (room_in kept.old) list.old.capacity ≤ room_in kept.new }
    ensures list { min (room_in kept.old) list.old.capacity ≤ list.new.capacity }
{
    list.clear();
    if fill_shown(alloc, rows, kids, list).is_err() {
        return Err(AllocError);
    }
    let value = match fold(alloc, functions, f, initial, list.as_slice()) {
        Ok(value) => value,
        Err(AllocError) => return Err(AllocError),
    };
    let copy = match value.copy(alloc) {
        Ok(copy) => copy,
        Err(AllocError) => {
            drop(value);
            return Err(AllocError);
        }
    };
    if !list.is_empty() {
        ran.push_reserved(node);
    }
    keep_call(kept, given, list, value);
    Ok(Outcome::Val(copy))
}

/// Calls a map's function on these values, keeps the call and lists the node.
pub(crate) fn call_map_on<F: Functions>(
    alloc: Global,
    last: &mut LastCall,
    ran: &mut Vec<NodeId>,
    functions: &mut F,
    node: NodeId,
    f: &FnRef,
    values: &mut SmallVec<Value, 2>,
) -> Result<Outcome, AllocError>
    requires sound { F.is_sound functions.old }
    requires known { IsTrue (F.known functions.old f.now) }
    requires kind { f.now.id.kind ≡ FnKind.Map }
    requires fit { HaveTypes values.old.items f.now.sig.takes }
    ensures made { IsMade (F.value functions.old f.now) f.now.sig.gives last.old last.new ran.old.items ran.new.items
        (F.calls functions.old) (F.calls functions.new) node values.old.items 1 result }
    ensures functions { KeepsFunctions F.Functions functions.old functions.new }
    ensures wants { WantsFollow (LacksCall (vec_capacity ran.old) (length ran.old.items) f.now.sig.gives values.old.items)
        result (F.wants functions.old) (F.wants functions.new) }
    ensures room { vec_capacity ran.old ≤ vec_capacity ran.new }
{
    if ran.reserve(1).is_err() {
        return Err(AllocError);
    }
    let value = match functions.apply(alloc, f, values.as_slice()) {
        Ok(value) => value,
        Err(AllocError) => return Err(AllocError),
    };
    let copy = match value.copy(alloc) {
        Ok(copy) => copy,
        Err(AllocError) => {
            drop(value);
            return Err(AllocError);
        }
    };
    last.keep(values, value);
    ran.push_reserved(node);
    Ok(Outcome::Val(copy))
}

/// Folds these values, keeps them and the result, and lists the node where there are any.
pub(crate) fn call_fold_on<F: Functions>(
    alloc: Global,
    last: &mut LastCall,
    ran: &mut Vec<NodeId>,
    functions: &mut F,
    node: NodeId,
    f: &FnRef,
    initial: &Value,
    values: &mut SmallVec<Value, 2>,
) -> Result<Outcome, AllocError>
    requires sound { F.is_sound functions.old }
    requires known { IsTrue (F.known functions.old f.now) }
    requires kind { f.now.id.kind ≡ FnKind.Map }
    requires fit { FoldFits f.now initial.now values.old.items }
    ensures made { IsMade (folded (F.value functions.old f.now) initial.now) f.now.sig.gives last.old last.new ran.old.items
        ran.new.items (F.calls functions.old) (F.calls functions.new) node values.old.items (length values.old.items) result }
    ensures functions { KeepsFunctions F.Functions functions.old functions.new }
    ensures wants { WantsFollow (LacksCall (vec_capacity ran.old) (length ran.old.items) f.now.sig.gives values.old.items)
        result (F.wants functions.old) (F.wants functions.new) }
    ensures room { vec_capacity ran.old ≤ vec_capacity ran.new }
{
    if ran.reserve(1).is_err() {
        return Err(AllocError);
    }
    let value = match fold(alloc, functions, f, initial, values.as_slice()) {
        Ok(value) => value,
        Err(AllocError) => return Err(AllocError),
    };
    let copy = match value.copy(alloc) {
        Ok(copy) => copy,
        Err(AllocError) => {
            drop(value);
            return Err(AllocError);
        }
    };
    if !values.is_empty() {
        ran.push_reserved(node);
    }
    last.keep(values, value);
    Ok(Outcome::Val(copy))
}

/// The function of two values, from the value on over the others in order: called once for each.
fn fold<F: Functions>(
    alloc: Global,
    functions: &mut F,
    f: &FnRef,
    initial: &Value,
    values: &[Value],
) -> Result<Value, AllocError>
    requires sound { F.is_sound functions.old }
    requires known { IsTrue (F.known functions.old f.now) }
    requires kind { f.now.id.kind ≡ FnKind.Map }
    requires fit { FoldFits f.now initial.now values.now }
    ensures value { IfOk result (λ v. v ≡ folded (F.value functions.old f.now) initial.now values.now) }
    ensures typed { IfOk result (λ v. type_of v ≡ f.now.sig.gives) }
    ensures calls { OnOk result (RoseBy (F.calls functions.old) (length values.now) (F.calls functions.new)) }
    ensures few { OnErr result (RoseAtMost (F.calls functions.old) (length values.now) (F.calls functions.new)) }
    ensures functions { KeepsFunctions F.Functions functions.old functions.new }
    ensures wants { WantsFollow (HasText (initial.now ∷ values.now)) result (F.wants functions.old) (F.wants functions.new) }
{
    let mut result = match initial.copy(alloc) {
        Ok(copy) => copy,
        Err(AllocError) => return Err(AllocError),
    };
    for value in values {
        result = match call_with(alloc, functions, f, result, value) {
            Ok(given) => given,
            Err(AllocError) => return Err(AllocError),
        };
    }
    Ok(result)
}

/// Calls a function of two values.
fn call_with<F: Functions>(
    alloc: Global,
    functions: &mut F,
    f: &FnRef,
    first: Value,
    second: &Value,
) -> Result<Value, AllocError>
    requires sound { F.is_sound functions.old }
    requires known { IsTrue (F.known functions.old f.now) }
    requires kind { f.now.id.kind ≡ FnKind.Map }
    requires fit { HaveTypes (first ∷ second.now ∷ []) f.now.sig.takes }
    ensures value { IfOk result (λ v. v ≡ F.value functions.old f.now (first ∷ second.now ∷ [])) }
    ensures typed { IfOk result (λ v. type_of v ≡ f.now.sig.gives) }
    ensures calls { OnOk result (RoseBy (F.calls functions.old) 1 (F.calls functions.new)) }
    ensures few { OnErr result (RoseAtMost (F.calls functions.old) 1 (F.calls functions.new)) }
    ensures functions { KeepsFunctions F.Functions functions.old functions.new }
    ensures wants { WantsFollow (HasText (second.now ∷ [])) result (F.wants functions.old) (F.wants functions.new) }
{
    let arguments = match second.copy(alloc) {
        Ok(copy) => [first, copy],
        Err(AllocError) => {
            drop(first);
            return Err(AllocError);
        }
    };
    let given = functions.apply(alloc, f, &arguments);
    drop(arguments);
    given
}
