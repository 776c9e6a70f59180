//! What a node gives by its own function of what its children show.
ghost use Rattle.std.specs.Prelude.{◌≡◌, ◌↔◌, ◌≤◌, ◌≤ℤ◌, ◌∷◌, [], pos, true, false, Some, List, length, IsTrue, IfOk, IfSome, IfNone, OnErr, vec_capacity};
ghost use Rattle.std.specs.List.{AllZip};
ghost use Rattle.inc_value.specs.Value.{HaveTypes, type_of};
ghost use Rattle.inc_value.specs.declared.ty.Ty.TheVariants.{Text};
ghost use Rattle.inc_value.specs.declared.outcome.Outcome.TheVariants.{Val};
ghost use Rattle.inc_terms.specs.Clock.{clock_value, reads_clock, IsTimed};
ghost use Rattle.inc_terms.specs.Code.{def_of};
ghost use Rattle.inc_terms.specs.Depend.{main};
ghost use Rattle.inc_terms.specs.Evaluate.{folded};
ghost use Rattle.expert_nodes.specs.Experts.{IsCreated, is_stale_at, kids_at};
ghost use Rattle.point_map.specs.Rows.{Holds, at};
ghost use Rattle.node_arena.specs.Arena.{IsLive};
ghost use Rattle.node_arena.specs.Graph.{AllCallFit, graph_of};
ghost use Rattle.node_arena.specs.RightSideLaws.{ids_of};
ghost use Rattle.node_arena.specs.Sound.{IsSoundArena};
ghost use Rattle.stabilize_round.specs.State.{Call};
ghost use Rattle.node_outcomes.specs.Choosing.{held_in};
ghost use Rattle.node_outcomes.specs.Computing.{AreExperts, CallComputes, Ends, ExpertsFollow, FoldFits, FreezeComputes, IsKnown, KeepsOn, KeepsTypes};
ghost use Rattle.node_outcomes.specs.Computing.{LastWas, MustCall, ShowsValue, forced_by, noted};
ghost use Rattle.node_outcomes.specs.Lacking.{CallLacks, FreezeLacks, NodeLacksRoom, UnfrozenLacks};
ghost use Rattle.node_outcomes.specs.Looking.{IsKnownOn};
ghost use Rattle.node_outcomes.specs.Meaning.{functions_of, KeepsFunctions, WantsFollow};
ghost use Rattle.node_outcomes.specs.Row.{kept_in};

use crate::call::{call_fold, call_fold_on, call_map, call_map_on};
use crate::choosing::right_side;
use crate::last_call::LastCall;
use crate::row::{Progress, kept_value};
use crate::sight::{Told, is_forced, last_call, look, show, show_values, shown};
use expert_nodes::Experts;
use inc_terms::Def;
use inc_value::{FnKind, FnRef, NodeId, Outcome, Point, Value};
use node_arena::{Arena, Functions};
use point_map::PointMap;
use slot_map::SlotMap;
use smallvec::SmallVec;
use std::alloc::{AllocError, Global};

/// What a node gives. A map's or a fold's function, a freeze's predicate and an expert's function are called unless they
/// were last called on the same values of the node's children, none of which has cutoff Never and was settled in this
/// round, and the expert wasn't made stale, which it isn't any more then. A freeze gives the value that it keeps, or what
/// its child shows. A node of two points gives what the right side shows that its change chose, and Invalid where it chose
/// none; a bind's is its root, which stands among the roots by its change. A node that reads the clock gives what it shows
/// at the arena's time.
pub fn compute<F: Functions>(
    alloc: Global,
    arena: &Arena,
    rows: &mut SlotMap<Progress>,
    roots: &PointMap<NodeId>,
    experts: &mut Experts,
    ran: &mut Vec<NodeId>,
    round: u64,
    functions: &mut F,
    node: NodeId,
) -> Result<Outcome, AllocError>
    requires types { KeepsTypes arena.now (held_in arena.now rows.old roots.now experts.old) rows.old }
    requires experts { AreExperts arena.now experts.old }
    requires live { IsLive arena.now node }
    requires sound { F.is_sound functions.old }
    requires fit { AllCallFit (F.known functions.old) (ids_of (F.right functions.old)) arena.now }
    requires arena { IsSoundArena arena.now }
    ensures computed { Ends (functions_of F.Functions functions.old) arena.now
        (held_in arena.now rows.old roots.now experts.old) (is_stale_at experts.old) round
        (noted rows.old ran.old.items (F.calls functions.old)) (noted rows.new ran.new.items (F.calls functions.new)) node result }
    ensures experts { ExpertsFollow experts.old experts.new node result }
    ensures functions { KeepsFunctions F.Functions functions.old functions.new }
    ensures wants { WantsFollow (NodeLacksRoom (graph_of arena.now (held_in arena.now rows.old roots.now experts.old))
        (is_stale_at experts.old) round rows.old (vec_capacity ran.old) (length ran.old.items) node) result
        (F.wants functions.old) (F.wants functions.new) }
    ensures room { vec_capacity ran.old ≤ vec_capacity ran.new }
{
    let row = arena.get(node).unwrap();
    match &row.def {
        Def::Const(value) | Def::Var(value) => match value.copy(alloc) {
            Ok(copy) => Ok(Outcome::Val(copy)),
            Err(AllocError) => Err(AllocError),
        },
        Def::Map(f, kids) => {
            compute_map(alloc, rows, ran, round, functions, node, f, kids.as_slice())
        }
        Def::Fold(f, initial, kids) => compute_fold(
            alloc,
            rows,
            ran,
            round,
            functions,
            node,
            f,
            initial,
            false,
            kids.as_slice(),
        ),
        Def::Freeze { kid, function } => {
            compute_freeze(alloc, rows, ran, round, functions, node, function, *kid)
        }
        Def::Expert { function, initial } => compute_expert(
            alloc, rows, experts, ran, round, functions, node, function, initial,
        ),
        Def::At(_) | Def::Steps(_, _) | Def::Now | Def::Every { .. } => {
            by_clock(alloc, &row.def, arena.time())
        }
        Def::If { .. } | Def::Join(_) | Def::Bind { .. } => {
            match right_side(rows, roots, node, &row.def) {
                Some(target) => shown(alloc, rows, target),
                None => Ok(Outcome::Invalid),
            }
        }
    }
}

/// What a node that reads the clock gives at a time.
fn by_clock(alloc: Global, def: &Def, time: i64) -> Result<Outcome, AllocError>
    requires reads { reads_clock (def_of def.now) ≡ true }
    requires timed { IsTimed time (def_of def.now) }
    requires time { pos 0 ≤ℤ time }
    ensures value { IfOk result (λ o. (v : Value) × (o ≡ Val v) × (clock_value time (def_of def.now) ≡ Some v)) }
    ensures lacks { OnErr result ((v : Value) × (clock_value time (def_of def.now) ≡ Some v) × (type_of v ≡ Text)) }
{
    match def.clock_value(alloc, time) {
        Ok(Some(value)) => Ok(Outcome::Val(value)),
        Ok(None) => Ok(Outcome::Invalid),
        Err(AllocError) => Err(AllocError),
    }
}

/// What a freeze gives: the value that it keeps, or what its child shows. Its predicate is called on a value of the child
/// unless it was last called on that.
fn compute_freeze<F: Functions>(
    alloc: Global,
    rows: &mut SlotMap<Progress>,
    ran: &mut Vec<NodeId>,
    round: u64,
    functions: &mut F,
    node: NodeId,
    f: &FnRef,
    kid: NodeId,
) -> Result<Outcome, AllocError>
    requires there { Holds rows.old (main node) }
    requires sound { F.is_sound functions.old }
    requires known { IsTrue (F.known functions.old f.now) }
    requires kind { f.now.id.kind ≡ FnKind.Map }
    requires fit { (values : List Value) → AllZip (ShowsValue rows.old) (kid ∷ []) values
        → HaveTypes values f.now.sig.takes }
    ensures kept { IfSome (kept_in (at rows.old (main node))) (λ v. KeepsOn v (noted rows.old ran.old.items (F.calls functions.old))
        (noted rows.new ran.new.items (F.calls functions.new)) result) }
    ensures computed { IfNone (kept_in (at rows.old (main node))) (FreezeComputes (F.value functions.old f.now) f.now.sig.gives round
        (noted rows.old ran.old.items (F.calls functions.old)) (noted rows.new ran.new.items (F.calls functions.new)) node kid result) }
    ensures functions { KeepsFunctions F.Functions functions.old functions.new }
    ensures wants { WantsFollow (FreezeLacks round rows.old (vec_capacity ran.old) (length ran.old.items) node f.now.sig.gives kid)
        result (F.wants functions.old) (F.wants functions.new) }
    ensures room { vec_capacity ran.old ≤ vec_capacity ran.new }
{
    if let Some(value) = kept_value(rows, node) {
        return match value.copy(alloc) {
            Ok(copy) => Ok(Outcome::Val(copy)),
            Err(AllocError) => Err(AllocError),
        };
    }
    compute_unfrozen(alloc, rows, ran, round, functions, node, f, kid)
}

/// What a freeze gives that keeps no value.
fn compute_unfrozen<F: Functions>(
    alloc: Global,
    rows: &mut SlotMap<Progress>,
    ran: &mut Vec<NodeId>,
    round: u64,
    functions: &mut F,
    node: NodeId,
    f: &FnRef,
    kid: NodeId,
) -> Result<Outcome, AllocError>
    requires there { Holds rows.old (main node) }
    requires sound { F.is_sound functions.old }
    requires known { IsTrue (F.known functions.old f.now) }
    requires kind { f.now.id.kind ≡ FnKind.Map }
    requires fit { (values : List Value) → AllZip (ShowsValue rows.old) (kid ∷ []) values
        → HaveTypes values f.now.sig.takes }
    ensures computed { FreezeComputes (F.value functions.old f.now) f.now.sig.gives round
        (noted rows.old ran.old.items (F.calls functions.old)) (noted rows.new ran.new.items (F.calls functions.new)) node kid result }
    ensures functions { KeepsFunctions F.Functions functions.old functions.new }
    ensures wants { WantsFollow (UnfrozenLacks round rows.old (vec_capacity ran.old) (length ran.old.items) node f.now.sig.gives kid)
        result (F.wants functions.old) (F.wants functions.new) }
    ensures room { vec_capacity ran.old ≤ vec_capacity ran.new }
{
    // Copied first: a call that is kept is never left without an outcome.
    let outcome = match shown(alloc, rows, kid) {
        Ok(outcome) => outcome,
        Err(AllocError) => return Err(AllocError),
    };
    match compute_map(alloc, rows, ran, round, functions, node, f, &[kid]) {
        Ok(found) => {
            drop(found);
            Ok(outcome)
        }
        Err(AllocError) => {
            drop(outcome);
            Err(AllocError)
        }
    }
}

/// What an expert gives. One that is stale is called whatever it was last called on, where all that it reads show values.
/// Then it isn't stale any more, whatever it gives.
fn compute_expert<F: Functions>(
    alloc: Global,
    rows: &mut SlotMap<Progress>,
    experts: &mut Experts,
    ran: &mut Vec<NodeId>,
    round: u64,
    functions: &mut F,
    node: NodeId,
    f: &FnRef,
    initial: &Value,
) -> Result<Outcome, AllocError>
    requires created { IsCreated experts.old node }
    requires there { Holds rows.old (main node) }
    requires sound { F.is_sound functions.old }
    requires known { IsTrue (F.known functions.old f.now) }
    requires kind { f.now.id.kind ≡ FnKind.Map }
    requires fit { (values : List Value) → AllZip (ShowsValue rows.old) (kids_at experts.old node) values
        → FoldFits f.now initial.now values }
    ensures computed { CallComputes (folded (F.value functions.old f.now) initial.now) f.now.sig.gives (is_stale_at experts.old node) round
        (noted rows.old ran.old.items (F.calls functions.old)) (noted rows.new ran.new.items (F.calls functions.new)) node
        (kids_at experts.old node) (length (kids_at experts.old node)) result }
    ensures experts { ExpertsFollow experts.old experts.new node result }
    ensures functions { KeepsFunctions F.Functions functions.old functions.new }
    ensures wants { WantsFollow (CallLacks (λ m. is_stale_at experts.old node) round rows.old (vec_capacity ran.old) (length ran.old.items) node
        f.now.sig.gives (kids_at experts.old node)) result (F.wants functions.old) (F.wants functions.new) }
    ensures room { vec_capacity ran.old ≤ vec_capacity ran.new }
{
    experts.tidy(node);
    let stale = experts.is_stale(node);
    let computed = compute_fold(
        alloc,
        rows,
        ran,
        round,
        functions,
        node,
        f,
        initial,
        stale,
        experts.kids(node),
    );
    match computed {
        Ok(outcome) => {
            experts.clear_stale(node);
            Ok(outcome)
        }
        Err(AllocError) => Err(AllocError),
    }
}

/// What a node gives whose function takes the nodes' values, as a map's does.
fn compute_map<F: Functions>(
    alloc: Global,
    rows: &mut SlotMap<Progress>,
    ran: &mut Vec<NodeId>,
    round: u64,
    functions: &mut F,
    node: NodeId,
    f: &FnRef,
    kids: &[NodeId],
) -> Result<Outcome, AllocError>
    requires there { Holds rows.old (main node) }
    requires sound { F.is_sound functions.old }
    requires known { IsTrue (F.known functions.old f.now) }
    requires kind { f.now.id.kind ≡ FnKind.Map }
    requires fit { (values : List Value) → AllZip (ShowsValue rows.old) kids.now values
        → HaveTypes values f.now.sig.takes }
    ensures computed { CallComputes (F.value functions.old f.now) f.now.sig.gives false round
        (noted rows.old ran.old.items (F.calls functions.old))
        (noted rows.new ran.new.items (F.calls functions.new)) node kids.now 1 result }
    ensures functions { KeepsFunctions F.Functions functions.old functions.new }
    ensures wants { WantsFollow (CallLacks (λ m. false) round rows.old (vec_capacity ran.old) (length ran.old.items) node f.now.sig.gives kids.now)
        result (F.wants functions.old) (F.wants functions.new) }
    ensures room { vec_capacity ran.old ≤ vec_capacity ran.new }
{
    let mut values = SmallVec::new(alloc);
    let computed = match look(rows, round, kids, &mut values) {
        Told::Invalid => Ok(Outcome::Invalid),
        Told::Values(forced) => map_few(
            alloc,
            rows,
            ran,
            round,
            functions,
            node,
            f,
            forced,
            kids,
            &mut values,
        ),
        Told::Other => map_any(alloc, rows, ran, round, functions, node, f, kids),
    };
    drop(values);
    computed
}

/// What a node gives whose children show these values, on which its function is called as a map's is unless it was last
/// called on them, and none forces the call.
#[inline]
fn map_few<F: Functions>(
    alloc: Global,
    rows: &mut SlotMap<Progress>,
    ran: &mut Vec<NodeId>,
    round: u64,
    functions: &mut F,
    node: NodeId,
    f: &FnRef,
    forced: bool,
    kids: &[NodeId],
    values: &mut SmallVec<Value, 2>,
) -> Result<Outcome, AllocError>
    requires there { Holds rows.old (main node) }
    requires sound { F.is_sound functions.old }
    requires known { IsTrue (F.known functions.old f.now) }
    requires kind { f.now.id.kind ≡ FnKind.Map }
    requires shown { AllZip (ShowsValue rows.old) kids.now values.old.items }
    requires forced { forced ≡ forced_by round rows.old kids.now }
    requires fit { (values : List Value) → AllZip (ShowsValue rows.old) kids.now values
        → HaveTypes values f.now.sig.takes }
    ensures computed { CallComputes (F.value functions.old f.now) f.now.sig.gives false round
        (noted rows.old ran.old.items (F.calls functions.old))
        (noted rows.new ran.new.items (F.calls functions.new)) node kids.now 1 result }
    ensures functions { KeepsFunctions F.Functions functions.old functions.new }
    ensures wants { WantsFollow (CallLacks (λ m. false) round rows.old (vec_capacity ran.old) (length ran.old.items) node f.now.sig.gives kids.now)
        result (F.wants functions.old) (F.wants functions.new) }
    ensures room { vec_capacity ran.old ≤ vec_capacity ran.new }
{
    let row = rows.get_mut(Point::main(node)).unwrap();
    match known_on(alloc, &row.last, forced, values.as_slice()) {
        Ok(Some(outcome)) => Ok(outcome),
        Ok(None) => call_map_on(alloc, &mut row.last, ran, functions, node, f, values),
        Err(AllocError) => Err(AllocError),
    }
}

/// What a node gives whose function takes the nodes' values, which are any.
fn map_any<F: Functions>(
    alloc: Global,
    rows: &mut SlotMap<Progress>,
    ran: &mut Vec<NodeId>,
    round: u64,
    functions: &mut F,
    node: NodeId,
    f: &FnRef,
    kids: &[NodeId],
) -> Result<Outcome, AllocError>
    requires there { Holds rows.old (main node) }
    requires sound { F.is_sound functions.old }
    requires known { IsTrue (F.known functions.old f.now) }
    requires kind { f.now.id.kind ≡ FnKind.Map }
    requires fit { (values : List Value) → AllZip (ShowsValue rows.old) kids.now values
        → HaveTypes values f.now.sig.takes }
    ensures computed { CallComputes (F.value functions.old f.now) f.now.sig.gives false round
        (noted rows.old ran.old.items (F.calls functions.old))
        (noted rows.new ran.new.items (F.calls functions.new)) node kids.now 1 result }
    ensures functions { KeepsFunctions F.Functions functions.old functions.new }
    ensures wants { WantsFollow (CallLacks (λ m. false) round rows.old (vec_capacity ran.old) (length ran.old.items) node f.now.sig.gives kids.now)
        result (F.wants functions.old) (F.wants functions.new) }
    ensures room { vec_capacity ran.old ≤ vec_capacity ran.new }
{
    match known_outcome(alloc, rows, round, node, false, kids) {
        Ok(Some(outcome)) => Ok(outcome),
        Ok(None) => call_map(alloc, rows, ran, functions, node, f, kids),
        Err(AllocError) => Err(AllocError),
    }
}

/// What a node gives whose function is folded over the nodes' values. A stale one is called whatever it was last called on.
fn compute_fold<F: Functions>(
    alloc: Global,
    rows: &mut SlotMap<Progress>,
    ran: &mut Vec<NodeId>,
    round: u64,
    functions: &mut F,
    node: NodeId,
    f: &FnRef,
    initial: &Value,
    stale: bool,
    kids: &[NodeId],
) -> Result<Outcome, AllocError>
    requires there { Holds rows.old (main node) }
    requires sound { F.is_sound functions.old }
    requires known { IsTrue (F.known functions.old f.now) }
    requires kind { f.now.id.kind ≡ FnKind.Map }
    requires fit { (values : List Value) → AllZip (ShowsValue rows.old) kids.now values
        → FoldFits f.now initial.now values }
    ensures computed { CallComputes (folded (F.value functions.old f.now) initial.now) f.now.sig.gives stale round
        (noted rows.old ran.old.items (F.calls functions.old))
        (noted rows.new ran.new.items (F.calls functions.new)) node kids.now (length kids.now) result }
    ensures functions { KeepsFunctions F.Functions functions.old functions.new }
    ensures wants { WantsFollow (CallLacks (λ m. stale) round rows.old (vec_capacity ran.old) (length ran.old.items) node f.now.sig.gives kids.now)
        result (F.wants functions.old) (F.wants functions.new) }
    ensures room { vec_capacity ran.old ≤ vec_capacity ran.new }
{
    let mut values = SmallVec::new(alloc);
    let computed = match look(rows, round, kids, &mut values) {
        Told::Invalid => Ok(Outcome::Invalid),
        Told::Values(forced) => fold_few(
            alloc,
            rows,
            ran,
            round,
            functions,
            node,
            f,
            initial,
            stale,
            forced,
            kids,
            &mut values,
        ),
        Told::Other => fold_any(
            alloc, rows, ran, round, functions, node, f, initial, stale, kids,
        ),
    };
    drop(values);
    computed
}

/// What a node gives whose children show these values, over which its function is folded unless it was last called on
/// them, the node isn't stale, and none forces the call.
#[inline]
fn fold_few<F: Functions>(
    alloc: Global,
    rows: &mut SlotMap<Progress>,
    ran: &mut Vec<NodeId>,
    round: u64,
    functions: &mut F,
    node: NodeId,
    f: &FnRef,
    initial: &Value,
    stale: bool,
    forced: bool,
    kids: &[NodeId],
    values: &mut SmallVec<Value, 2>,
) -> Result<Outcome, AllocError>
    requires there { Holds rows.old (main node) }
    requires sound { F.is_sound functions.old }
    requires known { IsTrue (F.known functions.old f.now) }
    requires kind { f.now.id.kind ≡ FnKind.Map }
    requires shown { AllZip (ShowsValue rows.old) kids.now values.old.items }
    requires forced { forced ≡ forced_by round rows.old kids.now }
    requires fit { (values : List Value) → AllZip (ShowsValue rows.old) kids.now values
        → FoldFits f.now initial.now values }
    ensures computed { CallComputes (folded (F.value functions.old f.now) initial.now) f.now.sig.gives stale round
        (noted rows.old ran.old.items (F.calls functions.old))
        (noted rows.new ran.new.items (F.calls functions.new)) node kids.now (length kids.now) result }
    ensures functions { KeepsFunctions F.Functions functions.old functions.new }
    ensures wants { WantsFollow (CallLacks (λ m. stale) round rows.old (vec_capacity ran.old) (length ran.old.items) node f.now.sig.gives kids.now)
        result (F.wants functions.old) (F.wants functions.new) }
    ensures room { vec_capacity ran.old ≤ vec_capacity ran.new }
{
    let row = rows.get_mut(Point::main(node)).unwrap();
    match known_on(alloc, &row.last, stale | forced, values.as_slice()) {
        Ok(Some(outcome)) => Ok(outcome),
        Ok(None) => call_fold_on(
            alloc,
            &mut row.last,
            ran,
            functions,
            node,
            f,
            initial,
            values,
        ),
        Err(AllocError) => Err(AllocError),
    }
}

/// What a node gives whose function is folded over the nodes' values, which are any.
fn fold_any<F: Functions>(
    alloc: Global,
    rows: &mut SlotMap<Progress>,
    ran: &mut Vec<NodeId>,
    round: u64,
    functions: &mut F,
    node: NodeId,
    f: &FnRef,
    initial: &Value,
    stale: bool,
    kids: &[NodeId],
) -> Result<Outcome, AllocError>
    requires there { Holds rows.old (main node) }
    requires sound { F.is_sound functions.old }
    requires known { IsTrue (F.known functions.old f.now) }
    requires kind { f.now.id.kind ≡ FnKind.Map }
    requires fit { (values : List Value) → AllZip (ShowsValue rows.old) kids.now values
        → FoldFits f.now initial.now values }
    ensures computed { CallComputes (folded (F.value functions.old f.now) initial.now) f.now.sig.gives stale round
        (noted rows.old ran.old.items (F.calls functions.old))
        (noted rows.new ran.new.items (F.calls functions.new)) node kids.now (length kids.now) result }
    ensures functions { KeepsFunctions F.Functions functions.old functions.new }
    ensures wants { WantsFollow (CallLacks (λ m. stale) round rows.old (vec_capacity ran.old) (length ran.old.items) node f.now.sig.gives kids.now)
        result (F.wants functions.old) (F.wants functions.new) }
    ensures room { vec_capacity ran.old ≤ vec_capacity ran.new }
{
    match known_outcome(alloc, rows, round, node, stale, kids) {
        Ok(Some(outcome)) => Ok(outcome),
        Ok(None) => call_fold(alloc, rows, ran, functions, node, f, initial, kids),
        Err(AllocError) => Err(AllocError),
    }
}

/// What a node gives whose children show these values, if its function need not be called: what it gave when it was last
/// called, if that was on these values, unless it must be called.
#[inline]
fn known_on(
    alloc: Global,
    last: &LastCall,
    must: bool,
    values: &[Value],
) -> Result<Option<Outcome>, AllocError>
    ensures known { IfOk result (λ o. IsKnownOn must last.now.call values.now o) }
    ensures lacks { OnErr result ((c : Call) × (last.now.call ≡ Some c) × (type_of c.result ≡ Text)) }
{
    if must {
        return Ok(None);
    }
    match last.given_on(values) {
        Some(given) => match given.copy(alloc) {
            Ok(copy) => Ok(Some(Outcome::Val(copy))),
            Err(AllocError) => Err(AllocError),
        },
        None => Ok(None),
    }
}

/// Whether a node's function is called whatever it was last called on.
fn must_call(rows: &SlotMap<Progress>, round: u64, stale: bool, kids: &[NodeId]) -> bool
    ensures { IsTrue result ↔ MustCall stale round rows.now kids.now }
{
    stale || is_forced(rows, round, kids)
}

/// What a node gives whose function need not be called: Invalid where a child shows no value, and
/// what was given last where it was last called on the values that its children show, unless the node is stale, or a child
/// of cutoff Never was settled in this round.
fn known_outcome(
    alloc: Global,
    rows: &SlotMap<Progress>,
    round: u64,
    node: NodeId,
    stale: bool,
    kids: &[NodeId],
) -> Result<Option<Outcome>, AllocError>
    ensures known { IfOk result (λ o. IsKnown stale round rows.now node kids.now o) }
    ensures lacks { OnErr result ((c : Call) × LastWas rows.now node c × (type_of c.result ≡ Text)) }
{
    if let Some(last) = last_call(rows, node) {
        if show(rows, kids, last.arguments) {
            if must_call(rows, round, stale, kids) {
                return Ok(None);
            }
            return match last.result.copy(alloc) {
                Ok(copy) => Ok(Some(Outcome::Val(copy))),
                Err(AllocError) => Err(AllocError),
            };
        }
    }
    if show_values(rows, kids) {
        Ok(None)
    } else {
        Ok(Some(Outcome::Invalid))
    }
}
