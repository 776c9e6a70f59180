//! What is seen of nodes by their rows.
ghost use Rattle.std.specs.Prelude.{◌≡◌, ◌++◌, ◌∷◌, ◌⊎◌, ◌↔◌, ◌≤◌, ◌<◌, [], None, Some, IsTrue, IfOk, IsOk, OnOk, OnErr, length, option_copied, option_and_then};
ghost use Rattle.std.specs.List.{AllZip, filter_map};
ghost use Rattle.inc_value.specs.Value.{type_of};
ghost use Rattle.inc_value.specs.declared.ty.Ty.TheVariants.{Text};
ghost use Rattle.inc_value.specs.declared.value.Value.{Value as AValue};
ghost use Rattle.inc_terms.specs.Depend.{main};
ghost use Rattle.point_map.specs.Rows.{at};
ghost use Rattle.node_outcomes.specs.Computing.{AllShow, HasNoText, ShowsValue, seen, value_shown as shown_in, forced_by};
ghost use Rattle.node_outcomes.specs.Looking.{IsLook, IsLookAt};
ghost use Rattle.node_outcomes.specs.Row.{value_in, passes_in};

use crate::last_call::Called;
use crate::row::Progress;
use inc_value::{NodeId, Outcome, Point, Value};
use map_nodes::Cutoff;
use slot_map::SlotMap;
use smallvec::SmallVec;
use std::alloc::{AllocError, Global};

/// The value that a node shows, if it shows one. A dead node shows none.
pub(crate) fn value_shown(rows: &SlotMap<Progress>, node: NodeId) -> Option<&Value>
    ensures { option_copied result ≡ value_in (at rows.now (main node)) }
{
    match &rows.get(Point::main(node))?.outcome {
        Some(Outcome::Val(value)) => Some(value),
        _ => None,
    }
}

/// What a node shows. A dead one shows Invalid, and so does one that was never brought up to date.
pub fn shown(alloc: Global, rows: &SlotMap<Progress>, node: NodeId) -> Result<Outcome, AllocError>
    ensures outcome { IfOk result (λ o. (seen rows.now (main node) ≡ Some o)
        ⊎ ((seen rows.now (main node) ≡ None) × (o ≡ Outcome.Invalid))) }
    ensures lacks { OnErr result ((v : AValue) × (seen rows.now (main node) ≡ Some (Outcome.Val v)) × (type_of v ≡ Text)) }
{
    match rows.get(Point::main(node)) {
        Some(row) => match &row.outcome {
            Some(outcome) => outcome.copy(alloc),
            None => Ok(Outcome::Invalid),
        },
        None => Ok(Outcome::Invalid),
    }
}

/// The last call of a node's function, if there was one.
pub(crate) fn last_call(rows: &SlotMap<Progress>, node: NodeId) -> Option<Called<'_>>
    ensures { result ≡ option_and_then (λ k. k.last) (at rows.now (main node)) }
{
    rows.get(Point::main(node))?.last.get()
}

/// What a look at nodes tells.
#[derive(Clone, Copy)]
pub(crate) enum Told {
    /// One of them shows no value.
    Invalid,
    /// All show values, which are no texts; and whether one of them has cutoff Never and was settled in the round.
    Values(bool),
    /// They are more than two, or one shows a text.
    Other,
}

/// Looks at nodes, each once, and fills an empty list with copies of the values that they show. This takes no memory.
pub(crate) fn look(
    rows: &SlotMap<Progress>,
    round: u64,
    nodes: &[NodeId],
    values: &mut SmallVec<Value, 2>,
) -> Told
    requires empty { values.old.items ≡ [] }
    requires room { 2 ≤ values.old.capacity }
    ensures { IsLook result round rows.now nodes.now values.new.items }
{
    match nodes {
        [node] => look_at(rows, round, *node, values),
        [first, second] => match look_at(rows, round, *first, values) {
            Told::Values(forced) => match look_at(rows, round, *second, values) {
                Told::Values(also) => Told::Values(forced | also),
                Told::Invalid => Told::Invalid,
                Told::Other => Told::Other,
            },
            Told::Invalid => Told::Invalid,
            Told::Other => Told::Other,
        },
        _ => Told::Other,
    }
}

/// Looks at a node, and appends a copy of the value that it shows.
#[inline]
fn look_at(
    rows: &SlotMap<Progress>,
    round: u64,
    node: NodeId,
    values: &mut SmallVec<Value, 2>,
) -> Told
    requires room { length values.old.items < values.old.capacity }
    ensures look { IsLookAt result round rows.now node values.old.items values.new.items }
    ensures capacity { values.new.capacity ≡ values.old.capacity }
{
    match rows.get(Point::main(node)) {
        Some(row) => match &row.outcome {
            Some(Outcome::Val(value)) => {
                if push_scalar(values, value) {
                    Told::Values(passes_now(row, round))
                } else {
                    Told::Other
                }
            }
            _ => Told::Invalid,
        },
        None => Told::Invalid,
    }
}

/// Appends a copy of a value that is no text. The answer is whether it is none.
#[inline]
fn push_scalar(values: &mut SmallVec<Value, 2>, value: &Value) -> bool
    requires room { length values.old.items < values.old.capacity }
    ensures pushed { IsTrue result → values.new.items ≡ values.old.items ++ value.now ∷ [] }
    ensures capacity { values.new.capacity ≡ values.old.capacity }
{
    match value {
        Value::Int(number) => values.push_reserved(Value::Int(*number)),
        Value::Bool(truth) => values.push_reserved(Value::Bool(*truth)),
        Value::Node(node, base) => values.push_reserved(Value::Node(*node, *base)),
        Value::Text(_) => return false,
    }
    true
}

/// Whether a row's cutoff is Never, and it was settled in the round.
#[inline]
fn passes_now(row: &Progress, round: u64) -> bool
    ensures { result ≡ passes_in round (Some row.now) }
{
    match row.cutoff {
        Cutoff::Equal => false,
        Cutoff::Never => row.settled == round,
    }
}

/// Whether a node of cutoff Never was settled in the round.
fn passes(rows: &SlotMap<Progress>, round: u64, node: NodeId) -> bool
    ensures { result ≡ passes_in round (at rows.now (main node)) }
{
    match rows.get(Point::main(node)) {
        Some(row) => passes_now(row, round),
        None => false,
    }
}

/// Whether one of the nodes has cutoff Never and was settled in the round.
pub(crate) fn is_forced(rows: &SlotMap<Progress>, round: u64, nodes: &[NodeId]) -> bool
    ensures { result ≡ forced_by round rows.now nodes.now }
{
    for node in nodes {
        if passes(rows, round, *node) {
            return true;
        }
    }
    false
}

/// Whether each of the nodes shows a value.
pub(crate) fn show_values(rows: &SlotMap<Progress>, nodes: &[NodeId]) -> bool
    ensures { IsTrue result ↔ AllShow rows.now nodes.now }
{
    for node in nodes {
        if value_shown(rows, *node).is_none() {
            return false;
        }
    }
    true
}

/// Whether the node shows this value.
fn shows_value(rows: &SlotMap<Progress>, node: NodeId, value: &Value) -> bool
    ensures { IsTrue result ↔ ShowsValue rows.now node value.now }
{
    match value_shown(rows, node) {
        Some(shown) => shown.same(value),
        None => false,
    }
}

/// Whether the nodes show these values, one for one.
pub(crate) fn show(rows: &SlotMap<Progress>, nodes: &[NodeId], values: &[Value]) -> bool
    ensures { IsTrue result ↔ AllZip (ShowsValue rows.now) nodes.now values.now }
{
    if nodes.len() != values.len() {
        return false;
    }
    for (node, value) in nodes.iter().zip(values) {
        if !shows_value(rows, *node, value) {
            return false;
        }
    }
    true
}

/// Makes room for so many values in an empty list. This takes memory only where the list lacks the room.
pub(crate) fn make_room(values: &mut SmallVec<Value, 2>, n: usize) -> Result<(), AllocError>
    requires empty { values.old.items ≡ [] }
    ensures items { values.new.items ≡ [] }
    ensures room { OnOk result (n ≤ values.new.capacity) }
    ensures more { values.old.capacity ≤ values.new.capacity }
    ensures had_room { n ≤ values.old.capacity → IsOk result }
    ensures two { n ≤ 2 → IsOk result }
{
    if n <= values.capacity() {
        return Ok(());
    }
    values.reserve_exact(n)
}

/// Fills an empty list with copies of the values that the nodes show. Where it has room for them, or these are two at most,
/// copies of values that are no texts take no memory.
pub(crate) fn fill_shown(
    alloc: Global,
    rows: &SlotMap<Progress>,
    nodes: &[NodeId],
    values: &mut SmallVec<Value, 2>,
) -> Result<(), AllocError>
    requires empty { values.old.items ≡ [] }
    ensures values { OnOk result (values.new.items ≡ filter_map (shown_in rows.now) nodes.now) }
    ensures more { values.old.capacity ≤ values.new.capacity }
    ensures scalar { length nodes.now ≤ values.old.capacity → HasNoText (filter_map (shown_in rows.now) nodes.now)
        → IsOk result }
    ensures two { length nodes.now ≤ 2 → HasNoText (filter_map (shown_in rows.now) nodes.now) → IsOk result }
{
    make_room(values, nodes.len())?;
    for node in nodes {
        if let Some(value) = value_shown(rows, *node) {
            values.push_reserved(value.copy(alloc)?);
        }
    }
    Ok(())
}
