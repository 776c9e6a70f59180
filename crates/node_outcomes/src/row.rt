//! How far a point has come.
ghost use Rattle.std.specs.Prelude.{◌≡◌, ◌↔◌, false, true, None, Some, IfOk, IsTrue, is_some, option_copied};
ghost use Rattle.inc_terms.specs.Code.{def_of};
ghost use Rattle.inc_terms.specs.Depend.{main};
ghost use Rattle.point_map.specs.Rows.{at, Holds};
ghost use Rattle.node_outcomes.specs.Progress.{Progress as Row, new_row};
ghost use Rattle.node_outcomes.specs.Row.{with_stage, with_outcome, without_outcome, with_none, with_lent, with_cutoff, with_frozen, fires_in, kept_in, stage_in, settled_in, IsRewritten};
ghost use Rattle.map_nodes.specs.Cutoff.{IsStopped};
ghost use Rattle.stabilize_round.specs.Freezing.{found};

use crate::last_call::LastCall;
use inc_terms::Def;
use inc_value::{NodeId, Outcome, Point, Value};
use map_nodes::{Cutoff, stops};
use slot_map::SlotMap;
use std::alloc::{AllocError, Global};
use std::marker::Model;
use std::mem;

/// Which links a needed point has.
#[derive(Clone, Copy, PartialEq, Eq)]
pub enum Stage {
    /// None yet.
    Bare,
    /// That to its gate alone: a point in the scope of a bind, until the bind's change ran.
    Gated,
    /// All but that to its right side: a main of a node of two points, until the node's change ran.
    Static,
    /// All.
    Full,
}

/// What is kept of a point of a live node: its links' stage, the round in which it was settled last, its outcome,
/// the last call of its node's function, and, of a main, its node's cutoff, and whether the node is a freeze that keeps
/// the value on which its predicate was called last. The outcome of a change is that of its subject with which it ran
/// last. No round has the number 0.
pub struct Progress {
    pub stage: Stage,
    pub settled: u64,
    pub outcome: Option<Outcome>,
    pub last: LastCall,
    pub cutoff: Cutoff,
    pub frozen: bool,
}

// (written out: whoever drops one proves one call, and no drop of its parts)
impl Drop for Progress {
    fn drop(self) {
        let Progress {
            stage: _,
            settled: _,
            outcome,
            last,
            cutoff: _,
            frozen: _,
        } = self;
        drop(outcome);
        drop(last);
    }
}

impl Model for Progress {
    ghost use Rattle.node_outcomes.specs.Progress.{Progress as Row};

    ghost Value = { Row };

    ghost view = { λ k. record {
      stage = k.stage;
      settled = k.settled;
      outcome = k.outcome;
      last = k.last.call;
      cutoff = k.cutoff;
      frozen = k.frozen;
      room = k.last.room;
    } };
}

/// A point of a node that is so defined, never settled. Its function can be called on as many values as it takes.
pub fn unsettled(alloc: Global, def: &Def) -> Result<Progress, AllocError>
    ensures { IfOk result (λ k. k ≡ new_row (def_of def.now)) }
{
    let last = match LastCall::with_room(alloc, folds(def), def.kids().len()) {
        Ok(last) => last,
        Err(AllocError) => return Err(AllocError),
    };
    Ok(Progress {
        stage: Stage::Bare,
        settled: 0,
        outcome: None,
        last,
        cutoff: Cutoff::Equal,
        frozen: false,
    })
}

/// Whether a node's function is folded over values.
fn folds(def: &Def) -> bool {
    match def {
        Def::Fold(_, _, _) | Def::Expert { .. } => true,
        _ => false,
    }
}

/// Whether a point was settled in this round.
pub fn was_settled(rows: &SlotMap<Progress>, p: Point, round: u64) -> bool
    ensures { result ≡ settled_in round (at rows.now p) }
{
    match rows.get(p) {
        Some(row) => row.settled == round,
        None => false,
    }
}

/// Whether a point of a live node has no links yet.
pub fn is_bare(rows: &SlotMap<Progress>, p: Point) -> bool
    ensures { IsTrue result ↔ stage_in (at rows.now p) ≡ Some Stage.Bare }
{
    match rows.get(p) {
        Some(row) => match row.stage {
            Stage::Bare => true,
            Stage::Gated | Stage::Static | Stage::Full => false,
        },
        None => false,
    }
}

/// Whether a point of a live node has its gate's link alone.
pub fn is_gated(rows: &SlotMap<Progress>, p: Point) -> bool
    ensures { IsTrue result ↔ stage_in (at rows.now p) ≡ Some Stage.Gated }
{
    match rows.get(p) {
        Some(row) => match row.stage {
            Stage::Gated => true,
            Stage::Bare | Stage::Static | Stage::Full => false,
        },
        None => false,
    }
}

/// Whether a main of a live node waits for its node's change, with all links but that to its right side.
pub fn is_static(rows: &SlotMap<Progress>, p: Point) -> bool
    ensures { IsTrue result ↔ stage_in (at rows.now p) ≡ Some Stage.Static }
{
    match rows.get(p) {
        Some(row) => match row.stage {
            Stage::Static => true,
            Stage::Bare | Stage::Gated | Stage::Full => false,
        },
        None => false,
    }
}

/// Whether a point of a live node has all its links.
pub fn is_full(rows: &SlotMap<Progress>, p: Point) -> bool
    ensures { IsTrue result ↔ stage_in (at rows.now p) ≡ Some Stage.Full }
{
    match rows.get(p) {
        Some(row) => match row.stage {
            Stage::Full => true,
            Stage::Bare | Stage::Gated | Stage::Static => false,
        },
        None => false,
    }
}

/// The stage of a point of a live node.
pub fn stage_of(rows: &SlotMap<Progress>, p: Point) -> Option<Stage>
    ensures { result ≡ stage_in (at rows.now p) }
{
    Some(rows.get(p)?.stage)
}

/// Gives a point another stage.
pub fn set_stage(rows: &mut SlotMap<Progress>, p: Point, stage: Stage)
    requires there { Holds rows.old p }
    ensures { IsRewritten rows.old rows.new p (with_stage stage) }
{
    let row = rows.get_mut(p).unwrap();
    row.stage = stage;
}

/// Whether a point's readers needn't be told of an outcome, by its cutoff and what it shows.
fn is_stopped(row: &Progress, outcome: &Outcome) -> bool
    ensures { IsTrue result ↔ IsStopped row.now.cutoff row.now.outcome outcome.now }
{
    match &row.outcome {
        Some(before) => stops(row.cutoff, before, outcome),
        None => false,
    }
}

/// Gives a point another outcome, settled in this round. The answer is whether its readers needn't be told, by its
/// cutoff and what it showed before.
pub fn set_outcome(rows: &mut SlotMap<Progress>, p: Point, outcome: Outcome, round: u64) -> bool
    requires there { Holds rows.old p }
    ensures rewritten { IsRewritten rows.old rows.new p (with_outcome outcome round) }
    ensures stopped { IsTrue result ↔ ((k : Row) × (at rows.old p ≡ Some k) × IsStopped k.cutoff k.outcome outcome) }
{
    let row = rows.get_mut(p).unwrap();
    let stopped = is_stopped(row, &outcome);
    row.outcome = Some(outcome);
    row.settled = round;
    stopped
}

/// A change has no outcome any more: its node is built for nothing.
pub fn forget_outcome(rows: &mut SlotMap<Progress>, p: Point)
    requires there { Holds rows.old p }
    ensures { IsRewritten rows.old rows.new p without_outcome }
{
    let row = rows.get_mut(p).unwrap();
    row.outcome = None;
}

/// Lends the last call of a point's node, with the lists for the next. The row has none meanwhile. This takes no memory.
pub(crate) fn lend_call(alloc: Global, rows: &mut SlotMap<Progress>, p: Point) -> LastCall
    requires there { Holds rows.old p }
    ensures lent { (k : Row) × (at rows.old p ≡ Some k) × (result ≡ record { call = k.last; room = k.room }) }
    ensures row { IsRewritten rows.old rows.new p with_none }
{
    let row = rows.get_mut(p).unwrap();
    mem::replace(&mut row.last, LastCall::none(alloc))
}

/// Gives a call that was lent, or one since, back to its row.
pub(crate) fn give_back(rows: &mut SlotMap<Progress>, p: Point, last: LastCall)
    requires there { Holds rows.old p }
    ensures { IsRewritten rows.old rows.new p (with_lent last) }
{
    let row = rows.get_mut(p).unwrap();
    drop(mem::replace(&mut row.last, last));
}

/// A freeze keeps the value on which its predicate was called last.
pub fn freeze(rows: &mut SlotMap<Progress>, p: Point)
    requires there { Holds rows.old p }
    ensures { IsRewritten rows.old rows.new p with_frozen }
{
    let row = rows.get_mut(p).unwrap();
    row.frozen = true;
}

/// The value on which a predicate was called last, if it was found true of it.
fn found(row: &Progress) -> Option<&Value>
    ensures { option_copied result ≡ found row.now.last }
{
    let last = row.last.get()?;
    match (last.arguments, last.result) {
        ([value], Value::Bool(true)) => Some(value),
        _ => None,
    }
}

/// The value that a freeze keeps, if it keeps one.
pub(crate) fn kept_value(rows: &SlotMap<Progress>, node: NodeId) -> Option<&Value>
    ensures { option_copied result ≡ kept_in (at rows.now (main node)) }
{
    let row = rows.get(Point::main(node))?;
    if row.frozen { found(row) } else { None }
}

/// Whether a freeze keeps a value.
pub fn is_frozen(rows: &SlotMap<Progress>, node: NodeId) -> bool
    ensures { result ≡ is_some (kept_in (at rows.now (main node))) }
{
    kept_value(rows, node).is_some()
}

/// Whether a freeze that keeps no value is to keep one: its predicate was last found true.
pub fn fires(rows: &SlotMap<Progress>, node: NodeId) -> bool
    ensures { result ≡ is_some (fires_in (at rows.now (main node))) }
{
    match rows.get(Point::main(node)) {
        Some(row) => !row.frozen && found(row).is_some(),
        None => false,
    }
}

/// Sets a node's cutoff.
pub fn set_cutoff(rows: &mut SlotMap<Progress>, p: Point, cutoff: Cutoff)
    requires there { Holds rows.old p }
    ensures { IsRewritten rows.old rows.new p (with_cutoff cutoff) }
{
    let row = rows.get_mut(p).unwrap();
    row.cutoff = cutoff;
}
