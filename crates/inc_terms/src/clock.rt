//! What nodes show by the clock, and until when they do.
ghost use Rattle.std.specs.Prelude.{◌≡◌, ◌≢◌, ◌≤ℤ◌, ◌-ℤ◌, ◌↔◌, pos, Some, IsTrue, IsOk, IfOk, map};
ghost use Rattle.std.specs.Int.Signed.{quot_z};
ghost use Rattle.inc_terms.specs.Clock.{clock_value, reads_clock, IsNextChange, IsTimed};
ghost use Rattle.inc_terms.specs.Code.{def_of};
ghost use Rattle.inc_terms.specs.Steps.{step_of};
ghost use Rattle.inc_terms.specs.Evaluate.{latest};
ghost use Rattle.inc_terms.specs.Graph.{Steps, Every};
ghost use Rattle.inc_value.specs.Value.{type_of};
ghost use Rattle.inc_value.specs.declared.ty.Ty.TheVariants as ty;
ghost use Rattle.inc_value.specs.declared.value.Value.{Value as AValue};

use crate::{Def, Step};
use inc_value::Value;
use std::alloc::{AllocError, Global};

impl Def {
    /// Whether the node reads the clock.
    pub fn reads_clock(&self) -> bool
        ensures { result ≡ reads_clock (def_of self.now) }
    {
        match self {
            Def::At(_) | Def::Steps(_, _) | Def::Now | Def::Every { .. } => true,
            Def::Const(_)
            | Def::Var(_)
            | Def::Map(_, _)
            | Def::Fold(_, _, _)
            | Def::If { .. }
            | Def::Join(_)
            | Def::Bind { .. }
            | Def::Freeze { .. }
            | Def::Expert { .. } => false,
        }
    }

    /// Whether the node shows another value at a time than at one before, by the clock alone.
    pub fn is_changed(&self, before: i64, time: i64) -> bool
        requires timed { IsTimed before (def_of self.now) }
        requires before { pos 0 ≤ℤ before }
        requires time { before ≤ℤ time }
        ensures { IsTrue result ↔ (clock_value time (def_of self.now) ≢ clock_value before (def_of self.now)) }
    {
        match self {
            Def::At(from) => (*from <= time) != (*from <= before),
            Def::Steps(initial, steps) => {
                let steps = steps.as_slice();
                !latest(time, initial, steps).same(latest(before, initial, steps))
            }
            Def::Now => time != before,
            Def::Every { base, span } => spans(*base, *span, time) != spans(*base, *span, before),
            Def::Const(_)
            | Def::Var(_)
            | Def::Map(_, _)
            | Def::Fold(_, _, _)
            | Def::If { .. }
            | Def::Join(_)
            | Def::Bind { .. }
            | Def::Freeze { .. }
            | Def::Expert { .. } => false,
        }
    }

    /// The time up to which the node goes on to show, by the clock alone, what it shows at present. There it may come to
    /// show another value; without one it never does.
    pub fn next_change(&self, time: i64) -> Option<i64>
        requires timed { IsTimed time (def_of self.now) }
        requires time { pos 0 ≤ℤ time }
        ensures { IsNextChange time (def_of self.now) result }
    {
        match self {
            Def::At(from) => { if time < *from { Some(*from) } else { None } }
            Def::Steps(_, steps) => next_step(time, steps.as_slice()),
            Def::Now => time.checked_add(1),
            Def::Every { base, span } => next_span(*base, *span, time),
            Def::Const(_)
            | Def::Var(_)
            | Def::Map(_, _)
            | Def::Fold(_, _, _)
            | Def::If { .. }
            | Def::Join(_)
            | Def::Bind { .. }
            | Def::Freeze { .. }
            | Def::Expert { .. } => None,
        }
    }

    /// The value that the node shows at a time by the clock alone. A node that doesn't read the clock has none. Only a
    /// text needs memory.
    pub fn clock_value(&self, alloc: Global, time: i64) -> Result<Option<Value>, AllocError>
        requires timed { IsTimed time (def_of self.now) }
        requires time { pos 0 ≤ℤ time }
        ensures ok { IfOk result (λ found. found ≡ clock_value time (def_of self.now)) }
        ensures scalar { (v : AValue) → clock_value time (def_of self.now) ≡ Some v → type_of v ≢ ty.Text → IsOk result }
    {
        Ok(match self {
            Def::At(from) => Some(Value::Bool(*from <= time)),
            Def::Steps(initial, steps) => Some(latest(time, initial, steps.as_slice()).copy(
                alloc,
            )?),
            Def::Now => Some(Value::Int(time)),
            Def::Every { base, span } => Some(Value::Int(spans(*base, *span, time))),
            Def::Const(_)
            | Def::Var(_)
            | Def::Map(_, _)
            | Def::Fold(_, _, _)
            | Def::If { .. }
            | Def::Join(_)
            | Def::Bind { .. }
            | Def::Freeze { .. }
            | Def::Expert { .. } => None,
        })
    }
}

/// The value of the last step that has begun, up to the first that hasn't.
fn latest<'a>(time: i64, initial: &'a Value, steps: &'a [Step]) -> &'a Value
    ensures { result.now ≡ latest time initial.now (map step_of steps.now) }
{
    let mut last = initial;
    for step in steps {
        if time < step.time {
            return last;
        }
        last = &step.value;
    }
    last
}

/// When the first step begins that hasn't begun.
fn next_step(time: i64, steps: &[Step]) -> Option<i64>
    ensures { (v : AValue) → IsNextChange time (Steps v (map step_of steps.now)) result }
{
    for step in steps {
        if step.time > time {
            return Some(step.time);
        }
    }
    None
}

/// How many whole spans went by since the base.
fn spans(base: i64, span: u64, time: i64) -> i64
    requires timed { IsTimed time (Every base (pos span)) }
    ensures { result ≡ quot_z (time -ℤ base) (pos span) }
{
    let elapsed = (time - base) as u64;
    (elapsed / span) as i64
}

/// When the present span ends, if there is such a time.
fn next_span(base: i64, span: u64, time: i64) -> Option<i64>
    requires timed { IsTimed time (Every base (pos span)) }
    ensures { IsNextChange time (Every base (pos span)) result }
{
    let elapsed = (time - base) as u64;
    time.checked_add_unsigned(span - elapsed % span)
}
