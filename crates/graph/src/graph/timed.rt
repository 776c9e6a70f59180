//! Nodes that read the clock, and the time that moves on.
ghost use Rattle.std.specs.Prelude.{◌≡◌, ◌↔◌, ◌<ℤ◌, pos, map, IfErr, OnOk, OnErr, IsErrOf, IsTrue};
ghost use Rattle.inc_value.specs.declared.ty.Ty.TheVariants as ty;
ghost use Rattle.inc_terms.specs.Graph.{At, Now, Every};
ghost use Rattle.inc_terms.specs.Steps.{step_of};
ghost use Rattle.graph.specs.Standing.{IsUnbroken, IsBroken};
ghost use Rattle.graph.specs.Effects.{AnswersAdd, KeepsAll};
ghost use Rattle.graph.specs.Clock.{AnswersAfter, AnswersSteps, IsAdvanceFault, MovesTo, Rise, are_rising, rises};
ghost use Rattle.graph.specs.declared.fault.Kept.{Kept as ACause};

use super::Graph;
use crate::fault::{GraphFault, advance_fault, order_fault};
use inc_terms::{Def, Step, StepList};
use inc_value::{NodeId, Ty, Value};
use node_arena::Functions;

impl<F: Functions> Graph<F> {
    /// The time by which nodes are read, in nanoseconds: 0 at first.
    pub fn time(&self) -> i64
        ensures { result ≡ self.now.nodes.time }
    {
        self.parts.time()
    }

    /// A node that shows whether the clock has come to a time, in nanoseconds.
    /// Refused as `Full`.
    pub fn at(&mut self, time: i64) -> Result<NodeId, GraphFault>
        ensures { AnswersAdd self.old self.new (At time) ty.Bool result }
    {
        self.add(Def::At(time), Ty::Bool)
    }

    /// A node that shows the clock, in nanoseconds.
    /// Refused as `Full`.
    pub fn now(&mut self) -> Result<NodeId, GraphFault>
        ensures { AnswersAdd self.old self.new Now ty.Int result }
    {
        self.add(Def::Now, Ty::Int)
    }

    /// A node that shows whether a span went by since it was made, in nanoseconds. `Range` where that is past the greatest
    /// time.
    pub fn after(&mut self, span: u64) -> Result<NodeId, GraphFault>
        ensures { AnswersAfter self.old self.new span result }
    {
        match self.check() {
            Ok(()) => {}
            Err(fault) => return Err(fault),
        }
        match self.parts.after(span) {
            Ok(time) => self.add(Def::At(time), Ty::Bool),
            Err(_) => Err(GraphFault::Range),
        }
    }

    /// A node that shows how many whole spans went by since it was made, in nanoseconds. `Span` where the span is 0.
    pub fn every(&mut self, span: u64) -> Result<NodeId, GraphFault>
        ensures answer { AnswersAdd self.old self.new (Every self.old.nodes.time (pos span)) ty.Int result }
        ensures span { IsErrOf result GraphFault.Span ↔ (IsUnbroken self.old × (span ≡ 0)) }
    {
        let base = self.parts.time();
        self.add(Def::Every { base, span }, Ty::Int)
    }

    /// A node that shows the first value, and then that of the last step whose time has come. `Order` where the times don't
    /// rise strictly.
    pub fn steps(&mut self, initial: Value, steps: Vec<Step>) -> Result<NodeId, GraphFault>
        ensures { AnswersSteps self.old self.new initial (map step_of steps.items) result }
    {
        match self.check() {
            Ok(()) => {}
            Err(fault) => {
                drop(initial);
                drop(steps);
                return Err(fault);
            }
        }
        let ty = initial.ty();
        let rise = do_rise(&steps);
        let def = Def::Steps(initial, StepList::new(steps));
        if rise {
            return self.add(def, ty);
        }
        let admitted = self.parts.arena().admits(&def, ty);
        drop(def);
        Err(order_fault(admitted))
    }

    /// Moves the time on to one in nanoseconds, which may be the present one: `Back` where it is before that. What observes
    /// nodes that read the clock shows it after the next stabilize. It costs what shows another value then, and the nodes
    /// that were made since it was moved last.
    pub fn advance(&mut self, to: i64) -> Result<(), GraphFault>
        ensures broken { (cause : ACause) → IsErrOf result (GraphFault.Broken cause) ↔ IsBroken self.old cause }
        ensures back { IsErrOf result GraphFault.Back ↔ (IsUnbroken self.old × (to <ℤ self.old.nodes.time)) }
        ensures fault { IfErr result IsAdvanceFault }
        ensures moved { OnOk result (MovesTo self.old self.new to) }
        ensures err { OnErr result (KeepsAll self.old self.new) }
    {
        self.check()?;
        match self.parts.advance(to) {
            Ok(()) => Ok(()),
            Err(fault) => Err(advance_fault(fault)),
        }
    }
}

/// Whether the times of the steps rise strictly.
fn do_rise(steps: &[Step]) -> bool
    ensures { IsTrue result ↔ Rise (map step_of steps.now) }
{
    are_rising(steps)
}

/// The same, as it is found out.
fn are_rising(steps: &[Step]) -> bool
    ensures { result ≡ are_rising (map step_of steps.now) }
{
    match steps {
        [first, rest @ ..] => rise_from(first.time, rest),
        _ => true,
    }
}

/// Whether the times of the steps rise strictly, from a time before the first on.
fn rise_from(time: i64, steps: &[Step]) -> bool
    ensures { result ≡ rises time (map step_of steps.now) }
{
    let mut last = time;
    for step in steps {
        if step.time <= last {
            return false;
        }
        last = step.time;
    }
    true
}
