//! Runs that are timed.
ghost use Rattle.std.specs.Prelude.{◌≡◌, [], ℕ, List, IfOk, IfSome, IsTrue, string_bytes};
ghost use Rattle.std.specs.Io.KnownBytes.{Appends};
ghost use Rattle.incr_bench.specs.Jobs.{IsWithin};
ghost use Rattle.incr_bench.specs.Reports.{IsReport};
ghost use Rattle.incr_bench.specs.Status.{SinksTell};
ghost use Rattle.incr_bench.specs.declared.fault.Fault.{Fault as AFault};
ghost use Rattle.incr_bench.specs.declared.report.Ending.TheVariants.{Told, Unwritten, Stopped};

use crate::boxed::Negation;
use crate::clock::{begin, since};
use crate::counted::Counted;
use crate::fault::Fault;
use crate::job::{Job, Shape};
use crate::live::Live;
use crate::report::{Ending, Report, of_rounds, publish};
use crate::rounds::{Rounds, measure};
use crate::shapes::{bind, fill, nested};
use crate::sides::keep_sides;
use closures::Closures;
use inc_value::FnRef;
use node_arena::MapFn;
use script_functions::ScriptFns;
use script_io::Sink;
use std::alloc::Global;
use std::time::Clock;
use std_library::{Function, StdLib};

/// Builds a graph of a shape, whose binds' right sides a function makes if it has some, and runs rounds over it.
fn measure_built<F: Counted, C: Clock>(
    live: &mut Live<F>,
    side: Option<FnRef>,
    clock: &C,
    job: Job,
) -> Result<Rounds, Fault>
    requires within { IsWithin job }
    requires known { IfSome side (λ f. IsTrue (F.known live.old.graph.functions f)) }
    requires lists_none { IfSome side (λ f. (F.right live.old.graph.functions f).ids ≡ []) }
{
    let start = begin(clock);
    match (side, job.shape) {
        (Some(side), Shape::Nested) => nested(live, side)?,
        (Some(side), _) => bind(live, side)?,
        (None, shape) => fill(live, shape, job.size)?,
    }
    live.stabilize()?;
    let building = since(clock, start);
    measure(live, clock, job, building)
}

/// Measures a shape over functions, of which one makes the right sides if it has binds.
fn measure_over<F: Counted, C: Clock>(
    alloc: Global,
    functions: F,
    negation: FnRef,
    side: Option<FnRef>,
    clock: &C,
    job: Job,
) -> Result<Rounds, Fault>
    requires within { IsWithin job }
    requires sound { F.is_sound functions }
    requires known { IfSome side (λ f. IsTrue (F.known functions f)) }
    requires lists_none { IfSome side (λ f. (F.right functions f).ids ≡ []) }
{
    let mut live = Live::new(alloc, functions, negation);
    let rounds = measure_built(&mut live, side, clock, job);
    live.end();
    rounds
}

/// Measures a shape without binds over the standard library.
fn over_library<C: Clock>(alloc: Global, clock: &C, job: Job) -> Result<Rounds, Fault>
    requires within { IsWithin job }
{
    let functions = ScriptFns::new(alloc, StdLib::new());
    measure_over(
        alloc,
        functions,
        Function::Neg.reference(),
        None,
        clock,
        job,
    )
}

/// Measures a shape of binds over the standard library.
fn over_sides<C: Clock>(alloc: Global, clock: &C, job: Job) -> Result<Rounds, Fault>
    requires within { IsWithin job }
{
    let mut functions = ScriptFns::new(alloc, StdLib::new());
    let nested = matches!(job.shape, Shape::Nested);
    match keep_sides(alloc, &mut functions, job.size, nested) {
        Ok(side) => {
            let negation = Function::Neg.reference();
            measure_over(alloc, functions, negation, Some(side), clock, job)
        }
        Err(fault) => {
            drop(functions);
            Err(fault)
        }
    }
}

/// Measures a shape without binds over a negation in a box.
fn over_box<C: Clock>(alloc: Global, clock: &C, job: Job) -> Result<Rounds, Fault>
    requires within { IsWithin job }
{
    let Ok(boxed) = Box::new(alloc, Negation {}) else {
        return Err(Fault::Memory);
    };
    let boxed: Box<dyn MapFn> = boxed;
    if !boxed.sig().is_map() {
        drop(boxed);
        return Err(Fault::Refused);
    }
    let mut functions = Closures::new(alloc);
    match functions.add_map(boxed) {
        Ok(negation) => measure_over(alloc, functions, negation, None, clock, job),
        Err((_, boxed)) => {
            drop(boxed);
            drop(functions);
            Err(Fault::Memory)
        }
    }
}

/// What the words ask for.
fn found<C: Clock>(alloc: Global, clock: &C, job: Job) -> Result<Report, Fault>
    requires { IsWithin job }
    ensures { IfOk result (λ report. IsReport job report.counts.items (string_bytes report.times)) }
{
    let rounds = match job.shape {
        Shape::Bind | Shape::Nested => over_sides(alloc, clock, job)?,
        Shape::Boxed => over_box(alloc, clock, job)?,
        _ => over_library(alloc, clock, job)?,
    };
    Ok(of_rounds(alloc, job, rounds)?)
}

/// Does what the words ask for. Nothing is written before all is found.
pub fn perform<C: Clock, K: Sink, N: Sink>(
    alloc: Global,
    clock: &C,
    job: Job,
    out: &mut K,
    notes: &mut N,
) -> Ending
    requires { IsWithin job }
    ensures told { result ≡ Told → (counts times : List ℕ) × IsReport job counts times
        × Appends (K.written out.old) (K.written out.new) counts × Appends (N.written notes.old) (N.written notes.new) times }
    ensures stopped { (fault : AFault) → result ≡ Stopped fault → (out.new ≡ out.old) × (notes.new ≡ notes.old) }
    ensures sinks { SinksTell (result ≡ Unwritten) (K.faults out.old) (K.faults out.new) (N.faults notes.old) (N.faults notes.new) }
{
    match found(alloc, clock, job) {
        Ok(found) => {
            let ending = publish(&found, out, notes);
            drop(found);
            ending
        }
        Err(fault) => Ending::Stopped(fault),
    }
}
