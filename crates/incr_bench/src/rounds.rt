//! Rounds that change a graph.
ghost use Rattle.std.specs.Prelude.{◌≡◌, ◌≤◌, ◌<◌, ◌+◌, ◌-◌, ◌*◌, ◌%◌, ◌^◌, Some, pos, IfOk};
ghost use Rattle.inc_value.specs.declared.value.Value.TheVariants.{Int};
ghost use Rattle.incr_bench.specs.Shown.{shown_by};

use crate::clock::{begin, since};
use crate::counted::Counted;
use crate::fault::Fault;
use crate::job::{Job, Shape};
use crate::live::Live;
use crate::shapes::{NUMBERS, PARTS, TICK, lister};
use inc_value::{Base, Value};
use node_arena::Functions;
use std::time::Clock;

/// What was measured, in nanoseconds, how many functions were called in the rounds, how many notices they told of watched
/// observers, and what the first observer shows then.
#[derive(Clone, Copy)]
pub struct Rounds {
    pub building: u64,
    pub running: u64,
    pub calls: u64,
    pub notices: u64,
    pub last: i64,
}

/// The variable that a round changes, of so many: rounds go through them in a mixed order.
fn turn(round: u64, variables: usize) -> usize
    ensures none { variables ≡ 0 → result ≡ 0 }
    ensures mixed { 0 < variables → result ≡ ((round * 7919) % 2 ^ 64) % variables }
{
    let place = round.wrapping_mul(7919) as usize;
    if variables == 0 { 0 } else { place % variables }
}

/// The number that a round gives a variable, another one than any of the last 2,000,000,000 rounds gave.
fn fresh(round: u64) -> Value
    ensures { result ≡ Int (pos (round % 2000000000 + 2)) }
{
    Value::Int((round % 2_000_000_000) as i64 + 2)
}

/// Gives so many variables another value, from a place on.
fn set_all<F: Functions>(
    live: &mut Live<F>,
    start: usize,
    size: usize,
    round: u64,
) -> Result<(), Fault>
    ensures uncalled { live.new.graph.functions ≡ live.old.graph.functions }
    ensures untold { live.new.notices ≡ live.old.notices }
{
    for place in 0..size {
        live.set(start.saturating_add(place), fresh(round))?;
    }
    Ok(())
}

/// Takes a node off an expert's list, where it stands first, and puts it behind the list.
fn relist<F: Functions>(live: &mut Live<F>, expert: usize, place: usize) -> Result<(), Fault>
    ensures uncalled { live.new.graph.functions ≡ live.old.graph.functions }
    ensures untold { live.new.notices ≡ live.old.notices }
{
    live.unlink(expert, place)?;
    live.link(expert, place)
}

/// Changes what a round of a shape changes. The first observer of `ended` stays.
fn change<F: Functions>(live: &mut Live<F>, job: Job, round: u64) -> Result<(), Fault>
    ensures uncalled { live.new.graph.functions ≡ live.old.graph.functions }
    ensures untold { live.new.notices ≡ live.old.notices }
{
    match job.shape {
        Shape::Tree | Shape::Fold | Shape::Turns => live.set(turn(round, job.size), fresh(round)),
        Shape::Nested => live.set(turn(round, 2), fresh(round)),
        Shape::Flip | Shape::Aside => live.set(0, Value::Bool(round % 2 == 1)),
        Shape::Flipx => {
            live.set(1, fresh(round))?;
            live.set(0, Value::Bool(round % 2 == 1))
        }
        Shape::Switch => {
            let target = live.node(turn(round, job.size));
            live.set(job.size, Value::Node(target, Base::Int))
        }
        Shape::Ticks => live.advance(TICK),
        Shape::Told | Shape::Shown => set_all(live, 0, job.size, round),
        Shape::Ended => live.unobserve(turn(round, job.size).saturating_add(1)),
        Shape::Expert => {
            let place = turn(round, job.size);
            relist(live, lister(job.size, place), place)
        }
        Shape::Expertx => {
            let place = turn(round, job.size);
            live.set(place, fresh(round))?;
            relist(live, lister(job.size, place), place)
        }
        Shape::Steady => {
            let instrument = turn(round, job.size);
            set_all(live, instrument.saturating_mul(PARTS), NUMBERS, round)
        }
        _ => live.set(0, fresh(round)),
    }
}

/// So many rounds.
fn run<F: Functions>(live: &mut Live<F>, job: Job) -> Result<(), Fault>
    ensures calls_grow { F.calls live.old.graph.functions ≤ F.calls live.new.graph.functions }
{
    for round in 0..job.rounds {
        change(live, job, round)?;
        live.stabilize()?;
    }
    Ok(())
}

/// Rounds over a graph that was built in so many nanoseconds.
pub fn measure<F: Counted, C: Clock>(
    live: &mut Live<F>,
    clock: &C,
    job: Job,
    building: u64,
) -> Result<Rounds, Fault>
    ensures building { IfOk result (λ rounds. rounds.building ≡ building) }
    ensures calls { IfOk result (λ rounds. F.calls live.old.graph.functions + rounds.calls ≡ F.calls live.new.graph.functions) }
    ensures notices { IfOk result (λ rounds. rounds.notices ≡ live.new.notices - live.old.notices) }
    ensures last { IfOk result (λ rounds. shown_by live.new.graph (record { 0 = 0 }) ≡ Some rounds.last) }
{
    let before = live.functions().count();
    let told_before = live.notices();
    let start = begin(clock);
    run(live, job)?;
    let running = since(clock, start);
    let last = live.shown()?;
    Ok(Rounds {
        building,
        running,
        calls: live.functions().count().saturating_sub(before),
        notices: live.notices().saturating_sub(told_before),
        last,
    })
}
