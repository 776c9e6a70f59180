//! Graphs of the shapes.
ghost use Rattle.std.specs.Prelude.{◌≡◌, ◌≤◌, ◌<◌, ◌+◌, ◌-◌, ◌/◌, ◌^◌, min, [], length, OnOk, IsTrue};

use crate::fault::Fault;
use crate::job::Shape;
use crate::live::Live;
use inc_value::{Base, FnRef, Value};
use node_arena::Functions;
use std_library::Function;

/// How many negations a chain has that changes beside nodes at rest.
const REST_CHAIN: usize = 10;

/// How long one timer is made before the next, and how far a round moves the time on, in nanoseconds.
pub const TICK: u64 = 1_000_000;

/// How many variables one expert lists.
const LISTED: usize = 1_000;

/// How many nodes one instrument has. The first are its numbers.
pub const PARTS: usize = 14;

/// How many numbers one instrument has.
pub const NUMBERS: usize = 3;

/// One variable under a chain of negations, of which the last is observed.
fn chain<F: Functions>(live: &mut Live<F>, size: usize) -> Result<(), Fault>
    ensures uncalled { live.new.graph.functions ≡ live.old.graph.functions }
{
    live.var(Value::Int(1))?;
    for i in 0..size {
        live.neg(i)?;
    }
    live.observe(size)
}

/// Observes so many nodes, from a place on.
fn observe_all<F: Functions>(live: &mut Live<F>, start: usize, size: usize) -> Result<(), Fault>
    ensures uncalled { live.new.graph.functions ≡ live.old.graph.functions }
    ensures same_nodes { live.new.nodes.items ≡ live.old.nodes.items }
{
    for i in 0..size {
        live.observe(start.saturating_add(i))?;
    }
    Ok(())
}

/// One variable under negations, all observed.
fn fan<F: Functions>(live: &mut Live<F>, size: usize) -> Result<(), Fault>
    ensures uncalled { live.new.graph.functions ≡ live.old.graph.functions }
    ensures grows { OnOk result (length live.new.nodes.items ≡ length live.old.nodes.items + (size + 1)) }
{
    live.var(Value::Int(1))?;
    for _ in 0..size {
        live.neg(0)?;
    }
    observe_all(live, 1, size)
}

/// Variables.
fn variables<F: Functions>(live: &mut Live<F>, size: usize) -> Result<(), Fault>
    ensures uncalled { live.new.graph.functions ≡ live.old.graph.functions }
    ensures grows { OnOk result (length live.new.nodes.items ≡ length live.old.nodes.items + size) }
{
    for _ in 0..size {
        live.var(Value::Int(-1))?;
    }
    Ok(())
}

/// Variables that are summed pairwise, with the whole sum observed.
fn tree<F: Functions>(live: &mut Live<F>, size: usize) -> Result<(), Fault>
    requires small { size ≤ 1000000 }
    requires some { 0 < size }
    ensures uncalled { live.new.graph.functions ≡ live.old.graph.functions }
{
    variables(live, size)?;
    for k in 1..size {
        let kids = [live.node(2 * (k - 1)), live.node(2 * k - 1)];
        live.map(Function::Add.reference(), &kids)?;
    }
    live.observe(2 * size - 2)
}

/// Variables that are summed by one fold, which is observed.
fn folded<F: Functions>(live: &mut Live<F>, size: usize) -> Result<(), Fault>
    ensures uncalled { live.new.graph.functions ≡ live.old.graph.functions }
{
    variables(live, size)?;
    live.sum_all()?;
    live.observe(size)
}

/// A variable that is compared with 0, and so many readers of the comparison, which choose one of two numbers, all observed.
fn cut<F: Functions>(live: &mut Live<F>, size: usize) -> Result<(), Fault>
    ensures uncalled { live.new.graph.functions ≡ live.old.graph.functions }
{
    live.var(Value::Int(1))?;
    live.var(Value::Int(0))?;
    live.var(Value::Int(10))?;
    live.var(Value::Int(20))?;
    let compared = [live.node(1), live.node(0)];
    live.map(Function::Lt.reference(), &compared)?;
    let kids = [live.node(4), live.node(2), live.node(3)];
    for _ in 0..size {
        live.map(Function::Pick.reference(), &kids)?;
    }
    observe_all(live, 5, size)
}

/// Nodes at rest: variables with their negations, every second one observed.
fn rest<F: Functions>(live: &mut Live<F>, size: usize) -> Result<(), Fault>
    ensures uncalled { live.new.graph.functions ≡ live.old.graph.functions }
{
    for i in 0..size / 2 {
        let place = live.len();
        live.var(Value::Int(7))?;
        live.neg(place)?;
        if i % 2 == 0 {
            live.observe(place.saturating_add(1))?;
        }
    }
    Ok(())
}

/// A chain of negations of a node.
fn chain_over<F: Functions>(live: &mut Live<F>, kid: usize, size: usize) -> Result<(), Fault>
    ensures uncalled { live.new.graph.functions ≡ live.old.graph.functions }
{
    live.neg(kid)?;
    for _ in 1..size {
        live.neg(live.len().saturating_sub(1))?;
    }
    Ok(())
}

/// A truth and a number, both variables, and an `if` over two chains of negations of the number, which is observed.
fn flip<F: Functions>(live: &mut Live<F>, size: usize) -> Result<(), Fault>
    requires { size ≤ 1000000 }
    ensures uncalled { live.new.graph.functions ≡ live.old.graph.functions }
{
    live.var(Value::Bool(true))?;
    live.var(Value::Int(1))?;
    chain_over(live, 1, size)?;
    chain_over(live, 1, size)?;
    live.choose(0, size + 1, 2 * size + 1)?;
    live.observe(2 * size + 2)
}

/// Variables, one that refers to the first of them, and a join over it, which is observed.
fn switch<F: Functions>(live: &mut Live<F>, size: usize) -> Result<(), Fault>
    requires { size ≤ 1000000 }
    ensures uncalled { live.new.graph.functions ≡ live.old.graph.functions }
{
    variables(live, size)?;
    let first = live.node(0);
    live.var(Value::Node(first, Base::Int))?;
    live.join(size)?;
    live.observe(size + 1)
}

/// Timers of one span, all observed. Each is made a tick before the next, and the span has as many ticks as there are timers: so
/// one of them is due at each tick from then on.
fn ticks<F: Functions>(live: &mut Live<F>, size: usize) -> Result<(), Fault>
    requires { size ≤ 1000000 }
    ensures uncalled { live.new.graph.functions ≡ live.old.graph.functions }
{
    let span = size as u64 * TICK;
    for _ in 0..size {
        live.every(span)?;
        live.advance(TICK)?;
    }
    observe_all(live, 0, size)
}

/// Variables, all observed.
fn shown<F: Functions>(live: &mut Live<F>, size: usize) -> Result<(), Fault>
    ensures uncalled { live.new.graph.functions ≡ live.old.graph.functions }
{
    variables(live, size)?;
    observe_all(live, 0, size)
}

/// Variables, all observed, whose observers are watched.
fn watched<F: Functions>(live: &mut Live<F>, size: usize) -> Result<(), Fault>
    ensures uncalled { live.new.graph.functions ≡ live.old.graph.functions }
{
    shown(live, size)?;
    for place in 0..size {
        live.watch(place)?;
    }
    Ok(())
}

/// Variables, each with another number.
fn numbers<F: Functions>(live: &mut Live<F>, size: usize) -> Result<(), Fault>
    requires { size ≤ 1000000 }
    ensures uncalled { live.new.graph.functions ≡ live.old.graph.functions }
{
    for place in 0..size {
        live.var(Value::Int(place as i64))?;
    }
    Ok(())
}

/// The node of the expert that lists a variable, of so many: behind the variables stands one expert for each thousand.
pub fn lister(variables: usize, place: usize) -> usize
    ensures { result ≡ min (variables + place / 1000) (2 ^ 64 - 1) }
{
    variables.saturating_add(place / LISTED)
}

/// Variables, each with another number, and behind them experts that list a thousand each, which are observed.
fn experts<F: Functions>(live: &mut Live<F>, size: usize) -> Result<(), Fault>
    requires { size ≤ 1000000 }
    ensures uncalled { live.new.graph.functions ≡ live.old.graph.functions }
{
    numbers(live, size)?;
    for place in 0..size {
        let expert = lister(size, place);
        if place % LISTED == 0 {
            live.expert()?;
            live.observe(expert)?;
        }
        live.link(expert, place)?;
    }
    Ok(())
}

/// A variable, which is observed, and so many freezes of it.
fn frozen<F: Functions>(live: &mut Live<F>, size: usize) -> Result<(), Fault>
    ensures uncalled { live.new.graph.functions ≡ live.old.graph.functions }
{
    live.var(Value::Int(1))?;
    live.observe(0)?;
    for _ in 0..size {
        live.freeze(0)?;
    }
    Ok(())
}

/// Instrument so many of a trading screen: three numbers, a truth that stays true, a reference that stays, and what reads them. An
/// expert of four of these is observed, and a sum of six; the sum's observer is watched.
fn instrument<F: Functions>(live: &mut Live<F>, number: usize) -> Result<(), Fault>
    requires { number ≤ 1000000 }
    ensures uncalled { live.new.graph.functions ≡ live.old.graph.functions }
{
    let at = number * PARTS;
    live.var(Value::Int(1))?;
    live.var(Value::Int(1))?;
    live.var(Value::Int(1))?;
    live.var(Value::Bool(true))?;
    let bid = live.node(at);
    let ask = live.node(at + 1);
    live.var(Value::Node(bid, Base::Int))?;
    live.map(Function::Sub.reference(), &[ask, bid])?;
    live.tell_all(at + 5)?;
    let kids = [bid, ask, live.node(at + 2)];
    live.map(Function::Clamp.reference(), &kids)?;
    live.neg(at)?;
    live.choose(at + 3, at + 6, at + 5)?;
    live.join(at + 4)?;
    live.freeze(at)?;
    live.freeze(at + 7)?;
    live.expert()?;
    for kid in 5..9 {
        live.link(at + 12, at + kid)?;
    }
    let kids = [
        live.node(at + 5),
        live.node(at + 8),
        live.node(at + 9),
        live.node(at + 10),
        live.node(at + 11),
        live.node(at + 12),
    ];
    live.sum(&kids)?;
    live.observe(at + 13)?;
    live.observe(at + 12)?;
    live.watch(2 * number)
}

/// A trading screen of so many instruments.
fn steady<F: Functions>(live: &mut Live<F>, size: usize) -> Result<(), Fault>
    requires { size ≤ 1000000 }
    ensures uncalled { live.new.graph.functions ≡ live.old.graph.functions }
{
    for number in 0..size {
        instrument(live, number)?;
    }
    Ok(())
}

/// A variable and a bind on it, which is observed, of right sides that a function makes.
pub fn bind<F: Functions>(live: &mut Live<F>, side: FnRef) -> Result<(), Fault>
    requires known { IsTrue (F.known live.old.graph.functions side) }
    requires lists_none { (F.right live.old.graph.functions side).ids ≡ [] }
    ensures uncalled { live.new.graph.functions ≡ live.old.graph.functions }
{
    live.var(Value::Int(1))?;
    live.bind(0, side, &[])?;
    live.observe(1)
}

/// Two variables, and a bind on the first over the second, which is observed, of right sides that a function makes.
pub fn nested<F: Functions>(live: &mut Live<F>, side: FnRef) -> Result<(), Fault>
    requires known { IsTrue (F.known live.old.graph.functions side) }
    requires lists_none { (F.right live.old.graph.functions side).ids ≡ [] }
    ensures uncalled { live.new.graph.functions ≡ live.old.graph.functions }
{
    live.var(Value::Int(1))?;
    live.var(Value::Int(1))?;
    let second = live.node(1);
    live.bind(0, side, &[second])?;
    live.observe(2)
}

/// Makes the nodes and observers of a shape without binds.
pub fn fill<F: Functions>(live: &mut Live<F>, shape: Shape, size: usize) -> Result<(), Fault>
    requires small { size ≤ 1000000 }
    requires some { 0 < size }
    ensures uncalled { live.new.graph.functions ≡ live.old.graph.functions }
{
    match shape {
        Shape::Chain => chain(live, size),
        Shape::Tree => tree(live, size),
        Shape::Fold => folded(live, size),
        Shape::Cut => cut(live, size),
        Shape::Never => {
            cut(live, size)?;
            live.tell_all(4)
        }
        Shape::Idle => {
            chain(live, REST_CHAIN)?;
            rest(live, size)
        }
        Shape::Flip | Shape::Flipx => flip(live, size),
        Shape::Aside => {
            flip(live, REST_CHAIN)?;
            rest(live, size)
        }
        Shape::Switch => switch(live, size),
        Shape::Fan | Shape::Boxed => fan(live, size),
        Shape::Ticks => ticks(live, size),
        Shape::Watched | Shape::Turns | Shape::Told => watched(live, size),
        Shape::Shown => shown(live, size),
        Shape::Ended => watched(live, size + 1),
        Shape::Expert | Shape::Expertx => experts(live, size),
        Shape::Frozen => frozen(live, size),
        Shape::Steady => steady(live, size),
        Shape::Bind | Shape::Nested => Err(Fault::Refused),
    }
}
