//! Acts on a graph, done in the order of their tables.

use crate::bind_tables::{BIND_TABLES, FULL_TABLES};
use crate::binding::{NO_MEMORY, bind, bind_and_take_back, nested};
use crate::listing::{LIST_TABLES, list};
use crate::tables::{Act, TABLES};
use crate::timing::{TIME_TABLES, make_timed};
use graph::{Cutoff, Graph, GraphFault, Kept, Refused, StabilizeFault};
use inc_value::{Base, NodeId, ObsId, Outcome, Ty, Value};
use script_functions::ScriptFns;
use std::alloc::Global;
use std_library::{Function, StdLib};

/// What a stabilize answers that is refused as full.
pub(crate) const FULL: i64 = -122;

/// What is answered of a graph whose stabilize was.
pub(crate) const BROKEN_AS_FULL: i64 = -123;

/// How many nodes may live at once.
const MOST_NODES: usize = 1_048_576;

/// A graph over the standard library.
pub(crate) type Scripted = Graph<ScriptFns<StdLib>>;

/// A number for each fault.
pub(crate) fn code(fault: GraphFault) -> i64 {
    match fault {
        GraphFault::Broken(Kept::Height) => -101,
        GraphFault::Broken(Kept::Cycle) => -121,
        GraphFault::Broken(Kept::Full) => BROKEN_AS_FULL,
        GraphFault::Broken(_) => -100,
        GraphFault::Unknown => -102,
        GraphFault::NotVar => -103,
        GraphFault::WrongType => -104,
        GraphFault::Back => -117,
        GraphFault::Range => -118,
        GraphFault::Span => -116,
        GraphFault::Order => -119,
        GraphFault::NotExpert => -125,
        GraphFault::NotLinked => -126,
        GraphFault::LinksFull => -127,
        GraphFault::NotStabilized => -105,
        GraphFault::TooMany => -106,
        GraphFault::Full => -107,
        GraphFault::Memory => -108,
    }
}

/// The node that was made so far on.
pub(crate) fn nth(nodes: &[NodeId], i: usize) -> NodeId {
    match nodes.get(i) {
        Some(node) => *node,
        None => NodeId::default(),
    }
}

/// Keeps a node that was made: 0, or the fault's number.
pub(crate) fn made(nodes: &mut Vec<NodeId>, answer: Result<NodeId, GraphFault>) -> i64 {
    match answer {
        Ok(node) => match nodes.push(node) {
            Ok(()) => 0,
            Err(_) => -108,
        },
        Err(fault) => code(fault),
    }
}

/// 0, or the fault's number.
pub(crate) fn told(answer: Result<(), GraphFault>) -> i64 {
    match answer {
        Ok(()) => 0,
        Err(fault) => code(fault),
    }
}

/// The number that is shown, 1 or 0 of a truth, or the fault's. Invalid has a number of its own.
fn shown(graph: &Scripted, observer: u32) -> i64 {
    match graph.value(ObsId(observer)) {
        Ok(Outcome::Val(Value::Int(number))) => *number,
        Ok(Outcome::Val(Value::Bool(holds))) => i64::from(*holds),
        Ok(_) => -109,
        Err(fault) => code(fault),
    }
}

/// A number for why a stabilize is refused.
fn refusal(fault: StabilizeFault) -> i64 {
    match fault {
        StabilizeFault::Refused(Kept::Height) => -112,
        StabilizeFault::Broken(Kept::Height) => -101,
        StabilizeFault::Refused(Kept::Cycle) => -120,
        StabilizeFault::Broken(Kept::Cycle) => -121,
        StabilizeFault::Refused(Kept::Full) => FULL,
        StabilizeFault::Broken(Kept::Full) => BROKEN_AS_FULL,
        _ => -100,
    }
}

/// How many functions were called, or why none was.
fn stabilized(graph: &mut Scripted) -> i64 {
    match graph.stabilize() {
        Ok(()) => graph.round().ran.len() as i64,
        Err(fault) => refusal(fault),
    }
}

/// As `stabilized`. Where a stabilize is refused, `back_to` is refused too.
fn stabilized_or_back(graph: &mut Scripted) -> i64 {
    let mark = match graph.mark() {
        Ok(mark) => mark,
        Err(fault) => return code(fault),
    };
    match graph.stabilize() {
        Ok(()) => graph.round().ran.len() as i64,
        Err(fault) => match graph.back_to(mark) {
            Err(GraphFault::Broken(Kept::Height)) => refusal(fault),
            _ => -111,
        },
    }
}

/// Makes the negation of a node and the negation of that, and takes both back. Their ids are kept.
fn taken_back(graph: &mut Scripted, nodes: &mut Vec<NodeId>, kid: NodeId) -> i64 {
    let mark = match graph.mark() {
        Ok(mark) => mark,
        Err(fault) => return code(fault),
    };
    let first = made(nodes, graph.map(Function::Neg.reference(), &[kid]));
    let made_now = nth(nodes, nodes.len().saturating_sub(1));
    let second = made(nodes, graph.map(Function::Neg.reference(), &[made_now]));
    match graph.back_to(mark) {
        Ok(()) => first.min(second),
        Err(fault) => code(fault),
    }
}

/// 1 where the node is live, else 0, or the fault's number.
fn live(graph: &Scripted, node: NodeId) -> i64 {
    match graph.is_live(node) {
        Ok(true) => 1,
        Ok(false) => 0,
        Err(fault) => code(fault),
    }
}

/// How often a node's function was called in the last accepted stabilize.
fn times_run(graph: &Scripted, node: NodeId) -> i64 {
    let mut times: i64 = 0;
    for ran in graph.round().ran {
        if *ran == node {
            times = times.saturating_add(1);
        }
    }
    times
}

/// 1 where the node's function was the first that was called in the last accepted stabilize, else 0.
fn ran_first(graph: &Scripted, node: NodeId) -> i64 {
    match graph.round().ran.first() {
        Some(first) if *first == node => 1,
        _ => 0,
    }
}

/// How many functions were called since the graph was made.
fn called(graph: &Scripted) -> i64 {
    match i64::try_from(graph.functions().library().calls()) {
        Ok(calls) => calls,
        Err(_) => -114,
    }
}

/// How many points a refused stabilize met in a row; 0 of an unbroken graph.
fn points(graph: &Scripted) -> i64 {
    match graph.broken() {
        Some(Refused::Height(points) | Refused::Cycle(points)) => points.len() as i64,
        Some(_) => -110,
        None => 0,
    }
}

fn observed(graph: &mut Scripted, node: NodeId) -> i64 {
    match graph.observe(node) {
        Ok(_) => 0,
        Err(fault) => code(fault),
    }
}

fn var(graph: &mut Scripted, nodes: &mut Vec<NodeId>, value: i64) -> i64 {
    made(nodes, graph.var(Value::Int(value)))
}

/// Makes a map of as many of the nodes as its function takes.
fn map(graph: &mut Scripted, nodes: &mut Vec<NodeId>, function: Function, kids: &[NodeId]) -> i64 {
    let f = function.reference();
    let count = f.sig.takes().len().min(kids.len());
    made(nodes, graph.map(f, &kids[..count]))
}

/// Makes the fold by sums from a number on over the nodes.
fn fold(graph: &mut Scripted, nodes: &mut Vec<NodeId>, initial: i64, kids: &[NodeId]) -> i64 {
    let add = Function::Add.reference();
    made(nodes, graph.fold(add, Value::Int(initial), kids))
}

/// Makes a node that reads its second node where the first is true, else the third.
fn choice(graph: &mut Scripted, nodes: &mut Vec<NodeId>, ty: Ty, kids: [NodeId; 3]) -> i64 {
    let [test, yes, no] = kids;
    made(nodes, graph.if_(ty, test, yes, no))
}

/// Makes so many negations over a node, each over the one before.
fn negations(graph: &mut Scripted, nodes: &mut Vec<NodeId>, kid: usize, length: usize) -> i64 {
    let mut worst = 0;
    let mut below = nth(nodes, kid);
    for _ in 0..length {
        worst = worst.min(map(graph, nodes, Function::Neg, &[below]));
        below = nth(nodes, nodes.len().saturating_sub(1));
    }
    worst
}

/// Makes a variable with so many negations over it, and observes the last one.
fn chain(graph: &mut Scripted, nodes: &mut Vec<NodeId>, length: usize) -> i64 {
    let mut worst = var(graph, nodes, 1);
    for below in 0..length {
        let kid = nth(nodes, below);
        worst = worst.min(map(graph, nodes, Function::Neg, &[kid]));
    }
    worst.min(observed(graph, nth(nodes, length)))
}

/// Makes constants that nothing reads, until so many nodes more fit beside these.
fn fill(graph: &mut Scripted, nodes: &[NodeId], room: usize) -> i64 {
    for _ in nodes.len().saturating_add(room)..MOST_NODES {
        match graph.constant(Value::Int(0)) {
            Ok(_) => {}
            Err(fault) => return code(fault),
        }
    }
    0
}

/// Does an act that makes nodes.
pub(crate) fn make(graph: &mut Scripted, nodes: &mut Vec<NodeId>, act: Act) -> i64 {
    match act {
        Act::Constant(value) => made(nodes, graph.constant(Value::Int(value))),
        Act::Var(value) => var(graph, nodes, value),
        Act::Chain(length) => chain(graph, nodes, length),
        Act::Truth(holds) => made(nodes, graph.var(Value::Bool(holds))),
        Act::Refer(target) => made(nodes, graph.var(Value::Node(nth(nodes, target), Base::Int))),
        Act::If(test, yes, no) => {
            let kids = [nth(nodes, test), nth(nodes, yes), nth(nodes, no)];
            choice(graph, nodes, Ty::Int, kids)
        }
        Act::IfRefer(test, yes, no) => {
            let kids = [nth(nodes, test), nth(nodes, yes), nth(nodes, no)];
            choice(graph, nodes, Ty::Node(Base::Int), kids)
        }
        Act::Join(kid) => made(nodes, graph.join(Ty::Int, nth(nodes, kid))),
        Act::Negations(kid, length) => negations(graph, nodes, kid, length),
        Act::Map(function, first, second, third) => {
            let kids = [nth(nodes, first), nth(nodes, second), nth(nodes, third)];
            map(graph, nodes, function, &kids)
        }
        Act::Fold(initial, first, second, third) => {
            let kids = [nth(nodes, first), nth(nodes, second), nth(nodes, third)];
            fold(graph, nodes, initial, &kids)
        }
        Act::FoldNone(initial) => fold(graph, nodes, initial, &[]),
        Act::Fill(room) => fill(graph, nodes, room),
        Act::TakeBack(kid) => taken_back(graph, nodes, nth(nodes, kid)),
        _ => -113,
    }
}

/// The place of the first node that is a node's owner.
fn owner(graph: &Scripted, nodes: &[NodeId], node: NodeId) -> i64 {
    let Some(top) = graph.owner(node) else {
        return -1;
    };
    for place in 0..nodes.len() {
        if nodes[place] == top {
            return place as i64;
        }
    }
    -2
}

/// A count as a number.
fn number(count: u64) -> i64 {
    i64::try_from(count).unwrap_or(i64::MAX)
}

/// The present root of a bind is a node from then on.
fn grab(graph: &Scripted, nodes: &mut Vec<NodeId>, bind: NodeId) -> i64 {
    match graph.right_side(bind) {
        Ok(Some(root)) => match nodes.push(root) {
            Ok(()) => 1,
            Err(_) => NO_MEMORY,
        },
        Ok(None) => 0,
        Err(fault) => code(fault),
    }
}

/// Does an act that only looks.
fn look(graph: &Scripted, nodes: &[NodeId], act: Act) -> i64 {
    match act {
        Act::Show(observer) => shown(graph, observer),
        Act::Live(i) => live(graph, nth(nodes, i)),
        Act::Owner(i) => owner(graph, nodes, nth(nodes, i)),
        Act::Ran(i) => times_run(graph, nth(nodes, i)),
        Act::First(i) => ran_first(graph, nth(nodes, i)),
        Act::Calls => called(graph),
        Act::Builds => number(graph.functions().builds()),
        Act::Adds => number(graph.functions().adds()),
        Act::Points => points(graph),
        Act::Time => graph.time(),
        _ => -113,
    }
}

/// Does an act that makes a bind, or a node of one.
fn make_bind(alloc: Global, graph: &mut Scripted, nodes: &mut Vec<NodeId>, act: Act) -> i64 {
    match act {
        Act::Bind(left, side) => bind(alloc, graph, nodes, left, side),
        Act::Nested(left, right) => nested(alloc, graph, nodes, left, right),
        Act::BindAndTakeBack(left) => bind_and_take_back(alloc, graph, nodes, left),
        Act::Grab(place) => grab(graph, nodes, nth(nodes, place)),
        _ => make_timed(alloc, graph, nodes, act),
    }
}

fn perform(alloc: Global, graph: &mut Scripted, nodes: &mut Vec<NodeId>, act: Act) -> i64 {
    match act {
        Act::Set(i, value) => told(graph.set_var(nth(nodes, i), Value::Int(value))),
        Act::SetTruth(i, holds) => told(graph.set_var(nth(nodes, i), Value::Bool(holds))),
        Act::SetTarget(i, target) => {
            told(graph.set_var(nth(nodes, i), Value::Node(nth(nodes, target), Base::Int)))
        }
        Act::Equal(i) => told(graph.set_cutoff(nth(nodes, i), Cutoff::Equal)),
        Act::Never(i) => told(graph.set_cutoff(nth(nodes, i), Cutoff::Never)),
        Act::Observe(i) => observed(graph, nth(nodes, i)),
        Act::Unobserve(observer) => told(graph.unobserve(ObsId(observer))),
        Act::Advance(to) => told(graph.advance(to)),
        Act::Stabilize => stabilized(graph),
        Act::StabilizeOrBack => stabilized_or_back(graph),
        Act::Show(_) | Act::Live(_) | Act::Owner(_) | Act::Ran(_) | Act::First(_) => {
            look(graph, nodes, act)
        }
        Act::Calls | Act::Builds | Act::Adds | Act::Points | Act::Time => look(graph, nodes, act),
        Act::Freeze(_, _)
        | Act::Expert(_, _)
        | Act::Link(_, _)
        | Act::Unlink(_, _)
        | Act::MakeStale(_) => list(graph, nodes, act),
        _ => make_bind(alloc, graph, nodes, act),
    }
}

/// The first place at which an act answers another number, with that number, as one: 0 where none does.
fn first_other(
    alloc: Global,
    graph: &mut Scripted,
    nodes: &mut Vec<NodeId>,
    acts: &[(Act, i64)],
) -> i64 {
    let mut place: i64 = 0;
    for (act, wanted) in acts {
        place = place.saturating_add(1);
        let answer = perform(alloc, graph, nodes, *act);
        if answer != *wanted {
            return place.saturating_mul(1000).saturating_add(answer);
        }
    }
    0
}

/// What the acts answer otherwise than is wanted, done to a new graph.
fn other_in(alloc: Global, acts: &[(Act, i64)]) -> i64 {
    let mut graph = Graph::new(alloc, ScriptFns::new(alloc, StdLib::new()));
    let mut nodes = Vec::new(alloc);
    let other = first_other(alloc, &mut graph, &mut nodes, acts);
    drop(nodes);
    drop(graph);
    other
}

/// The first table that answers otherwise than is wanted, with the place and the answer; 0 where none does.
fn first_table(alloc: Global, tables: &[&[(Act, i64)]]) -> i64 {
    let mut table: i64 = 0;
    for acts in tables {
        table = table.saturating_add(1);
        let other = other_in(alloc, acts);
        if other != 0 {
            return table.saturating_mul(1_000_000).saturating_add(other);
        }
    }
    0
}

#[test]
fn acts_answer_their_numbers(rt: HostRuntime) {
    let other = first_table(rt.alloc(), TABLES);
    assert_eq!(rt; other, 0);
}

#[test]
fn binds_answer_their_numbers(rt: HostRuntime) {
    let other = first_table(rt.alloc(), BIND_TABLES);
    assert_eq!(rt; other, 0);
}

#[test]
fn clocks_answer_their_numbers(rt: HostRuntime) {
    let other = first_table(rt.alloc(), TIME_TABLES);
    assert_eq!(rt; other, 0);
}

#[test]
fn freezes_and_experts_answer_their_numbers(rt: HostRuntime) {
    let other = first_table(rt.alloc(), LIST_TABLES);
    assert_eq!(rt; other, 0);
}

#[test]
fn full_graphs_answer_their_numbers(rt: HostRuntime) {
    let other = first_table(rt.alloc(), FULL_TABLES);
    assert_eq!(rt; other, 0);
}
