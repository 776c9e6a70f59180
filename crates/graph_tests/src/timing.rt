//! Tables of acts on a graph whose nodes read the clock, with the number that each answers.

use crate::binding::NO_MEMORY;
use crate::tables::Act;
use crate::tests::{Scripted, made, make};
use inc_terms::Step;
use inc_value::{NodeId, Value};
use std::alloc::{AllocError, Global};
use std_library::Function;

const SECOND: i64 = 1_000_000_000;

/// The greatest time.
const LAST: i64 = i64::MAX;

/// A node switches in the nanosecond in which its time comes, and shows it after the next stabilize.
const SWITCH: &[(Act, i64)] = &[
    (Act::At(5 * SECOND), 0),
    (Act::Observe(0), 0),
    (Act::Show(0), -105),
    (Act::Stabilize, 0),
    (Act::Show(0), 0),
    (Act::Advance(5 * SECOND - 1), 0),
    (Act::Stabilize, 0),
    (Act::Show(0), 0),
    (Act::Advance(5 * SECOND), 0),
    (Act::Show(0), 0),
    (Act::Stabilize, 0),
    (Act::Show(0), 1),
    (Act::Advance(5 * SECOND), 0),
    (Act::Stabilize, 0),
    (Act::Show(0), 1),
];

/// Spans are counted from when the node was made on, and the time doesn't go back.
const COUNT: &[(Act, i64)] = &[
    (Act::Advance(3 * SECOND), 0),
    (Act::Every(10_000_000_000), 0),
    (Act::Observe(0), 0),
    (Act::Stabilize, 0),
    (Act::Show(0), 0),
    (Act::Advance(12 * SECOND), 0),
    (Act::Stabilize, 0),
    (Act::Show(0), 0),
    (Act::Advance(13 * SECOND), 0),
    (Act::Stabilize, 0),
    (Act::Show(0), 1),
    (Act::Advance(43 * SECOND), 0),
    (Act::Stabilize, 0),
    (Act::Show(0), 4),
    (Act::Advance(42 * SECOND), -117),
    (Act::Time, 43 * SECOND),
    (Act::Stabilize, 0),
    (Act::Show(0), 4),
];

/// The last step whose time has come is shown; steps whose times don't rise aren't added.
const STEPS: &[(Act, i64)] = &[
    (Act::Advance(9 * SECOND), 0),
    (Act::Steps(0, 5 * SECOND, 1, 9 * SECOND, 2), 0),
    (Act::Observe(0), 0),
    (Act::Stabilize, 0),
    (Act::Show(0), 2),
    (Act::Steps(0, 5 * SECOND, 1, 5 * SECOND, 2), -119),
    (Act::Steps(7, 20 * SECOND, 8, 30 * SECOND, 9), 0),
    (Act::Observe(1), 0),
    (Act::Stabilize, 0),
    (Act::Show(1), 7),
    (Act::Advance(20 * SECOND), 0),
    (Act::Stabilize, 0),
    (Act::Show(1), 8),
    (Act::Advance(31 * SECOND), 0),
    (Act::Stabilize, 0),
    (Act::Show(1), 9),
    (Act::Show(0), 2),
];

/// The clock itself, under a map that is called anew when the time has moved.
const CLOCK: &[(Act, i64)] = &[
    (Act::Now, 0),
    (Act::Map(Function::Neg, 0, 0, 0), 0),
    (Act::Observe(0), 0),
    (Act::Observe(1), 0),
    (Act::Stabilize, 1),
    (Act::Show(0), 0),
    (Act::Advance(5 * SECOND), 0),
    (Act::Show(0), 0),
    (Act::Stabilize, 1),
    (Act::Show(0), 5 * SECOND),
    (Act::Show(1), -5 * SECOND),
    (Act::Advance(5 * SECOND), 0),
    (Act::Stabilize, 0),
    (Act::Unobserve(0), 0),
    (Act::Unobserve(1), 0),
    (Act::Advance(6 * SECOND), 0),
    (Act::Stabilize, 0),
    (Act::Observe(1), 0),
    (Act::Stabilize, 1),
    (Act::Show(2), -6 * SECOND),
];

/// A branch is chosen by a time; what isn't needed when the time moves is brought up to date later.
const OPTION: &[(Act, i64)] = &[
    (Act::Var(1), 0),
    (Act::Every(2_000_000_000), 0),
    (Act::After(5_000_000_000), 0),
    (Act::If(2, 1, 0), 0),
    (Act::Observe(3), 0),
    (Act::Stabilize, 0),
    (Act::Show(0), 1),
    (Act::Advance(4 * SECOND), 0),
    (Act::Stabilize, 0),
    (Act::Show(0), 1),
    (Act::Advance(5 * SECOND), 0),
    (Act::Stabilize, 0),
    (Act::Show(0), 2),
    (Act::Advance(100 * SECOND), 0),
    (Act::Stabilize, 0),
    (Act::Show(0), 50),
];

/// What is refused, and changes nothing: empty spans, a time past the greatest, times that don't rise, a time that has gone.
const REFUSED: &[(Act, i64)] = &[
    (Act::Every(0), -116),
    (Act::Steps(0, 2, 1, 1, 2), -119),
    (Act::Time, 0),
    (Act::Advance(-1), -117),
    (Act::After(9_223_372_036_854_775_807), 0),
    (Act::Advance(1), 0),
    (Act::After(9_223_372_036_854_775_807), -118),
    (Act::After(9_223_372_036_854_775_806), 0),
    (Act::Advance(LAST), 0),
    (Act::After(1), -118),
    (Act::After(18_446_744_073_709_551_615), -118),
    (Act::After(0), 0),
    (Act::Every(1), 0),
    (Act::Advance(LAST - 1), -117),
    (Act::Time, LAST),
    (Act::Observe(0), 0),
    (Act::Observe(1), 0),
    (Act::Observe(2), 0),
    (Act::Observe(3), 0),
    (Act::Stabilize, 0),
    (Act::Show(0), 1),
    (Act::Show(1), 1),
    (Act::Show(2), 1),
    (Act::Show(3), 0),
    (Act::Set(0, 1), -103),
];

/// Nodes that were taken back don't come into the heap, and other nodes under their slots read the clock.
const TAKEN_BACK: &[(Act, i64)] = &[
    (Act::Now, 0),
    (Act::Observe(0), 0),
    (Act::TakeBack(0), 0),
    (Act::Advance(SECOND), 0),
    (Act::At(2 * SECOND), 0),
    (Act::Observe(3), 0),
    (Act::Stabilize, 0),
    (Act::Show(0), SECOND),
    (Act::Show(1), 0),
    (Act::Advance(2 * SECOND), 0),
    (Act::Stabilize, 0),
    (Act::Show(1), 1),
];

/// A broken graph isn't moved on.
const BROKEN: &[(Act, i64)] = &[
    (Act::Chain(129), 0),
    (Act::Stabilize, -112),
    (Act::Advance(1), -101),
    (Act::Every(0), -101),
    (Act::Steps(0, 2, 1, 1, 2), -101),
    (Act::After(18_446_744_073_709_551_615), -101),
    (Act::Time, 0),
];

/// All of them.
pub(crate) const TIME_TABLES: &[&[(Act, i64)]] = &[
    SWITCH, COUNT, STEPS, CLOCK, OPTION, REFUSED, TAKEN_BACK, BROKEN,
];

/// The steps to these numbers.
fn listed(alloc: Global, steps: &[(i64, i64)]) -> Result<Vec<Step>, AllocError> {
    let mut list = Vec::new(alloc);
    for (time, number) in steps {
        let value = Value::Int(*number);
        list.push(Step { time: *time, value })?;
    }
    Ok(list)
}

/// Makes a node that shows a number, and then that of the last step whose time has come.
fn make_steps(
    alloc: Global,
    graph: &mut Scripted,
    nodes: &mut Vec<NodeId>,
    initial: i64,
    steps: &[(i64, i64)],
) -> i64 {
    match listed(alloc, steps) {
        Ok(list) => made(nodes, graph.steps(Value::Int(initial), list)),
        Err(AllocError) => NO_MEMORY,
    }
}

/// Makes a node that reads the clock, or does another act that makes nodes.
pub(crate) fn make_timed(
    alloc: Global,
    graph: &mut Scripted,
    nodes: &mut Vec<NodeId>,
    act: Act,
) -> i64 {
    match act {
        Act::At(time) => made(nodes, graph.at(time)),
        Act::Now => made(nodes, graph.now()),
        Act::After(span) => made(nodes, graph.after(span)),
        Act::Every(span) => made(nodes, graph.every(span)),
        Act::Steps(initial, first_time, first, second_time, second) => {
            let steps = [(first_time, first), (second_time, second)];
            make_steps(alloc, graph, nodes, initial, &steps)
        }
        _ => make(graph, nodes, act),
    }
}
