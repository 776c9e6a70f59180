//! Tables of acts on a graph with freezes and experts, with the number that each answers.

use crate::tables::Act;
use crate::tests::{Scripted, made, make, nth, told};
use inc_value::{NodeId, Value};
use std_library::Function;

/// A freeze shows what its child shows, until it keeps a value; that it shows for good.
const FREEZE: &[(Act, i64)] = &[
    (Act::Var(-1), 0),
    (Act::Freeze(Function::Pos, 0), 0),
    (Act::Observe(1), 0),
    (Act::Stabilize, 1),
    (Act::Show(0), -1),
    (Act::Set(0, 4), 0),
    (Act::Stabilize, 1),
    (Act::Show(0), 4),
    (Act::Set(0, 9), 0),
    (Act::Stabilize, 0),
    (Act::Show(0), 4),
    (Act::Freeze(Function::Not, 0), -104),
    (Act::Freeze(Function::Add, 0), -104),
];

/// One that nobody observes is kept up to date with all that it reads, until it keeps a value.
const UNOBSERVED_FREEZE: &[(Act, i64)] = &[
    (Act::Var(1), 0),
    (Act::Map(Function::Neg, 0, 0, 0), 0),
    (Act::Freeze(Function::Pos, 1), 0),
    (Act::Stabilize, 2),
    (Act::Set(0, 2), 0),
    (Act::Stabilize, 2),
    (Act::Set(0, -3), 0),
    (Act::Stabilize, 2),
    (Act::Set(0, -4), 0),
    (Act::Stabilize, 0),
    (Act::Observe(2), 0),
    (Act::Stabilize, 0),
    (Act::Show(0), 3),
    (Act::Calls, 6),
];

/// Observed and frozen, it is needed by its observer alone; taken back before a stabilize it was never a root.
const FREEZE_TAKEN_BACK: &[(Act, i64)] = &[
    (Act::Var(5), 0),
    (Act::Freeze(Function::Pos, 0), 0),
    (Act::Observe(1), 0),
    (Act::Stabilize, 1),
    (Act::Unobserve(0), 0),
    (Act::Observe(1), 0),
    (Act::Stabilize, 0),
    (Act::Show(1), 5),
];

/// The first of a node's links goes first; what is refused changes nothing.
const LINKS: &[(Act, i64)] = &[
    (Act::Var(10), 0),
    (Act::Var(3), 0),
    (Act::Expert(Function::Mul, 1), 0),
    (Act::Observe(2), 0),
    (Act::Stabilize, 0),
    (Act::Show(0), 1),
    (Act::Link(2, 0), 0),
    (Act::Link(2, 1), 0),
    (Act::Link(2, 0), 0),
    (Act::Show(0), 1),
    (Act::Stabilize, 1),
    (Act::Calls, 3),
    (Act::Show(0), 300),
    (Act::Unlink(2, 0), 0),
    (Act::Stabilize, 1),
    (Act::Calls, 5),
    (Act::Show(0), 30),
    (Act::Unlink(2, 0), 0),
    (Act::Unlink(2, 0), -126),
    (Act::Unlink(2, 1), 0),
    (Act::Stabilize, 0),
    (Act::Show(0), 1),
    (Act::Truth(true), 0),
    (Act::Link(2, 3), -104),
    (Act::Link(0, 1), -125),
    (Act::Unlink(0, 1), -125),
    (Act::MakeStale(1), -125),
];

/// A list that changes while nobody needs it counts once it is needed.
const UNNEEDED_LINKS: &[(Act, i64)] = &[
    (Act::Var(1), 0),
    (Act::Var(2), 0),
    (Act::Expert(Function::Add, 0), 0),
    (Act::Link(2, 0), 0),
    (Act::Link(2, 1), 0),
    (Act::Unlink(2, 0), 0),
    (Act::Stabilize, 0),
    (Act::Observe(2), 0),
    (Act::Stabilize, 1),
    (Act::Show(0), 2),
    (Act::Unobserve(0), 0),
    (Act::Link(2, 0), 0),
    (Act::Stabilize, 0),
    (Act::Observe(2), 0),
    (Act::Stabilize, 1),
    (Act::Show(1), 3),
];

/// One that is made stale is called once more, where it is needed.
const STALE: &[(Act, i64)] = &[
    (Act::Var(1), 0),
    (Act::Expert(Function::Add, 0), 0),
    (Act::Link(1, 0), 0),
    (Act::Observe(1), 0),
    (Act::Stabilize, 1),
    (Act::MakeStale(1), 0),
    (Act::MakeStale(1), 0),
    (Act::Stabilize, 1),
    (Act::Stabilize, 0),
    (Act::Unobserve(0), 0),
    (Act::MakeStale(1), 0),
    (Act::Stabilize, 0),
    (Act::Observe(1), 0),
    (Act::Stabilize, 1),
    (Act::Calls, 3),
];

/// A link to what was made later may close a circle, which is refused.
const LINKED_CIRCLE: &[(Act, i64)] = &[
    (Act::Expert(Function::Add, 5), 0),
    (Act::Map(Function::Neg, 0, 0, 0), 0),
    (Act::Expert(Function::Add, 0), 0),
    (Act::Link(2, 1), 0),
    (Act::Observe(2), 0),
    (Act::Stabilize, 2),
    (Act::Show(0), -5),
    (Act::Link(0, 2), 0),
    (Act::Stabilize, -120),
    (Act::Link(0, 1), -121),
    (Act::Points, 4),
];

pub(crate) const LIST_TABLES: &[&[(Act, i64)]] = &[
    FREEZE,
    UNOBSERVED_FREEZE,
    FREEZE_TAKEN_BACK,
    LINKS,
    UNNEEDED_LINKS,
    STALE,
    LINKED_CIRCLE,
];

/// Does an act on a freeze or an expert.
pub(crate) fn list(graph: &mut Scripted, nodes: &mut Vec<NodeId>, act: Act) -> i64 {
    match act {
        Act::Freeze(function, kid) => {
            let kid = nth(nodes, kid);
            made(nodes, graph.freeze(kid, function.reference()))
        }
        Act::Expert(function, initial) => {
            made(
                nodes,
                graph.expert(function.reference(), Value::Int(initial)),
            )
        }
        Act::Link(expert, node) => told(graph.link(nth(nodes, expert), nth(nodes, node))),
        Act::Unlink(expert, node) => told(graph.unlink(nth(nodes, expert), nth(nodes, node))),
        Act::MakeStale(expert) => told(graph.make_stale(nth(nodes, expert))),
        _ => make(graph, nodes, act),
    }
}
