//! Acts on a graph of needed points as tables, with the number that each answers.

use height_order::LinkFault;
use inc_value::{NodeId, Part, Point};
use necessary_graph::{Leaves, NecessaryGraph};
use std::alloc::Global;

/// What is done to a graph of points, which go by their slots.
#[derive(Clone, Copy)]
enum Act {
    /// Adds a point that isn't there.
    Add(usize),
    /// Adds a point that isn't there at a height.
    AddAt(usize, u32),
    /// Adds so many points, all roots, of which those from 1 to 128 read each the one before.
    Chain(usize),
    /// Drops a point that isn't needed.
    Drop(usize),
    Root(usize),
    Unroot(usize),
    /// Links a needed point to one that is there.
    Link(usize, usize),
    /// Takes off a point's link to the first that it reads.
    Unlink(usize),
    /// Puts a needed point into the heap.
    Schedule(usize),
    /// Takes the lowest point out of the heap.
    Pop,
    Height(usize),
    /// Whether a point is needed, as a hundred, in the heap, as a ten, and reads another, as a one.
    State(usize),
}

/// What an act answers that was done.
const DONE: i64 = 0;

/// What an act answers that found nothing to be done, or no point.
const NONE: i64 = -1;

/// What an act answers that found no memory.
const NO_MEMORY: i64 = -2;

/// What comes out of the heap, by heights.
const LOWEST_FIRST: &[(Act, i64)] = &[
    (Act::Add(0), DONE),
    (Act::Add(1), DONE),
    (Act::Add(2), DONE),
    (Act::Root(0), DONE),
    (Act::Link(0, 1), DONE),
    (Act::Link(1, 2), DONE),
    (Act::Schedule(1), DONE),
    (Act::Schedule(0), DONE),
    (Act::Schedule(2), DONE),
    (Act::Height(0), 2),
    (Act::Height(1), 1),
    (Act::Height(2), 0),
    (Act::Pop, 2),
    (Act::Pop, 1),
    (Act::Pop, 0),
    (Act::Pop, NONE),
];

/// What is no longer needed loses its links and leaves the heap.
const NO_LONGER_NEEDED: &[(Act, i64)] = &[
    (Act::Add(0), DONE),
    (Act::Add(1), DONE),
    (Act::Add(2), DONE),
    (Act::Add(3), DONE),
    (Act::Root(0), DONE),
    (Act::Root(3), DONE),
    (Act::Link(0, 1), DONE),
    (Act::Link(1, 2), DONE),
    (Act::Link(2, 3), DONE),
    (Act::Schedule(1), DONE),
    (Act::Schedule(2), DONE),
    (Act::Schedule(3), DONE),
    (Act::State(0), 101),
    (Act::State(1), 111),
    (Act::Unlink(0), DONE),
    (Act::State(0), 100),
    (Act::State(1), 0),
    (Act::State(2), 0),
    (Act::State(3), 110),
    (Act::Pop, 3),
];

/// Without a root nothing is needed, and every point may be dropped.
const ROOT_OFF: &[(Act, i64)] = &[
    (Act::Add(0), DONE),
    (Act::Add(1), DONE),
    (Act::Root(0), DONE),
    (Act::Link(0, 1), DONE),
    (Act::Schedule(1), DONE),
    (Act::Drop(1), NONE),
    (Act::Unroot(0), DONE),
    (Act::Pop, NONE),
    (Act::Drop(0), DONE),
    (Act::Drop(1), DONE),
    (Act::Height(0), NONE),
    (Act::Height(1), NONE),
];

/// Of two links of the same points one is enough.
const TWO_LINKS: &[(Act, i64)] = &[
    (Act::Add(0), DONE),
    (Act::Add(1), DONE),
    (Act::Root(0), DONE),
    (Act::Link(0, 1), DONE),
    (Act::Link(0, 1), DONE),
    (Act::Unlink(0), DONE),
    (Act::State(1), 100),
    (Act::Unlink(0), DONE),
    (Act::State(1), 0),
];

/// A point that is lifted in the heap comes later.
const LIFTED: &[(Act, i64)] = &[
    (Act::Add(0), DONE),
    (Act::Add(1), DONE),
    (Act::Root(0), DONE),
    (Act::Root(1), DONE),
    (Act::Schedule(0), DONE),
    (Act::Schedule(1), DONE),
    (Act::Link(0, 1), DONE),
    (Act::Pop, 1),
    (Act::Pop, 0),
    (Act::Pop, NONE),
];

/// A point that is added above what it reads isn't moved.
const ADDED_ABOVE: &[(Act, i64)] = &[
    (Act::Add(0), DONE),
    (Act::AddAt(1, 7), DONE),
    (Act::Root(1), DONE),
    (Act::Link(1, 0), DONE),
    (Act::Height(1), 7),
];

/// A chain of 129 points, from 128 down to 0, and one more on top of it.
const LONG_CHAIN: &[(Act, i64)] = &[
    (Act::Chain(130), DONE),
    (Act::Height(128), 128),
    (Act::Link(129, 128), 130_129_000),
    (Act::Height(129), 0),
];

/// Point 129 stands at 128 from a link that went, and is levelled so that 130 may stand on it.
const LEVELLED: &[(Act, i64)] = &[
    (Act::Chain(131), DONE),
    (Act::Link(129, 127), DONE),
    (Act::Unlink(129), DONE),
    (Act::Height(129), 128),
    (Act::Link(130, 129), DONE),
    (Act::Height(130), 1),
];

/// A link that would close a cycle is refused with the path, here from point 1 over 2 to 3.
const CYCLE: &[(Act, i64)] = &[
    (Act::Add(1), DONE),
    (Act::Add(2), DONE),
    (Act::Add(3), DONE),
    (Act::Root(1), DONE),
    (Act::Link(1, 2), DONE),
    (Act::Link(2, 3), DONE),
    (Act::Link(3, 1), 123),
    (Act::State(3), 100),
];

/// A leaf goes with its last reader, and with its last root.
const LEAVES: &[(Act, i64)] = &[
    (Act::Add(0), DONE),
    (Act::Add(1), DONE),
    (Act::Add(500), DONE),
    (Act::Add(501), DONE),
    (Act::Root(0), DONE),
    (Act::Link(0, 1), DONE),
    (Act::Link(0, 500), DONE),
    (Act::Link(1, 500), DONE),
    (Act::Link(1, 500), DONE),
    (Act::Root(501), DONE),
    (Act::Unlink(0), DONE),
    (Act::State(1), 0),
    (Act::Height(1), 1),
    (Act::State(500), 100),
    (Act::Unlink(0), DONE),
    (Act::State(500), 0),
    (Act::Height(500), NONE),
    (Act::Unroot(501), DONE),
    (Act::Height(501), NONE),
    (Act::Drop(1), DONE),
];

const TABLES: &[&[(Act, i64)]] = &[
    LEAVES,
    LOWEST_FIRST,
    NO_LONGER_NEEDED,
    ROOT_OFF,
    TWO_LINKS,
    LIFTED,
    ADDED_ABOVE,
    LONG_CHAIN,
    LEVELLED,
    CYCLE,
];

fn point(slot: usize) -> Point {
    Point {
        node: NodeId { slot, gen_: 0 },
        part: Part::Main,
    }
}

/// The points from slot 500 on are leaves.
#[derive(Drop)]
struct HighSlots {}

impl Leaves for HighSlots {
    ghost use Rattle.std.specs.Prelude.{nat_le};

    ghost is_leaf = { λ s p. nat_le 500 p.node.slot };

    fn has(&self, p: Point) -> bool {
        p.node.slot >= 500
    }
}

/// A point's slot.
fn slot_of(p: Point) -> i64 {
    i64::try_from(p.node.slot).unwrap_or(i64::MAX)
}

/// How many points a chain has, its first and its last, three digits each.
fn ends(chain: &[Point]) -> i64 {
    let (Some(first), Some(last)) = (chain.first(), chain.last()) else {
        return NONE;
    };
    let count = i64::try_from(chain.len()).unwrap_or(i64::MAX);
    let front = count.saturating_mul(1_000).saturating_add(slot_of(*first));
    front.saturating_mul(1_000).saturating_add(slot_of(*last))
}

/// The points' slots, as the digits of a number.
fn digits(points: &[Point]) -> i64 {
    let mut number: i64 = 0;
    for p in points {
        number = number.saturating_mul(10).saturating_add(slot_of(*p));
    }
    number
}

fn add(graph: &mut NecessaryGraph, p: Point, height: u32) -> i64 {
    if height > 128 || graph.is_there(p) {
        return NONE;
    }
    match graph.add(p, height) {
        Ok(()) => DONE,
        Err(_) => NO_MEMORY,
    }
}

fn drop_point(graph: &mut NecessaryGraph, p: Point) -> i64 {
    if graph.is_there(p) && !graph.is_needed(p) {
        graph.drop_point(p);
        return DONE;
    }
    NONE
}

fn root(graph: &mut NecessaryGraph, p: Point) -> i64 {
    if !graph.is_there(p) {
        return NONE;
    }
    match graph.root_on(p) {
        Ok(_) => DONE,
        Err(_) => NO_MEMORY,
    }
}

fn unroot(graph: &mut NecessaryGraph, p: Point) -> i64 {
    if graph.is_root(p) {
        graph.root_off(p, &HighSlots {});
        return DONE;
    }
    NONE
}

/// The points of a refused path as digits, or the ends of a chain that is too long.
fn refusal(fault: &LinkFault) -> i64 {
    match fault {
        LinkFault::Path(path) => digits(path),
        LinkFault::Over(chain) => ends(chain),
        LinkFault::Memory => NO_MEMORY,
    }
}

fn link(graph: &mut NecessaryGraph, p: Point, q: Point) -> i64 {
    if graph.is_needed(p) && graph.is_there(q) {
        return match graph.link(p, q) {
            Ok(_) => DONE,
            Err(fault) => refusal(&fault),
        };
    }
    NONE
}

fn chain(graph: &mut NecessaryGraph, count: usize) -> i64 {
    let mut worst = DONE;
    for slot in 0..count {
        worst = worst.min(add(graph, point(slot), 0));
        worst = worst.min(root(graph, point(slot)));
    }
    for slot in 1..count.min(129) {
        worst = worst.min(link(graph, point(slot), point(slot - 1)));
    }
    worst
}

fn unlink_first(graph: &mut NecessaryGraph, p: Point) -> i64 {
    if let Some(kid) = graph.kids(p).next() {
        graph.unlink(p, kid, &HighSlots {});
        return DONE;
    }
    NONE
}

fn schedule(graph: &mut NecessaryGraph, p: Point) -> i64 {
    if graph.is_needed(p) {
        graph.insert(p);
        return DONE;
    }
    NONE
}

fn pop(graph: &mut NecessaryGraph) -> i64 {
    match graph.pop_least() {
        Some(p) => slot_of(p),
        None => NONE,
    }
}

fn height(graph: &NecessaryGraph, p: Point) -> i64 {
    if graph.is_there(p) {
        return i64::from(graph.height(p));
    }
    NONE
}

fn state(graph: &NecessaryGraph, p: Point) -> i64 {
    let needed = if graph.is_needed(p) { 100 } else { 0 };
    let held = if graph.holds(p) { 10 } else { 0 };
    let reads = if graph.kids(p).next().is_some() { 1 } else { 0 };
    needed + held + reads
}

fn perform(graph: &mut NecessaryGraph, act: Act) -> i64 {
    match act {
        Act::Add(p) => add(graph, point(p), 0),
        Act::AddAt(p, height) => add(graph, point(p), height),
        Act::Chain(count) => chain(graph, count),
        Act::Drop(p) => drop_point(graph, point(p)),
        Act::Root(p) => root(graph, point(p)),
        Act::Unroot(p) => unroot(graph, point(p)),
        Act::Link(p, q) => link(graph, point(p), point(q)),
        Act::Unlink(p) => unlink_first(graph, point(p)),
        Act::Schedule(p) => schedule(graph, point(p)),
        Act::Pop => pop(graph),
        Act::Height(p) => height(graph, point(p)),
        Act::State(p) => state(graph, point(p)),
    }
}

/// Whether each act answers its number.
fn does_all(graph: &mut NecessaryGraph, acts: &[(Act, i64)]) -> bool {
    for (act, wanted) in acts {
        if perform(graph, *act) != *wanted {
            return false;
        }
    }
    true
}

/// Whether the acts, done to a new graph, answer what is wanted.
fn is_done(alloc: Global, acts: &[(Act, i64)]) -> bool {
    let mut graph = NecessaryGraph::new(alloc);
    let well = does_all(&mut graph, acts);
    drop(graph);
    well
}

/// Whether that is so of each table.
fn are_done(alloc: Global) -> bool {
    for acts in TABLES {
        if !is_done(alloc, acts) {
            return false;
        }
    }
    true
}

#[test]
fn needs_come_and_go(rt: HostRuntime) {
    assert!(rt; are_done(rt.alloc()));
}
