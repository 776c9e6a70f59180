//! A table of links put on and taken off in some order, and each call once.

use inc_value::{NodeId, Part, Point};
use link_table::LinkTable;
use std::alloc::Global;

/// The links that are put on, by the slots of reader and kid, in this order.
const ON: &[(usize, usize)] = &[
    (1, 9),
    (2, 9),
    (1, 9),
    (3, 9),
    (1, 8),
    (4, 9),
    (5, 5),
    (3, 1),
];

/// The links that are taken off, where they are there.
const OFF: &[(usize, usize)] = &[(2, 9), (1, 9), (5, 5), (7, 9)];

/// How many kids and how many readers a point is left with.
const LEFT: &[(usize, usize, usize)] = &[
    (1, 2, 1),
    (2, 0, 0),
    (3, 2, 0),
    (4, 1, 0),
    (5, 0, 0),
    (8, 0, 1),
    (9, 0, 3),
];

fn point(slot: usize) -> Point {
    Point {
        node: NodeId { slot, gen_: 7 },
        part: Part::Main,
    }
}

/// Puts a link on, once more, and tells whether there was memory.
fn put(table: &mut LinkTable, p: usize, q: usize) -> bool {
    table.add(point(p), point(q)).is_ok()
}

/// Takes a link off, if it is there.
fn take(table: &mut LinkTable, p: usize, q: usize) {
    let (p, q) = (point(p), point(q));
    if table.reads(p, q) {
        table.remove(p, q);
    }
}

/// Puts links on, and tells whether there was memory.
fn put_all(table: &mut LinkTable, links: &[(usize, usize)]) -> bool {
    for (p, q) in links {
        if !put(table, *p, *q) {
            return false;
        }
    }
    true
}

/// Takes links off, where they are there.
fn take_all(table: &mut LinkTable, links: &[(usize, usize)]) {
    for (p, q) in links {
        take(table, *p, *q);
    }
}

/// Whether each point has so many kids and readers.
fn has_all(table: &LinkTable, wanted: &[(usize, usize, usize)]) -> bool {
    for (p, kids, readers) in wanted {
        let p = point(*p);
        if table.kids(p).count() != *kids || table.readers(p).count() != *readers {
            return false;
        }
    }
    true
}

/// Whether links come and go.
fn come_and_go(table: &mut LinkTable) -> bool {
    if !put_all(table, ON) {
        return false;
    }
    take_all(table, OFF);
    has_all(table, LEFT)
}

/// The same of one of its own.
fn links_on_and_off_well(alloc: Global) -> bool {
    let mut table = LinkTable::new(alloc);
    let well = come_and_go(&mut table);
    drop(table);
    well
}

#[test]
fn links_on_and_off(rt: HostRuntime) {
    assert!(rt; links_on_and_off_well(rt.alloc()));
}
