//! Points of one slot side by side, in a map that grows.

use inc_value::{NodeId, Part, Point};
use point_map::PointMap;
use std::alloc::Global;

fn point(slot: usize, gen_: u64, part: Part) -> Point {
    Point {
        node: NodeId { slot, gen_ },
        part,
    }
}

/// Inserts a point, if it isn't there, and tells whether there was memory.
fn put(map: &mut PointMap<u32>, p: Point, row: u32) -> bool {
    if map.reserve(1).is_err() {
        return false;
    }
    if !map.holds(p) {
        map.insert(p, row);
    }
    true
}

/// The row of a point.
fn row(map: &PointMap<u32>, p: Point) -> Option<u32> {
    map.get(p).copied()
}

/// Slots far apart by a power of two, and one beside.
const FAR_APART: &[usize] = &[0, 1024, 2048, 3072, 4096, 5120, 1];

/// Puts three points of each slot in, and tells whether there was memory.
fn put_points(map: &mut PointMap<u32>, slots: &[usize]) -> bool {
    for slot in slots {
        if !(put(map, point(*slot, 3, Part::Main), 5)
            && put(map, point(*slot, 8, Part::Main), 7)
            && put(map, point(*slot, 8, Part::Change), 9))
        {
            return false;
        }
    }
    true
}

/// Whether the three points of each slot are there, and no fourth.
fn has_points(map: &PointMap<u32>, slots: &[usize]) -> bool {
    for slot in slots {
        if row(map, point(*slot, 3, Part::Main)) != Some(5)
            || row(map, point(*slot, 8, Part::Main)) != Some(7)
            || row(map, point(*slot, 8, Part::Change)) != Some(9)
            || row(map, point(*slot, 3, Part::Change)).is_some()
        {
            return false;
        }
    }
    true
}

/// Whether points come in with room made for one at a time.
fn grows(map: &mut PointMap<u32>) -> bool {
    put_points(map, FAR_APART) && has_points(map, FAR_APART) && map.len() == 21
}

/// The same of one of its own.
fn points_are_told_apart_well(alloc: Global) -> bool {
    let mut map = PointMap::new(alloc);
    let well = grows(&mut map);
    drop(map);
    well
}

#[test]
fn points_are_told_apart(rt: HostRuntime) {
    assert!(rt; points_are_told_apart_well(rt.alloc()));
}
