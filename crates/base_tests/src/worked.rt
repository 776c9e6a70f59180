//! Worked cases on calls of single crates: what is a text, ids in an arena, the lowest of a heap, heights that are levelled,
//! need that goes.

use height_order::Heights;
use inc_terms::{Def, Nodes};
use inc_value::{FnId, FnKind, FnRef, NodeId, Part, Point, Sig, Text, TextFault, Ty, Value};
use necessity::Needs;
use node_arena::{AddFault, Arena};
use recompute_heap::RecomputeHeap;
use std::alloc::Global;

fn point(slot: usize) -> Point {
    Point {
        node: NodeId { slot, gen_: 0 },
        part: Part::Main,
    }
}

// ---- texts

/// Whether so many of the byte are a text, or are none for the reason wanted.
fn tells(alloc: Global, byte: u8, count: usize, wanted: Option<TextFault>) -> bool {
    match vec![in alloc; byte; count] {
        Ok(bytes) => Text::new(alloc, &bytes).err() == wanted,
        Err(_) => false,
    }
}

/// Whether bytes that are a text are told from those that are none.
fn texts_are_told(alloc: Global) -> bool {
    tells(alloc, b'a', 4_096, None)
        && tells(alloc, b'a', 4_097, Some(TextFault::TooLong))
        && tells(alloc, 0x0A, 1, Some(TextFault::NotPrintable))
}

// ---- an arena

/// The function `neg` of one integer.
fn neg() -> FnRef {
    FnRef {
        id: FnId {
            kind: FnKind::Map,
            number: 6,
        },
        sig: Sig::new(&[Ty::Int], Ty::Int),
    }
}

/// Adds a constant.
fn add(arena: &mut Arena, value: Value, ty: Ty) -> Result<NodeId, AddFault> {
    arena.add(Def::Const(value), ty, None)
}

/// Whether a map by `neg` of a node isn't added for the reason wanted, or is added.
fn is_fault(arena: &mut Arena, alloc: Global, kid: NodeId, wanted: Option<AddFault>) -> bool {
    match Nodes::from_slice(alloc, &[kid]) {
        Ok(nodes) => arena.add(Def::Map(neg(), nodes), Ty::Int, None).err() == wanted,
        Err(_) => false,
    }
}

/// Whether maps of a node that was never given and of a truth value are refused, and one of a number isn't.
fn refuses(arena: &mut Arena, alloc: Global, one: NodeId) -> bool {
    let Ok(truth) = add(arena, Value::Bool(true), Ty::Bool) else {
        return false;
    };
    let never = NodeId { slot: 0, gen_: 9 };
    is_fault(arena, alloc, never, Some(AddFault::Unknown))
        && is_fault(arena, alloc, truth, Some(AddFault::WrongType))
        && is_fault(arena, alloc, one, None)
}

/// Whether a node that is added after a drop has an id of its own.
fn gives_a_new_id(arena: &mut Arena, first: NodeId) -> bool {
    if arena.is_live(first) {
        arena.drop_node(first);
    }
    match add(arena, Value::Int(1), Ty::Int) {
        Ok(second) => second != first && !arena.is_live(first) && arena.is_live(second),
        Err(_) => false,
    }
}

/// Whether nodes are found, refused and dropped in an empty arena.
fn holds_nodes(arena: &mut Arena, alloc: Global) -> bool {
    match add(arena, Value::Int(1), Ty::Int) {
        Ok(one) => arena.is_live(one) && refuses(arena, alloc, one) && gives_a_new_id(arena, one),
        Err(_) => false,
    }
}

/// The same of one of its own.
fn arena_is_well(alloc: Global) -> bool {
    let mut arena = Arena::new(alloc);
    let well = holds_nodes(&mut arena, alloc);
    drop(arena);
    well
}

// ---- a heap

/// Puts a point in, if it isn't there and the height is one, and tells whether there was memory.
fn put(heap: &mut RecomputeHeap, p: Point, height: u32) -> bool {
    if heap.reserve(1).is_err() {
        return false;
    }
    if height <= 128 && !heap.holds(p) {
        heap.insert(p, height);
    }
    true
}

/// Gives a point another height, if it is there and the height is one.
fn lift(heap: &mut RecomputeHeap, p: Point, height: u32) {
    if height <= 128 && heap.holds(p) {
        heap.raise(p, height);
    }
}

/// The slot and the height of a point of least height, taken off.
fn pop(heap: &mut RecomputeHeap) -> Option<(usize, u32)> {
    heap.pop_least().map(|(p, height)| (p.node.slot, height))
}

/// Whether the lowest of three comes first, also after one that is left was lifted.
fn lowest_first(heap: &mut RecomputeHeap) -> bool {
    if !(put(heap, point(0), 2) && put(heap, point(1), 1) && put(heap, point(2), 1)) {
        return false;
    }
    let other = match pop(heap) {
        Some((1, 1)) => 2,
        Some((2, 1)) => 1,
        _ => return false,
    };
    lift(heap, point(other), 5);
    pop(heap) == Some((0, 2)) && pop(heap) == Some((other, 5)) && pop(heap).is_none()
}

/// The same of one of its own.
fn heap_is_well(alloc: Global) -> bool {
    let mut heap = RecomputeHeap::new(alloc);
    let well = lowest_first(&mut heap);
    drop(heap);
    well
}

// ---- heights

/// Adds a point, and tells whether that was done.
fn stand(heights: &mut Heights, p: Point) -> bool {
    !heights.holds(p) && heights.add(p).is_ok()
}

/// Makes a point read another, and tells whether that was done.
fn link(heights: &mut Heights, moved: &mut Vec<Point>, p: Point, q: Point) -> bool {
    heights.holds(p) && heights.holds(q) && heights.link(p, q, moved).is_ok()
}

/// Whether the point stands at this height.
fn stands_at(heights: &Heights, p: Point, height: u32) -> bool {
    heights.holds(p) && heights.height(p) == height
}

/// Whether three points stand at these heights.
fn stand_at(heights: &Heights, a: u32, b: u32, c: u32) -> bool {
    stands_at(heights, point(0), a)
        && stands_at(heights, point(1), b)
        && stands_at(heights, point(2), c)
}

/// Has a point read another for a while, and tells whether the three stood at 2, 1 and 0.
fn stand_for_a_while(heights: &mut Heights, moved: &mut Vec<Point>, p: Point, q: Point) -> bool {
    if heights.holds(p) && heights.holds(q) {
        return match heights.link(p, q, moved) {
            Ok(()) => {
                let well = stand_at(heights, 2, 1, 0);
                heights.unlink(p, q);
                well
            }
            Err(_) => false,
        };
    }
    false
}

/// Whether the first falls to the ground without its link, once heights are levelled.
fn falls(heights: &mut Heights, moved: &mut Vec<Point>) -> bool {
    stand(heights, point(0))
        && stand(heights, point(1))
        && stand(heights, point(2))
        && link(heights, moved, point(1), point(2))
        && stand_for_a_while(heights, moved, point(0), point(1))
        && heights.relevel(moved).is_ok()
        && stand_at(heights, 0, 1, 0)
}

/// The same of heights of its own.
fn heights_are_well(alloc: Global) -> bool {
    let (mut heights, mut moved) = (Heights::new(alloc), Vec::new(alloc));
    let well = falls(&mut heights, &mut moved);
    drop(heights);
    drop(moved);
    well
}

// ---- need

/// Makes a point read another that reads none yet, and tells whether there was memory.
fn attach(needs: &mut Needs, p: Point, q: Point) -> bool {
    if p == q {
        return true;
    }
    if needs.kids(q).next().is_some() {
        return true;
    }
    needs.attach(p, q).is_ok()
}

/// Takes off a point's link to the first that it reads.
fn detach_first(needs: &mut Needs, p: Point) {
    if let Some(kid) = needs.kids(p).next() {
        needs.detach(p, kid);
    }
}

/// Whether three points are needed as told.
fn are_needed(needs: &Needs, a: bool, b: bool, c: bool) -> bool {
    needs.is_needed(point(0)) == a
        && needs.is_needed(point(1)) == b
        && needs.is_needed(point(2)) == c
}

/// Whether a link that is detached takes the need of the points below off.
fn need_goes(needs: &mut Needs) -> bool {
    if !(needs.make_needed(point(0)).is_ok()
        && attach(needs, point(0), point(1))
        && attach(needs, point(1), point(2))
        && are_needed(needs, true, true, true))
    {
        return false;
    }
    detach_first(needs, point(0));
    are_needed(needs, true, false, false)
}

/// The same of one of its own.
fn needs_are_well(alloc: Global) -> bool {
    let mut needs = Needs::new(alloc);
    let well = need_goes(&mut needs);
    drop(needs);
    well
}

#[test]
fn single_crates(rt: HostRuntime) {
    assert!(rt; texts_are_told(rt.alloc()));
    assert!(rt; arena_is_well(rt.alloc()));
    assert!(rt; heap_is_well(rt.alloc()));
    assert!(rt; heights_are_well(rt.alloc()));
    assert!(rt; needs_are_well(rt.alloc()));
}
