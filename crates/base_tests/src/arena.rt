//! An arena that fills up.

use inc_terms::Def;
use inc_value::{NodeId, Ty, Value};
use node_arena::{AddFault, Arena};
use std::alloc::Global;

/// Adds the constant 1.
fn add_one(arena: &mut Arena) -> Result<NodeId, AddFault> {
    arena.add(Def::Const(Value::Int(1)), Ty::Int, None)
}

/// Drops a node that is live.
fn drop_live(arena: &mut Arena, id: NodeId) {
    if arena.is_live(id) {
        arena.drop_node(id);
    }
}

/// How many nodes are live, and how many ids were given.
fn counts(arena: &Arena) -> (u32, u64) {
    (arena.live(), arena.given())
}

/// Adds so many nodes, and tells whether there was memory.
fn add_ones(arena: &mut Arena, count: u32) -> bool {
    for _ in 0..count {
        if add_one(arena).is_err() {
            return false;
        }
    }
    true
}

/// Adds so many nodes, drops each as soon as it is added, and tells whether there was memory.
fn add_and_drop(arena: &mut Arena, count: u32) -> bool {
    for _ in 0..count {
        match add_one(arena) {
            Ok(id) => drop_live(arena, id),
            Err(_) => return false,
        }
    }
    true
}

/// Whether an empty arena is full with 1,048,576 nodes, behind 1,000 that were dropped, and goes on where one is dropped.
fn fills(arena: &mut Arena) -> bool {
    if !(add_and_drop(arena, 1_000) && add_ones(arena, 1_048_576)) {
        return false;
    }
    if !(add_one(arena) == Err(AddFault::Full) && counts(arena) == (1_048_576, 1_049_576)) {
        return false;
    }
    if let Some(first) = arena.first_since(0) {
        drop_live(arena, first);
    }
    add_one(arena).is_ok() && counts(arena) == (1_048_576, 1_049_577)
}

/// The same of one of its own.
fn fills_well(alloc: Global) -> bool {
    let mut arena = Arena::new(alloc);
    let well = fills(&mut arena);
    drop(arena);
    well
}

#[test]
fn is_full_at_its_limit(rt: HostRuntime) {
    assert!(rt; fills_well(rt.alloc()));
}
