//! Callers that build right sides in an arena, over any functions.
ghost use Rattle.std.specs.Prelude.{◌≡◌, [], IfSome, IsTrue};
ghost use Rattle.inc_value.specs.Ty.{IsBase};
ghost use Rattle.inc_value.specs.Value.{type_of};
ghost use Rattle.node_arena.specs.Building.{building_in};
ghost use Rattle.node_arena.specs.Meanings.{SameKnown};
ghost use Rattle.node_arena.specs.RightSide.{IsRoot, SameSides};
ghost use Rattle.node_arena.specs.Sound.{IsSoundArena};
ghost use Rattle.closure_examples.specs.Sides.{TakesFirst};

use inc_terms::{Def, Nodes};
use inc_value::{FnRef, NodeId, Ty, Value};
use node_arena::{Arena, Functions};
use std::alloc::Global;

/// A bind, and the root of what was built for it.
#[derive(Clone, Copy)]
pub struct Bound {
    pub bind: NodeId,
    pub root: NodeId,
}

/// Whether the first of the types is this one.
fn takes_first(takes: &[Ty], ty: Ty) -> bool
    ensures { IsTrue result → TakesFirst takes.now ty }
{
    match takes {
        [first, ..] => *first == ty,
        _ => false,
    }
}

/// Adds a bind of the nodes, and builds its right side for a left value that names no node. None where the types don't
/// fit, the arena is full or there is no memory.
pub fn bind_and_build<F: Functions>(
    alloc: Global,
    functions: &mut F,
    arena: &mut Arena,
    f: FnRef,
    left: NodeId,
    captures: &[NodeId],
    value: &Value,
) -> Option<Bound>
    requires sound { F.is_sound functions.old }
    requires known { IsTrue (F.known functions.old f) }
    requires lists_none { (F.right functions.old f).ids ≡ [] }
    requires base { IsBase (type_of value.now) }
    requires arena { IsSoundArena arena.old }
    ensures sound { F.is_sound functions.new }
    ensures arena { IsSoundArena arena.new }
    ensures same_known { SameKnown (F.known functions.old) (F.known functions.new) }
    ensures same_sides { SameSides (F.right functions.old) (F.right functions.new) }
    ensures root { IfSome result (λ b. IsRoot (building_in b.bind arena.new) captures.now b.root
        ((F.right functions.old f).term value.now) f.sig.gives) }
{
    if !takes_first(f.sig.takes(), value.ty()) {
        return None;
    }
    let Ok(nodes) = Nodes::from_slice(alloc, captures) else {
        return None;
    };
    let def = Def::Bind {
        left,
        function: f,
        captures: nodes,
    };
    let Ok(bind) = arena.add(def, f.sig.gives(), None) else {
        return None;
    };
    match arena.build(alloc, functions, bind, f, value, captures) {
        Ok(root) => Some(Bound { bind, root }),
        Err(_) => None,
    }
}
