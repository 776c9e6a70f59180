//! Bodies written by hand, kept beside a library, and built in an arena.
ghost use Rattle.std.specs.Prelude.{◌≡◌, [], ◌∷◌, IfSome, IsTrue};
ghost use Rattle.inc_value.specs.Choice.{Among};
ghost use Rattle.inc_value.specs.declared.function.FnKind.TheVariants.{Map, Rhs};
ghost use Rattle.inc_terms.specs.Within.{Given};
ghost use Rattle.node_arena.specs.Listing.{Listed};
ghost use Rattle.node_arena.specs.Meanings.{SameKnown};
ghost use Rattle.node_arena.specs.RightSide.{IsEmpty, SameSides};
ghost use Rattle.node_arena.specs.Sound.{IsSoundArena};
ghost use Rattle.node_arena.specs.Typing.{Fits};
ghost use Rattle.script_functions.specs.Bodies.{side_of};

use inc_terms::{Def, Nodes};
use inc_value::{FnKind, FnRef, NodeId, Sig, Ty, Value};
use node_arena::{Arena, Functions};
use script_functions::{Body, Draft, Line, ListedNode, Part, Parts, ScriptFns};
use std::alloc::Global;
use std::test::Fail;
use std_library::{Function, StdLib};

/// Of an integer and a captured one, their sum.
fn sum(alloc: Global, add: FnRef) -> Option<Body>
    ensures sig { IfSome result (λ b. b.draft.sig ≡ record { takes = Ty.Int ∷ Ty.Int ∷ []; gives = Ty.Int }) }
    ensures uses { IfSome result (λ b. (side_of b).uses ≡ record { function = add; most = 0 } ∷ []) }
    ensures ids { IfSome result (λ b. (side_of b).ids ≡ []) }
{
    let sig = Sig::new(&[Ty::Int, Ty::Int], Ty::Int);
    let mut draft = Draft::new(alloc, sig, Vec::new(alloc));
    let parts = Parts::from_slice(alloc, &[Part::Line(0), Part::Captured(0)]).ok()?;
    let sum = draft.add(Line::Map(add, parts)).ok()?;
    Body::new(draft, sum).ok()
}

/// Of an integer and a captured one, the bind of a node by the function, which captures their sum. It takes so many
/// nodes at most.
fn bind_of_sum(
    alloc: Global,
    add: &FnRef,
    node: NodeId,
    function: &FnRef,
    most: u64,
) -> Option<Body>
    ensures sig { IfSome result (λ b. b.draft.sig ≡ record { takes = Ty.Int ∷ Ty.Int ∷ []; gives = Ty.Int }) }
    ensures uses { IfSome result (λ b. (side_of b).uses
        ≡ record { function = add.now; most = 0 } ∷ record { function = function.now; most = most } ∷ []) }
    ensures ids { IfSome result (λ b. (side_of b).ids ≡ record { node = node; ty = Ty.Int } ∷ []) }
{
    let sig = Sig::new(&[Ty::Int, Ty::Int], Ty::Int);
    let mut listed = Vec::new(alloc);
    listed.push(ListedNode::new(node, Ty::Int)).ok()?;
    let mut draft = Draft::new(alloc, sig, listed);
    let parts = Parts::from_slice(alloc, &[Part::Line(0), Part::Captured(0)]).ok()?;
    let sum = draft.add(Line::Map(*add, parts)).ok()?;
    let captures = Parts::from_slice(alloc, &[sum]).ok()?;
    let bind = draft.add(Line::Bind {
        left: Part::Listed(0),
        function: *function,
        most,
        captures,
    });
    Body::new(draft, bind.ok()?).ok()
}

/// A node that was given, and is of integers or dead.
fn is_integer(arena: &Arena, node: NodeId) -> bool
    ensures given { IsTrue result → Given arena.now.given node }
    ensures fits { IsTrue result → Fits arena.now node Ty.Int }
{
    node.gen_ < arena.given() && arena.get(node).is_none_or(|row| row.ty == Ty::Int)
}

/// Adds a bind of the node by the function. No node stands in its scope.
fn add_bind(
    alloc: Global,
    arena: &mut Arena,
    left: NodeId,
    function: FnRef,
    captured: NodeId,
) -> Option<NodeId>
    requires arena { IsSoundArena arena.old }
    ensures arena { IsSoundArena arena.new }
    ensures given { IfSome result (Given arena.new.given) }
    ensures empty { IfSome result (IsEmpty arena.new) }
{
    let def = Def::Bind {
        left,
        function,
        captures: Nodes::from_slice(alloc, &[captured]).ok()?,
    };
    match arena.add(def, Ty::Int, None) {
        Ok(bind) => Some(bind),
        Err(_) => None,
    }
}

/// Keeps the sum, and then the bind of the node by it.
fn keep_both(
    alloc: Global,
    functions: &mut ScriptFns<StdLib>,
    add: &FnRef,
    node: NodeId,
) -> Option<(FnRef, FnRef)>
    requires sound { ⟦<ScriptFns<StdLib> as Functions>⟧.is_sound functions.old }
    requires known { IsTrue (⟦<ScriptFns<StdLib> as Functions>⟧.known functions.old add.now) }
    requires kind { add.now.id.kind ≡ Map }
    ensures sound { ⟦<ScriptFns<StdLib> as Functions>⟧.is_sound functions.new }
    ensures sum { IfSome result (λ r. IsTrue (⟦<ScriptFns<StdLib> as Functions>⟧.known functions.new r.0)) }
    ensures sum_kind { IfSome result (λ r. r.0.id.kind ≡ Rhs) }
    ensures sum_sig { IfSome result (λ r. r.0.sig ≡ record { takes = Ty.Int ∷ Ty.Int ∷ []; gives = Ty.Int }) }
    ensures sum_ids { IfSome result (λ r. (⟦<ScriptFns<StdLib> as Functions>⟧.right functions.new r.0).ids ≡ []) }
    ensures bind { IfSome result (λ r. IsTrue (⟦<ScriptFns<StdLib> as Functions>⟧.known functions.new r.1)) }
    ensures bind_kind { IfSome result (λ r. r.1.id.kind ≡ Rhs) }
    ensures bind_sig { IfSome result (λ r. r.1.sig ≡ record { takes = Ty.Int ∷ Ty.Int ∷ []; gives = Ty.Int }) }
    ensures bind_ids { IfSome result (λ r. (⟦<ScriptFns<StdLib> as Functions>⟧.right functions.new r.1).ids
        ≡ record { node = node; ty = Ty.Int } ∷ []) }
{
    let inner = sum(alloc, *add)?;
    let most = inner.size();
    let Ok(function) = functions.more(alloc, inner) else {
        return None;
    };
    let outer = bind_of_sum(alloc, add, node, &function, most)?;
    let Ok(bind) = functions.more(alloc, outer) else {
        return None;
    };
    Some((function, bind))
}

/// Builds what the function makes of the integer and the captured node, in the scope of a new bind of the listed node.
fn build(
    alloc: Global,
    functions: &mut ScriptFns<StdLib>,
    arena: &mut Arena,
    function: &FnRef,
    left: i64,
    listed: NodeId,
    captured: NodeId,
) -> Option<NodeId>
    requires sound { ⟦<ScriptFns<StdLib> as Functions>⟧.is_sound functions.old }
    requires known { IsTrue (⟦<ScriptFns<StdLib> as Functions>⟧.known functions.old function.now) }
    requires kind { function.now.id.kind ≡ Rhs }
    requires sig { function.now.sig ≡ record { takes = Ty.Int ∷ Ty.Int ∷ []; gives = Ty.Int } }
    requires ids { (x : Listed) → Among x (⟦<ScriptFns<StdLib> as Functions>⟧.right functions.old function.now).ids
        → x ≡ record { node = listed; ty = Ty.Int } }
    requires arena { IsSoundArena arena.old }
    ensures sound { ⟦<ScriptFns<StdLib> as Functions>⟧.is_sound functions.new }
    ensures arena { IsSoundArena arena.new }
    ensures same_known { SameKnown (⟦<ScriptFns<StdLib> as Functions>⟧.known functions.old)
        (⟦<ScriptFns<StdLib> as Functions>⟧.known functions.new) }
    ensures same_sides { SameSides (⟦<ScriptFns<StdLib> as Functions>⟧.right functions.old)
        (⟦<ScriptFns<StdLib> as Functions>⟧.right functions.new) }
{
    let bind = add_bind(alloc, arena, listed, *function, captured)?;
    if !is_integer(arena, listed) || !is_integer(arena, captured) {
        return None;
    }
    let left = Value::Int(left);
    let root = arena.build(alloc, functions, bind, *function, &left, &[captured]);
    drop(left);
    root.ok()
}

/// The nodes that the bind captures, where it is one of the node by the function.
fn captured_by(arena: &Arena, bind: NodeId, left: NodeId, function: &FnRef) -> Option<NodeId> {
    match arena.get(bind) {
        Some(row) => match &row.def {
            Def::Bind {
                left: of,
                function: by,
                captures,
            } if *of == left && by == function => captures.as_slice().first().copied(),
            _ => None,
        },
        None => None,
    }
}

/// Whether the node maps a constant of the number, and the other node, by the function.
fn maps_number(arena: &Arena, node: NodeId, function: &FnRef, number: i64, other: NodeId) -> bool {
    match arena.get(node) {
        Some(row) => match &row.def {
            Def::Map(f, kids) => match kids.as_slice() {
                [first, second] => f == function
                    && is_number(arena, *first, number)
                    && *second == other,
                _ => false,
            },
            _ => false,
        },
        None => false,
    }
}

/// Whether the node is a constant of the number.
fn is_number(arena: &Arena, node: NodeId, number: i64) -> bool {
    match arena.get(node) {
        Some(row) => matches!(&row.def, Def::Const(Value::Int(constant)) if *constant == number),
        None => false,
    }
}

/// Builds a body whose line is a bind by another body, and then that one, each in the scope of a bind: what is built is
/// one node for each line and one for the left value, which read the capture, the listed node and each other as the
/// lines say.
#[test]
fn builds_a_bind_of_a_sum(rt: HostRuntime) -> Result<(), Fail> {
    let alloc = rt.alloc();
    let mut functions = ScriptFns::new(alloc, StdLib::new());
    let add = Function::Add.reference();
    assert!(rt; functions.knows(add) && add.id.kind == FnKind::Map);
    let mut arena = Arena::new(alloc);
    let x = arena.add(Def::Var(Value::Int(1)), Ty::Int, None)?;
    let y = arena.add(Def::Var(Value::Int(2)), Ty::Int, None)?;
    let kept = keep_both(alloc, &mut functions, &add, y);
    assert!(rt; kept.is_some());
    let Some((sum, bind_of_sum)) = kept else {
        return Ok(());
    };
    let root = build(alloc, &mut functions, &mut arena, &bind_of_sum, 5, y, x);
    assert_eq!(rt; arena.live(), 6);
    let captured = root.and_then(|bind| captured_by(&arena, bind, y, &sum));
    let is_right = captured.is_some_and(|node| maps_number(&arena, node, &add, 5, x));
    assert!(rt; is_right);
    let root = build(alloc, &mut functions, &mut arena, &sum, 7, x, y);
    assert_eq!(rt; arena.live(), 9);
    let is_right = root.is_some_and(|node| maps_number(&arena, node, &add, 7, y));
    assert!(rt; is_right);
    Ok(())
}
