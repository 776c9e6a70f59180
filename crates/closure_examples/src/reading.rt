//! Whether the table builds what it lists, read back from the arena.
ghost use Rattle.std.specs.Prelude.{◌≡◌, [], IsTrue, OnOk};
ghost use Rattle.node_arena.specs.Meanings.{SameKnown};
ghost use Rattle.node_arena.specs.RightSide.{SameSides};
ghost use Rattle.node_arena.specs.Sound.{IsSoundArena};

use crate::building::{Bound, bind_and_build};
use inc_terms::Def;
use inc_value::{Base, FnRef, NodeId, Ty, Value};
use node_arena::{AddFault, Arena, Functions};
use std::alloc::Global;

/// The table's function, and those that its right sides call.
#[derive(Clone, Copy)]
pub struct Named {
    pub table: FnRef,
    pub neg: FnRef,
    pub add: FnRef,
    pub of_left: FnRef,
}

/// What binds of the table read: the left, and the captures.
#[derive(Clone, Copy)]
struct Variables {
    left: NodeId,
    x: NodeId,
    c: NodeId,
    h: NodeId,
}

/// Adds the variables: the captures are 7, true and a reference to the 7.
fn add_variables(arena: &mut Arena) -> Result<Variables, AddFault>
    ensures arena { OnOk result (IsSoundArena arena.new) }
{
    let left = arena.add(Def::Var(Value::Int(1)), Ty::Int, None)?;
    let x = arena.add(Def::Var(Value::Int(7)), Ty::Int, None)?;
    let c = arena.add(Def::Var(Value::Bool(true)), Ty::Bool, None)?;
    let reference = Value::Node(x, Base::Int);
    let h = arena.add(Def::Var(reference), Ty::Node(Base::Int), None)?;
    Ok(Variables { left, x, c, h })
}

/// Whether the node is a constant, of the number, and stands in the scope.
fn is_constant(arena: &Arena, id: NodeId, number: i64, bind: NodeId) -> bool {
    match arena.get(id) {
        Some(row) => {
            matches!(row.def, Def::Const(Value::Int(n)) if n == number)
                && row.ty == Ty::Int
                && row.scope == Some(bind)
        }
        None => false,
    }
}

/// Whether what was built for the left integer is what the table lists for it.
fn is_listed(
    arena: &Arena,
    number: i64,
    bound: Bound,
    variables: &Variables,
    named: &Named,
) -> bool {
    let Variables { x, c, h, .. } = *variables;
    let Some(row) = arena.get(bound.root) else {
        return false;
    };
    if row.ty != Ty::Int || row.scope != Some(bound.bind) {
        return false;
    }
    match (number, &row.def) {
        (1, Def::Const(Value::Int(5))) => true,
        (2, Def::Map(f, kids)) => f.id == named.neg.id && kids.as_slice() == [x].as_slice(),
        (3, Def::Fold(f, Value::Int(0), kids)) => {
            f.id == named.add.id && kids.as_slice() == [x, x].as_slice()
        }
        (4, Def::If { test, yes, no }) => {
            *test == c && *yes == x && is_constant(arena, *no, 0, bound.bind)
        }
        (5, Def::Join(kid)) => *kid == h,
        (
            6,
            Def::Bind {
                left,
                function,
                captures,
            },
        ) => { *left == x && function.id == named.of_left.id && captures.as_slice().is_empty() }
        _ => false,
    }
}

/// Whether a bind of the table, built for the left integer, has the right side that is listed for it, and nothing else.
fn builds<F: Functions>(
    alloc: Global,
    functions: &mut F,
    arena: &mut Arena,
    named: &Named,
    variables: &Variables,
    number: i64,
) -> bool
    requires sound { F.is_sound functions.old }
    requires known { IsTrue (F.known functions.old named.now.table) }
    requires lists_none { (F.right functions.old named.now.table).ids ≡ [] }
    requires arena { IsSoundArena arena.old }
    ensures sound { F.is_sound functions.new }
    ensures arena { IsSoundArena arena.new }
    ensures same_known { SameKnown (F.known functions.old) (F.known functions.new) }
    ensures same_sides { SameSides (F.right functions.old) (F.right functions.new) }
{
    let Variables { left, x, c, h } = *variables;
    let live = arena.live();
    let value = Value::Int(number);
    let Some(bound) = bind_and_build(
        alloc,
        functions,
        arena,
        named.table,
        left,
        &[x, c, h],
        &value,
    ) else {
        return false;
    };
    // the bind, and what was built
    let added = if number == 4 { 3 } else { 2 };
    is_listed(arena, number, bound, variables, named)
        && arena.live().checked_sub(live) == Some(added)
}

/// The same for each left integer from 1 to 6, each time for a bind of its own.
fn builds_each<F: Functions>(
    alloc: Global,
    functions: &mut F,
    arena: &mut Arena,
    named: &Named,
    variables: &Variables,
) -> bool
    requires sound { F.is_sound functions.old }
    requires known { IsTrue (F.known functions.old named.now.table) }
    requires lists_none { (F.right functions.old named.now.table).ids ≡ [] }
    requires arena { IsSoundArena arena.old }
    ensures sound { F.is_sound functions.new }
    ensures arena { IsSoundArena arena.new }
    ensures same_known { SameKnown (F.known functions.old) (F.known functions.new) }
{
    for number in 1..=6 {
        if !builds(alloc, functions, arena, named, variables, number) {
            return false;
        }
    }
    true
}

/// Whether the root is the negation of a constant of the number.
fn is_negation(arena: &Arena, bound: Bound, number: i64, named: &Named) -> bool {
    match arena.get(bound.root) {
        Some(row) => match &row.def {
            Def::Map(f, kids) => match kids.as_slice() {
                [kid] => {
                    f.id == named.neg.id
                        && row.scope == Some(bound.bind)
                        && is_constant(arena, *kid, number, bound.bind)
                }
                _ => false,
            },
            _ => false,
        },
        None => false,
    }
}

/// Whether a bind of the function that the table's last right side calls is built as the negation of its left.
fn builds_negation<F: Functions>(
    alloc: Global,
    functions: &mut F,
    arena: &mut Arena,
    named: &Named,
    variables: &Variables,
) -> bool
    requires sound { F.is_sound functions.old }
    requires known { IsTrue (F.known functions.old named.now.of_left) }
    requires lists_none { (F.right functions.old named.now.of_left).ids ≡ [] }
    requires arena { IsSoundArena arena.old }
    ensures sound { F.is_sound functions.new }
    ensures arena { IsSoundArena arena.new }
    ensures same_known { SameKnown (F.known functions.old) (F.known functions.new) }
    ensures same_sides { SameSides (F.right functions.old) (F.right functions.new) }
{
    let value = Value::Int(7);
    match bind_and_build(
        alloc,
        functions,
        arena,
        named.of_left,
        variables.x,
        &[],
        &value,
    ) {
        Some(bound) => is_negation(arena, bound, 7, named),
        None => false,
    }
}

/// Whether the table builds what it lists, for the left integers 1 to 6 and over captures 7, true and a reference to
/// the 7; and whether the function that its last right side calls builds a negation.
pub fn builds_as_listed<F: Functions>(alloc: Global, functions: &mut F, named: &Named) -> bool
    requires sound { F.is_sound functions.old }
    requires table_known { IsTrue (F.known functions.old named.now.table) }
    requires table_lists_none { (F.right functions.old named.now.table).ids ≡ [] }
    requires of_left_known { IsTrue (F.known functions.old named.now.of_left) }
    requires of_left_lists_none { (F.right functions.old named.now.of_left).ids ≡ [] }
    ensures sound { F.is_sound functions.new }
    ensures same_known { SameKnown (F.known functions.old) (F.known functions.new) }
{
    let mut arena = Arena::new(alloc);
    let listed = match add_variables(&mut arena) {
        Ok(variables) => {
            builds_negation(alloc, functions, &mut arena, named, &variables)
                && builds_each(alloc, functions, &mut arena, named, &variables)
        }
        Err(_) => false,
    };
    drop(arena);
    listed
}
