//! Nodes that a builder adds to the scope of a bind, as a table with what each answers.

use inc_terms::{Def, Nodes, Step};
use inc_value::{Base, FnId, FnKind, FnRef, NodeId, Sig, Ty, Value};
use node_arena::{AddFault, Arena, Builder};
use std::alloc::Global;

/// Which node the builder is asked for, over nodes by the places at which they were made.
#[derive(Clone, Copy)]
enum Asked {
    Int(i64),
    Bool(bool),
    /// A reference to a node.
    Reference(usize),
    /// A map of one integer.
    Neg(usize),
    /// A fold over two integers.
    Sum(usize, usize),
    If(usize, usize, usize),
    Join(usize),
    /// A bind of a left and a captured integer.
    Bind(usize, usize),
    /// Whether a time has come.
    At(i64),
    /// An integer, and from 5 seconds on another.
    Steps(i64, i64),
    /// An integer, and from 5 seconds on a truth value.
    MixedSteps(i64, bool),
    Now,
}

/// One node of each form, and then nodes that are refused.
const ROWS: &[(Asked, Option<AddFault>)] = &[
    (Asked::Int(3), None),
    (Asked::Bool(true), None),
    (Asked::Reference(0), None),
    (Asked::Neg(0), None),
    (Asked::Sum(0, 3), None),
    (Asked::If(1, 3, 4), None),
    (Asked::Join(2), None),
    (Asked::Bind(5, 6), None),
    (Asked::At(5_000_000_000), None),
    (Asked::Steps(1, 2), None),
    (Asked::Now, None),
    (Asked::Reference(11), Some(AddFault::Unknown)),
    (Asked::Reference(1), Some(AddFault::WrongType)),
    (Asked::Neg(11), Some(AddFault::Unknown)),
    (Asked::Neg(1), Some(AddFault::WrongType)),
    (Asked::Sum(0, 1), Some(AddFault::WrongType)),
    (Asked::If(0, 3, 4), Some(AddFault::WrongType)),
    (Asked::Join(0), Some(AddFault::WrongType)),
    (Asked::Bind(1, 0), Some(AddFault::WrongType)),
    (Asked::Bind(0, 1), Some(AddFault::WrongType)),
    (Asked::Bind(1, 11), Some(AddFault::Unknown)),
    (Asked::If(10, 3, 4), Some(AddFault::WrongType)),
    (Asked::MixedSteps(1, true), Some(AddFault::WrongType)),
];

/// How many of them are made.
const MADE: u32 = 11;

/// A function of one integer.
fn neg() -> FnRef {
    FnRef {
        id: FnId {
            kind: FnKind::Map,
            number: 0,
        },
        sig: Sig::new(&[Ty::Int], Ty::Int),
    }
}

/// A function of two integers of the kind.
fn of_two(kind: FnKind) -> FnRef {
    FnRef {
        id: FnId { kind, number: 0 },
        sig: Sig::new(&[Ty::Int, Ty::Int], Ty::Int),
    }
}

/// The node that was made at the place, else one that was never given.
fn at(made: &[NodeId], place: usize) -> NodeId {
    match made.get(place) {
        Some(id) => *id,
        None => NodeId {
            slot: 0,
            gen_: u64::MAX,
        },
    }
}

/// Asks for a node.
fn ask(
    alloc: Global,
    builder: &mut Builder,
    made: &[NodeId],
    asked: Asked,
) -> Result<NodeId, AddFault> {
    match asked {
        Asked::Int(number) => builder.constant(Value::Int(number)),
        Asked::Bool(truth) => builder.constant(Value::Bool(truth)),
        Asked::Reference(node) => builder.constant(Value::Node(at(made, node), Base::Int)),
        Asked::Neg(kid) => builder.map(neg(), &[at(made, kid)]),
        Asked::Sum(a, b) => {
            builder.fold(
                of_two(FnKind::Map),
                Value::Int(0),
                &[at(made, a), at(made, b)],
            )
        }
        Asked::If(test, yes, no) => {
            builder.if_(Ty::Int, at(made, test), at(made, yes), at(made, no))
        }
        Asked::Join(kid) => builder.join(Ty::Int, at(made, kid)),
        Asked::Bind(left, captured) => {
            builder.bind(at(made, left), of_two(FnKind::Rhs), &[at(made, captured)])
        }
        Asked::At(time) => builder.at(time),
        Asked::Steps(first, second) => {
            two_steps(alloc, builder, Value::Int(first), Value::Int(second))
        }
        Asked::MixedSteps(first, second) => {
            two_steps(alloc, builder, Value::Int(first), Value::Bool(second))
        }
        Asked::Now => builder.now(),
    }
}

/// Asks for a node that shows a value, and from 5 seconds on another.
fn two_steps(
    alloc: Global,
    builder: &mut Builder,
    first: Value,
    second: Value,
) -> Result<NodeId, AddFault> {
    let mut steps = Vec::new(alloc);
    let step = Step {
        time: 5_000_000_000,
        value: second,
    };
    match steps.push(step) {
        Ok(()) => builder.steps(first, steps),
        Err(_) => Err(AddFault::Memory),
    }
}

/// Whether all rows are answered as they say.
fn answers(alloc: Global, builder: &mut Builder, made: &mut Vec<NodeId>) -> bool {
    for (asked, wanted) in ROWS {
        match (ask(alloc, builder, made, *asked), *wanted) {
            (Ok(id), None) => {
                if made.push(id).is_err() {
                    return false;
                }
            }
            (Err(fault), Some(wanted)) if fault == wanted => {}
            _ => return false,
        }
    }
    true
}

/// The scope in which a live node stands.
fn scope_of(arena: &Arena, id: NodeId) -> Option<NodeId> {
    arena.get(id).and_then(|row| row.scope)
}

/// An integer, and a bind of it, outside any scope.
fn bind_of_one(alloc: Global, arena: &mut Arena) -> Result<NodeId, AddFault> {
    let one = arena.add(Def::Const(Value::Int(1)), Ty::Int, None)?;
    let Ok(captures) = Nodes::from_slice(alloc, &[one]) else {
        return Err(AddFault::Memory);
    };
    let def = Def::Bind {
        left: one,
        function: of_two(FnKind::Rhs),
        captures,
    };
    arena.add(def, Ty::Int, None)
}

/// Whether a builder answers all rows, and what it makes stands in its scope.
fn builds_well(alloc: Global) -> bool {
    let mut arena = Arena::new(alloc);
    let Ok(bind) = bind_of_one(alloc, &mut arena) else {
        return false;
    };
    if bind.gen_ >= arena.given() {
        return false;
    }
    let mut made = Vec::new(alloc);
    let mut builder = Builder::new(alloc, arena, bind);
    let answered = answers(alloc, &mut builder, &mut made);
    let arena = builder.finish();
    answered
        && made.iter().all(|id| scope_of(&arena, *id) == Some(bind))
        && scope_of(&arena, bind).is_none()
        && arena.live() == MADE + 2
}

#[test]
fn builds_in_a_scope(rt: HostRuntime) {
    assert!(rt; builds_well(rt.alloc()));
}
