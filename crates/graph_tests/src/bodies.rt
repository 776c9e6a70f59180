//! Right sides for the tables of binds.

use crate::tests::nth;
use inc_value::{Base, FnRef, NodeId, Sig, Ty, Value};
use script_functions::{Body, Draft, Line, LineFault, ListedNode, Part, Parts};
use std::alloc::{AllocError, Global};
use std_library::Function;

/// What the right sides of a bind are, over the left value v. Nodes go by the order in which they were made.
#[derive(Clone, Copy)]
pub(crate) enum Side {
    /// v itself.
    Left,
    /// The negation of v.
    NegLeft,
    /// The negation of a node.
    NegOf(usize),
    /// The sum of a node and v.
    AddLeft(usize),
    /// A node.
    Outside(usize),
    /// The node of numbers to which a node refers.
    JoinOf(usize),
    /// Where v is less than 2 the node of numbers to which a node refers, else the negation of v.
    JoinOrNeg(usize),
    /// v under so many negations.
    Negations(usize),
    /// A node under so many negations.
    NegationsOf(usize, usize),
}

/// Why a body isn't made. Its lines always fit.
fn want(fault: LineFault) -> AllocError {
    let _ = fault;
    AllocError
}

/// The body that reads this one listed node and no captures.
fn draft(alloc: Global, node: NodeId, ty: Ty) -> Result<Draft, AllocError> {
    let mut listed = Vec::new(alloc);
    listed.push(ListedNode::new(node, ty))?;
    Ok(Draft::new(alloc, Sig::new(&[Ty::Int], Ty::Int), listed))
}

/// Adds the map of the parts.
fn add_map(
    alloc: Global,
    draft: &mut Draft,
    function: Function,
    parts: &[Part],
) -> Result<Part, AllocError> {
    let parts = Parts::from_slice(alloc, parts)?;
    draft
        .add(Line::Map(function.reference(), parts))
        .map_err(want)
}

/// Adds so many negations over a part.
fn add_negations(
    alloc: Global,
    draft: &mut Draft,
    part: Part,
    length: usize,
) -> Result<Part, AllocError> {
    let mut last = part;
    for _ in 0..length {
        last = add_map(alloc, draft, Function::Neg, &[last])?;
    }
    Ok(last)
}

/// Where v is less than 2 what the listed node names, else the negation of v.
fn add_join_or_neg(alloc: Global, draft: &mut Draft) -> Result<Part, AllocError> {
    let two = draft.add(Line::Const(Value::Int(2))).map_err(want)?;
    let test = add_map(alloc, draft, Function::Lt, &[Part::Line(0), two])?;
    let yes = draft.add(Line::Join(Part::Listed(0))).map_err(want)?;
    let no = add_map(alloc, draft, Function::Neg, &[Part::Line(0)])?;
    draft.add(Line::If { test, yes, no }).map_err(want)
}

/// The type of the node that right sides list.
fn listed_type(side: Side) -> Ty {
    match side {
        Side::JoinOf(_) | Side::JoinOrNeg(_) => Ty::Node(Base::Int),
        _ => Ty::Int,
    }
}

/// The node that right sides list.
fn listed_node(side: Side) -> usize {
    match side {
        Side::Left | Side::NegLeft | Side::Negations(_) => 0,
        Side::NegOf(place)
        | Side::AddLeft(place)
        | Side::Outside(place)
        | Side::JoinOf(place)
        | Side::JoinOrNeg(place)
        | Side::NegationsOf(place, _) => place,
    }
}

/// Adds the lines of right sides.
fn add_lines(alloc: Global, draft: &mut Draft, side: Side) -> Result<Part, AllocError> {
    let v = Part::Line(0);
    match side {
        Side::Left => Ok(v),
        Side::NegLeft => add_map(alloc, draft, Function::Neg, &[v]),
        Side::NegOf(_) => add_map(alloc, draft, Function::Neg, &[Part::Listed(0)]),
        Side::AddLeft(_) => add_map(alloc, draft, Function::Add, &[Part::Listed(0), v]),
        Side::Outside(_) => Ok(Part::Listed(0)),
        Side::JoinOf(_) => draft.add(Line::Join(Part::Listed(0))).map_err(want),
        Side::JoinOrNeg(_) => add_join_or_neg(alloc, draft),
        Side::Negations(length) => add_negations(alloc, draft, v, length),
        Side::NegationsOf(_, length) => add_negations(alloc, draft, Part::Listed(0), length),
    }
}

/// The body of right sides.
pub(crate) fn body(alloc: Global, nodes: &[NodeId], side: Side) -> Result<Body, AllocError> {
    let mut draft = draft(alloc, nth(nodes, listed_node(side)), listed_type(side))?;
    let root = add_lines(alloc, &mut draft, side)?;
    Body::new(draft, root).map_err(want)
}

/// The body of sums of a captured number and the left value.
pub(crate) fn inner(alloc: Global) -> Result<Body, AllocError> {
    let sig = Sig::new(&[Ty::Int, Ty::Int], Ty::Int);
    let mut draft = Draft::new(alloc, sig, Vec::new(alloc));
    let root = add_map(
        alloc,
        &mut draft,
        Function::Add,
        &[Part::Captured(0), Part::Line(0)],
    )?;
    Body::new(draft, root).map_err(want)
}

/// The body of binds on a node, whose right sides are made by a function of one capture: the left value.
pub(crate) fn outer(
    alloc: Global,
    node: NodeId,
    function: FnRef,
    most: u64,
) -> Result<Body, AllocError> {
    let mut draft = draft(alloc, node, Ty::Int)?;
    let captures = Parts::from_slice(alloc, &[Part::Line(0)])?;
    let line = Line::Bind {
        left: Part::Listed(0),
        function,
        most,
        captures,
    };
    let root = draft.add(line).map_err(want)?;
    Body::new(draft, root).map_err(want)
}
