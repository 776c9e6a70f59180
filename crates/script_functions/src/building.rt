//! Lines built in an arena.
ghost use Rattle.std.specs.Prelude.{◌≡◌, ◌≤◌, length, map, option_map, slice_get, vec_capacity, Ok, IfOk, IsOk, IsErr, OnOk, OnErr, IsErrOf};
ghost use Rattle.inc_value.specs.Value.{type_of};
ghost use Rattle.inc_terms.specs.Graph.{Const, Map, Fold, If, Join, Bind, Steps};
ghost use Rattle.node_arena.specs.Arena.{IsFull};
ghost use Rattle.node_arena.specs.Building.{Adds, Grows};
ghost use Rattle.node_arena.specs.Listing.{Listed};
ghost use Rattle.node_arena.specs.RightSide.{MayBuild, IsRoot};
ghost use Rattle.script_functions.specs.Bodies.{side_of};
ghost use Rattle.script_functions.specs.Filling.{node_of, filled, parts_in_list, IsReady};
ghost use Rattle.script_functions.specs.Underway.{IsNoted, AreBuilt};

use crate::{Body, Line, ListedNode, Part, TypedLine};
use inc_terms::StepList;
use inc_value::{FnRef, NodeId, Ty, Value};
use node_arena::{AddFault, BuildFault, Builder};
use std::alloc::{AllocError, Global};

/// The node at a place of those that are listed, if it is there.
fn listed_node(listed: &[ListedNode], place: usize) -> Option<NodeId>
    ensures { result ≡ option_map (λ (x : Listed). x.node) (slice_get listed.now place) }
{
    match listed.get(place) {
        Some(listed) => Some(listed.node()),
        None => None,
    }
}

/// The node that a part stands for, if it is there.
fn node_of(listed: &[ListedNode], captures: &[NodeId], made: &[NodeId], part: Part) -> NodeId
    ensures { result ≡ node_of listed.now captures.now made.now part }
{
    let node = match part {
        Part::Listed(place) => listed_node(listed, place),
        Part::Captured(place) => captures.get(place).copied(),
        Part::Line(place) => made.get(place).copied(),
    };
    node.unwrap_or_default()
}

/// Lists the nodes that parts stand for, in place of those that were listed. This asks for memory only where there are more
/// than the list has room for.
fn list_nodes(
    listed: &[ListedNode],
    captures: &[NodeId],
    made: &[NodeId],
    parts: &[Part],
    nodes: &mut Vec<NodeId>,
) -> Result<(), AllocError>
    ensures nodes { OnOk result (nodes.new.items ≡ map (node_of listed.now captures.now made.now) parts.now) }
    ensures succeeds { length parts.now ≤ vec_capacity nodes.old → IsOk result }
    ensures room { vec_capacity nodes.old ≤ vec_capacity nodes.new }
{
    nodes.clear();
    nodes.reserve(parts.len())?;
    for part in parts {
        nodes.push_reserved(node_of(listed, captures, made, *part));
    }
    Ok(())
}

/// The node, or why it isn't built, where its ids were given and its types fit.
fn built(answer: Result<NodeId, AddFault>) -> Result<NodeId, BuildFault>
    requires given { ¬ IsErrOf answer AddFault.Unknown }
    requires typed { ¬ IsErrOf answer AddFault.WrongType }
    ensures ok { IfOk result (λ id. answer ≡ Ok id) }
    ensures err { OnErr result (IsErr answer) }
    ensures full { IsErrOf result BuildFault.Full → IsErrOf answer AddFault.Full }
{
    match answer {
        Ok(id) => Ok(id),
        Err(fault) => Err(BuildFault::from_add(fault)),
    }
}

/// Adds a node that always has the value, where what it names was given and is of its type.
fn add_constant(alloc: Global, value: &Value, builder: &mut Builder) -> Result<NodeId, BuildFault>
    requires ready { IsReady builder.old (Const value.now) (type_of value.now) }
    ensures added { IfOk result (λ id. Adds builder.old builder.new id (Const value.now) (type_of value.now)) }
    ensures full { IsErrOf result BuildFault.Full → IsFull builder.new.arena }
    ensures err { OnErr result (builder.new ≡ builder.old) }
{
    let Ok(value) = value.copy(alloc) else {
        return Err(BuildFault::Memory);
    };
    built(builder.constant(value))
}

/// Adds a node that maps the nodes' values, where they are of the types that the function takes.
fn add_map(f: FnRef, nodes: &[NodeId], builder: &mut Builder) -> Result<NodeId, BuildFault>
    requires ready { IsReady builder.old (Map f nodes.now) f.sig.gives }
    ensures added { IfOk result (λ id. Adds builder.old builder.new id (Map f nodes.now) f.sig.gives) }
    ensures full { IsErrOf result BuildFault.Full → IsFull builder.new.arena }
    ensures err { OnErr result (builder.new ≡ builder.old) }
{
    built(builder.map(f, nodes))
}

/// Adds a node that folds the nodes' values from the value on, where they are of the types that the
/// function takes.
fn add_fold(
    alloc: Global,
    f: FnRef,
    initial: &Value,
    nodes: &[NodeId],
    builder: &mut Builder,
) -> Result<NodeId, BuildFault>
    requires ready { IsReady builder.old (Fold f initial.now nodes.now) f.sig.gives }
    ensures added { IfOk result (λ id. Adds builder.old builder.new id (Fold f initial.now nodes.now) f.sig.gives) }
    ensures full { IsErrOf result BuildFault.Full → IsFull builder.new.arena }
    ensures err { OnErr result (builder.new ≡ builder.old) }
{
    let Ok(initial) = initial.copy(alloc) else {
        return Err(BuildFault::Memory);
    };
    built(builder.fold(f, initial, nodes))
}

/// Adds a node that has the value of one node where the test's is true, else that of the other, where
/// they are of the type.
fn add_if(
    test: NodeId,
    yes: NodeId,
    no: NodeId,
    ty: Ty,
    builder: &mut Builder,
) -> Result<NodeId, BuildFault>
    requires ready { IsReady builder.old (If test yes no) ty }
    ensures added { IfOk result (λ id. Adds builder.old builder.new id (If test yes no) ty) }
    ensures full { IsErrOf result BuildFault.Full → IsFull builder.new.arena }
    ensures err { OnErr result (builder.new ≡ builder.old) }
{
    built(builder.if_(ty, test, yes, no))
}

/// Adds a node that has the value of the node that the kid's value names, where that is of the type.
fn add_join(kid: NodeId, ty: Ty, builder: &mut Builder) -> Result<NodeId, BuildFault>
    requires ready { IsReady builder.old (Join kid) ty }
    ensures added { IfOk result (λ id. Adds builder.old builder.new id (Join kid) ty) }
    ensures full { IsErrOf result BuildFault.Full → IsFull builder.new.arena }
    ensures err { OnErr result (builder.new ≡ builder.old) }
{
    built(builder.join(ty, kid))
}

/// Adds a bind of the left and captured nodes, where they are of the types that the function takes.
fn add_bind(
    left: NodeId,
    f: FnRef,
    captures: &[NodeId],
    builder: &mut Builder,
) -> Result<NodeId, BuildFault>
    requires ready { IsReady builder.old (Bind left f captures.now) f.sig.gives }
    ensures added { IfOk result (λ id. Adds builder.old builder.new id (Bind left f captures.now) f.sig.gives) }
    ensures full { IsErrOf result BuildFault.Full → IsFull builder.new.arena }
    ensures err { OnErr result (builder.new ≡ builder.old) }
{
    built(builder.bind(left, f, captures))
}

/// Adds a node that shows the first value, and then that of the last step whose time has come, where all values are of one type
/// and what they name was given and is of its type.
fn add_steps(
    alloc: Global,
    first: &Value,
    steps: &StepList,
    builder: &mut Builder,
) -> Result<NodeId, BuildFault>
    requires ready { IsReady builder.old (Steps first.now steps.now) (type_of first.now) }
    ensures added { IfOk result (λ id. Adds builder.old builder.new id (Steps first.now steps.now) (type_of first.now)) }
    ensures full { IsErrOf result BuildFault.Full → IsFull builder.new.arena }
    ensures err { OnErr result (builder.new ≡ builder.old) }
{
    let Ok(steps) = steps.copy(alloc) else {
        return Err(BuildFault::Memory);
    };
    match first.copy(alloc) {
        Ok(first) => built(builder.listed_steps(first, steps)),
        Err(AllocError) => {
            drop(steps);
            Err(BuildFault::Memory)
        }
    }
}

/// The parts of a line that stand in a list.
fn parts_in_list(line: &Line) -> &[Part]
    ensures { result.now ≡ parts_in_list line.now }
{
    match line {
        Line::Map(_, parts) | Line::Fold(_, _, parts) => parts.as_slice(),
        Line::Bind { captures, .. } => captures.as_slice(),
        Line::Const(_)
        | Line::If { .. }
        | Line::Join(_)
        | Line::At(_)
        | Line::Steps(_, _)
        | Line::Now => &[],
    }
}

/// Adds the node of a line, where its parts are of the types that it wants, and `nodes` are those of its list.
fn add_over(
    alloc: Global,
    listed: &[ListedNode],
    captures: &[NodeId],
    made: &[NodeId],
    row: &TypedLine,
    nodes: &[NodeId],
    builder: &mut Builder,
) -> Result<NodeId, BuildFault>
    requires nodes { nodes.now ≡ map (node_of listed.now captures.now made.now) (parts_in_list row.now.line) }
    requires ready { IsReady builder.old (filled listed.now captures.now made.now row.now.line) row.now.ty }
    ensures added { IfOk result (λ id. Adds builder.old builder.new id
        (filled listed.now captures.now made.now row.now.line) row.now.ty) }
    ensures full { IsErrOf result BuildFault.Full → IsFull builder.new.arena }
    ensures err { OnErr result (builder.new ≡ builder.old) }
{
    match &row.line {
        Line::Const(value) => add_constant(alloc, value, builder),
        Line::Map(f, _) => add_map(*f, nodes, builder),
        Line::Fold(f, initial, _) => add_fold(alloc, *f, initial, nodes, builder),
        Line::If { test, yes, no } => {
            let test = node_of(listed, captures, made, *test);
            let yes = node_of(listed, captures, made, *yes);
            let no = node_of(listed, captures, made, *no);
            add_if(test, yes, no, row.ty, builder)
        }
        Line::Join(part) => add_join(node_of(listed, captures, made, *part), row.ty, builder),
        Line::Bind { left, function, .. } => {
            let left = node_of(listed, captures, made, *left);
            add_bind(left, *function, nodes, builder)
        }
        Line::At(time) => built(builder.at(*time)),
        Line::Steps(first, steps) => add_steps(alloc, first, steps, builder),
        Line::Now => built(builder.now()),
    }
}

/// Adds the node of a line, where its parts are of the types that it wants. The nodes of its list are listed in `nodes`.
fn add_line(
    alloc: Global,
    listed: &[ListedNode],
    captures: &[NodeId],
    made: &[NodeId],
    row: &TypedLine,
    nodes: &mut Vec<NodeId>,
    builder: &mut Builder,
) -> Result<NodeId, BuildFault>
    requires ready { IsReady builder.old (filled listed.now captures.now made.now row.now.line) row.now.ty }
    ensures added { IfOk result (λ id. Adds builder.old builder.new id
        (filled listed.now captures.now made.now row.now.line) row.now.ty) }
    ensures full { IsErrOf result BuildFault.Full → IsFull builder.new.arena }
    ensures err { OnErr result (builder.new ≡ builder.old) }
{
    let parts = parts_in_list(&row.line);
    match list_nodes(listed, captures, made, parts, nodes) {
        Ok(()) => add_over(alloc, listed, captures, made, row, nodes, builder),
        Err(AllocError) => Err(BuildFault::Memory),
    }
}

/// Adds the node of a line, where its parts are of the types that it wants, and notes it. The nodes of its list are listed in
/// `nodes`.
fn add_next(
    alloc: Global,
    listed: &[ListedNode],
    captures: &[NodeId],
    made: &mut Vec<NodeId>,
    row: &TypedLine,
    nodes: &mut Vec<NodeId>,
    builder: &mut Builder,
) -> Result<(), BuildFault>
    requires ready { IsReady builder.old (filled listed.now captures.now made.old.items row.now.line) row.now.ty }
    ensures noted { OnOk result (IsNoted builder.old builder.new made.old.items made.new.items
        (filled listed.now captures.now made.old.items row.now.line) row.now.ty) }
    ensures full { IsErrOf result BuildFault.Full → IsFull builder.new.arena }
    ensures err { OnErr result (builder.new ≡ builder.old) }
{
    if made.reserve(1).is_err() {
        return Err(BuildFault::Memory);
    }
    let id = add_line(alloc, listed, captures, made, row, nodes, builder)?;
    made.push_reserved(id);
    Ok(())
}

/// Adds the node of line 0, and notes it.
fn add_left(
    alloc: Global,
    left: &Value,
    made: &mut Vec<NodeId>,
    builder: &mut Builder,
) -> Result<(), BuildFault>
    requires ready { IsReady builder.old (Const left.now) (type_of left.now) }
    ensures noted { OnOk result (IsNoted builder.old builder.new made.old.items made.new.items
        (Const left.now) (type_of left.now)) }
    ensures full { IsErrOf result BuildFault.Full → IsFull builder.new.arena }
    ensures err { OnErr result (builder.new ≡ builder.old) }
{
    if made.reserve(1).is_err() {
        return Err(BuildFault::Memory);
    }
    let id = add_constant(alloc, left, builder)?;
    made.push_reserved(id);
    Ok(())
}

/// Builds the lines of a body, and gives the nodes of all, line 0 first. One list serves all lines.
fn build_lines(
    alloc: Global,
    body: &Body,
    left: &Value,
    captures: &[NodeId],
    builder: &mut Builder,
) -> Result<Vec<NodeId>, BuildFault>
    requires ready { MayBuild builder.old body.now.draft.sig (side_of body.now) left.now captures.now }
    ensures grows { Grows (side_of body.now).uses builder.old builder.new (side_of body.now).size }
    ensures built { IfOk result (λ made. AreBuilt builder.new body.now left.now captures.now made.items) }
    ensures full { IsErrOf result BuildFault.Full → IsFull builder.new.arena }
{
    let draft = body.draft();
    let lines = draft.lines();
    let mut made = Vec::new(alloc);
    let mut nodes = Vec::new(alloc);
    add_left(alloc, left, &mut made, builder)?;
    for row in lines {
        add_next(
            alloc,
            draft.listed(),
            captures,
            &mut made,
            row,
            &mut nodes,
            builder,
        )?;
    }
    Ok(made)
}

/// Builds a body for the left value and the captures, and gives the node of its root.
pub(crate) fn build_body(
    alloc: Global,
    body: &Body,
    left: &Value,
    captures: &[NodeId],
    builder: &mut Builder,
) -> Result<NodeId, BuildFault>
    requires ready { MayBuild builder.old body.now.draft.sig (side_of body.now) left.now captures.now }
    ensures grows { Grows (side_of body.now).uses builder.old builder.new (side_of body.now).size }
    ensures root { IfOk result (λ n. IsRoot builder.new captures.now n
        ((side_of body.now).term left.now) body.now.draft.sig.gives) }
    ensures full { IsErrOf result BuildFault.Full → IsFull builder.new.arena }
{
    let made = build_lines(alloc, body, left, captures, builder)?;
    let draft = body.draft();
    Ok(node_of(draft.listed(), captures, &made, body.root()))
}
