//! Nodes to be made, over nodes and functions that may not be made yet.
ghost use Rattle.std.specs.Prelude.{◌≡◌, List, All, length, map, IfOk};
ghost use Rattle.inc_terms.specs.Code.{def_of};
ghost use Rattle.inc_terms.specs.Graph.{Steps};
ghost use Rattle.formula_elab.specs.Make.{function_made, made_at};
ghost use Rattle.formula_elab.specs.Opened.{node_of, filled, open_ty, AreMadeAs, IsEarlier, IsEarlierBody, NodeNeedsEarlier, Planned};

use crate::make::Made;
use inc_terms::{Def, Nodes, StepList};
use inc_value::{FnRef, NodeId, Ty, Value};
use std::alloc::{AllocError, Global};
use std::marker::Model;

/// A node that a node is made of.
#[derive(Clone, Copy, PartialEq, Eq)]
pub(crate) enum Part {
    /// One that is there before anything is made.
    Given(NodeId),
    /// The one that is made as the i-th.
    Made(usize),
}

impl Part {
    /// The node, where this was made.
    pub(crate) fn node(self, made: &[Made]) -> NodeId
        requires earlier { (earlier : List Planned) × IsEarlier earlier self × AreMadeAs earlier made.now × (length earlier ≡ length made.now) }
        ensures { result ≡ node_of made.now self }
    {
        match self {
            Part::Given(node) => node,
            Part::Made(number) => made[number].node(),
        }
    }
}

/// The nodes of a function's arguments or a fold's elements in order, seen as a list.
pub(crate) struct Parts {
    parts: Vec<Part>,
}

// (written out: whoever drops one proves one call, and no drop of its parts)
impl Drop for Parts {
    fn drop(self) {
        let Parts { parts } = self;
        drop(parts);
    }
}

impl Model for Parts {
    ghost use Rattle.std.specs.Prelude.{List};
    ghost use Rattle.formula_elab.specs.declared.opened.Part.{Part};

    ghost Value = { List Part };

    ghost view = { λ p. p.parts.items };
}

impl Parts {
    /// The nodes in this order.
    pub(crate) fn new(parts: Vec<Part>) -> Parts
        ensures { result ≡ parts.items }
    {
        Parts { parts }
    }

    /// The nodes in order.
    fn as_slice(&self) -> &[Part]
        ensures { result.now ≡ self.now }
    {
        &self.parts
    }
}

/// What a node is to be, over nodes that may not be made yet.
pub(crate) enum Open {
    Const(Value),
    Var(Value),
    Map(FnRef, Parts),
    Fold(FnRef, Value, Parts),
    /// One of two nodes of the type.
    If {
        ty: Ty,
        test: Part,
        yes: Part,
        no: Part,
    },
    /// The node of the type that the child's value names.
    Join {
        ty: Ty,
        child: Part,
    },
    /// The right side of the type that a function builds of the left's value: the one that is made as the `body`-th.
    Bind {
        ty: Ty,
        left: Part,
        body: usize,
    },
    /// Whether the clock has come to the time, in nanoseconds.
    At(i64),
    /// The first value, and then that of the last step whose time has come.
    Steps(Value, StepList),
    /// The clock, in nanoseconds.
    Now,
    /// How many whole spans went by since the base, both in nanoseconds.
    Every {
        base: i64,
        span: u64,
    },
    /// The first value of the child, of the type, on which the predicate is true, and until then what the child shows.
    Freeze {
        ty: Ty,
        child: Part,
        predicate: FnRef,
    },
    /// The fold of a function from a first value over a list that is empty at first.
    Expert(FnRef, Value),
}

// (written out: whoever drops one proves one call, and no drop of its parts)
impl Drop for Open {
    fn drop(self) {
        match self {
            Open::Const(value) | Open::Var(value) | Open::Expert(_, value) => drop(value),
            Open::Map(_, parts) => drop(parts),
            Open::Fold(_, first, parts) => {
                drop(first);
                drop(parts);
            }
            Open::Steps(first, steps) => {
                drop(first);
                drop(steps);
            }
            Open::If {
                ty: _,
                test: _,
                yes: _,
                no: _,
            }
            | Open::Join { ty: _, child: _ }
            | Open::Freeze {
                ty: _,
                child: _,
                predicate: _,
            }
            | Open::Bind {
                ty: _,
                left: _,
                body: _,
            }
            | Open::At(_)
            | Open::Now
            | Open::Every { base: _, span: _ } => {}
        }
    }
}

impl Open {
    /// The definition, with what was made.
    pub(crate) fn filled(&self, alloc: Global, made: &[Made]) -> Result<Def, AllocError>
        requires earlier { (earlier : List Planned) × NodeNeedsEarlier earlier self.now × AreMadeAs earlier made.now × (length earlier ≡ length made.now) }
        ensures { IfOk result (λ def. def_of def ≡ filled made.now self.now) }
    {
        Ok(match self {
            Open::Const(value) => Def::Const(value.copy(alloc)?),
            Open::Var(value) => Def::Var(value.copy(alloc)?),
            Open::Map(function, parts) => {
                Def::Map(*function, kids_of(alloc, parts.as_slice(), made)?)
            }
            Open::Fold(function, first, parts) => {
                let kids = kids_of(alloc, parts.as_slice(), made)?;
                Def::Fold(*function, first.copy(alloc)?, kids)
            }
            Open::If { test, yes, no, .. } => Def::If {
                test: test.node(made),
                yes: yes.node(made),
                no: no.node(made),
            },
            Open::Join { child, .. } => Def::Join(child.node(made)),
            Open::Bind { left, body, .. } => Def::Bind {
                left: left.node(made),
                function: function_of(made, *body),
                captures: Nodes::from_slice(alloc, &[])?,
            },
            Open::At(time) => Def::At(*time),
            Open::Steps(first, steps) => steps_def(alloc, first, steps)?,
            Open::Now => Def::Now,
            Open::Every { base, span } => Def::Every {
                base: *base,
                span: *span,
            },
            Open::Freeze {
                child,
                predicate,
                ..
            } => Def::Freeze {
                kid: child.node(made),
                function: *predicate,
            },
            Open::Expert(function, first) => Def::Expert {
                function: *function,
                initial: first.copy(alloc)?,
            },
        })
    }

    /// The type of the node.
    pub(crate) fn ty(&self) -> Ty
        ensures { result ≡ open_ty self.now }
    {
        match self {
            Open::Const(value) | Open::Var(value) | Open::Steps(value, _) => value.ty(),
            Open::At(_) => Ty::Bool,
            Open::Now | Open::Every { .. } => Ty::Int,
            Open::Map(function, _) | Open::Fold(function, _, _) | Open::Expert(function, _) => {
                function.sig.gives()
            }
            Open::If { ty, .. }
            | Open::Join { ty, .. }
            | Open::Bind { ty, .. }
            | Open::Freeze { ty, .. } => *ty,
        }
    }
}

/// The first value, and then that of the last step whose time has come.
fn steps_def(alloc: Global, first: &Value, steps: &StepList) -> Result<Def, AllocError>
    ensures { IfOk result (λ def. def_of def ≡ Steps first.now steps.now) }
{
    match steps.copy(alloc) {
        Ok(steps) => match first.copy(alloc) {
            Ok(first) => Ok(Def::Steps(first, steps)),
            Err(fault) => {
                drop(steps);
                Err(fault)
            }
        },
        Err(fault) => Err(fault),
    }
}

/// The function that was made as the i-th.
fn function_of(made: &[Made], number: usize) -> FnRef
    requires earlier { (earlier : List Planned) × IsEarlierBody earlier number × AreMadeAs earlier made.now × (length earlier ≡ length made.now) }
    ensures { result ≡ function_made (made_at made.now number) }
{
    made[number].function()
}

/// The kids of a node in order, where this was made.
fn kids_of(alloc: Global, parts: &[Part], made: &[Made]) -> Result<Nodes, AllocError>
    requires earlier { (earlier : List Planned) × All (IsEarlier earlier) parts.now × AreMadeAs earlier made.now × (length earlier ≡ length made.now) }
    ensures { IfOk result (λ kids. kids ≡ map (node_of made.now) parts.now) }
{
    match nodes_of(alloc, parts, made) {
        Ok(nodes) => {
            let kids = Nodes::from_slice(alloc, &nodes);
            drop(nodes);
            kids
        }
        Err(error) => Err(error),
    }
}

/// The nodes in order, where this was made.
fn nodes_of(alloc: Global, parts: &[Part], made: &[Made]) -> Result<Vec<NodeId>, AllocError>
    requires earlier { (earlier : List Planned) × All (IsEarlier earlier) parts.now × AreMadeAs earlier made.now × (length earlier ≡ length made.now) }
    ensures { IfOk result (λ nodes. nodes.items ≡ map (node_of made.now) parts.now) }
{
    let mut nodes = Vec::new(alloc);
    for part in parts {
        nodes.push(part.node(made))?;
    }
    Ok(nodes)
}
