//! Lines of a body, and what they read.
ghost use Rattle.std.specs.Prelude.{◌≡◌, IfOk};

use inc_terms::StepList;
use inc_value::{FnRef, NodeId, Ty, Value};
use std::alloc::{AllocError, Global};
use std::marker::Model;

/// What a line reads, by its place in its list.
#[derive(Clone, Copy)]
pub enum Part {
    /// A node that the body lists.
    Listed(usize),
    /// A captured node.
    Captured(usize),
    /// The node of another line. Line 0 is the left value.
    Line(usize),
}

/// A list of parts.
pub struct Parts {
    parts: Vec<Part>,
}

// (written out: whoever drops one proves one call, and no drop of its parts)
impl Drop for Parts {
    fn drop(self) {
        let Parts { parts } = self;
        drop(parts);
    }
}

impl Model for Parts {
    ghost use Rattle.std.specs.Prelude.{List};
    ghost use Rattle.script_functions.specs.declared.line.Part.{Part};

    ghost Value = { List Part };

    ghost view = { λ p. p.parts.items };
}

impl Parts {
    /// The parts, in this order.
    pub fn from_slice(alloc: Global, parts: &[Part]) -> Result<Parts, AllocError>
        ensures { IfOk result (λ list. list ≡ parts.now) }
    {
        Ok(Parts {
            parts: Vec::from_slice(alloc, parts)?,
        })
    }

    /// The parts in order.
    pub fn as_slice(&self) -> &[Part]
        ensures { result.now ≡ self.now }
    {
        &self.parts
    }
}

/// What the node of one place of a formula is, over what it reads.
pub enum Line {
    /// Always the value.
    Const(Value),
    /// The function of the parts' values.
    Map(FnRef, Parts),
    /// The function of two values, from the value on over the parts' values in order.
    Fold(FnRef, Value, Parts),
    /// The first part where the test is true, the second where it is false.
    If {
        test: Part,
        yes: Part,
        no: Part,
    },
    /// The node that the part's value names.
    Join(Part),
    /// The right side that the function builds of the part's value and the captures. It takes `most`
    /// nodes at most, with those of the scopes within.
    Bind {
        left: Part,
        function: FnRef,
        most: u64,
        captures: Parts,
    },
    /// Whether the clock has come to the time, in nanoseconds.
    At(i64),
    /// The first value, and then that of the last step whose time has come.
    Steps(Value, StepList),
    /// The clock, in nanoseconds.
    Now,
}

// (written out: whoever drops one proves one call, and no drop of its parts)
impl Drop for Line {
    fn drop(self) {
        match self {
            Line::Const(value) => drop(value),
            Line::Map(_, parts) => drop(parts),
            Line::Fold(_, first, parts) => {
                drop(first);
                drop(parts);
            }
            Line::If {
                test: _,
                yes: _,
                no: _,
            }
            | Line::Join(_)
            | Line::At(_)
            | Line::Now => {}
            Line::Steps(first, steps) => {
                drop(first);
                drop(steps);
            }
            Line::Bind {
                left: _,
                function: _,
                most: _,
                captures,
            } => drop(captures),
        }
    }
}

impl Line {
    /// The same line again.
    pub fn copy(&self, alloc: Global) -> Result<Line, AllocError>
        ensures { IfOk result (λ line. line ≡ self.now) }
    {
        Ok(match self {
            Line::Const(value) => Line::Const(value.copy(alloc)?),
            Line::Map(function, parts) => {
                Line::Map(*function, Parts::from_slice(alloc, parts.as_slice())?)
            }
            Line::Fold(function, first, parts) => Line::Fold(
                *function,
                first.copy(alloc)?,
                Parts::from_slice(alloc, parts.as_slice())?,
            ),
            Line::If { test, yes, no } => Line::If {
                test: *test,
                yes: *yes,
                no: *no,
            },
            Line::Join(part) => Line::Join(*part),
            Line::Bind {
                left,
                function,
                most,
                captures,
            } => Line::Bind {
                left: *left,
                function: *function,
                most: *most,
                captures: Parts::from_slice(alloc, captures.as_slice())?,
            },
            Line::At(time) => Line::At(*time),
            Line::Steps(first, steps) => steps_line(alloc, first, steps)?,
            Line::Now => Line::Now,
        })
    }
}

/// The line of these steps, from the first value on.
fn steps_line(alloc: Global, first: &Value, steps: &StepList) -> Result<Line, AllocError>
    ensures { IfOk result (λ line. line ≡ Line.Steps first.now steps.now) }
{
    match steps.copy(alloc) {
        Ok(steps) => match first.copy(alloc) {
            Ok(first) => Ok(Line::Steps(first, steps)),
            Err(fault) => {
                drop(steps);
                Err(fault)
            }
        },
        Err(fault) => Err(fault),
    }
}

/// A line, and the type of its node's values.
pub struct TypedLine {
    pub line: Line,
    pub ty: Ty,
}

// (written out: whoever drops one proves one call, and no drop of its parts)
impl Drop for TypedLine {
    fn drop(self) {
        let TypedLine { line, ty: _ } = self;
        drop(line);
    }
}

/// A node that stands outside of the body, with its type.
#[derive(Clone, Copy, PartialEq, Eq)]
pub struct ListedNode {
    node: NodeId,
    ty: Ty,
}

impl Model for ListedNode {
    ghost use Rattle.node_arena.specs.Listing.{Listed};

    ghost Value = { Listed };

    ghost view = { λ x. record { node = x.node; ty = x.ty } };

    ghost inverse = { λ x. record { node = x.node; ty = x.ty } };
}

impl ListedNode {
    /// The node, of values of the type.
    pub fn new(node: NodeId, ty: Ty) -> ListedNode
        ensures { result ≡ record { node = node; ty = ty } }
    {
        ListedNode { node, ty }
    }

    /// The node.
    pub fn node(self) -> NodeId
        ensures { result ≡ self.node }
    {
        self.node
    }

    /// The type of its values.
    pub fn ty(self) -> Ty
        ensures { result ≡ self.ty }
    {
        self.ty
    }
}
