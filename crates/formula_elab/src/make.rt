//! What is to be made in a graph, and what was made.
ghost use Rattle.std.specs.Prelude.{◌≡◌};
ghost use Rattle.formula_elab.specs.Make.{function_made, node_made, IsFunction, IsNode};

use inc_terms::Def;
use inc_value::{FnRef, NodeId, Ty};
use script_functions::Body;

/// What is to be made in a graph.
#[derive(Drop)]
pub enum Make {
    /// The function of a bind's right sides.
    Body(Body),
    /// A node of the type that is so defined.
    Node(Def, Ty),
}

/// What was made in a graph.
#[derive(Clone, Copy, PartialEq, Eq)]
pub enum Made {
    /// The function.
    Fn(FnRef),
    /// The node.
    Node(NodeId),
}

impl Made {
    /// The node that was made.
    pub(crate) fn node(self) -> NodeId
        requires { IsNode self }
        ensures { result ≡ node_made self }
    {
        match self {
            Made::Node(node) => node,
            Made::Fn(_) => unreachable!(),
        }
    }

    /// The function that was made.
    pub(crate) fn function(self) -> FnRef
        requires { IsFunction self }
        ensures { result ≡ function_made self }
    {
        match self {
            Made::Fn(function) => function,
            Made::Node(_) => unreachable!(),
        }
    }
}
