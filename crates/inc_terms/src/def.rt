//! What a node is.
ghost use Rattle.std.specs.Prelude.{◌≡◌, ◌≤◌, length, IfOk, IsOk};
ghost use Rattle.inc_value.specs.declared.node.NodeId.{NodeId};
ghost use Rattle.inc_terms.specs.Depend.{subject_of, right_of};
ghost use Rattle.inc_terms.specs.Graph.{Graph};

use crate::StepList;
use inc_value::{FnRef, NodeId, Outcome, Value};
use smallvec::SmallVec;
use std::alloc::{AllocError, Global};
use std::marker::Model;
use std::slice;

/// A list of nodes. Lists of at most two take no memory of their own.
pub struct Nodes {
    nodes: SmallVec<NodeId, 2>,
}

// (written out: whoever drops one proves one call, and no drop of its parts)
impl Drop for Nodes {
    fn drop(self) {
        let Nodes { nodes } = self;
        drop(nodes);
    }
}

impl Model for Nodes {
    ghost use Rattle.std.specs.Prelude.{List};
    ghost use Rattle.inc_value.specs.declared.node.NodeId.{NodeId};

    ghost Value = { List NodeId };

    ghost view = { λ l. l.nodes.items };
}

impl Nodes {
    /// The nodes, in this order.
    pub fn from_slice(alloc: Global, nodes: &[NodeId]) -> Result<Nodes, AllocError>
        ensures ok { IfOk result (λ list. list ≡ nodes.now) }
        ensures short { length nodes.now ≤ 2 → IsOk result }
    {
        Ok(Nodes {
            nodes: SmallVec::from_slice(alloc, nodes)?,
        })
    }

    /// The nodes in order.
    pub fn as_slice(&self) -> &[NodeId]
        ensures { result.now ≡ self.now }
    {
        self.nodes.as_slice()
    }
}

/// What a node is.
#[derive(Drop)]
pub enum Def {
    /// Always the value.
    Const(Value),
    /// The value until another is set.
    Var(Value),
    /// The function of the nodes' values.
    Map(FnRef, Nodes),
    /// The function of two values, from the value on over the nodes' values in order: called once
    /// for each node, on what it gave last and the node's value.
    Fold(FnRef, Value, Nodes),
    /// The first node where the test is true, the second where it is false.
    If {
        test: NodeId,
        yes: NodeId,
        no: NodeId,
    },
    /// The node that the node's value names.
    Join(NodeId),
    /// The right side that the function builds of the node's value and the captured nodes.
    Bind {
        left: NodeId,
        function: FnRef,
        captures: Nodes,
    },
    /// Whether the clock has come to the time. Times are in nanoseconds.
    At(i64),
    /// The value until the first step begins, and then that of the last step of those that have begun.
    Steps(Value, StepList),
    /// The clock.
    Now,
    /// How many whole spans went by since the base.
    Every {
        base: i64,
        span: u64,
    },
    /// What the node shows, up to the first value on which the predicate is true; that value from then on.
    Freeze {
        kid: NodeId,
        function: FnRef,
    },
    /// The function of two values, from the initial one on over the values of the nodes of a list that the caller
    /// changes. The list is kept elsewhere.
    Expert {
        function: FnRef,
        initial: Value,
    },
}

impl Def {
    ghost use Rattle.inc_terms.specs.Code.{def_of};
    ghost use Rattle.inc_terms.specs.Graph.{kids};

    /// The nodes that the definition lists and whose values the node's function takes, in order: those of a map or a
    /// fold, and a freeze's one. An expert's definition lists none.
    pub fn kids(&self) -> &[NodeId]
        ensures { result.now ≡ kids (def_of self.now) }
    {
        match self {
            Def::Map(_, kids) | Def::Fold(_, _, kids) => kids.as_slice(),
            Def::Freeze { kid, .. } => slice::from_ref(kid),
            Def::Const(_)
            | Def::Var(_)
            | Def::If { .. }
            | Def::Join(_)
            | Def::Bind { .. }
            | Def::At(_)
            | Def::Steps(_, _)
            | Def::Now
            | Def::Every { .. }
            | Def::Expert { .. } => &[],
        }
    }

    /// The left, test or child of a node of two points, which its change reads. A node of one point has none.
    pub fn subject(&self) -> Option<NodeId>
        ensures { result ≡ subject_of (def_of self.now) }
    {
        match self {
            Def::If { test, .. } => Some(*test),
            Def::Join(kid) => Some(*kid),
            Def::Bind { left, .. } => Some(*left),
            Def::Const(_)
            | Def::Var(_)
            | Def::Map(_, _)
            | Def::Fold(_, _, _)
            | Def::At(_)
            | Def::Steps(_, _)
            | Def::Now
            | Def::Every { .. }
            | Def::Freeze { .. }
            | Def::Expert { .. } => None,
        }
    }

    /// The right side that the subject's outcome chooses, if it chooses one. A bind's is what was built for it, and
    /// so none where it isn't built.
    pub fn right_side(&self, given: &Outcome) -> Option<NodeId>
        ensures { (G : Graph) (n : NodeId) → G.built n ≡ None → result ≡ right_of G n (def_of self.now) given.now }
    {
        match (self, given) {
            (Def::If { yes, .. }, Outcome::Val(Value::Bool(true))) => Some(*yes),
            (Def::If { no, .. }, Outcome::Val(Value::Bool(false))) => Some(*no),
            (Def::Join(_), Outcome::Val(Value::Node(node, _))) => Some(*node),
            _ => None,
        }
    }
}
