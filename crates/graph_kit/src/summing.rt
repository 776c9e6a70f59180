//! Trees of maps.
ghost use Rattle.std.specs.Prelude.{◌≡◌, [], ◌∷◌, IfOk, IfErr, IsTrue};
ghost use Rattle.graph_kit.specs.Trees.{Grows, IsPair, IsSum};

use graph::{Graph, GraphFault};
use inc_value::{FnRef, NodeId};
use node_arena::Functions;

/// A balanced tree of maps by a function of two arguments over nodes, in their order: one node that changes costs as many calls as the
/// tree is high, and 2 ^ d nodes make a tree of height d. Of one node it is that node. `WrongType` where there is no node. A refused
/// call leaves the maps that it had made.
pub fn sum<F: Functions>(
    graph: &mut Graph<F>,
    f: FnRef,
    kids: &[NodeId],
) -> Result<NodeId, GraphFault>
    requires known { IsTrue (F.known graph.old.functions f) }
    ensures sum { IfOk result (IsSum graph.new.nodes f kids.now) }
    ensures grows { Grows graph.old graph.new }
    ensures none { kids.now ≡ [] → IfErr result (λ e. e ≡ GraphFault.WrongType) }
{
    tree(graph, &f, kids)
}

/// The tree. (the function is lent: the borrow checker covers no recursion that copies it)
fn tree<F: Functions>(
    graph: &mut Graph<F>,
    f: &FnRef,
    kids: &[NodeId],
) -> Result<NodeId, GraphFault>
    requires known { IsTrue (F.known graph.old.functions f.now) }
    ensures sum { IfOk result (IsSum graph.new.nodes f.now kids.now) }
    ensures grows { Grows graph.old graph.new }
    ensures none { kids.now ≡ [] → IfErr result (λ e. e ≡ GraphFault.WrongType) }
{
    if kids.len() < 2 {
        return only(kids);
    }
    let middle = kids.len() / 2;
    match tree(graph, f, &kids[..middle]) {
        Ok(left) => match tree(graph, f, &kids[middle..]) {
            Ok(right) => pair(graph, f, left, right),
            Err(fault) => Err(fault),
        },
        Err(fault) => Err(fault),
    }
}

/// The only node.
fn only(kids: &[NodeId]) -> Result<NodeId, GraphFault>
    ensures one { IfOk result (λ n. kids.now ≡ n ∷ []) }
    ensures none { IfErr result (λ e. e ≡ GraphFault.WrongType) }
{
    match kids {
        [kid] => Ok(*kid),
        _ => Err(GraphFault::WrongType),
    }
}

/// A map of two nodes.
fn pair<F: Functions>(
    graph: &mut Graph<F>,
    f: &FnRef,
    left: NodeId,
    right: NodeId,
) -> Result<NodeId, GraphFault>
    requires known { IsTrue (F.known graph.old.functions f.now) }
    ensures made { IfOk result (IsPair graph.new.nodes f.now left right) }
    ensures grows { Grows graph.old graph.new }
{
    graph.map(*f, &[left, right])
}
