//! Ifs and joins whose types are those of their nodes.
ghost use Rattle.std.specs.Prelude.{◌↔◌, IsTrue};
ghost use Rattle.inc_value.specs.declared.ty.Base.{Base as ABase};
ghost use Rattle.inc_value.specs.declared.ty.Ty.{Ty as AType};
ghost use Rattle.inc_terms.specs.Graph.{If, Join};
ghost use Rattle.graph_kit.specs.Typed.{AnswersTyped, AreOf, IsReference};

use graph::{Graph, GraphFault};
use inc_value::{Base, NodeId, Ty};
use node_arena::Functions;

/// An if, of the type that both sides have. For `Graph::if_`, which takes the type. `WrongType` where the sides have no type in common, or
/// the test is no truth value.
pub fn if_of<F: Functions>(
    graph: &mut Graph<F>,
    test: NodeId,
    yes: NodeId,
    no: NodeId,
) -> Result<NodeId, GraphFault>
    ensures { AnswersTyped graph.old graph.new (If test yes no) result }
{
    let ty = common_type(graph, yes, no);
    graph.if_(ty, test, yes, no)
}

/// A join, of the type of the nodes to which its child's references lead. For `Graph::join`, which takes the type. `WrongType` where the
/// child's values are no references.
pub fn join_of<F: Functions>(graph: &mut Graph<F>, kid: NodeId) -> Result<NodeId, GraphFault>
    ensures { AnswersTyped graph.old graph.new (Join kid) result }
{
    let base = referred_base(graph, kid);
    graph.join(base.ty(), kid)
}

/// A type that both nodes have, if there is one.
fn common_type<F: Functions>(graph: &Graph<F>, yes: NodeId, no: NodeId) -> Ty
    ensures { (t : AType) → AreOf graph.now.nodes yes no t → AreOf graph.now.nodes yes no result }
{
    if are_of(graph, yes, no, Ty::Bool) {
        Ty::Bool
    } else if are_of(graph, yes, no, Ty::Text) {
        Ty::Text
    } else if are_of(graph, yes, no, Ty::Node(Base::Int)) {
        Ty::Node(Base::Int)
    } else if are_of(graph, yes, no, Ty::Node(Base::Bool)) {
        Ty::Node(Base::Bool)
    } else if are_of(graph, yes, no, Ty::Node(Base::Text)) {
        Ty::Node(Base::Text)
    } else {
        Ty::Int
    }
}

/// Whether both nodes were given, and each is of the type or dead.
fn are_of<F: Functions>(graph: &Graph<F>, yes: NodeId, no: NodeId, ty: Ty) -> bool
    ensures { IsTrue result ↔ AreOf graph.now.nodes yes no ty }
{
    graph.fits(yes, ty) && graph.fits(no, ty)
}

/// The base type of the nodes to which a node's references lead, if its values are references.
fn referred_base<F: Functions>(graph: &Graph<F>, kid: NodeId) -> Base
    ensures { (b : ABase) → IsReference graph.now.nodes kid b → IsReference graph.now.nodes kid result }
{
    if graph.fits(kid, Ty::Node(Base::Bool)) {
        Base::Bool
    } else if graph.fits(kid, Ty::Node(Base::Text)) {
        Base::Text
    } else {
        Base::Int
    }
}
