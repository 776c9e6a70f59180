//! Variables that are set to values of one type.
ghost use Rattle.inc_value.specs.declared.value.Value.TheVariants.{Int, Bool};
ghost use Rattle.graph_kit.specs.Setting.{AnswersSet};

use graph::{Graph, GraphFault};
use inc_value::{NodeId, Value};
use node_arena::Functions;

/// Sets a variable to an integer. For `Graph::set_var`.
pub fn set_int<F: Functions>(
    graph: &mut Graph<F>,
    node: NodeId,
    number: i64,
) -> Result<(), GraphFault>
    ensures { AnswersSet graph.old graph.new node (Int number) result }
{
    set(graph, node, Value::Int(number))
}

/// Sets a variable to a truth value. For `Graph::set_var`.
pub fn set_bool<F: Functions>(
    graph: &mut Graph<F>,
    node: NodeId,
    truth: bool,
) -> Result<(), GraphFault>
    ensures { AnswersSet graph.old graph.new node (Bool truth) result }
{
    set(graph, node, Value::Bool(truth))
}

/// Sets a variable.
fn set<F: Functions>(graph: &mut Graph<F>, node: NodeId, value: Value) -> Result<(), GraphFault>
    ensures { AnswersSet graph.old graph.new node value result }
{
    graph.set_var(node, value)
}
