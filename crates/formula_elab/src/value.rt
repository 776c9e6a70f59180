//! Values of commands in a graph.
ghost use Rattle.std.specs.Prelude.{◌≡◌, ◌≢◌, ◌<◌, length, map, IfOk, IsOk};
ghost use Rattle.inc_value.specs.Choice.{Every};
ghost use Rattle.inc_value.specs.Value.{type_of};
ghost use Rattle.inc_value.specs.declared.ty.Ty.TheVariants.{Text};
ghost use Rattle.formula_lang.specs.CommandView.{constant_view, timed_view};
ghost use Rattle.script_model.specs.Formula.{TimedValue};
ghost use Rattle.script_model.specs.Leaves.{EveryReference};
ghost use Rattle.formula_elab.specs.Opened.{node_at};
ghost use Rattle.transfer.specs.Both.{graph_value};
ghost use Rattle.transfer.specs.Shows.{graph_step};

use formula_lang::{Constant, TimedConstant};
use inc_terms::{Step, StepList};
use inc_value::{NodeId, Value};
use std::alloc::{AllocError, Global};

/// The value of a constant in a graph, where the nodes of the declarations stand by position: a reference to a declaration
/// is one to its node. Only a text needs memory.
pub fn value_of(alloc: Global, constant: &Constant, ids: &[NodeId]) -> Result<Value, AllocError>
    requires names { EveryReference (λ n. n < length ids.now) (constant_view constant.now) }
    ensures value { IfOk result (λ value. value ≡ graph_value (node_at ids.now) (constant_view constant.now)) }
    ensures scalar { type_of (graph_value (node_at ids.now) (constant_view constant.now)) ≢ Text → IsOk result }
{
    Ok(match constant {
        Constant::Int(number) => Value::Int(*number),
        Constant::Bool(truth) => Value::Bool(*truth),
        Constant::Text(text) => Value::Text(text.copy(alloc)?),
        Constant::Reference { target, base } => Value::Node(ids[*target], *base),
    })
}

/// Values from their times on in a graph. Only texts and the list need memory.
pub(crate) fn steps_of(
    alloc: Global,
    steps: &[TimedConstant],
    ids: &[NodeId],
) -> Result<StepList, AllocError>
    requires names { Every (λ (s : TimedValue). EveryReference (λ n. n < length ids.now) s.value) (map timed_view steps.now) }
    ensures { IfOk result (λ list. list ≡ map (graph_step (node_at ids.now)) (map timed_view steps.now)) }
{
    let mut list = Vec::new(alloc);
    for step in steps {
        let time = step.time.time();
        let value = value_of(alloc, &step.value, ids)?;
        list.push(Step { time, value })?;
    }
    Ok(StepList::new(list))
}
