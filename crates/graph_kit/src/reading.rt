//! What an observer shows, as a value of one type.
ghost use Rattle.std.specs.Prelude.{◌≡◌, IfSome, option_copied};
ghost use Rattle.inc_value.specs.Choice.{and_then};
ghost use Rattle.inc_value.specs.declared.node.NodeId.{NodeId};
ghost use Rattle.inc_value.specs.declared.outcome.Outcome.TheVariants.{Val};
ghost use Rattle.inc_value.specs.declared.value.Value.TheVariants.{Int, Bool, Text as ATextValue};
ghost use Rattle.graph_kit.specs.Shown.{bool_in, int_in, outcome_at, text_in, Looks};

use graph::Graph;
use inc_value::{ObsId, Outcome, Text, Value};
use node_arena::Functions;

/// The outcome that an observer shows. None where it shows none: it was never made or is ended, no stabilize was accepted since it was
/// made, or one was refused. For `Graph::value`, which tells these apart.
pub fn outcome<F: Functions>(graph: &Graph<F>, observer: ObsId) -> Option<&Outcome>
    ensures shown { option_copied result ≡ outcome_at graph.now observer }
    ensures looks { IfSome result (λ x. Looks graph.now observer x.now) }
{
    match graph.value(observer) {
        Ok(outcome) => Some(outcome),
        Err(fault) => {
            let _ = fault;
            None
        }
    }
}

/// The integer that an observer shows, if it shows one.
pub fn int<F: Functions>(graph: &Graph<F>, observer: ObsId) -> Option<i64>
    ensures shown { result ≡ and_then (outcome_at graph.now observer) int_in }
    ensures looks { IfSome result (λ z. Looks graph.now observer (Val (Int z))) }
{
    match outcome(graph, observer) {
        Some(Outcome::Val(Value::Int(number))) => Some(*number),
        _ => None,
    }
}

/// The truth value that an observer shows, if it shows one.
pub fn boolean<F: Functions>(graph: &Graph<F>, observer: ObsId) -> Option<bool>
    ensures shown { result ≡ and_then (outcome_at graph.now observer) bool_in }
    ensures looks { IfSome result (λ b. Looks graph.now observer (Val (Bool b))) }
{
    match outcome(graph, observer) {
        Some(Outcome::Val(Value::Bool(truth))) => Some(*truth),
        _ => None,
    }
}

/// The text that an observer shows, if it shows one.
pub fn text<F: Functions>(graph: &Graph<F>, observer: ObsId) -> Option<&Text>
    ensures shown { option_copied result ≡ and_then (outcome_at graph.now observer) text_in }
    ensures looks { IfSome result (λ t. Looks graph.now observer (Val (ATextValue t.now))) }
{
    match outcome(graph, observer) {
        Some(Outcome::Val(Value::Text(text))) => Some(text),
        _ => None,
    }
}
