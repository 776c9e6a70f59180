//! What values and outcomes are printed as.

use inc_value::{Base, NodeId, Outcome, Value};
use std::alloc::{AllocError, Global};

/// Appends the outcome as it is printed, of a copy.
fn print(alloc: Global, outcome: &Outcome, out: &mut Vec<u8>) -> Result<(), AllocError> {
    match outcome.copy(alloc) {
        Ok(copy) => copy.print_into(alloc, b"x", out),
        Err(error) => Err(error),
    }
}

/// Whether the outcome is printed so after a `= `.
fn prints(alloc: Global, outcome: &Outcome, wanted: &str) -> bool {
    let mut out = Vec::new(alloc);
    out.extend_from_slice(b"= ").is_ok()
        && print(alloc, outcome, &mut out).is_ok()
        && out.as_slice() == wanted.as_bytes()
}

/// Whether the value is printed so.
fn prints_value(alloc: Global, value: Value, wanted: &str) -> bool {
    prints(alloc, &Outcome::Val(value), wanted)
}

/// Whether values of each type are printed as wanted.
fn prints_all(alloc: Global, node: NodeId) -> bool {
    prints_value(alloc, Value::Int(i64::MIN), "= -9223372036854775808")
        && prints_value(alloc, Value::Int(0), "= 0")
        && prints_value(alloc, Value::Int(9), "= 9")
        && prints_value(alloc, Value::Bool(true), "= true")
        && prints_value(alloc, Value::Bool(false), "= false")
        && prints_value(alloc, Value::Node(node, Base::Int), "= &x")
        && prints(alloc, &Outcome::Invalid, "= invalid")
}

#[test]
fn prints_outcomes(rt: HostRuntime) {
    assert!(rt; prints_all(rt.alloc(), NodeId { slot: 3, gen_: 7 }));
}
