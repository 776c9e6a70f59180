//! A negation in a box.

use inc_value::{Sig, Ty, Value};
use node_arena::MapFn;
use std::alloc::{AllocError, Global};

/// The negation of an integer, wrapping at 64 bits.
#[derive(Drop)]
pub struct Negation {}

impl MapFn for Negation {
    ghost use Rattle.node_arena.specs.Meanings.{uncounted};
    ghost use Rattle.incr_bench.specs.Boxed.{int_to_int, negation_of};

    ghost map_sig = { λ s. int_to_int };

    ghost map_value = { λ s args. negation_of args };

    ghost map_calls = { λ s. uncounted };

    fn sig(&self) -> Sig {
        Sig::new(&[Ty::Int], Ty::Int)
    }

    fn apply(&mut self, alloc: Global, args: &[Value]) -> Result<Value, AllocError> {
        let _ = alloc;
        match args {
            [Value::Int(number)] => Ok(Value::Int(number.wrapping_neg())),
            _ => Ok(Value::Int(0)),
        }
    }
}
