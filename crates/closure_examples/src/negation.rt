//! A function of right sides that hold the left value.
ghost use Rattle.std.specs.Prelude.{◌≡◌, ◌↔◌, IfSome, IsSome};
ghost use Rattle.inc_value.specs.Value.{type_of};
ghost use Rattle.inc_value.specs.declared.function.FnKind.TheVariants.{Map};
ghost use Rattle.inc_value.specs.declared.ty.Ty.TheVariants.{Int};
ghost use Rattle.inc_terms.specs.Within.{Given, ValueWithin};
ghost use Rattle.node_arena.specs.Typing.{HasType};
ghost use Rattle.closure_examples.specs.Arithmetic.{int_to_int};
ghost use Rattle.closure_examples.specs.Making.{BuildsTerm};
ghost use Rattle.closure_examples.specs.Sides.{negation_term, negation_uses};

use crate::adding::added;
use crate::types::is_int_to_int;
use inc_value::{FnKind, FnRef, NodeId, Sig, Ty, Value};
use node_arena::{BuildFault, Builder, RhsFn};
use std::alloc::Global;

/// Of a left integer, a constant of it and a node that maps that by a function.
#[derive(Drop)]
pub struct NegOfLeft {
    neg: FnRef,
    ghost map: { neg.id.kind ≡ Map },
    ghost types: { neg.sig ≡ int_to_int },
}

impl NegOfLeft {
    /// Maps the left by the function, where that is a map of one integer to another.
    pub fn new(neg: &FnRef) -> Option<NegOfLeft>
        ensures made { IfSome result (λ s. s.neg ≡ neg.now) }
        ensures fits { IsSome result ↔ ((neg.now.id.kind ≡ Map) × (neg.now.sig ≡ int_to_int)) }
    {
        if neg.id.kind != FnKind::Map || !is_int_to_int(neg.sig) {
            return None;
        }
        Some(NegOfLeft { neg: *neg })
    }

    /// A constant of the value, mapped.
    fn mapped(
        &self,
        value: Value,
        captures: &[NodeId],
        builder: &mut Builder,
    ) -> Result<NodeId, BuildFault>
        requires given { ValueWithin (Given builder.old.arena.given) value }
        requires typed { HasType builder.old.arena value Int }
        ensures { BuildsTerm (negation_uses self.now.neg) 2 builder.old builder.new captures.now
            (negation_term self.now.neg value) result }
    {
        let _ = captures;
        let constant = match builder.constant(value) {
            Ok(id) => id,
            Err(fault) => return Err(BuildFault::from_add(fault)),
        };
        added(builder.map(self.neg, &[constant]))
    }
}

impl RhsFn for NegOfLeft {
    ghost use Rattle.node_arena.specs.Meanings.{uncounted};
    ghost use Rattle.closure_examples.specs.Arithmetic.{int_to_int};
    ghost use Rattle.closure_examples.specs.Sides.{negation_side};

    ghost rhs_sig = { λ s. int_to_int };

    ghost rhs = { λ s. negation_side s.neg };

    ghost rhs_builds = { λ s. uncounted };

    fn sig(&self) -> Sig {
        Sig::new(&[Ty::Int], Ty::Int)
    }

    fn build(
        &mut self,
        alloc: Global,
        left: &Value,
        captures: &[NodeId],
        builder: &mut Builder,
    ) -> Result<NodeId, BuildFault> {
        match left.copy(alloc) {
            Ok(value) => self.mapped(value, captures, builder),
            Err(_) => Err(BuildFault::Memory),
        }
    }
}
