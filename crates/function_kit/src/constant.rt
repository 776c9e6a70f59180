//! A function of right sides that hold the left value.
ghost use Rattle.std.specs.Prelude.{◌≡◌};
ghost use Rattle.inc_terms.specs.Term.{Const as ConstTerm};
ghost use Rattle.inc_terms.specs.Within.{Given, ValueWithin};
ghost use Rattle.node_arena.specs.Typing.{HasType};
ghost use Rattle.function_kit.specs.Making.{BuildsTerm};

use crate::adding::added;
use inc_value::{NodeId, Sig, Ty, Value};
use node_arena::{BuildFault, Builder, RhsFn};
use std::alloc::Global;

/// Of each left value of a type, a constant of it: a bind of this function shows what its left shows.
#[derive(Drop)]
pub struct Const {
    ty: Ty,
}

impl Const {
    /// For left values of the type.
    pub fn new(ty: Ty) -> Const
        ensures { result.ty ≡ ty }
    {
        Const { ty }
    }
}

/// A constant of the value, which is of the type.
fn constant(
    ty: Ty,
    value: Value,
    captures: &[NodeId],
    builder: &mut Builder,
) -> Result<NodeId, BuildFault>
    requires given { ValueWithin (Given builder.old.arena.given) value }
    requires typed { HasType builder.old.arena value ty }
    ensures { BuildsTerm 1 builder.old builder.new captures.now (ConstTerm value) ty result }
{
    let _ = captures;
    let _ = ty;
    added(builder.constant(value))
}

impl RhsFn for Const {
    ghost use Rattle.node_arena.specs.Meanings.{uncounted};
    ghost use Rattle.function_kit.specs.Sides.{holding, held_side};

    ghost rhs_sig = { λ s. holding s.ty };

    ghost rhs = { λ s. held_side };

    ghost rhs_builds = { λ s. uncounted };

    fn sig(&self) -> Sig {
        Sig::new(&[self.ty], self.ty)
    }

    fn build(
        &mut self,
        alloc: Global,
        left: &Value,
        captures: &[NodeId],
        builder: &mut Builder,
    ) -> Result<NodeId, BuildFault> {
        match left.copy(alloc) {
            Ok(value) => constant(self.ty, value, captures, builder),
            Err(_) => Err(BuildFault::Memory),
        }
    }
}
