//! Variables set to other values.
ghost use Rattle.std.specs.Prelude.{◌≡◌, ◌↔◌, IfSome, IfNone, OnOk, OnErr, IsErrOf};
ghost use Rattle.inc_terms.specs.Within.{Given, ValueWithin};
ghost use Rattle.node_arena.specs.Arena.{live, IsVariable, IsSet};
ghost use Rattle.node_arena.specs.Sound.{IsSoundArena};
ghost use Rattle.node_arena.specs.Typing.{Fits, FitsNode};

use super::Arena;
use super::typing::{has_type, value_given};
use inc_terms::Def;
use inc_value::{NodeId, Ty, Value};
use thiserror::Error;

/// Why a variable isn't set.
#[derive(Clone, Copy, Debug, PartialEq, Eq, Error)]
pub enum SetFault {
    /// The node's id, or one that the value names, was never given.
    #[error("a node's id was never given")]
    Unknown,
    /// The node is no live variable.
    #[error("the node is no variable")]
    NotVar,
    /// The value isn't of the variable's type.
    #[error("the types don't fit")]
    WrongType,
}

impl Arena {
    /// Sets a variable to another value of its type. What is looked at comes in the order of the
    /// faults; a refused call leaves the arena as it was. This takes no memory.
    pub fn set_var(&mut self, id: NodeId, value: Value) -> Result<(), SetFault>
        ensures set { OnOk result (IsSet self.old self.new id value) }
        ensures live { live self.new ≡ live self.old }
        ensures given { self.new.given ≡ self.old.given }
        ensures time { self.new.time ≡ self.old.time }
        ensures sound { IsSoundArena self.new }
        ensures unknown { IsErrOf result SetFault.Unknown
            ↔ ¬ (Given self.old.given id × ValueWithin (Given self.old.given) value) }
        ensures not_var { IsErrOf result SetFault.NotVar
            ↔ (Given self.old.given id × ValueWithin (Given self.old.given) value × ¬ IsVariable self.old id) }
        ensures wrong_type { IsErrOf result SetFault.WrongType
            ↔ (ValueWithin (Given self.old.given) value × IsVariable self.old id × ¬ FitsNode self.old id value) }
        ensures err { OnErr result (self.new ≡ self.old) }
    {
        if id.gen_ >= self.given || !value_given(self.given, &value) {
            return Err(SetFault::Unknown);
        }
        let Some(ty) = self.type_of_variable(id) else {
            return Err(SetFault::NotVar);
        };
        if !has_type(self, &value, ty) {
            return Err(SetFault::WrongType);
        }
        self.put_value(id, value);
        Ok(())
    }

    /// The type of a live variable.
    fn type_of_variable(&self, id: NodeId) -> Option<Ty>
        ensures some { IfSome result (λ t. IsVariable self.now id × Fits self.now id t) }
        ensures none { IfNone result (IsVariable self.now id → ⊥) }
    {
        let row = self.get(id)?;
        match row.def {
            Def::Var(_) => Some(row.ty),
            _ => None,
        }
    }

    /// Puts the value into the row of a variable.
    fn put_value(&mut self, id: NodeId, value: Value)
        requires variable { IsVariable self.old id }
        requires given { ValueWithin (Given self.old.given) value }
        requires fits { FitsNode self.old id value }
        ensures set { IsSet self.old self.new id value }
        ensures live { live self.new ≡ live self.old }
        ensures given { self.new.given ≡ self.old.given }
        ensures sound { IsSoundArena self.new }
    {
        let entry = self.nodes.get_mut(id.slot).unwrap();
        entry.row.def = Def::Var(value);
    }
}
