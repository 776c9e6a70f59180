//! What is told of watched observers.
ghost use Rattle.std.specs.Prelude.{◌≡◌, IfOk, IsOk};
ghost use Rattle.inc_value.specs.Outcome.{IsNoText};
ghost use Rattle.observers.specs.Observers.{change};

use inc_value::{ObsId, Outcome};
use std::alloc::{AllocError, Global};

/// What is told of an observer: the outcome at first, a change from an old one to a new one, or that it turned to Invalid.
#[derive(Drop)]
pub enum Told {
    Init(Outcome),
    Change(Outcome, Outcome),
    Invalid,
}

/// A notice of a watched observer.
#[derive(Drop)]
pub struct Notice {
    pub observer: ObsId,
    pub told: Told,
}

/// What is told where an outcome turned to another one. Only a text needs memory.
pub(crate) fn change(alloc: Global, old: &Outcome, new: &Outcome) -> Result<Told, AllocError>
    ensures told { IfOk result (λ t. t ≡ change old.now new.now) }
    ensures light { IsNoText old.now → IsNoText new.now → IsOk result }
{
    match new {
        Outcome::Invalid => Ok(Told::Invalid),
        Outcome::Val(_) => Ok(Told::Change(old.copy(alloc)?, new.copy(alloc)?)),
    }
}
