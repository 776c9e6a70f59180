//! Outcomes.
ghost use Rattle.std.specs.Prelude.{◌≡◌, ◌++◌, ◌↔◌, IfOk, OnOk, OnErr, IsOk, IsTrue};
ghost use Rattle.inc_value.specs.Outcome.{printed_outcome, IsNoText};

use crate::Value;
use std::alloc::{AllocError, Global};

/// What evaluating a node gives. Invalid is the outcome of what stands on a right-hand side that is
/// gone.
pub enum Outcome {
    Val(Value),
    Invalid,
}

// (written out: whoever drops one proves one call, and no drop of its parts)
impl Drop for Outcome {
    fn drop(self) {
        match self {
            Outcome::Val(value) => drop(value),
            Outcome::Invalid => {}
        }
    }
}

impl Outcome {
    /// Whether both outcomes are invalid or equal values.
    pub fn same(&self, other: &Outcome) -> bool
        ensures { IsTrue result ↔ (self.now ≡ other.now) }
    {
        match (self, other) {
            (Outcome::Val(a), Outcome::Val(b)) => a.same(b),
            (Outcome::Invalid, Outcome::Invalid) => true,
            _ => false,
        }
    }

    /// An equal outcome. Only a text needs memory.
    pub fn copy(&self, alloc: Global) -> Result<Outcome, AllocError>
        ensures ok { IfOk result (λ o. o ≡ self.now) }
        ensures scalar { IsNoText self.now → IsOk result }
    {
        Ok(match self {
            Outcome::Val(value) => Outcome::Val(value.copy(alloc)?),
            Outcome::Invalid => Outcome::Invalid,
        })
    }

    /// Appends the outcome as it is printed, where a node reference has the name.
    pub fn print_into(
        &self,
        alloc: Global,
        name: &[u8],
        out: &mut Vec<u8>,
    ) -> Result<(), AllocError>
        ensures ok { OnOk result (out.new.items ≡ out.old.items ++ printed_outcome name.now self.now) }
        ensures err { OnErr result (out.new.items ≡ out.old.items) }
    {
        match self {
            Outcome::Val(value) => value.print_into(alloc, name, out),
            Outcome::Invalid => out.extend_from_slice(b"invalid"),
        }
    }
}
