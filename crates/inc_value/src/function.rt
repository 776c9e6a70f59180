//! Names of functions, with their types.
ghost use Rattle.std.specs.Prelude.{◌≡◌, ◌≤◌, length};
ghost use Rattle.inc_value.specs.Sig.{padded};

use crate::Ty;
use std::marker::Model;

/// What a function makes: a value of its arguments, or the right-hand side of a bind.
#[derive(Clone, Copy, PartialEq, Eq)]
pub enum FnKind {
    Map,
    Rhs,
}

/// A function of one library.
#[derive(Clone, Copy, PartialEq, Eq)]
pub struct FnId {
    pub kind: FnKind,
    pub number: u64,
}

/// The types that a function takes, 1 to 64, and the one that it gives.
#[derive(Clone, Copy, PartialEq, Eq)]
pub struct Sig {
    takes: [Ty; 64],
    count: u8,
    gives: Ty,
}

impl Model for Sig {
    ghost use Rattle.std.specs.Prelude.{◌≡◌, ◌≤◌, length, take};
    ghost use Rattle.inc_value.specs.Sig.{Signature, padded};

    ghost Value = { Signature };

    ghost view = { λ s. record { takes = take s.count s.takes; gives = s.gives } };

    ghost invariant = { λ s. (1 ≤ s.count) × (s.count ≤ 64)
        × (length (take s.count s.takes) ≡ s.count) × (s.takes ≡ padded (take s.count s.takes)) };

    ghost use Rattle.inc_value.specs.SigBack.{fields_back};

    ghost inverse = { λ v. record { takes = padded v.takes; count = length v.takes; gives = v.gives } };

    ghost inverse_ok = { λ a h. fields_back a h };
}

impl Sig {
    ghost use Rattle.std.specs.Prelude.{◌≡◌, ◌≤◌, ◌↔◌, length, IsTrue};
    ghost use Rattle.inc_value.specs.Sig.{IsMapSig};

    /// The types of a function that takes 1 to 64 values.
    pub fn new(takes: &[Ty], gives: Ty) -> Sig
        requires some { 1 ≤ length takes.now }
        requires few { length takes.now ≤ 64 }
        ensures { result ≡ record { takes = takes.now; gives = gives } }
    {
        Sig {
            takes: filled_up(takes),
            count: takes.len() as u8,
            gives,
        }
    }

    /// The types that the function takes, 1 to 64.
    pub fn takes(&self) -> &[Ty]
        ensures value { result.now ≡ self.now.takes }
        ensures some { 1 ≤ length self.now.takes }
        ensures few { length self.now.takes ≤ 64 }
    {
        &self.takes[..self.count as usize]
    }

    /// The type that the function gives.
    pub fn gives(&self) -> Ty
        ensures { result ≡ self.now.gives }
    {
        self.gives
    }

    /// Whether a map may have these types: at most nine taken, and each of them, and the one given,
    /// a base type.
    pub fn is_map(&self) -> bool
        ensures { IsTrue result ↔ IsMapSig self.now }
    {
        self.takes().len() <= 9
            && self.takes().iter().all(|ty| ty.is_base())
            && self.gives().is_base()
    }
}

/// A function with its types. Of a right-hand-side function the first type taken is that of the
/// bind's left value, and the rest are its captures'.
#[derive(Clone, Copy, PartialEq, Eq)]
pub struct FnRef {
    pub id: FnId,
    pub sig: Sig,
}

/// The types, filled up with `Int`.
fn filled_up(takes: &[Ty]) -> [Ty; 64]
    requires { length takes.now ≤ 64 }
    ensures { result ≡ padded takes.now }
{
    let mut all = [Ty::Int; 64];
    all[..takes.len()].copy_from_slice(takes);
    all
}
