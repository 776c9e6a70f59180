//! Types of functions of integers.
ghost use Rattle.std.specs.Prelude.{◌≡◌, ◌↔◌, IsTrue};
ghost use Rattle.closure_examples.specs.Arithmetic.{int_to_int, ints_to_int};

use inc_value::{Sig, Ty};

/// Whether these are the types of a function of one integer to another.
pub(crate) fn is_int_to_int(sig: Sig) -> bool
    ensures { IsTrue result ↔ (sig ≡ int_to_int) }
{
    matches!((sig.takes(), sig.gives()), ([Ty::Int], Ty::Int))
}

/// Whether these are the types of a function of two integers to another.
pub(crate) fn is_ints_to_int(sig: Sig) -> bool
    ensures { IsTrue result ↔ (sig ≡ ints_to_int) }
{
    matches!((sig.takes(), sig.gives()), ([Ty::Int, Ty::Int], Ty::Int))
}
