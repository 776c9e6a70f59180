//! Whether two functions take and give the same types.
ghost use Rattle.std.specs.Prelude.{◌≡◌};
ghost use Rattle.inc_value.specs.Ty.{same_ty, same_types};
ghost use Rattle.closures.specs.Signature.{same_signature};

use inc_value::{Sig, Ty};

/// Whether both take the same types, one for one, and give the same one.
pub(crate) fn are_same(s: Sig, t: Sig) -> bool
    ensures { result ≡ same_signature s t }
{
    have_same_types(s.takes(), t.takes()) && is_same_type(s.gives(), t.gives())
}

/// Whether the types are the same, one for one.
fn have_same_types(left: &[Ty], right: &[Ty]) -> bool
    ensures { result ≡ same_types left.now right.now }
{
    left == right
}

/// Whether both are one type.
fn is_same_type(left: Ty, right: Ty) -> bool
    ensures { result ≡ same_ty left right }
{
    left == right
}
