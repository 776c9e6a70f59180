//! Bodies by number.
ghost use Rattle.std.specs.Prelude.{◌≡◌, ◌<◌, ◌↔◌, length, slice_get, Some, IfOk, IsErrOf, IsTrue};
ghost use Rattle.inc_value.specs.Ty.{same_ty, same_types};
ghost use Rattle.node_arena.specs.Arena.{IsFull};
ghost use Rattle.node_arena.specs.Building.{Grows};
ghost use Rattle.node_arena.specs.RightSide.{MayBuild, IsRoot};
ghost use Rattle.script_functions.specs.Keeping.{makers, has_types, same_signature};

use crate::Body;
use inc_value::{NodeId, Sig, Ty, Value};
use node_arena::{BuildFault, Builder, RhsFn};
use std::alloc::Global;

/// Whether the body of the number has the types.
pub(crate) fn has_body(bodies: &[Body], number: u64, sig: Sig) -> bool
    ensures { result ≡ has_types (slice_get (makers bodies.now) number) sig }
{
    match bodies.get(number as usize) {
        Some(body) => are_same(body.sig(), sig),
        None => false,
    }
}

/// Whether both take the same types and give the same one.
fn are_same(s: Sig, t: Sig) -> bool
    ensures { result ≡ same_signature s t }
{
    have_same_types(s.takes(), t.takes()) && is_same_type(s.gives(), t.gives())
}

/// Whether the types are the same, one for one.
fn have_same_types(left: &[Ty], right: &[Ty]) -> bool
    ensures { result ≡ same_types left.now right.now }
{
    left == right
}

/// Whether both types are the same.
fn is_same_type(left: Ty, right: Ty) -> bool
    ensures { result ≡ same_ty left right }
{
    left == right
}

/// Builds the right side that the body of the number makes of the left value.
pub(crate) fn build_at(
    alloc: Global,
    bodies: &mut Vec<Body>,
    number: u64,
    left: &Value,
    captures: &[NodeId],
    builder: &mut Builder,
) -> Result<NodeId, BuildFault>
    requires within { number < length bodies.old.items }
    requires ready { (m : _) → slice_get (makers bodies.old.items) number ≡ Some m
        → MayBuild builder.old m.sig m.side left.now captures.now }
    ensures grows { (m : _) → slice_get (makers bodies.old.items) number ≡ Some m
        → Grows m.side.uses builder.old builder.new m.side.size }
    ensures root { (m : _) → slice_get (makers bodies.old.items) number ≡ Some m
        → IfOk result (λ n. IsRoot builder.new captures.now n (m.side.term left.now) m.sig.gives) }
    ensures full { IsErrOf result BuildFault.Full → IsFull builder.new.arena }
    ensures len { length bodies.new.items ≡ length bodies.old.items }
    ensures same { makers bodies.new.items ≡ makers bodies.old.items }
{
    bodies[number as usize].build(alloc, left, captures, builder)
}
