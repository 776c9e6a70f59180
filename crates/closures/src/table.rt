//! Boxed functions of one kind, by number.
ghost use Rattle.std.specs.Prelude.{◌≡◌, ◌<◌, length, map, slice_get, Some, IfOk, IsErrOf};
ghost use Rattle.inc_value.specs.Counts.{raised};
ghost use Rattle.inc_value.specs.Value.{type_of, HaveTypes};
ghost use Rattle.node_arena.specs.Arena.{IsFull};
ghost use Rattle.node_arena.specs.Building.{Grows};
ghost use Rattle.node_arena.specs.RightSide.{MayBuild, IsRoot};
ghost use Rattle.closures.specs.Counting.{raised_at};
ghost use Rattle.closures.specs.Tables.{map_of, side_of, has_map, has_side};

use crate::signature::are_same;
use inc_value::{NodeId, Sig, Value};
use node_arena::{BuildFault, Builder, MapFn, RhsFn};
use std::alloc::{AllocError, Global};

/// Whether the map of the number has the types.
pub(crate) fn map_has(maps: &[Box<dyn MapFn>], number: u64, sig: Sig) -> bool
    ensures { result ≡ has_map (slice_get (map (λ b. map_of (map_sig b) (map_value b)) maps.now) number) sig }
{
    match maps.get(number as usize) {
        Some(function) => map_has_types(function, sig),
        None => false,
    }
}

/// Whether the map has the types.
fn map_has_types(function: &Box<dyn MapFn>, sig: Sig) -> bool
    ensures { result ≡ has_map (Some (map_of (map_sig function.now) (map_value function.now))) sig }
{
    are_same(function.sig(), sig)
}

/// Whether the function of right sides of the number has the types.
pub(crate) fn side_has(sides: &[Box<dyn RhsFn>], number: u64, sig: Sig) -> bool
    ensures { result ≡ has_side (slice_get (map (λ b. side_of (rhs_sig b) (rhs b)) sides.now) number) sig }
{
    match sides.get(number as usize) {
        Some(function) => side_has_types(function, sig),
        None => false,
    }
}

/// Whether the function of right sides has the types.
fn side_has_types(function: &Box<dyn RhsFn>, sig: Sig) -> bool
    ensures { result ≡ has_side (Some (side_of (rhs_sig function.now) (rhs function.now))) sig }
{
    are_same(function.sig(), sig)
}

/// What the map gives for the arguments.
fn apply_box(
    alloc: Global,
    function: &mut Box<dyn MapFn>,
    args: &[Value],
) -> Result<Value, AllocError>
    requires fit { HaveTypes args.now (map_sig function.old).takes }
    ensures value { IfOk result (λ v. v ≡ map_value function.old args.now) }
    ensures typed { IfOk result (λ v. type_of v ≡ (map_sig function.old).gives) }
    ensures called { map_calls function.new ≡ raised (map_calls function.old) }
    ensures same { map_of (map_sig function.new) (map_value function.new)
        ≡ map_of (map_sig function.old) (map_value function.old) }
{
    function.apply(alloc, args)
}

/// What the map of the number gives for the arguments.
pub(crate) fn apply_at(
    alloc: Global,
    maps: &mut Vec<Box<dyn MapFn>>,
    number: u64,
    args: &[Value],
) -> Result<Value, AllocError>
    requires within { number < length maps.old.items }
    requires fit { (m : _) → slice_get (map (λ b. map_of (map_sig b) (map_value b)) maps.old.items) number ≡ Some m
        → HaveTypes args.now m.sig.takes }
    ensures value { (m : _) → slice_get (map (λ b. map_of (map_sig b) (map_value b)) maps.old.items) number ≡ Some m
        → IfOk result (λ v. v ≡ m.value args.now) }
    ensures typed { (m : _) → slice_get (map (λ b. map_of (map_sig b) (map_value b)) maps.old.items) number ≡ Some m
        → IfOk result (λ v. type_of v ≡ m.sig.gives) }
    ensures called { map (λ b. map_calls b) maps.new.items ≡ raised_at number (map (λ b. map_calls b) maps.old.items) }
    ensures len { length maps.new.items ≡ length maps.old.items }
    ensures same { map (λ b. map_of (map_sig b) (map_value b)) maps.new.items
        ≡ map (λ b. map_of (map_sig b) (map_value b)) maps.old.items }
{
    apply_box(alloc, &mut maps[number as usize], args)
}

/// Builds the right side of the left value.
fn build_box(
    alloc: Global,
    function: &mut Box<dyn RhsFn>,
    left: &Value,
    captures: &[NodeId],
    builder: &mut Builder,
) -> Result<NodeId, BuildFault>
    requires ready { MayBuild builder.old (rhs_sig function.old) (rhs function.old) left.now captures.now }
    ensures grows { Grows (rhs function.old).uses builder.old builder.new (rhs function.old).size }
    ensures root { IfOk result (λ n. IsRoot builder.new captures.now n
        ((rhs function.old).term left.now) (rhs_sig function.old).gives) }
    ensures full { IsErrOf result BuildFault.Full → IsFull builder.new.arena }
    ensures called { rhs_builds function.new ≡ raised (rhs_builds function.old) }
    ensures same { side_of (rhs_sig function.new) (rhs function.new)
        ≡ side_of (rhs_sig function.old) (rhs function.old) }
{
    function.build(alloc, left, captures, builder)
}

/// Builds the right side of the left value by the function of the number.
pub(crate) fn build_at(
    alloc: Global,
    sides: &mut Vec<Box<dyn RhsFn>>,
    number: u64,
    left: &Value,
    captures: &[NodeId],
    builder: &mut Builder,
) -> Result<NodeId, BuildFault>
    requires within { number < length sides.old.items }
    requires ready { (m : _) → slice_get (map (λ b. side_of (rhs_sig b) (rhs b)) sides.old.items) number ≡ Some m
        → MayBuild builder.old m.sig m.side left.now captures.now }
    ensures grows { (m : _) → slice_get (map (λ b. side_of (rhs_sig b) (rhs b)) sides.old.items) number ≡ Some m
        → Grows m.side.uses builder.old builder.new m.side.size }
    ensures root { (m : _) → slice_get (map (λ b. side_of (rhs_sig b) (rhs b)) sides.old.items) number ≡ Some m
        → IfOk result (λ n. IsRoot builder.new captures.now n (m.side.term left.now) m.sig.gives) }
    ensures full { IsErrOf result BuildFault.Full → IsFull builder.new.arena }
    ensures called { map (λ b. rhs_builds b) sides.new.items ≡ raised_at number (map (λ b. rhs_builds b) sides.old.items) }
    ensures len { length sides.new.items ≡ length sides.old.items }
    ensures same { map (λ b. side_of (rhs_sig b) (rhs b)) sides.new.items
        ≡ map (λ b. side_of (rhs_sig b) (rhs b)) sides.old.items }
{
    build_box(alloc, &mut sides[number as usize], left, captures, builder)
}
