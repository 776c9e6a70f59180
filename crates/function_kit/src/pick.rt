//! A function of right sides that choose one of the captures.
ghost use Rattle.std.specs.Prelude.{◌≡◌, ◌↔◌, ◌<◌, ◌≤◌, ◌∷◌, length, replicate, IfSome, IsSome, IsTrue};
ghost use Rattle.inc_value.specs.Choice.{Every};
ghost use Rattle.inc_value.specs.declared.ty.Ty.TheVariants as ty;
ghost use Rattle.function_kit.specs.Sides.{ArePicked, IsPicked, others, place_of};

use inc_value::{NodeId, Sig, Ty, Value};
use node_arena::{BuildFault, Builder, RhsFn};
use std::alloc::Global;

/// Of each left integer, the capture of that number: 0 is the first. One below 0 chooses the first, and one past the last chooses
/// the last. No node is built: the bind shows what the capture shows.
#[derive(Drop)]
pub struct Pick {
    sig: Sig,
    ghost some: { 1 ≤ length (others sig.takes) },
    ghost alike: { sig.takes ≡ ty.Int ∷ replicate (length (others sig.takes)) sig.gives },
}

impl Pick {
    /// For these types: an integer first, then those of the captures, of which there is one at least. Each is that of the bind.
    /// None of other types.
    pub fn new(sig: Sig) -> Option<Pick>
        ensures made { IfSome result (λ p. p.sig ≡ sig) }
        ensures fits { IsSome result ↔ IsPicked sig }
    {
        if is_picked(sig) {
            Some(Pick { sig })
        } else {
            None
        }
    }
}

/// Whether an integer is taken first, and then captures of the type that is given, one at least.
fn is_picked(sig: Sig) -> bool
    ensures { IsTrue result ↔ IsPicked sig }
{
    are_picked(sig.takes(), sig.gives())
}

/// Whether an integer comes first, and then one type or more, each of them this one.
fn are_picked(takes: &[Ty], gives: Ty) -> bool
    ensures { IsTrue result ↔ ArePicked takes.now gives }
{
    match takes {
        [Ty::Int, first, rest @ ..] => *first == gives && are_all(rest, gives),
        _ => false,
    }
}

/// Whether each type is this one.
fn are_all(types: &[Ty], ty: Ty) -> bool
    ensures { IsTrue result ↔ Every (λ t. t ≡ ty) types.now }
{
    types.iter().all(|t| *t == ty)
}

/// The number of the capture that a left value chooses, of so many.
fn place(left: &Value, count: usize) -> usize
    requires { 0 < count }
    ensures { result ≡ place_of count left.now }
{
    match left {
        Value::Int(number) if *number >= 0 => (*number as usize).min(count - 1),
        _ => 0,
    }
}

impl RhsFn for Pick {
    ghost use Rattle.node_arena.specs.Meanings.{uncounted};
    ghost use Rattle.function_kit.specs.Sides.{picking_side};

    ghost rhs_sig = { λ s. s.sig };

    ghost rhs = { λ s. picking_side s.sig };

    ghost rhs_builds = { λ s. uncounted };

    fn sig(&self) -> Sig {
        self.sig
    }

    fn build(
        &mut self,
        alloc: Global,
        left: &Value,
        captures: &[NodeId],
        builder: &mut Builder,
    ) -> Result<NodeId, BuildFault> {
        let _ = alloc;
        let _ = builder;
        Ok(captures[place(left, captures.len())])
    }
}
