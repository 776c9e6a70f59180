//! Single functions, as a program hands them over in boxes.

use crate::{AddFault, Builder};
use inc_value::{NodeId, Sig, Value};
use std::alloc::{AllocError, Global};
use thiserror::Error;

/// Why a right side isn't built.
#[derive(Clone, Copy, Debug, PartialEq, Eq, Error)]
pub enum BuildFault {
    /// There is no memory for it.
    #[error("out of memory")]
    Memory,
    /// There are 1,048,576 live nodes, or every id was given.
    #[error("no further node can be added")]
    Full,
}

impl BuildFault {
    ghost use Rattle.std.specs.Prelude.{◌≡◌, ◌≢◌, ◌↔◌};

    /// The fault of a node that wasn't added, where the ids that it names were given and its types fit.
    pub fn from_add(fault: AddFault) -> BuildFault
        requires given { fault ≢ AddFault.Unknown }
        requires typed { fault ≢ AddFault.WrongType }
        ensures { (result ≡ BuildFault.Full) ↔ (fault ≡ AddFault.Full) }
    {
        match fault {
            AddFault::Memory => BuildFault::Memory,
            AddFault::Full => BuildFault::Full,
            AddFault::Unknown | AddFault::WrongType => unreachable!(),
        }
    }
}

/// Why a function isn't kept.
#[derive(Clone, Copy, Debug, PartialEq, Eq, Error)]
pub enum MoreFault {
    /// As many are kept as can be.
    #[error("no further function can be kept")]
    TooMany,
    /// There is no memory for it.
    #[error("out of memory")]
    Memory,
}

/// A map: a function of values. For all values of the types that it takes it gives a value, the same
/// at each call.
pub trait MapFn: Drop {
    ghost use Rattle.std.specs.Prelude.{◌≡◌, ℕ, List, IfOk};
    ghost use Rattle.inc_value.specs.Counts.{raised};
    ghost use Rattle.inc_value.specs.Sig.{Signature};
    ghost use Rattle.inc_value.specs.Value.{type_of, HaveTypes};
    ghost use Rattle.inc_value.specs.declared.value.Value.{Value};
    ghost use Rattle.node_arena.specs.Meanings.{IsLawfulMap};

    // the types that it takes, and the one that it gives
    ghost map_sig: { Self → Signature };

    // what it gives for its arguments
    ghost map_value: { Self → List Value → Value };

    // how often `apply` was called; stays at 2 ^ 64 - 1. A map that keeps no count may say `uncounted`
    ghost map_calls: { Self → ℕ };

    /// The types that it takes, and the one that it gives. Of proper values of these types it gives
    /// a proper value of that one; it never gives a reference to a node.
    fn sig(&self) -> Sig
        ensures value { result ≡ map_sig self.now }
        ensures lawful { IsLawfulMap (map_sig self.now) (map_value self.now) };

    /// What it gives for the arguments, or want of memory. It goes on to give what it gave, and was
    /// called once more.
    fn apply(&mut self, alloc: Global, args: &[Value]) -> Result<Value, AllocError>
        requires fit { HaveTypes args.now (map_sig self.old).takes }
        ensures value { IfOk result (λ v. v ≡ map_value self.old args.now) }
        ensures typed { IfOk result (λ v. type_of v ≡ (map_sig self.old).gives) }
        ensures called { map_calls self.new ≡ raised (map_calls self.old) }
        ensures same_sig { map_sig self.new ≡ map_sig self.old }
        ensures same_value { map_value self.new ≡ map_value self.old };
}

/// A function that makes right sides of binds: of each left value a term over captured nodes, the
/// same at each call.
pub trait RhsFn: Drop {
    ghost use Rattle.std.specs.Prelude.{◌≡◌, ℕ, IfOk, IsErrOf};
    ghost use Rattle.inc_value.specs.Counts.{raised};
    ghost use Rattle.inc_value.specs.Sig.{Signature};
    ghost use Rattle.node_arena.specs.Arena.{IsFull};
    ghost use Rattle.node_arena.specs.Building.{Grows};
    ghost use Rattle.node_arena.specs.RightSide.{RightSide, IsLawful, MayBuild, IsRoot};
    ghost use Rattle.node_arena.specs.declared.stored.BuildFault.TheVariants.{Full};

    // the types of the left value and of the captures, and the one of the right sides
    ghost rhs_sig: { Self → Signature };

    // the terms that it makes, what these call and name, and how many nodes they take
    ghost rhs: { Self → RightSide };

    // how often `build` was called; stays at 2 ^ 64 - 1. A function that keeps no count may say `uncounted`
    ghost rhs_builds: { Self → ℕ };

    /// The types of the left value and of the captures, and the one of the right sides. Whatever the
    /// left value, its term calls listed functions alone, and names listed nodes and the one that the
    /// left value names; for a proper one of its type the term is of the right sides' type.
    fn sig(&self) -> Sig
        ensures value { result ≡ rhs_sig self.now }
        ensures lawful { IsLawful (rhs_sig self.now) (rhs self.now) };

    /// Builds the term of the left value, in a scope in which no node stands: adds nodes, and gives the
    /// root, which reads back as the term with the captures put in. Ids that were given keep their
    /// rows; new nodes, also those that a refused call leaves, stand in the scope, call listed
    /// functions and are few enough. It is refused as full only where no further node can be added.
    /// It goes on to build what it built, and was called once more.
    fn build(
        &mut self,
        alloc: Global,
        left: &Value,
        captures: &[NodeId],
        builder: &mut Builder,
    ) -> Result<NodeId, BuildFault>
        requires ready { MayBuild builder.old (rhs_sig self.old) (rhs self.old) left.now captures.now }
        ensures grows { Grows (rhs self.old).uses builder.old builder.new (rhs self.old).size }
        ensures root { IfOk result (λ n. IsRoot builder.new captures.now n
            ((rhs self.old).term left.now) (rhs_sig self.old).gives) }
        ensures full { IsErrOf result Full → IsFull builder.new.arena }
        ensures called { rhs_builds self.new ≡ raised (rhs_builds self.old) }
        ensures same_sig { rhs_sig self.new ≡ rhs_sig self.old }
        ensures same_rhs { rhs self.new ≡ rhs self.old };
}

impl MapFn for Box<dyn MapFn> {
    ghost map_sig = { λ b. (MapFn-box b).map_sig b.value };

    ghost map_value = { λ b. (MapFn-box b).map_value b.value };

    ghost map_calls = { λ b. (MapFn-box b).map_calls b.value };

    fn sig(&self) -> Sig {
        (**self).sig()
    }

    fn apply(&mut self, alloc: Global, args: &[Value]) -> Result<Value, AllocError> {
        (**self).apply(alloc, args)
    }
}

impl RhsFn for Box<dyn RhsFn> {
    ghost rhs_sig = { λ b. (RhsFn-box b).rhs_sig b.value };

    ghost rhs = { λ b. (RhsFn-box b).rhs b.value };

    ghost rhs_builds = { λ b. (RhsFn-box b).rhs_builds b.value };

    fn sig(&self) -> Sig {
        (**self).sig()
    }

    fn build(
        &mut self,
        alloc: Global,
        left: &Value,
        captures: &[NodeId],
        builder: &mut Builder,
    ) -> Result<NodeId, BuildFault> {
        (**self).build(alloc, left, captures, builder)
    }
}
