//! Functions by name.

use inc_value::{FnRef, Value};
use std::alloc::{AllocError, Global};

/// Functions by name, over values of base types. Each has a value for all values of the types that
/// it takes, and the value is the same at each call.
pub trait Library: Drop {
    ghost use Rattle.std.specs.Prelude.{◌≡◌, ◌≤◌, ℕ, Bool, List, Option, IfOk, IsTrue, Some};
    ghost use Rattle.inc_value.specs.Sig.{IsMapSig};
    ghost use Rattle.inc_value.specs.Value.{type_of, HaveTypes, IsProper};
    ghost use Rattle.inc_value.specs.declared.function.FnRef.{FnRef};
    ghost use Rattle.inc_value.specs.declared.function.FnKind.TheVariants.{Map};
    ghost use Rattle.inc_value.specs.declared.value.Value.{Value};
    ghost use Rattle.inc_value.specs.Counts.{raised, raised_on_err};
    ghost use Rattle.node_arena.specs.Meanings.{SameNames, SameKnown, SameValues, HaveMapSigs};
    ghost use Rattle.node_arena.specs.Meanings.{GiveTypes, GiveProper, GiveNoReference};

    // the function that a name stands for
    ghost named: { Self → List ℕ → Option FnRef };

    // whether a function is one of the library
    ghost known: { Self → FnRef → Bool };

    // what a function gives for its arguments
    ghost value: { Self → FnRef → List Value → Value };

    // how often `apply` was called; stays at 2 ^ 64 - 1
    ghost calls: { Self → ℕ };

    // how many of those calls found no memory; stays at 2 ^ 64 - 1
    ghost wants: { Self → ℕ };

    /// The function that the name stands for.
    fn find(&self, name: &[u8]) -> Option<FnRef>
        ensures { result ≡ named self.now name.now };

    /// Whether the function is one of the library.
    fn knows(&self, f: FnRef) -> bool
        ensures { result ≡ known self.now f };

    /// What the function gives for the arguments. Each call is counted, also one that finds no
    /// memory for the value. Names and values stay, and the same functions are known.
    fn apply(&mut self, alloc: Global, f: &FnRef, args: &[Value]) -> Result<Value, AllocError>
        requires known { IsTrue (known self.old f.now) }
        requires kind { f.now.id.kind ≡ Map }
        requires fit { HaveTypes args.now f.now.sig.takes }
        ensures value { IfOk result (λ v. v ≡ value self.old f.now args.now) }
        ensures typed { IfOk result (λ v. type_of v ≡ f.now.sig.gives) }
        ensures proper { IfOk result IsProper }

        ensures calls { calls self.new ≡ raised (calls self.old) }
        ensures calls_grow { calls self.old ≤ calls self.new }
        ensures wants { wants self.new ≡ raised_on_err result (wants self.old) }

        ensures same_names { SameNames (named self.old) (named self.new) }
        ensures same_known { SameKnown (known self.old) (known self.new) }
        ensures same_values { SameValues (value self.old) (value self.new) };

    // a name stands for a map of the library
    ghost names_maps: { (l : Self) (name : List ℕ) (f : FnRef) → named l name ≡ Some f
        → IsTrue (known l f) × (f.id.kind ≡ Map) × IsMapSig f.sig };

    // the library knows no function but maps
    ghost maps_alone: { (l : Self) (f : FnRef) → IsTrue (known l f) → f.id.kind ≡ Map };

    // a map of the library has the types of a map
    ghost known_maps: { (l : Self) → HaveMapSigs (known l) };

    // of values of the types that it takes, a map gives a value of the type that it says
    ghost typed: { (l : Self) → GiveTypes (known l) (value l) };

    // of values of the types that it takes, a map gives a value that a program can hold
    ghost proper: { (l : Self) → GiveProper (known l) (value l) };

    // whatever its arguments, a map gives no reference to a node
    ghost no_reference: { (l : Self) → GiveNoReference (known l) (value l) };
}
