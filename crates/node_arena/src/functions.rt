//! The functions of a graph.

use crate::{BuildFault, Builder, MoreFault};
use inc_value::{FnRef, NodeId, Value};
use std::alloc::{AllocError, Global};

/// The functions that the nodes of a graph call. Each map that is known has a value for all values
/// of the types that it takes, and each function of right sides has a term for all left values; both
/// are the same at each call.
pub trait Functions: Drop {
    ghost use Rattle.std.specs.Prelude.{◌≡◌, ◌≤◌, ◌<◌, ◌-◌, ◌↔◌, ℕ, Bool, List, Option};
    ghost use Rattle.std.specs.Prelude.{IfOk, IfErr, OnOk, OnErr, IsErrOf, IsTrue};
    ghost use Rattle.inc_value.specs.Value.{type_of, HaveTypes, IsProper};
    ghost use Rattle.inc_value.specs.declared.function.FnRef.{FnRef};
    ghost use Rattle.inc_value.specs.declared.function.FnKind.TheVariants.{Map, Rhs};
    ghost use Rattle.inc_value.specs.declared.value.Value.{Value};
    ghost use Rattle.inc_value.specs.Counts.{raised, raised_on_err};
    ghost use Rattle.node_arena.specs.Meanings.{HaveMapSigs, GiveTypes, GiveProper, GiveNoReference};
    ghost use Rattle.node_arena.specs.Arena.{IsFull};
    ghost use Rattle.node_arena.specs.Building.{Grows};
    ghost use Rattle.node_arena.specs.RightSide.{RightSide, MayBuild, IsRoot, SidesHold, SameMeaning, NewFunction};
    ghost use Rattle.node_arena.specs.RightSide.{IsKeepable, Means, KeepsMeanings, Tally, one_built, one_taken};
    ghost use Rattle.node_arena.specs.declared.stored.BuildFault.TheVariants.{Full};
    ghost use Rattle.node_arena.specs.declared.stored.MoreFault.TheVariants.{TooMany};

    /// A function that can be kept beside the others.
    type More: Drop;

    // the function that a name stands for, where functions have names
    ghost named: { Self → List ℕ → Option FnRef };

    // whether a function is known
    ghost known: { Self → FnRef → Bool };

    // what a map gives for its arguments
    ghost value: { Self → FnRef → List Value → Value };

    // how often `apply` was called; stays at 2 ^ 64 - 1
    ghost calls: { Self → ℕ };

    // how many of those calls found no memory; stays at 2 ^ 64 - 1
    ghost wants: { Self → ℕ };

    // what the keeper keeps true, and its callers hand on from call to call
    ghost is_sound: { Self → Type 0 };

    // the terms that a function makes of left values, what these call and name, and how many nodes they take
    ghost right: { Self → FnRef → RightSide };

    // how often `build` was called, how many ids its builders gave, how many functions `more` took, and
    // the most that it takes
    ghost tally: { Self → Tally };

    // what one call of a function, by `apply` or `build`, does to what the functions themselves count: where they
    // count their calls, that it called this one once, and no other
    ghost calls_once: { Self → Self → FnRef → Type 0 };

    // what the function that can be kept is
    ghost brings: { Self.More → NewFunction };

    // what keeping one function more leaves as it was, beside what is known and what that means
    ghost keeps: { Self → Self → Type 0 } = { λ old new. Unit {0} };

    /// Keeps one more function, and gives its name. Functions that were known stay so, and mean what
    /// they meant; what else stays, each keeper tells by itself. It is refused as one too many exactly
    /// where as many were taken as can be, and else where there is no memory. A refused call hands the
    /// function back, and makes none known.
    fn more(&mut self, alloc: Global, m: Self::More) -> Result<FnRef, (MoreFault, Self::More)>
        requires sound { is_sound self.old }
        requires keepable { IsKeepable (known self.old) (right self.old)
            (brings m).kind (brings m).sig (brings m).side }
        ensures sound { is_sound self.new }
        ensures known { IfOk result (λ f. IsTrue (known self.new f)) }
        ensures means { IfOk result (λ f. Means (value self.new) (right self.new) f (brings m)) }
        ensures keeps_meanings { KeepsMeanings (named self.old) (named self.new) (known self.old) (known self.new)
            (value self.old) (value self.new) (right self.old) (right self.new) }
        ensures keeps { keeps self.old self.new }
        ensures tally { tally self.new ≡ one_taken result (tally self.old) }
        ensures calls { calls self.new ≡ calls self.old }
        ensures wants { wants self.new ≡ wants self.old }
        ensures room { OnOk result ((tally self.old).taken < (tally self.old).most) }
        ensures too_many { IfErr result (λ e. (e.0 ≡ TooMany) ↔ ((tally self.old).taken ≡ (tally self.old).most)) }
        ensures back { IfErr result (λ e. e.1 ≡ m) }
        ensures no_more { OnErr result ((f : FnRef) → known self.new f ≡ known self.old f) };

    /// Whether the function is known.
    fn knows(&self, f: FnRef) -> bool
        ensures { result ≡ known self.now f };

    /// What the map gives for the arguments. Each call is counted, also one that finds no memory
    /// for the value. Names and meanings stay, and the same functions are known.
    fn apply(&mut self, alloc: Global, f: &FnRef, args: &[Value]) -> Result<Value, AllocError>
        requires sound { is_sound self.old }
        requires known { IsTrue (known self.old f.now) }
        requires kind { f.now.id.kind ≡ Map }
        requires fit { HaveTypes args.now f.now.sig.takes }
        ensures sound { is_sound self.new }
        ensures value { IfOk result (λ v. v ≡ value self.old f.now args.now) }
        ensures typed { IfOk result (λ v. type_of v ≡ f.now.sig.gives) }
        ensures proper { IfOk result IsProper }

        ensures calls { calls self.new ≡ raised (calls self.old) }
        ensures calls_grow { calls self.old ≤ calls self.new }
        ensures once { calls_once self.old self.new f.now }
        ensures wants { wants self.new ≡ raised_on_err result (wants self.old) }

        ensures same { SameMeaning (named self.old) (named self.new) (known self.old) (known self.new)
            (value self.old) (value self.new) (right self.old) (right self.new) }
        ensures tally { tally self.new ≡ tally self.old };

    /// Builds the right side that the function makes of the left value, in a scope in which no node
    /// stands: adds nodes, and gives the root, which reads back as the function's term with the
    /// captures put in. Ids that were given keep their rows; new nodes, also those that a refused call
    /// leaves, stand in the scope, call functions that this one lists, and are few enough. It is
    /// refused as full only where no further node can be added. Each call is counted, also one that is
    /// refused, and so are the ids given. Names and meanings stay, and the same functions are known.
    fn build(
        &mut self,
        alloc: Global,
        f: FnRef,
        left: &Value,
        captures: &[NodeId],
        builder: &mut Builder,
    ) -> Result<NodeId, BuildFault>
        requires sound { is_sound self.old }
        requires known { IsTrue (known self.old f) }
        requires kind { f.id.kind ≡ Rhs }
        requires ready { MayBuild builder.old f.sig (right self.old f) left.now captures.now }
        ensures sound { is_sound self.new }
        ensures grows { Grows (right self.old f).uses builder.old builder.new (right self.old f).size }
        ensures root { IfOk result (λ n. IsRoot builder.new captures.now n
            ((right self.old f).term left.now) f.sig.gives) }
        ensures full { IsErrOf result Full → IsFull builder.new.arena }
        ensures tally { tally self.new
            ≡ one_built (builder.new.arena.given - builder.old.arena.given) (tally self.old) }
        ensures calls { calls self.new ≡ calls self.old }
        ensures wants { wants self.new ≡ wants self.old }
        ensures once { calls_once self.old self.new f }

        ensures same { SameMeaning (named self.old) (named self.new) (known self.old) (known self.new)
            (value self.old) (value self.new) (right self.old) (right self.new) };

    // a known map has the types of a map
    ghost known_maps: { (s : Self) → is_sound s → HaveMapSigs (known s) };

    // a known map gives a value of the type that it says
    ghost typed: { (s : Self) → is_sound s → GiveTypes (known s) (value s) };

    // a known map gives a value that a program can hold
    ghost proper: { (s : Self) → is_sound s → GiveProper (known s) (value s) };

    // whatever its arguments, a known map gives no reference to a node
    ghost no_reference: { (s : Self) → is_sound s → GiveNoReference (known s) (value s) };

    // a map makes no right side; what right sides of known functions call is known
    ghost sides: { (s : Self) → is_sound s → SidesHold (known s) (right s) };
}
