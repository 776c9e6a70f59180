//! A holder of functions whose invariant speaks of them, as a graph's does.
ghost use Rattle.std.specs.Prelude.{◌≡◌, [], ◌∷◌, pos, IfSome, IsTrue};
ghost use Rattle.inc_value.specs.declared.function.FnKind.TheVariants.{Map};
ghost use Rattle.inc_value.specs.declared.value.Value.TheVariants.{Int};
ghost use Rattle.node_arena.specs.RightSide.{IsKeepable};

use crate::types::is_int_to_int;
use inc_value::{FnRef, Value};
use node_arena::{Arena, Functions};
use std::alloc::Global;
use std::marker::Model;

/// Functions and nodes.
#[derive(Drop)]
pub struct Holder<F: Functions> {
    functions: F,
    arena: Arena,
}

impl<F: Functions> Model for Holder<F> {
    ghost use Rattle.closure_examples.specs.Held.{Held};

    ghost Value = { Held F };

    ghost view = { λ h. record { functions = h.functions; arena = h.arena } };

    ghost invariant = { λ h. F.is_sound h.functions };
}

impl<F: Functions> Holder<F> {
    /// Holds the functions, and no node.
    pub fn new(alloc: Global, functions: F) -> Holder<F>
        requires { F.is_sound functions }
        ensures { result.functions ≡ functions }
    {
        Holder {
            functions,
            arena: Arena::new(alloc),
        }
    }

    /// Whether the function is known.
    pub fn knows(&self, f: FnRef) -> bool
        ensures { result ≡ F.known self.now.functions f }
    {
        self.functions.knows(f)
    }
}

/// Makes a holder of the functions, and asks it for one.
pub fn held<F: Functions>(alloc: Global, functions: F, f: FnRef) -> bool
    requires { F.is_sound functions }
    ensures { result ≡ F.known functions f }
{
    let holder = Holder::new(alloc, functions);
    holder.knows(f)
}

/// Keeps one function more beside a map of one integer, and gives what that map then gives of 3: what it gave before.
/// None where the map has other types, as many functions are kept as can be, or there is no memory.
pub fn kept<F: Functions>(
    alloc: Global,
    functions: &mut F,
    older: &FnRef,
    m: F::More,
) -> Option<Value>
    requires sound { F.is_sound functions.old }
    requires known { IsTrue (F.known functions.old older.now) }
    requires kind { older.now.id.kind ≡ Map }
    requires keepable { IsKeepable (F.known functions.old) (F.right functions.old)
        (F.brings m).kind (F.brings m).sig (F.brings m).side }
    ensures sound { F.is_sound functions.new }
    ensures value { IfSome result (λ v. v ≡ F.value functions.old older.now (Int (pos 3) ∷ [])) }
{
    if !is_int_to_int(older.sig) {
        return None;
    }
    match functions.more(alloc, m) {
        Ok(_) => functions.apply(alloc, older, &[Value::Int(3)]).ok(),
        Err(_) => None,
    }
}
