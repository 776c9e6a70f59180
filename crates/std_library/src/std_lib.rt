//! The standard library as one value, which counts the calls.
ghost use Rattle.std.specs.Prelude.{◌≡◌};

use crate::Function;
use inc_value::{FnRef, Ty, Value};
use node_arena::Library;
use std::alloc::{AllocError, Global};
use std::marker::Model;

/// The functions that scripts may use, with how often they were called.
#[derive(Drop)]
pub struct StdLib {
    calls: u64,
    wants: u64,
}

impl Model for StdLib {
    ghost use Rattle.std_library.specs.Calls.{Calls};

    ghost Value = { Calls };

    ghost view = { λ l. record { calls = l.calls; wants = l.wants } };
}

impl StdLib {
    /// The library, with no function called yet.
    pub fn new() -> StdLib
        ensures { result ≡ record { calls = 0; wants = 0 } }
    {
        StdLib { calls: 0, wants: 0 }
    }

    /// How many functions were called, up to 2^64 - 1.
    pub fn calls(&self) -> u64
        ensures { result ≡ self.now.calls }
    {
        self.calls
    }

    /// How many of those calls found no memory for the value, up to 2^64 - 1.
    pub fn wants(&self) -> u64
        ensures { result ≡ self.now.wants }
    {
        self.wants
    }
}

impl Library for StdLib {
    ghost use Rattle.std.specs.Prelude.{◌≡◌, ◌≢◌, ◌≤◌, IfOk, IsOk, IsTrue};
    ghost use Rattle.inc_value.specs.Value.{type_of, HaveTypes, IsProper};
    ghost use Rattle.inc_value.specs.Counts.{raised, raised_on_err};
    ghost use Rattle.std_library.specs.Functions.{named, known, given};
    ghost use Rattle.std_library.specs.FunctionLaws.{given_is_base, given_is_proper, given_is_typed, known_is_map, known_of_map, named_is_map};

    ghost named = { λ _ name. named name };

    ghost known = { λ _ f. known f };

    ghost value = { λ _ f args. given f args };

    ghost calls = { λ l. l.calls };

    ghost wants = { λ l. l.wants };

    fn find(&self, name: &[u8]) -> Option<FnRef> {
        match Function::named(name) {
            Some(function) => Some(function.reference()),
            None => None,
        }
    }

    fn knows(&self, f: FnRef) -> bool {
        match Function::numbered(f.id.number) {
            Some(function) => function.has_reference(f),
            None => false,
        }
    }

    /// What the function gives for the arguments. Only a text needs memory. Each call is counted,
    /// also one that finds no memory.
    ///
    /// # Errors
    ///
    /// [`AllocError`] where there is no memory for the value.
    #[tactic(auto, using(crate::specs::FunctionLaws::gives_by_number))]
    fn apply(&mut self, alloc: Global, f: &FnRef, args: &[Value]) -> Result<Value, AllocError>
        requires known { IsTrue (known f.now) }
        requires fit { HaveTypes args.now f.now.sig.takes }
        ensures value { IfOk result (λ v. v ≡ given f.now args.now) }
        ensures typed { IfOk result (λ v. type_of v ≡ f.now.sig.gives) }
        ensures proper { IfOk result IsProper }
        ensures scalar { f.now.sig.gives ≢ Ty.Text → IsOk result }
        ensures calls { self.new.calls ≡ raised self.old.calls }
        ensures calls_grow { self.old.calls ≤ self.new.calls }
        ensures wants { self.new.wants ≡ raised_on_err result self.old.wants }
    {
        self.calls = self.calls.saturating_add(1);
        let Some(function) = Function::numbered(f.id.number) else {
            unreachable!()
        };
        let value = function.apply(alloc, args);
        if value.is_err() {
            self.wants = self.wants.saturating_add(1);
        }
        value
    }

    ghost names_maps = { λ _ name f e. named_is_map name f e };

    ghost maps_alone = { λ _ f known. known_of_map f known };

    ghost known_maps = { λ _ f known kind. known_is_map f known };

    ghost typed = { λ _ f args known kind proper fit. given_is_typed f args known };

    ghost proper = { λ _ f args known kind proper fit. given_is_proper f args proper };

    ghost no_reference = { λ _ f args known kind. given_is_base f args known };
}
