//! The names that a script has declared, and its observers in use.
ghost use Rattle.std.specs.Prelude.{pos, nat_abs, ◌≤ℤ◌, ◌≡◌, ◌≢◌, ◌≤◌, ◌<◌, ◌++◌, ◌∷◌, [], ℕ, length, slice_get, None, Some, IfSome, IsFalse, IsTrue, MatchOption, OnErr, OnOk};
ghost use Rattle.indexmap.specs.IndexMap.{swap_remove_by};
ghost use Rattle.std.specs.Str.{bytes_eq};
ghost use Rattle.script_model.specs.Check.{first_named, is_among};
ghost use Rattle.inc_value.specs.Choice.{and_then};
ghost use Rattle.formula_lang.specs.NamesView.{AreEarlier, declared_view, kind_view};

use inc_value::Ty;
use indexmap::{IndexMap, IndexSet};
use line_parser::Name;
use line_times::Nanoseconds;
use std::alloc::{AllocError, Global};
use std::marker::Model;

/// How a name was declared.
#[derive(Clone, Copy, PartialEq, Eq)]
pub enum Kind {
    /// By `var`.
    Var,
    /// By `let`, with a formula that is no bind.
    Let,
    /// By `let`, with a bind.
    Bind,
    /// By an expert node whose dependencies have this type.
    Expert { takes: Ty },
    /// By `grab`.
    Grab,
}

/// A declared name.
pub struct Declared {
    pub name: Name,
    /// The type of its values.
    pub ty: Ty,
    pub kind: Kind,
    /// The position of the declaration that it stands for: its own, or an earlier one's.
    pub target: usize,
}

// (written out: whoever drops one proves one call, and no drop of its parts)
impl Drop for Declared {
    fn drop(self) {
        let Declared {
            name,
            ty: _,
            kind: _,
            target: _,
        } = self;
        drop(name);
    }
}

/// The declared names in order, the observers' names in use, and the clock, in nanoseconds.
pub struct Names {
    alloc: Global,
    declared: IndexMap<Vec<u8>, Declared>,
    observers: IndexSet<Vec<u8>>,
    now: i64,
}

// (written out: whoever drops one proves one call, and no drop of its parts)
impl Drop for Names {
    fn drop(self) {
        let Names {
            alloc: _,
            declared,
            observers,
            now: _,
        } = self;
        drop(declared);
        drop(observers);
    }
}

impl Model for Names {
    ghost use Rattle.std.specs.Prelude.{pos, nat_abs, ◌≤ℤ◌, map};
    ghost use Rattle.script_model.specs.Check.{Names as Known};

    ghost Value = { Known };

    ghost use Rattle.formula_lang.specs.NamesView.{AreKept, declared_in};

    ghost view = { λ n. record { declared = declared_in n.declared.entries; observers = map (λ k. k.items) n.observers.keys; now = nat_abs n.now } };

    ghost invariant = { λ n. AreKept (λ k. k.items) n.declared.entries × (pos 0 ≤ℤ n.now) };
}

impl Names {
    /// No names and no observers, at time 0. This takes no memory.
    pub fn new(alloc: Global) -> Names
        ensures { result ≡ record { declared = []; observers = []; now = 0 } }
    {
        Names {
            alloc,
            declared: IndexMap::new(alloc),
            observers: IndexSet::new(alloc),
            now: 0,
        }
    }

    /// How many names are declared.
    pub fn len(&self) -> usize
        ensures { result ≡ length self.entry.now.declared }
    {
        self.declared.len()
    }

    /// No target comes later than its name: a fact for a caller's proof. Nothing runs.
    pub fn keeps_order(&self)
        ensures { AreEarlier self.entry.now.declared }
    {
        let _ = &self.declared;
    }

    /// The `i`-th declared name.
    pub fn get(&self, i: usize) -> &Declared
        requires { i < length self.now.declared }
        ensures value { slice_get self.entry.now.declared i ≡ Some (declared_view result.now) }
        ensures earlier { result.now.target ≤ i }
    {
        &self.declared[i]
    }

    /// The position of the name among those declared.
    pub fn find(&self, name: &[u8]) -> Option<usize>
        ensures found { first_named name.now self.entry.now.declared ≡ and_then result (slice_get self.entry.now.declared) }
        ensures within { IfSome result (λ i. i < length self.entry.now.declared) }
    {
        self.declared.get_index_of(name)
    }

    /// Declares a name behind the others. Its target is that of an earlier name, or its own
    /// position. Without memory nothing changes.
    pub fn declare(
        &mut self,
        name: &[u8],
        ty: Ty,
        kind: Kind,
        target: usize,
    ) -> Result<(), AllocError>
        requires fresh { first_named name.now self.old.declared ≡ None }
        requires earlier { target ≤ length self.old.declared }
        ensures ok { OnOk result (self.new ≡ record self.old {
          declared = self.old.declared ++ record { name = name.now; ty = ty; kind = kind_view kind; target = target } ∷ [];
        }) }
        ensures err { OnErr result (self.new ≡ self.old) }
    {
        let key = Vec::from_slice(self.alloc, name)?;
        let declared = Declared {
            name: Name::new(self.alloc, name)?,
            ty,
            kind,
            target,
        };
        self.declared.insert(key, declared)?;
        Ok(())
    }

    /// Whether an observer in use has the name.
    pub fn is_in_use(&self, name: &[u8]) -> bool
        ensures { result ≡ is_among self.entry.now.observers name.now }
    {
        self.observers.contains(name)
    }

    /// The position of an observer's name among those in use.
    pub fn observer(&self, name: &[u8]) -> Option<usize>
        ensures found { MatchOption result (IsFalse (is_among self.entry.now.observers name.now))
            (λ i. slice_get self.entry.now.observers i ≡ Some name.now) }
        ensures first { IfSome result (λ i. (k : ℕ) → k < i → slice_get self.entry.now.observers k ≢ Some name.now) }
        ensures within { IfSome result (λ i. i < length self.entry.now.observers) }
    {
        self.observers.get_index_of(name)
    }

    /// The name of the observer at a position among those in use.
    pub fn observer_at(&self, position: usize) -> &[u8]
        requires { position < length self.now.observers }
        ensures { slice_get self.entry.now.observers position ≡ Some result.now }
    {
        match self.observers.get_index(position) {
            Some(name) => name,
            None => b"",
        }
    }

    /// Puts an observer's name in use, behind the others. Without memory nothing changes.
    pub fn observe(&mut self, name: &[u8]) -> Result<(), AllocError>
        requires { IsFalse (is_among self.old.observers name.now) }
        ensures ok { OnOk result (self.new ≡ record self.old { observers = self.old.observers ++ name.now ∷ [] }) }
        ensures err { OnErr result (self.new ≡ self.old) }
    {
        let key = Vec::from_slice(self.alloc, name)?;
        self.observers.insert(key)?;
        Ok(())
    }

    /// Takes an observer's name out of use, in constant time: the last one stands in its place then.
    pub fn end(&mut self, name: &[u8])
        requires { IsTrue (is_among self.old.observers name.now) }
        ensures { self.new ≡ record self.old { observers = swap_remove_by (bytes_eq name.now) self.old.observers } }
    {
        self.observers.swap_remove(name);
    }

    /// The clock, in nanoseconds.
    pub fn now(&self) -> i64
        ensures { result ≡ pos self.entry.now.now }
    {
        self.now
    }

    /// The same, as a time that has no sign.
    pub(crate) fn clock(&self) -> Nanoseconds
        ensures { result ≡ self.entry.now.now }
    {
        Nanoseconds::new(self.now.unsigned_abs())
    }

    /// Sets the clock, in nanoseconds.
    pub fn set_now(&mut self, now: i64)
        requires { pos 0 ≤ℤ now }
        ensures { self.new ≡ record self.old { now = nat_abs now } }
    {
        self.now = now;
    }
}
