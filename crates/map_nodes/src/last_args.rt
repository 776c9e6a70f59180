//! The values on which a function was last called.
ghost use Rattle.std.specs.Prelude.{◌≡◌, ◌↔◌, ◌≤◌, false, Some, None, IfSome, IsOk, IsTrue, OnErr, OnOk, option_copied};
ghost use Rattle.map_nodes.specs.Kept.{IsStale};

use crate::kept::are_kept;
use inc_value::Value;
use smallvec::SmallVec;
use std::alloc::{AllocError, Global};
use std::marker::Model;
use std::mem;

/// The values on which a function was last called, if it was called. Two values that are no texts take no memory of
/// their own.
pub struct LastArgs {
    any: bool,
    args: SmallVec<Value, 2>,
}

// (written out: whoever drops one proves one call, and no drop of its parts)
impl Drop for LastArgs {
    fn drop(self) {
        let LastArgs { any: _, args } = self;
        drop(args);
    }
}

impl Model for LastArgs {
    ghost use Rattle.map_nodes.specs.Kept.{Kept, kept_if};

    ghost Value = { Kept };

    ghost view = { λ l. record { values = kept_if l.any l.args.items; room = l.args.capacity } };
}

impl LastArgs {
    /// Nothing is kept, and there is room for two values. This takes no memory.
    pub fn new(alloc: Global) -> LastArgs
        ensures { result ≡ record { values = None; room = 2 } }
    {
        LastArgs {
            any: false,
            args: SmallVec::new(alloc),
        }
    }

    /// Makes room for so many values. The values that are kept stay.
    pub fn reserve(&mut self, n: usize) -> Result<(), AllocError>
        ensures values { self.new.values ≡ self.old.values }
        ensures room { OnOk result (n ≤ self.new.room) }
        ensures more { self.old.room ≤ self.new.room }
        ensures had_room { n ≤ self.old.room → IsOk result }
        ensures err { OnErr result (self.new ≡ self.old) }
    {
        if n <= self.args.capacity() {
            return Ok(());
        }
        self.args.reserve(n - self.args.len())
    }

    /// Keeps the values of a list in place of those before, which the list gets with their room. This takes no memory.
    pub fn keep(&mut self, args: &mut SmallVec<Value, 2>)
        ensures kept { self.new ≡ record { values = Some args.old.items; room = args.old.capacity } }
        ensures given { IfSome self.old.values (λ before. args.new.items ≡ before) }
        ensures room { args.new.capacity ≡ self.old.room }
    {
        mem::swap(&mut self.args, args);
        self.any = true;
    }

    /// The values that are kept, if some are.
    pub fn args(&self) -> Option<&[Value]>
        ensures { option_copied result ≡ self.now.values }
    {
        if self.any {
            Some(self.args.as_slice())
        } else {
            None
        }
    }

    /// Whether nothing is kept, or other values than these.
    pub fn stale_by_args(&self, args: &[Value]) -> bool
        ensures stale { IsTrue result ↔ IsStale self.now.values args.now }
        ensures kept { (result ≡ false) ↔ (self.now.values ≡ Some args.now) }
    {
        !self.any || !are_kept(self.args.as_slice(), args)
    }
}
