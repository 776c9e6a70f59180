//! The children's values from which a fold was last computed.
ghost use Rattle.std.specs.Prelude.{◌≡◌, ◌↔◌, ◌≤◌, false, Some, None, IfSome, IsOk, IsTrue, OnErr, OnOk, option_copied};
ghost use Rattle.map_nodes.specs.Kept.{IsStale};

use inc_value::Value;
use map_nodes::LastArgs;
use smallvec::SmallVec;
use std::alloc::{AllocError, Global};
use std::marker::Model;

/// The values of a fold's children when it was last computed, if it was.
pub struct LastFold {
    kids: LastArgs,
}

// (written out: whoever drops one proves one call, and no drop of its parts)
impl Drop for LastFold {
    fn drop(self) {
        let LastFold { kids } = self;
        drop(kids);
    }
}

impl Model for LastFold {
    ghost use Rattle.map_nodes.specs.Kept.{Kept};

    ghost Value = { Kept };

    ghost view = { λ l. l.kids };
}

impl LastFold {
    /// Nothing is kept, and there is room for two values. This takes no memory.
    pub fn new(alloc: Global) -> LastFold
        ensures { result ≡ record { values = None; room = 2 } }
    {
        LastFold {
            kids: LastArgs::new(alloc),
        }
    }

    /// Makes room for so many values. The values that are kept stay.
    pub fn reserve(&mut self, n: usize) -> Result<(), AllocError>
        ensures values { self.new.values ≡ self.old.values }
        ensures room { OnOk result (n ≤ self.new.room) }
        ensures more { self.old.room ≤ self.new.room }
        ensures had_room { n ≤ self.old.room → IsOk result }
        ensures err { OnErr result (self.new ≡ self.old) }
    {
        self.kids.reserve(n)
    }

    /// Keeps the children's values of a list in place of those before, which the list gets with their room. This takes no
    /// memory.
    pub fn keep(&mut self, kids: &mut SmallVec<Value, 2>)
        ensures kept { self.new ≡ record { values = Some kids.old.items; room = kids.old.capacity } }
        ensures given { IfSome self.old.values (λ before. kids.new.items ≡ before) }
        ensures room { kids.new.capacity ≡ self.old.room }
    {
        self.kids.keep(kids);
    }

    /// The values that are kept, if some are.
    pub fn kids(&self) -> Option<&[Value]>
        ensures { option_copied result ≡ self.now.values }
    {
        self.kids.args()
    }

    /// Whether nothing is kept, or other values than these.
    pub fn stale_by_kids(&self, kids: &[Value]) -> bool
        ensures stale { IsTrue result ↔ IsStale self.now.values kids.now }
        ensures kept { (result ≡ false) ↔ (self.now.values ≡ Some kids.now) }
    {
        self.kids.stale_by_args(kids)
    }
}
