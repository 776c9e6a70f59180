//! The box of a holder as an address, which other languages may keep.
ghost use Rattle.std.specs.Prelude.{◌≡◌, Option, None, Some};
ghost use Rattle.session_slots.specs.Handles.{IsHeld};
ghost use Rattle.session_slots.specs.declared.holder.Holder.{Holder as AHolder};

use crate::holder::Holder;
use box_parts::Parts;
use std::alloc::Global;
use std::marker::Model;
use std::ptr::null_mut;

/// The address of a boxed holder, or of nothing. It is not `Drop`, so that none is let go with its box.
#[repr(C)]
pub struct Handle {
    at: *mut u8,
    alloc: Global,
    pub ghost value: { Option AHolder },
}

impl Model for Handle {
    ghost use Rattle.session_slots.specs.Handles.{handle_owns};
    ghost use Rattle.session_slots.specs.contracts.holder.Holder.{the_row};

    ghost also_owns = { λ h. handle_owns the_row h.alloc h.at h.value };
}

impl Handle {
    /// A handle of nothing.
    pub(crate) fn empty(alloc: Global) -> Handle
        ensures { result.value ≡ None }
    {
        Handle {
            at: null_mut(),
            alloc,
        }
    }

    /// The handle of a box that was taken apart.
    pub(crate) fn of(held: Parts<Holder, Global>) -> Handle
        ensures { result.value ≡ Some held.value }
    {
        let Parts { ptr, alloc } = held;
        Handle {
            at: ptr as *mut u8,
            alloc,
        }
    }

    /// The parts of the box.
    pub(crate) fn into_parts(self) -> Parts<Holder, Global>
        requires { IsHeld self.value }
        ensures { self.value ≡ Some result.value }
    {
        let Handle { at, alloc } = self;
        Parts {
            ptr: at as *mut Holder,
            alloc,
        }
    }

    /// Lets go of a handle of nothing.
    pub(crate) fn end(self)
        requires { self.value ≡ None }
    {
        let Handle { at: _, alloc: _ } = self;
    }
}
