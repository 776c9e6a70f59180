//! What the calls do at a slot.
ghost use Rattle.std.specs.Prelude.{◌≡◌, ◌<◌, Some, MatchOption};
ghost use Rattle.session_slots.specs.Slots.{Closes, Has, NoticesIn, Opens, ReadsIn, TakesIn};

use super::Slot;
use crate::answer::Answer;
use crate::handle::Handle;
use crate::holder::Holder;
use crate::told::Told;
use box_parts::Parts;
use std::alloc::{AllocError, Global};
use std::mem::replace;

impl Slot {
    fn empty(alloc: Global) -> Slot
        ensures { result.live ≡ 0 }
    {
        Slot {
            live: 0,
            handle: Handle::empty(alloc),
        }
    }

    fn of(held: Box<Holder>) -> Slot
        ensures { Has result held.value }
    {
        Slot {
            live: 1,
            handle: Handle::of(Parts::of(held)),
        }
    }

    /// Takes the session out, and leaves none.
    fn take(&mut self, alloc: Global) -> Option<Box<Holder>>
        ensures emptied { self.new.live ≡ 0 }
        ensures taken { MatchOption result (self.old.live ≡ 0) (λ b. (0 < self.old.live) × (self.old.handle.value ≡ Some b.value)) }
    {
        let Slot { live, handle } = replace(self, Slot::empty(alloc));
        if live == 0 {
            handle.end();
            return None;
        }
        Some(handle.into_parts().into_box())
    }

    /// Puts a session in where there is none.
    fn put(&mut self, held: Box<Holder>)
        requires { self.old.live ≡ 0 }
        ensures { Has self.new held.value }
    {
        let Slot { live: _, handle } = replace(self, Slot::of(held));
        handle.end();
    }

    /// Opens a session: 1. Where the slot has one already that one stays, and the answer is -5; without memory the slot has
    /// none, and the answer is -2.
    pub fn open(&mut self, alloc: Global) -> i32
        ensures { Opens self.old result self.new }
    {
        if self.live > 0 {
            return Answer::OpenAlready.code();
        }
        match Holder::new(alloc) {
            Ok(held) => {
                self.put(held);
                Answer::Done.code()
            }
            Err(AllocError) => Answer::NoMemory.code(),
        }
    }

    /// Gives the session its next line, without its newline, and copies out all that is to be read where there is room for it.
    /// `count` is how much that is. The answer is 0 for a line that asks for nothing, 1 for an accepted one, 100 and a refusal's
    /// number for a refused one, -1 without a session, -2 without memory and -3 where a session has taken as many lines as it may.
    pub fn line(&mut self, alloc: Global, text: &[u8], out: &mut [u8], count: &mut usize) -> i32
        ensures { TakesIn text.now out.old out.new count.new self.old result self.new }
    {
        let Some(mut held) = self.take(alloc) else {
            *count = 0;
            return Answer::NoSession.code();
        };
        let how = held.line(text);
        *count = held.read(out);
        self.put(held);
        how.code()
    }

    /// Copies out all that is to be read where there is room for it, and says in `count` how much that is: 1, or -1 without a session.
    pub fn rest(&mut self, alloc: Global, out: &mut [u8], count: &mut usize) -> i32
        ensures { ReadsIn out.old out.new count.new self.old result self.new }
    {
        let Some(mut held) = self.take(alloc) else {
            *count = 0;
            return Answer::NoSession.code();
        };
        *count = held.read(out);
        self.put(held);
        Answer::Done.code()
    }

    /// Copies out a notice of the last accepted stabilize, by its number from 0 on, where there is room for it: the observer's name,
    /// what was told of it before and what it shows now, one directly behind the other. `told` says how long they are, and which stabilize it was. The answer
    /// is 1 for what is told first of an observer, 2 for a change, 3 where it turned to Invalid, 0 where there is no notice with this
    /// number, -1 without a session and -2 without memory. Nothing changes in the session.
    pub fn notice(&mut self, alloc: Global, number: usize, out: &mut [u8], told: &mut Told) -> i32
        ensures { NoticesIn number out.old out.new told.new self.old result self.new }
    {
        let Some(held) = self.take(alloc) else {
            *told = Told::nothing(0);
            return Answer::NoSession.code();
        };
        let what = held.notice(alloc, number, out, told);
        self.put(held);
        what.code()
    }

    /// Ends the session: 1, or -1 where there is none.
    pub fn close(&mut self, alloc: Global) -> i32
        ensures { Closes self.old result self.new }
    {
        match self.take(alloc) {
            Some(held) => {
                drop(held);
                Answer::Done.code()
            }
            None => Answer::NoSession.code(),
        }
    }
}
