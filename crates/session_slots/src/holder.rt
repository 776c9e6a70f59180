//! A session, and what it printed that is still to be read.
ghost use Rattle.std.specs.Prelude.{◌≡◌, ◌<◌, ◌^◌, length, IfOk};
ghost use Rattle.session_slots.specs.Holding.{IsFirst, Reads, TakesLine};
ghost use Rattle.session_slots.specs.Notices.{Copies, TellsNotice};

use crate::answer::Answer;
use crate::told::Told;
use session::{Did, Session};
use std::alloc::{AllocError, Global};
use std_library::StdLib;

/// The most lines that a session takes.
const MOST_LINES: u64 = 1_073_741_824;

/// The most bytes that a line may have.
const LONGEST_LINE: usize = 4096;

/// The number of the refusal of a longer one.
const LINE_TOO_LONG: u8 = 2;

/// A session over the standard library, and what it printed that is still to be read.
#[derive(Drop)]
pub struct Holder {
    session: Session<StdLib>,
    printed: Vec<u8>,
}

impl Holder {
    /// A session before its first line.
    pub(crate) fn new(alloc: Global) -> Result<Box<Holder>, AllocError>
        ensures { IfOk result (λ b. IsFirst b.value) }
    {
        let session = Session::new(alloc, StdLib::new());
        let printed = Vec::new(alloc);
        match Box::new(alloc, Holder { session, printed }) {
            Ok(held) => Ok(held),
            Err(_) => Err(AllocError),
        }
    }

    /// Gives the session its next line.
    pub(crate) fn line(&mut self, text: &[u8]) -> Answer
        ensures { TakesLine self.old text.now self.new result }
    {
        if self.session.lines_taken() >= MOST_LINES {
            return Answer::TooManyLines;
        }
        if text.len() > LONGEST_LINE {
            return self.too_long(text);
        }
        match self.session.line(text, &mut self.printed) {
            Ok(how) => Answer::Line(how),
            Err(AllocError) => Answer::NoMemory,
        }
    }

    /// Gives the session a line that is longer than one may be.
    fn too_long(&mut self, text: &[u8]) -> Answer
        requires few { self.old.session.lines < 2 ^ 30 }
        requires long { 4096 < length text.now }
        ensures { TakesLine self.old text.now self.new result }
    {
        match self.session.too_long(&mut self.printed) {
            Ok(()) => Answer::Line(Did::Refused(LINE_TOO_LONG)),
            Err(AllocError) => Answer::NoMemory,
        }
    }

    /// Copies out all that is to be read where there is room for it, and says how much it is.
    pub(crate) fn read(&mut self, out: &mut [u8]) -> usize
        ensures count { result ≡ length self.old.printed.items }
        ensures read { Reads self.old.printed.items out.old out.new self.new.printed.items }
        ensures session { self.new.session ≡ self.old.session }
    {
        let count = self.printed.len();
        if count <= out.len() {
            out[..count].copy_from_slice(&self.printed);
            self.printed.clear();
        }
        count
    }

    /// Copies out the parts of a notice, one directly behind the other, where there is room for all of them, and tells how long each is.
    pub(crate) fn notice(
        &self,
        alloc: Global,
        number: usize,
        out: &mut [u8],
        told: &mut Told,
    ) -> Answer
        ensures { TellsNotice self.now number out.old result out.new told.new }
    {
        let round = self.session.accepted();
        let mut text = Vec::new(alloc);
        match self.session.notice(number, &mut text) {
            Ok(Some(parts)) => {
                *told = Told::of(round, parts);
                copy(&text, out);
                Answer::Notice(parts.kind)
            }
            Ok(None) => {
                *told = Told::nothing(round);
                Answer::NoNotice
            }
            Err(AllocError) => {
                *told = Told::nothing(round);
                Answer::NoMemory
            }
        }
    }
}

/// Copies a text where there is room for it.
fn copy(text: &[u8], out: &mut [u8])
    ensures { Copies text.now out.old out.new }
{
    if text.len() <= out.len() {
        out[..text.len()].copy_from_slice(text);
    }
}
