//! Sessions.
ghost use Rattle.std.specs.Prelude.{◌≡◌, ℕ, ◌<◌, ◌≤◌, ◌+◌, ◌^◌, ◌++◌, List, length, IsTrue, IfOk, OnOk, OnErr};
ghost use Rattle.generated_script.specs.Generated.{generated_text};
ghost use Rattle.inc_value.specs.declared.function.FnRef.{FnRef};
ghost use Rattle.script_model.specs.Step.{Moment, first_moment};

mod notices;

use crate::answer::{Did, answer_whole};
use crate::refusal::Refusal;
use crate::reply::write_refused;
use crate::script::Script;
use generated_script::append_text;
use node_arena::Library;
pub use notices::{NoticeKind, NoticeParts};
use std::alloc::{AllocError, Global};
use std::marker::Model;

/// A script in the making, over the functions of a library.
pub struct Session<L: Library> {
    alloc: Global,
    script: Script<L>,
    lines: u64,
}

// (written out: whoever drops one proves one call, and no drop of its parts)
impl<L: Library> Drop for Session<L> {
    fn drop(self) {
        let Session {
            alloc: _,
            script,
            lines: _,
        } = self;
        drop(script);
    }
}

impl<L: Library> Model for Session<L> {
    ghost use Rattle.session.specs.Session.{SessionView};

    ghost Value = { SessionView L };

    ghost view = { λ s. record { library = s.script.library; builds = s.script.builds; kept = s.script.kept; lines = s.lines } };

    ghost use Rattle.std.specs.Prelude.{◌≤◌, ◌*◌, ◌^◌, length};
    ghost use Rattle.script_graph.specs.Kept.{arena_of};

    ghost invariant = { λ s. (s.lines ≤ 2 ^ 30) × (s.script.kept.accepted ≤ s.lines)
        × ((arena_of s.script.kept).given ≤ 2 ^ 20 * s.lines) × (length s.script.kept.bodies ≤ 64 * s.lines) × (length s.script.kept.graph.observers ≤ s.lines) };
}

impl<L: Library> Session<L> {
    ghost use Rattle.session.specs.declared.answer.Did.TheVariants.{Accepted, Refused};
    ghost use Rattle.script_graph.specs.State.{Stands};
    ghost use Rattle.script_model.specs.Formula.{meanings_of};
    ghost use Rattle.session.specs.Replies.{IsAcceptedWritten};
    ghost use Rattle.session.specs.Taken.{AsksStabilize, KeepsUnlessAccepted, Takes, Stops};

    /// A session before its first line. It owns the library. This takes no memory.
    pub fn new(alloc: Global, library: L) -> Session<L>
        ensures library { result.library ≡ library }
        ensures builds { result.builds ≡ 0 }
        ensures lines { result.lines ≡ 0 }
        ensures first { Stands (meanings_of (L.named library) (L.value library)) result.kept first_moment }
    {
        Session {
            alloc,
            script: Script::new(alloc, library),
            lines: 0,
        }
    }

    /// Takes the next line of the script, without its newline, and appends what it prints.
    pub fn line(&mut self, text: &[u8], out: &mut Vec<u8>) -> Result<Did, AllocError>
        requires { self.old.lines < 2 ^ 30 }

        ensures taken { let F = meanings_of (L.named self.old.library) (L.value self.old.library) in
            IfOk result (λ how. (m : Moment) → Stands F self.old.kept m
            → Takes F m text.now self.new.kept out.old.items out.new.items
            (L.calls self.old.library) (L.calls self.new.library) how) }
        ensures lines { self.new.lines ≡ self.old.lines + 1 }
        ensures functions { meanings_of (L.named self.new.library) (L.value self.new.library)
            ≡ meanings_of (L.named self.old.library) (L.value self.old.library) }
        ensures known { (g : FnRef) → IsTrue (L.known self.old.library g) → IsTrue (L.known self.new.library g) }
        ensures calls_grow { L.calls self.old.library ≤ L.calls self.new.library }

        // Only a stabilize calls functions, and builds right sides of binds. A line that was refused, or asks for nothing, leaves what is kept.
        ensures library { (AsksStabilize text.now → ⊥) → self.new.library ≡ self.old.library }
        ensures builds { (AsksStabilize text.now → ⊥) → self.new.builds ≡ self.old.builds }
        ensures builds_grow { self.old.builds ≤ self.new.builds }
        ensures kept { IfOk result (λ how. KeepsUnlessAccepted how self.old.kept self.new.kept) }

        // Of an accepted stabilize it appends the number, and the lines of what it told, notice by notice.
        ensures told { IfOk result (λ how. how ≡ Accepted → self.old.kept.accepted < self.new.kept.accepted
            → IsAcceptedWritten self.new.kept out.old.items out.new.items) }

        // A broken session stays as it is, but that the count of lines rises.
        ensures broken { (self.old.kept.broken ≡ None → ⊥)
            → (self.new.kept ≡ self.old.kept) × (self.new.library ≡ self.old.library) × (self.new.builds ≡ self.old.builds) }

        // Without memory the count of lines has risen. A stabilize may have called functions, and then it was accepted, its
        // lines alone are missing, or the session is broken.
        ensures stopped { let F = meanings_of (L.named self.old.library) (L.value self.old.library) in
            OnErr result ((m : Moment) → Stands F self.old.kept m
            → Stops F m text.now self.new.kept
            (L.calls self.old.library) (L.calls self.new.library)) }
        ensures unwritten { OnErr result (out.new.items ≡ out.old.items) }
    {
        self.lines += 1;
        answer_whole(self.alloc, &mut self.script, text, out)
    }

    /// Takes a line that is longer than 4,096 bytes, whatever it holds, and appends its refusal.
    pub fn too_long(&mut self, out: &mut Vec<u8>) -> Result<(), AllocError>
        requires { self.old.lines < 2 ^ 30 }

        ensures taken { let F = meanings_of (L.named self.old.library) (L.value self.old.library) in
            OnOk result ((m : Moment) (line : List ℕ) → 4096 < length line
            → Stands F self.old.kept m
            → Takes F m line self.new.kept out.old.items out.new.items
            (L.calls self.old.library) (L.calls self.new.library) (Refused 2)) }
        ensures lines { self.new.lines ≡ self.old.lines + 1 }
        ensures library { self.new.library ≡ self.old.library }
        ensures builds { self.new.builds ≡ self.old.builds }
        ensures kept { self.new.kept ≡ self.old.kept }
        ensures unwritten { OnErr result (out.new.items ≡ out.old.items) }
    {
        self.lines += 1;
        write_refused(self.alloc, Refusal::LineTooLong.number(), out)
    }

    /// Appends the text of the generated script with so many steps and this seed, whose lines a session
    /// may take. Without memory the buffer is as before.
    pub fn gen_text(&self, steps: u64, seed: u64, out: &mut Vec<u8>) -> Result<(), AllocError>
        ensures text { OnOk result (out.new.items ≡ out.old.items ++ generated_text steps seed) }
        ensures unwritten { OnErr result (out.new.items ≡ out.old.items) }
    {
        append_text(self.alloc, steps, seed, out)
    }

    /// The library, as the session has it now.
    pub fn library(&self) -> &L
        ensures { result.now ≡ self.now.library }
    {
        self.script.library()
    }

    /// The library, given back.
    pub fn into_library(self) -> L
        ensures { result ≡ self.library }
    {
        let Session {
            alloc: _,
            script,
            lines: _,
        } = self;
        script.into_library()
    }

    /// How often a right side of a bind was built so far, or was to be, up to 2^64 - 1.
    pub fn builds(&self) -> u64
        ensures { result ≡ self.now.builds }
    {
        self.script.builds()
    }

    /// How many stabilizes were accepted so far.
    pub fn accepted(&self) -> u64
        ensures { result ≡ self.now.kept.accepted }
    {
        self.script.accepted()
    }

    /// How many lines were taken so far, also those that were skipped as too long or found no memory.
    pub fn lines_taken(&self) -> u64
        ensures { result ≡ self.now.lines }
    {
        self.lines
    }
}
