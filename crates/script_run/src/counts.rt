//! What stabilizes cost.
ghost use Rattle.std.specs.Prelude.{◌≡◌, ◌++◌, OnOk};
ghost use Rattle.script_run.specs.Profile.{count_line};

use crate::counted::CountedLibrary;
use crate::report::Report;
use itoa::Buffer;
use session::Session;
use std::alloc::AllocError;

/// Writes a line `calls N` behind each accepted stabilize: so many functions were called in it; and behind
/// that a line `builds N` where right sides of binds were built in it: so many.
#[derive(Drop)]
pub struct Counts {
    called: u64,
    built: u64,
    accepted: u64,
}

impl Counts {
    /// Before any line.
    pub fn new() -> Counts
        ensures called { result.called ≡ 0 }
        ensures built { result.built ≡ 0 }
        ensures accepted { result.accepted ≡ 0 }
    {
        Counts {
            called: 0,
            built: 0,
            accepted: 0,
        }
    }
}

impl<L: CountedLibrary> Report<L> for Counts {
    ghost use Rattle.std.specs.Prelude.{◌≡◌, refl};
    ghost use Rattle.script_run.specs.Profile.{counts_told, IsNoted};

    ghost behind = { counts_told };

    ghost noted = { λ c was accepted. IsNoted (record { calls = c.called; builds = c.built }) c.accepted was accepted };

    ghost quiet = { λ _ _ _. refl };

    fn note(&mut self, session: &Session<L>) {
        self.called = session.library().call_count();
        self.built = session.builds();
        self.accepted = session.accepted();
    }

    fn append(&self, session: &Session<L>, buffer: &mut Vec<u8>) -> Result<(), AllocError> {
        if session.accepted() <= self.accepted {
            return Ok(());
        }
        let calls = session.library().call_count().saturating_sub(self.called);
        add_count(b"calls ", calls, buffer)?;
        match session.builds().saturating_sub(self.built) {
            0 => Ok(()),
            builds => add_count(b"builds ", builds, buffer),
        }
    }
}

/// Appends the line that tells a count, behind what is counted.
fn add_count(counted: &[u8], count: u64, buffer: &mut Vec<u8>) -> Result<(), AllocError>
    ensures { OnOk result (buffer.new.items ≡ buffer.old.items ++ count_line counted.now count) }
{
    let mut digits = Buffer::new();
    buffer.extend_from_slice(counted)?;
    buffer.extend_from_slice(digits.format(count).as_bytes())?;
    buffer.extend_from_slice(b"\n")
}
