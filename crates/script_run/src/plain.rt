//! Runs that write nothing but transcripts.
use crate::report::Report;
use node_arena::Library;
use session::Session;
use std::alloc::AllocError;

/// Writes nothing behind what a line prints.
#[derive(Drop)]
pub struct Plain;

impl<L: Library> Report<L> for Plain {
    ghost use Rattle.std.specs.Prelude.{refl};
    ghost use Rattle.script_run.specs.Plain.{plain};

    ghost behind = { plain };

    ghost noted = { λ _ _ _. Unit {0} };

    ghost quiet = { λ _ _ _. refl };

    fn note(&mut self, _session: &Session<L>) {}

    fn append(&self, _session: &Session<L>, _buffer: &mut Vec<u8>) -> Result<(), AllocError> {
        Ok(())
    }
}
