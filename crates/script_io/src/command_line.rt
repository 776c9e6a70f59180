//! The words of the command line, and the usage line.
ghost use Rattle.std.specs.Prelude.{◌≡◌, ◌↔◌, IsTrue};
ghost use Rattle.script_io.specs.Causes.{Tells};
ghost use Rattle.script_io.specs.CommandLine.{AsksFor, IsRunWords, TellsUsage};

use crate::{Failed, Sink, Word, write_whole};
use std::convert::AsStr;

/// What the words of the command line ask for.
#[derive(Clone, Copy, PartialEq, Eq)]
pub enum Asked {
    /// A run of the source's script.
    Run,

    /// Nothing that the program does.
    Nothing,
}

/// Whether the words are the program's name and `run`.
fn is_run(words: &[Word]) -> bool
    ensures { IsTrue result ↔ IsRunWords words.now }
{
    match words {
        [_, word] => word.as_str() == "run",
        _ => false,
    }
}

/// What the words of the command line ask for, of which the first is the program's name.
pub fn asked_by(words: &[Word]) -> Asked
    ensures { AsksFor words.now result }
{
    if is_run(words) {
        Asked::Run
    } else {
        Asked::Nothing
    }
}

/// Writes the usage line. The answer is the status: 2, or 4 where the sink fails.
pub fn tell_usage<K: Sink>(out: &mut K, usage: &[u8]) -> u8
    ensures told { TellsUsage usage.now result (K.written out.old) (K.written out.new) }
    ensures sink { Tells (result ≡ 4) (K.faults out.old) (K.faults out.new) }
{
    match write_whole(out, usage) {
        Ok(()) => 2,
        Err(Failed) => 4,
    }
}
