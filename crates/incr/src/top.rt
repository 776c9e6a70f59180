//! What the program does with the words of its command line.
ghost use Rattle.std.specs.Prelude.{◌≡◌, ◌⊎◌};
ghost use Rattle.script_io.specs.CommandLine.{IsTopStatus};
ghost use Rattle.script_model.specs.Formula.{meanings_of};
ghost use Rattle.script_run.specs.Programs.{around};
ghost use Rattle.command_words.specs.Words.{AsksFor};
ghost use Rattle.command_words.specs.declared.asked.Asked.TheVariants as asked;
ghost use Rattle.incr.specs.Asked.{DoesWords};

use command_words::{Asked, asked_by};
use node_arena::Library;
use script_io::{Sink, Source, Word, tell_usage};
use script_run::{Plain, drive, generate};
use std::alloc::{AllocError, Global};

/// The most bytes that a script may have.
const LONGEST_SCRIPT: u64 = 1_073_741_824;

/// What is written where the words ask for nothing.
const USAGE: &[u8] = b"usage: incr run | incr gen STEPS SEED\n";

/// The status where no memory is found to read the words.
const NO_MEMORY: u8 = 5;

/// Does what the words of the command line ask for, of which the first is the program's name. `run` runs
/// the script of the source, of at most 1,073,741,824 bytes, and writes its transcript. `gen STEPS SEED`
/// reads nothing: it takes the generated script of so many steps and this seed, and writes one line that
/// sums up what it prints. Words that clap doesn't take are answered with the usage line. The answer is
/// the status, and the library.
pub fn top<S: Source, K: Sink, L: Library>(
    alloc: Global,
    words: &Vec<Word>,
    src: &mut S,
    out: &mut K,
    lib: L,
) -> (u8, L)
    ensures done { DoesWords (λ l. meanings_of (L.named l) (L.value l)) L.known L.calls words.now.items
        (around lib (S.left src.old) (S.faults src.old) (K.written out.old) (K.faults out.old))
        (around result.1 (S.left src.new) (S.faults src.new) (K.written out.new) (K.faults out.new)) result.0 }
    ensures unread { (AsksFor words.now.items asked.Run → ⊥) → src.new ≡ src.old }
    ensures statuses { IsTopStatus result.0 }
    ensures refused_words { result.0 ≡ 2 → AsksFor words.now.items asked.Nothing }
    ensures words_refused { AsksFor words.now.items asked.Nothing → (result.0 ≡ 2) ⊎ (result.0 ≡ 4) ⊎ (result.0 ≡ 5) }
{
    match asked_by(alloc, words) {
        Ok(Asked::Run) => drive(alloc, src, out, lib, &mut Plain, LONGEST_SCRIPT),
        Ok(Asked::Generate { steps, seed }) => generate(alloc, steps, seed, out, lib),
        Ok(Asked::Nothing) => (tell_usage(out, USAGE), lib),
        Err(AllocError) => (NO_MEMORY, lib),
    }
}
