//! What the program does with the words of its command line.
ghost use Rattle.std.specs.Prelude.{◌≡◌};
ghost use Rattle.script_io.specs.CommandLine.{AsksFor, IsTopStatus};
ghost use Rattle.script_io.specs.declared.command_line.Asked.TheVariants as asked;
ghost use Rattle.script_model.specs.Formula.{meanings_of};
ghost use Rattle.script_run.specs.Programs.{DoesAsked, around};
ghost use Rattle.script_run.specs.Profile.{counts_told};
ghost use Rattle.incr_profile.specs.Usage.{usage_line};

use script_io::{Sink, Source, Word};
use script_run::{CountedLibrary, Counts};
use std::alloc::Global;

/// What is written where the words ask for nothing.
const USAGE: &[u8] = b"usage: incr_profile run\n";

/// Does what the words of the command line ask for, of which the first is the program's name. `run` runs
/// the script of the source, of at most 1,073,741,824 bytes, and writes its transcript, with a line
/// `calls N` behind each accepted stabilize: so many calls the library counted in it; and a line `builds N`
/// behind that where right sides of binds were built. Other words are answered with the usage line. The
/// answer is the status, and the library.
pub fn top<S: Source, K: Sink, L: CountedLibrary>(
    alloc: Global,
    words: &Vec<Word>,
    src: &mut S,
    out: &mut K,
    lib: L,
) -> (u8, L)
    ensures done { DoesAsked (λ l. meanings_of (L.named l) (L.value l)) L.known L.calls counts_told words.now.items usage_line
        (around lib (S.left src.old) (S.faults src.old) (K.written out.old) (K.faults out.old))
        (around result.1 (S.left src.new) (S.faults src.new) (K.written out.new) (K.faults out.new)) result.0 }
    ensures unread { AsksFor words.now.items asked.Nothing → src.new ≡ src.old }
    ensures statuses { IsTopStatus result.0 }
    ensures refused_words { result.0 ≡ 2 → AsksFor words.now.items asked.Nothing }
{
    script_run::top(alloc, words, USAGE, src, out, lib, &mut Counts::new())
}
