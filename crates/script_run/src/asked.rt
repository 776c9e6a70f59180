//! The words of the command line, and what they ask for.
ghost use Rattle.std.specs.Prelude.{◌≡◌};
ghost use Rattle.script_io.specs.CommandLine.{AsksFor, IsTopStatus};
ghost use Rattle.script_io.specs.declared.command_line.Asked.TheVariants as asked;
ghost use Rattle.script_model.specs.Formula.{meanings_of};
ghost use Rattle.script_run.specs.Programs.{DoesAsked, around};

use crate::driving::drive;
use crate::report::Report;
use node_arena::Library;
use script_io::{Asked, Sink, Source, Word, asked_by, tell_usage};
use std::alloc::Global;

/// The most bytes that a script may have.
const LONGEST_SCRIPT: u64 = 1_073_741_824;

/// Does what the words of the command line ask for, of which the first is the program's name. `run` runs
/// the script of the source, as `drive` does, of at most 1,073,741,824 bytes. For other words the usage
/// line is written, nothing is read, and the status is 2, or 4 where the sink fails. The answer is the
/// status, and the library.
pub fn top<S: Source, K: Sink, L: Library, R: Report<L>>(
    alloc: Global,
    words: &[Word],
    usage: &[u8],
    src: &mut S,
    out: &mut K,
    lib: L,
    report: &mut R,
) -> (u8, L)
    ensures done { DoesAsked (λ l. meanings_of (L.named l) (L.value l)) L.known L.calls R.behind words.now usage.now
        (around lib (S.left src.old) (S.faults src.old) (K.written out.old) (K.faults out.old))
        (around result.1 (S.left src.new) (S.faults src.new) (K.written out.new) (K.faults out.new)) result.0 }
    ensures unread { AsksFor words.now asked.Nothing → src.new ≡ src.old }
    ensures statuses { IsTopStatus result.0 }
    ensures refused_words { result.0 ≡ 2 → AsksFor words.now asked.Nothing }
{
    match asked_by(words) {
        Asked::Run => drive(alloc, src, out, lib, report, LONGEST_SCRIPT),
        Asked::Nothing => (tell_usage(out, usage), lib),
    }
}
