//! Runs of scripts.
ghost use Rattle.std.specs.Prelude.{◌^◌, ◌≤◌};
ghost use Rattle.script_io.specs.Endings.{IsStatus};
ghost use Rattle.script_model.specs.Formula.{meanings_of};
ghost use Rattle.script_run.specs.Programs.{Runs, around};

use crate::report::Report;
use crate::running::run_lines;
use node_arena::Library;
use script_io::{Sink, Source};
use std::alloc::Global;

/// Runs the script of the source with the functions of the library, and writes what each line prints,
/// with what the report tells of it. At most `limit` bytes are taken. Before each read that a line does
/// not need, all of the lines before it is written. A failed read or write is not tried again. Whatever
/// the report tells, a stabilize calls no more functions than are due in it, and no other line calls any.
/// The answer is the status, and the library:
///
/// - 0, the input was read to its end, and no line was refused;
/// - 1, the same, and a line was refused;
/// - 3, the source failed;
/// - 4, the sink failed;
/// - 5, no memory was found;
/// - 6, `limit` bytes were taken, and another one came.
pub fn drive<S: Source, K: Sink, L: Library, R: Report<L>>(
    alloc: Global,
    src: &mut S,
    out: &mut K,
    lib: L,
    report: &mut R,
    limit: u64,
) -> (u8, L)
    requires { limit ≤ 2 ^ 30 }
    ensures ran { Runs (λ l. meanings_of (L.named l) (L.value l)) L.known L.calls R.behind limit
        (around lib (S.left src.old) (S.faults src.old) (K.written out.old) (K.faults out.old))
        (around result.1 (S.left src.new) (S.faults src.new) (K.written out.new) (K.faults out.new)) result.0 }
    ensures statuses { IsStatus result.0 }
{
    let (ending, lib) = run_lines(alloc, src, out, lib, report, limit);
    (ending.status(), lib)
}
