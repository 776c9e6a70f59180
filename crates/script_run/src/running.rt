//! Runs over the lines of a source.
ghost use Rattle.std.specs.Prelude.{◌≡◌, ◌^◌, ◌<◌, ◌≤◌, false, [], length};
ghost use Rattle.script_model.specs.Formula.{meanings_of};
ghost use Rattle.script_run.specs.Programs.{around};
ghost use Rattle.script_run.specs.Saying.{is_refusal_said};
ghost use Rattle.script_run.specs.Telling.{Behind, IsQuiet};
ghost use Rattle.script_run.specs.Steps.{AnswersLine, EndsRun, IsReady, RunsLines, TakesLine, desk_of, place_of};

use crate::report::Report;
use node_arena::Library;
use script_io::{Ending, Failed, Got, LineReader, Sink, Source, deliver};
use session::{Did, Session};
use std::alloc::{AllocError, Global};

/// Whether a line was refused.
pub fn is_refused(did: Did) -> bool
    ensures { result ≡ is_refusal_said did }
{
    match did {
        Did::Blank | Did::Accepted => false,
        Did::Refused(_) => true,
    }
}

/// Answers a line of a script, and writes what it prints and what the report tells of it. The answer is
/// whether a line was refused so far, or how the run ends.
fn answer_line<K: Sink, L: Library, R: Report<L>>(
    session: &mut Session<L>,
    report: &mut R,
    text: &[u8],
    out: &mut K,
    buffer: &mut Vec<u8>,
    refused: bool,
) -> Result<bool, Ending>
    requires lines { session.old.lines < 2 ^ 30 }
    requires empty { buffer.old.items ≡ [] }
    ensures { AnswersLine (λ l. meanings_of (L.named l) (L.value l)) L.known L.calls R.behind (λ line. line ≡ text.now) refused
        (desk_of session.old (K.written out.old) (K.faults out.old) buffer.old.items)
        (desk_of session.new (K.written out.new) (K.faults out.new) buffer.new.items) result }
{
    report.note(session);
    let did = match session.line(text, buffer) {
        Ok(did) => did,
        Err(AllocError) => return Err(Ending::Memory),
    };
    match report.append(session, buffer) {
        Ok(()) => {}
        Err(AllocError) => return Err(Ending::Memory),
    }
    match deliver(out, buffer) {
        Ok(()) => Ok(refused | is_refused(did)),
        Err(Failed) => Err(Ending::WriteFault),
    }
}

/// Refuses a line that is too long, and writes so, with nothing behind it. The answer is as `answer_line`'s.
fn refuse_long<K: Sink, L: Library>(
    session: &mut Session<L>,
    out: &mut K,
    buffer: &mut Vec<u8>,
    refused: bool,
) -> Result<bool, Ending>
    requires lines { session.old.lines < 2 ^ 30 }
    requires empty { buffer.old.items ≡ [] }
    ensures { (behind : Behind) → IsQuiet behind
        → AnswersLine (λ l. meanings_of (L.named l) (L.value l)) L.known L.calls behind (λ line. 4096 < length line) refused
        (desk_of session.old (K.written out.old) (K.faults out.old) buffer.old.items)
        (desk_of session.new (K.written out.new) (K.faults out.new) buffer.new.items) result }
{
    match session.too_long(buffer) {
        Ok(()) => match deliver(out, buffer) {
            Ok(()) => Ok(true),
            Err(Failed) => Err(Ending::WriteFault),
        },
        Err(AllocError) => Err(Ending::Memory),
    }
}

/// Takes the next line of the source, and answers it. The answer is as `answer_line`'s.
fn take_line<S: Source, K: Sink, L: Library, R: Report<L>>(
    lines: &mut LineReader,
    session: &mut Session<L>,
    report: &mut R,
    src: &mut S,
    out: &mut K,
    buffer: &mut Vec<u8>,
    limit: u64,
    refused: bool,
) -> Result<bool, Ending>
    requires { IsReady limit (place_of lines.old (S.left src.old) (S.faults src.old)
        (desk_of session.old (K.written out.old) (K.faults out.old) buffer.old.items)) }
    ensures { TakesLine (λ l. meanings_of (L.named l) (L.value l)) L.known L.calls R.behind limit refused
        (place_of lines.old (S.left src.old) (S.faults src.old)
        (desk_of session.old (K.written out.old) (K.faults out.old) buffer.old.items))
        (place_of lines.new (S.left src.new) (S.faults src.new)
        (desk_of session.new (K.written out.new) (K.faults out.new) buffer.new.items)) result }
{
    match lines.next(src, limit) {
        Got::Line => answer_line(session, report, lines.line(), out, buffer, refused),
        Got::TooLong => refuse_long(session, out, buffer, refused),
        Got::End => Err(Ending::at_end(refused)),
        Got::Limit => Err(Ending::Limit),
        Got::ReadFault => Err(Ending::ReadFault),
    }
}

/// Takes line after line, until the run ends.
fn take_lines<S: Source, K: Sink, L: Library, R: Report<L>>(
    lines: &mut LineReader,
    session: &mut Session<L>,
    report: &mut R,
    src: &mut S,
    out: &mut K,
    buffer: &mut Vec<u8>,
    limit: u64,
) -> Ending
    requires { IsReady limit (place_of lines.old (S.left src.old) (S.faults src.old)
        (desk_of session.old (K.written out.old) (K.faults out.old) buffer.old.items)) }
    ensures { EndsRun (λ l. meanings_of (L.named l) (L.value l)) L.known L.calls R.behind limit false
        (place_of lines.old (S.left src.old) (S.faults src.old)
        (desk_of session.old (K.written out.old) (K.faults out.old) buffer.old.items))
        (place_of lines.new (S.left src.new) (S.faults src.new)
        (desk_of session.new (K.written out.new) (K.faults out.new) buffer.new.items)) result }
{
    let mut refused = false;
    loop {
        match take_line(lines, session, report, src, out, buffer, limit, refused) {
            Ok(so_far) => refused = so_far,
            Err(ending) => return ending,
        }
    }
}

/// A run over the source, until it ends.
pub fn run_lines<S: Source, K: Sink, L: Library, R: Report<L>>(
    alloc: Global,
    src: &mut S,
    out: &mut K,
    lib: L,
    report: &mut R,
    limit: u64,
) -> (Ending, L)
    requires { limit ≤ 2 ^ 30 }
    ensures { RunsLines (λ l. meanings_of (L.named l) (L.value l)) L.known L.calls R.behind limit
        (around lib (S.left src.old) (S.faults src.old) (K.written out.old) (K.faults out.old))
        (around result.1 (S.left src.new) (S.faults src.new) (K.written out.new) (K.faults out.new)) result.0 }
{
    let mut lines = match LineReader::new(alloc) {
        Ok(lines) => lines,
        Err(AllocError) => return (Ending::Memory, lib),
    };
    let mut session = Session::new(alloc, lib);
    let mut buffer = Vec::new(alloc);
    let ending = take_lines(
        &mut lines,
        &mut session,
        report,
        src,
        out,
        &mut buffer,
        limit,
    );
    drop(lines);
    drop(buffer);
    (ending, session.into_library())
}
