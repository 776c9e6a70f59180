//! Generated scripts: what they print is summed up and not kept.
ghost use Rattle.std.specs.Prelude.{◌≡◌, ◌^◌, ◌<◌, ◌≤◌, ◌*◌, ◌+◌, [], length, if◌then◌else◌, IfOk, OnOk, OnErr};
ghost use Rattle.generated_script.specs.Counting.{nothing};
ghost use Rattle.script_graph.specs.State.{Stands};
ghost use Rattle.script_model.specs.Formula.{meanings_of};
ghost use Rattle.generated_script.specs.Generated.{generated_text};
ghost use Rattle.script_model.specs.Step.{Moment, first_moment};
ghost use Rattle.session.specs.Taken.{Stops};
ghost use Rattle.script_run.specs.Programs.{KeepsLibrary};
ghost use Rattle.script_run.specs.Summing.{CountsSoFar, CountsTurn, IsSummary, NoSummary, SumsUntil, TellsGenerated};

use crate::running::is_refused;
use generated_script::{Tally, first_line};
use node_arena::Library;
use script_io::{Failed, Sink, write_whole};
use session::Session;
use std::alloc::{AllocError, Global};

/// Takes a line, and counts what it prints. The answer is whether it was refused.
fn count_line<L: Library>(
    session: &mut Session<L>,
    line: &[u8],
    tally: &mut Tally,
    buffer: &mut Vec<u8>,
) -> Result<bool, AllocError>
    requires lines { session.old.lines < 2 ^ 30 }
    requires few { tally.old.bytes ≤ 2 ^ 64 * session.old.lines }
    requires empty { buffer.old.items ≡ [] }
    ensures counted { let F = meanings_of (L.named session.old.library) (L.value session.old.library) in
        IfOk result (CountsTurn F line.now session.old.kept session.new.kept
        (L.calls session.old.library) (L.calls session.new.library) tally.old tally.new) }
    ensures stopped { let F = meanings_of (L.named session.old.library) (L.value session.old.library) in
        OnErr result ((m : Moment) → Stands F session.old.kept m
        → Stops F m line.now session.new.kept (L.calls session.old.library) (L.calls session.new.library)) }
    ensures lines { session.new.lines ≡ session.old.lines + 1 }
    ensures few { OnOk result (tally.new.bytes ≤ 2 ^ 64 * session.new.lines) }
    ensures empty { OnOk result (buffer.new.items ≡ []) }
    ensures library { KeepsLibrary (λ l. meanings_of (L.named l) (L.value l)) L.known L.calls session.old.library session.new.library }
{
    let did = session.line(line, buffer)?;
    tally.add(buffer);
    buffer.clear();
    Ok(is_refused(did))
}

/// Takes the lines of a text one after the other, and counts what they print. The answer is whether one
/// was refused.
fn count_lines<L: Library>(
    session: &mut Session<L>,
    text: &[u8],
    tally: &mut Tally,
    buffer: &mut Vec<u8>,
) -> Result<bool, AllocError>
    requires lines { session.old.lines + length text.now ≤ 2 ^ 30 }
    requires few { tally.old.bytes ≤ 2 ^ 64 * session.old.lines }
    requires empty { buffer.old.items ≡ [] }
    ensures counted { let F = meanings_of (L.named session.old.library) (L.value session.old.library) in
        Stands F session.old.kept first_moment → tally.old ≡ nothing
        → IfOk result (CountsSoFar F text.now [] (L.calls session.old.library) session.new.kept (L.calls session.new.library) tally.new) }
    ensures stopped { let F = meanings_of (L.named session.old.library) (L.value session.old.library) in
        Stands F session.old.kept first_moment → tally.old ≡ nothing
        → OnErr result (SumsUntil F text.now (L.calls session.old.library) (L.calls session.new.library)) }
    ensures empty { OnOk result (buffer.new.items ≡ []) }
    ensures library { KeepsLibrary (λ l. meanings_of (L.named l) (L.value l)) L.known L.calls session.old.library session.new.library }
{
    let mut rest = text;
    let mut refused = false;
    while !rest.is_empty() {
        let (line, behind) = first_line(rest);
        let again = count_line(session, line, tally, buffer)?;
        refused |= again;
        rest = behind;
    }
    Ok(refused)
}

/// The summary of the script with so many steps and this seed, as a line, and whether a line of the
/// script was refused. The session has taken no line.
fn sum_up<L: Library>(
    alloc: Global,
    steps: u64,
    seed: u64,
    session: &mut Session<L>,
) -> Result<(Vec<u8>, bool), AllocError>
    requires steps { steps ≤ 2 ^ 20 }
    requires lines { session.old.lines ≡ 0 }
    ensures summed { let F = meanings_of (L.named session.old.library) (L.value session.old.library) in
        Stands F session.old.kept first_moment
        → IfOk result (λ r. IsSummary F (generated_text steps seed) (L.calls session.old.library) (L.calls session.new.library) r.0.items r.1) }
    ensures none { let F = meanings_of (L.named session.old.library) (L.value session.old.library) in
        Stands F session.old.kept first_moment
        → OnErr result (NoSummary F (generated_text steps seed) (L.calls session.old.library) (L.calls session.new.library)) }
    ensures library { KeepsLibrary (λ l. meanings_of (L.named l) (L.value l)) L.known L.calls session.old.library session.new.library }
{
    let mut text = Vec::new(alloc);
    session.gen_text(steps, seed, &mut text)?;
    let mut tally = Tally::new();
    let mut buffer = Vec::new(alloc);
    let refused = count_lines(session, &text, &mut tally, &mut buffer)?;
    tally.append_summary(&mut buffer)?;
    Ok((buffer, refused))
}

/// The status of a script that was taken whole.
fn status_of(refused: bool) -> u8
    ensures { result ≡ (if refused then 1 else 0) }
{
    if refused { 1 } else { 0 }
}

/// Takes the generated script with so many steps and this seed, with the functions of the library, and
/// writes one line that sums up what it prints. The answer is the status, and the library:
///
/// - 0, no line was refused;
/// - 1, a line was refused;
/// - 4, the sink failed;
/// - 5, no memory was found.
pub fn generate<K: Sink, L: Library>(
    alloc: Global,
    steps: u64,
    seed: u64,
    out: &mut K,
    lib: L,
) -> (u8, L)
    requires { steps ≤ 2 ^ 20 }
    ensures { TellsGenerated (λ l. meanings_of (L.named l) (L.value l)) L.known L.calls steps seed lib result.1
        (K.written out.old) (K.written out.new) (K.faults out.old) (K.faults out.new) result.0 }
{
    let mut session = Session::new(alloc, lib);
    let summed = sum_up(alloc, steps, seed, &mut session);
    let library = session.into_library();
    match summed {
        Ok((summary, refused)) => match write_whole(out, &summary) {
            Ok(()) => (status_of(refused), library),
            Err(Failed) => (4, library),
        },
        Err(AllocError) => (5, library),
    }
}
