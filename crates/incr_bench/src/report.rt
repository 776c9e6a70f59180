//! What a run tells.
ghost use Rattle.std.specs.Prelude.{◌≡◌, ◌≢◌, ◌⊎◌, ◌++◌, [], IfOk, OnOk, string_bytes};
ghost use Rattle.std.specs.Io.KnownBytes.{Appends};
ghost use Rattle.incr_bench.specs.Reports.{count_line, counts_of, each_of, last_line, with_number, with_time, with_times};
ghost use Rattle.incr_bench.specs.Status.{SinksTell, status_of};
ghost use Rattle.incr_bench.specs.declared.report.Ending.TheVariants.{Told, Unwritten};

use crate::fault::Fault;
use crate::job::Job;
use crate::rounds::Rounds;
use script_io::{Failed, Sink, write_whole};
use std::alloc::{AllocError, Global};

/// What a run found: the counts, which are its output, and the times, which are notes.
#[derive(Drop)]
pub struct Report {
    pub counts: Vec<u8>,
    pub times: String,
}

/// How a run ends.
#[derive(Clone, Copy)]
pub enum Ending {
    /// What was found is written.
    Told,

    /// What was found couldn't be written.
    Unwritten,

    /// A fault ended the run before anything was written.
    Stopped(Fault),
}

/// Tells how many of something there were in the rounds.
fn tell_count(alloc: Global, counts: &mut Vec<u8>, name: &str, count: u64) -> Result<(), AllocError>
    ensures { OnOk result (counts.new.items ≡ counts.old.items ++ count_line name.now count) }
{
    let line = format!(in alloc; "{name} {count}\n")?;
    counts.extend_from_slice(line.as_bytes())
}

/// Tells what the first observer shows after them.
fn tell_last(alloc: Global, counts: &mut Vec<u8>, last: i64) -> Result<(), AllocError>
    ensures { OnOk result (counts.new.items ≡ counts.old.items ++ last_line last) }
{
    let line = format!(in alloc; "last {last}\n")?;
    counts.extend_from_slice(line.as_bytes())
}

/// What of a time falls to one of a count; 0 where there is none.
fn each_of(time: u64, count: u64) -> u64
    ensures { result ≡ each_of time count }
{
    if count == 0 { 0 } else { time / count }
}

/// Tells a number, between two texts.
fn tell_number(
    alloc: Global,
    times: &mut String,
    before: &str,
    number: u64,
    behind: &str,
) -> Result<(), AllocError>
    ensures { OnOk result (string_bytes times.new ≡ with_number (string_bytes times.old) before.now number behind.now) }
{
    let text = format!(in alloc; "{before}{number}{behind}")?;
    times.push_str(text.as_str())
}

/// Tells a time, and what of it falls to one of a count.
fn tell_time(
    alloc: Global,
    times: &mut String,
    name: &str,
    time: u64,
    count: u64,
) -> Result<(), AllocError>
    ensures { OnOk result (string_bytes times.new ≡ with_time (string_bytes times.old) name.now time count) }
{
    times.push_str(name)?;
    tell_number(alloc, times, ": ", time, " ns, ")?;
    tell_number(alloc, times, "", each_of(time, count), " ns for each of ")?;
    tell_number(alloc, times, "", count, "\n")
}

/// Tells the times of rounds: by nodes built, by rounds, by calls and by notices.
fn tell_times(alloc: Global, times: &mut String, job: Job, rounds: Rounds) -> Result<(), AllocError>
    ensures { OnOk result (string_bytes times.new ≡ with_times (string_bytes times.old) job rounds) }
{
    tell_time(alloc, times, "built", rounds.building, job.size as u64)?;
    tell_time(alloc, times, "rounds", rounds.running, job.rounds)?;
    tell_time(alloc, times, "calls", rounds.running, rounds.calls)?;
    tell_time(alloc, times, "notices", rounds.running, rounds.notices)
}

/// What rounds found.
pub fn of_rounds(alloc: Global, job: Job, rounds: Rounds) -> Result<Report, AllocError>
    ensures counts { IfOk result (λ report. report.counts.items ≡ counts_of rounds) }
    ensures times { IfOk result (λ report. string_bytes report.times ≡ with_times [] job rounds) }
{
    let mut counts = Vec::new(alloc);
    let mut times = String::new(alloc);
    tell_count(alloc, &mut counts, "calls", rounds.calls)?;
    tell_count(alloc, &mut counts, "notices", rounds.notices)?;
    tell_last(alloc, &mut counts, rounds.last)?;
    tell_times(alloc, &mut times, job, rounds)?;
    Ok(Report { counts, times })
}

/// Writes what was found. A write that fails is not tried again, and ends it.
pub fn publish<K: Sink, N: Sink>(report: &Report, out: &mut K, notes: &mut N) -> Ending
    ensures ends { (result ≡ Told) ⊎ (result ≡ Unwritten) }
    ensures counts { result ≢ Unwritten → Appends (K.written out.old) (K.written out.new) report.now.counts.items }
    ensures times { result ≢ Unwritten → Appends (N.written notes.old) (N.written notes.new) (string_bytes report.now.times) }
    ensures sinks { SinksTell (result ≡ Unwritten) (K.faults out.old) (K.faults out.new) (N.faults notes.old) (N.faults notes.new) }
{
    match write_whole(out, &report.counts) {
        Ok(()) => {}
        Err(Failed) => return Ending::Unwritten,
    }
    match write_whole(notes, report.times.as_bytes()) {
        Ok(()) => Ending::Told,
        Err(Failed) => Ending::Unwritten,
    }
}

/// The status that the program ends with.
pub fn status(ending: Ending) -> u8
    ensures { result ≡ status_of ending }
{
    match ending {
        Ending::Told => 0,
        Ending::Stopped(Fault::Refused) => 1,
        Ending::Unwritten => 4,
        Ending::Stopped(Fault::Memory) => 5,
    }
}
