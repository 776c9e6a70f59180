//! Runs of scripts from memory to memory.

use crate::rows::{Lines, Outside, Row};
use script_io::{MemSink, MemSource};
use script_run::{Counts, drive};
use std::alloc::{AllocError, Global};
use std_library::StdLib;

/// A script, and the transcript that is wanted of it.
#[derive(Drop)]
struct Script {
    text: String,
    transcript: String,
}

/// Adds a text with the one word in place of `$`, the other in place of `%`, and so many pieces in place of `*`.
fn add(
    out: &mut String,
    text: &str,
    number: &str,
    next: &str,
    piece: &str,
    count: usize,
) -> Result<(), AllocError> {
    for letter in text.chars() {
        match letter {
            '$' => out.push_str(number)?,
            '%' => out.push_str(next)?,
            '*' => {
                for _ in 0..count {
                    out.push_str(piece)?;
                }
            }
            _ => out.push(letter)?,
        }
    }
    Ok(())
}

/// Adds lines with a number, and the answers to them.
fn add_numbered(
    alloc: Global,
    script: &mut Script,
    number: u64,
    (piece, count): (&str, usize),
    lines: &str,
    answers: &str,
) -> Result<(), AllocError> {
    let word = number.to_string(alloc)?;
    let next = number.saturating_add(1).to_string(alloc)?;
    add(&mut script.text, lines, &word, &next, piece, count)?;
    add(&mut script.transcript, answers, &word, &next, piece, count)
}

/// Adds the lines, and the answers to them.
fn add_lines(alloc: Global, script: &mut Script, lines: &Lines) -> Result<(), AllocError> {
    match lines {
        Lines::Once(lines, answers) => {
            script.text.push_str(lines)?;
            script.transcript.push_str(answers)
        }
        Lines::Each((first, end), pieces, lines, answers) => {
            for number in *first..*end {
                add_numbered(alloc, script, number, *pieces, lines, answers)?;
            }
            Ok(())
        }
    }
}

/// Adds all of the lines, and tells whether there was memory.
fn add_all(alloc: Global, script: &mut Script, all: &[Lines]) -> bool {
    for lines in all {
        if add_lines(alloc, script, lines).is_err() {
            return false;
        }
    }
    true
}

/// A source of the script, which fails where that is told.
fn source_of(alloc: Global, script: &str, outside: &Outside) -> Option<MemSource> {
    let fails = [outside.failing_read];
    match (
        script.as_bytes().to_vec(alloc),
        fails.as_slice().to_vec(alloc),
    ) {
        (Ok(bytes), Ok(fails)) => { MemSource::new(alloc, bytes, outside.piece.max(1), fails).ok() }
        _ => None,
    }
}

/// How many functions are called by what the transcript tells behind the stabilizes.
fn calls_told(transcript: &str) -> u64 {
    let mut told: u64 = 0;
    for line in transcript.lines() {
        if let Some(count) = line.strip_prefix("calls ") {
            told = told.saturating_add(count.parse().unwrap_or(0));
        }
    }
    told
}

/// Whether the run from the source writes the transcript, ends with the status, and calls as many functions as the
/// transcript tells: none in a stabilize that is refused.
fn is_run(
    alloc: Global,
    source: &mut MemSource,
    outside: &Outside,
    transcript: &str,
    status: u8,
) -> bool {
    match MemSink::new(alloc, outside.room, Vec::new(alloc)) {
        Ok(mut sink) => {
            let limit = outside.limit.min(4_000_000);
            let (ended, library) = drive(
                alloc,
                source,
                &mut sink,
                StdLib::new(),
                &mut Counts::new(),
                limit,
            );
            let called = library.calls();
            drop(library);
            let well = ended == status
                && called == calls_told(transcript)
                && sink.written() == transcript.as_bytes();
            drop(sink);
            well
        }
        Err(_) => false,
    }
}

/// Whether the run of the script does so.
fn is_run_as_wanted(alloc: Global, script: &Script, outside: &Outside, status: u8) -> bool {
    match source_of(alloc, &script.text, outside) {
        Some(mut source) => {
            let well = is_run(alloc, &mut source, outside, &script.transcript, status);
            drop(source);
            well
        }
        None => false,
    }
}

/// Whether the run of the row's script is as the row says.
pub(super) fn is_answered(alloc: Global, row: &Row) -> bool {
    let mut script = Script {
        text: String::new(alloc),
        transcript: String::new(alloc),
    };
    let well = add_all(alloc, &mut script, row.script)
        && is_run_as_wanted(alloc, &script, &row.outside, row.status);
    drop(script);
    well
}
