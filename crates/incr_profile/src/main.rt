//! What scripts cost: `incr_profile run` reads a script from standard input and writes its transcript to
//! standard output, with how many functions were called, and how many right sides of binds were built,
//! behind each accepted stabilize.
#![tactic(auto)]

mod top;

use std::alloc::AllocError;
use std::env;
use std::process::ExitCode;
use std_library::StdLib;
use std_streams::{StdSink, StdSource, words};

/// The status where no memory is found for what `main` makes itself.
const NO_MEMORY: u8 = 5;

fn main(rt: HostRuntime) -> ExitCode {
    let words = match words(rt.alloc(), env::args(&rt)) {
        Ok(words) => words,
        Err(AllocError) => return ExitCode::from(NO_MEMORY),
    };
    let mut source = StdSource::new(rt.stdin());
    let mut sink = StdSink::new(rt.stdout());
    let (status, _) = top::top(rt.alloc(), &words, &mut source, &mut sink, StdLib::new());
    ExitCode::from(status)
}
