//! What the engine costs: `incr_bench SHAPE SIZE ROUNDS` builds a graph of the shape, changes it in rounds, and
//! tells how many functions were called and how long it took.
#![tactic(auto)]

mod boxed;
mod clock;
mod counted;
mod fault;
mod job;
mod live;
mod perform;
mod report;
mod rounds;
mod shapes;
mod sides;

use crate::job::asked;
use crate::perform::perform;
use crate::report::status;
use script_io::{Ending, tell_usage};
use std::alloc::AllocError;
use std::env;
use std::process::ExitCode;
use std_streams::{StdSink, words};

/// What is written where the words ask for nothing.
const USAGE: &[u8] =
    b"usage: incr_bench chain|fan|tree|fold|cut|never|idle|flip|flipx|aside|switch|bind|nested|boxed|ticks|watched|turns|told|shown|ended|expert|expertx|frozen|steady SIZE ROUNDS\n";

fn main(rt: HostRuntime) -> ExitCode {
    let words = match words(rt.alloc(), env::args(&rt)) {
        Ok(words) => words,
        Err(AllocError) => return ExitCode::from(Ending::Memory.status()),
    };
    let mut out = StdSink::new(rt.stdout());
    let mut notes = StdSink::new(rt.stderr());
    match asked(&words) {
        Some(job) => {
            let ending = perform(rt.alloc(), &rt, job, &mut out, &mut notes);
            ExitCode::from(status(ending))
        }
        None => ExitCode::from(tell_usage(&mut out, USAGE)),
    }
}
