//! Runs over the lines of a source: a session takes each line, and what it prints is written, with what
//! a report tells of it; and what a program does with the words of its command line.
#![tactic(auto)]

mod asked;
mod counted;
mod counts;
mod driving;
mod laws;
mod plain;
mod report;
mod running;
mod summing;

pub use asked::top;
pub use counted::CountedLibrary;
pub use counts::Counts;
pub use driving::drive;
pub use laws::{counts_add_up, counts_are_within_work, plain_writes_transcripts};
pub use plain::Plain;
pub use report::Report;
pub use summing::generate;
