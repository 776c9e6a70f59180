//! Where scripts come from and where transcripts go: sources and sinks of bytes, those in memory, the lines
//! of a source, how runs over them end, and the words of a command line.
#![tactic(auto)]

mod byte_reader;
mod command_line;
mod ending;
mod laws;
mod line_reader;
mod memory;
mod sink;
mod source;
mod word;

pub use command_line::{Asked, asked_by, tell_usage};
pub use ending::Ending;
pub use laws::{last_line_ends_at_end, lines_end_at_newlines};
pub use line_reader::{Got, LineReader};
pub use memory::{MemSink, MemSource, SureSink, SureSource};
pub use sink::{Sink, deliver, write_whole};
pub use source::{Failed, Source};
pub use word::Word;
