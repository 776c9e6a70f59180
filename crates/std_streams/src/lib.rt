//! The standard streams as a source and a sink, and the words that the system tells. A reader or a writer of
//! std is behind a counter of its calls: so each call of the source is one read, and each call of the sink one
//! write and one flush, and none that fails is passed over or tried again.
#![tactic(auto)]

mod calls;
mod command_words;
mod counted;
mod streams;

pub use calls::Calls;
pub use command_words::words;
pub use counted::{CountedReader, CountedWriter};
pub use streams::{StdSink, StdSource};
