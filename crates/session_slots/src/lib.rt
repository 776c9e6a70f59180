//! Sessions in slots that a caller keeps. It gives a session the lines of a script; what they print waits in the session
//! until it is read, and what the last accepted stabilize told is read notice by notice. Each call answers with a number.
#![tactic(auto)]

mod answer;
mod by_number;
mod handle;
mod holder;
mod laws;
mod slot;
mod told;

pub use crate::by_number::{close_at, line_at, notice_at, open_at, rest_at};
pub use crate::laws::{hands_out_past_wants, hands_out_transcripts};
pub use crate::slot::Slot;
pub use crate::told::Told;
