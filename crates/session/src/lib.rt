//! A session: it takes the lines of a script one after the other and writes what each of them prints.
#![tactic(auto)]

mod answer;
mod observer_ids;
mod places;
mod refusal;
mod reply;
mod request;
mod script;
mod session;

pub use answer::Did;
pub use session::{NoticeKind, NoticeParts, Session};
