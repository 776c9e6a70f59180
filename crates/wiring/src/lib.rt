//! What a stabilize works on beside the nodes, and how what is newly needed gets its links.
#![tactic(auto)]

mod death;
mod heap;
mod link;
mod points;
mod refused;
mod right;
mod settle;
mod unconfirmed;
mod wire;
mod work;

pub use refused::Refused;
pub use work::Work;
