//! A timing wheel: alarms by deadline, and which of them are due as the time moves on.
#![tactic(auto)]

mod drain;
mod levels;
mod places;
mod slot;
mod ticks;
mod wheel;

pub use wheel::Wheel;
