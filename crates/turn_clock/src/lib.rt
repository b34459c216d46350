//! Turns that pass while all threads of a plan wait.
#![tactic(auto)]

mod clock;
mod first;

pub use clock::{Helped, TurnClock};
pub use first::sooner;
