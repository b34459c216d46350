//! What the threads of a plan keep between their turns, and whom they tell of a step.
#![tactic(auto)]

mod calls;
mod clock_turns;
mod numbers;
mod pumps;
mod queue;
mod shelf;
mod turns;

pub use calls::Calls;
pub use clock_turns::ClockTurns;
pub use numbers::ThreadNumbers;
pub use pumps::Pump;
pub use queue::{Queue, Standing};
pub use shelf::Shelf;
pub use turns::PumpTurns;
