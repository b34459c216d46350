//! The jobs of the program that need no threads, from a buffer of bytes into another.
#![tactic(auto)]

mod answers;
mod filled;
mod gathered;
mod jobs;

pub use bundle_text::Status;
pub use filled::{FillFault, Filled};
pub use jobs::{check_into, decode_into, make_into, replay_into};
