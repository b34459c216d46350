//! What an entry does to a node's books, collected before any of it is done: the changes with their outputs, and the parts of the
//! decision that every input shares, such as to answer a request by itself, to keep an advice, or to let requests fail.
#![tactic(auto)]

mod advice;
mod digits;
mod draft;
mod failing;
mod output;
mod outputs;
mod sending;
mod so_far;
mod stand_in;
mod timers;
mod used;

pub use advice::Advice;
pub use draft::Draft;
pub use output::Output;
pub use outputs::{Outputs, SharedOutputs};
pub use timers::Cause;
