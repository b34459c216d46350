//! All bytes of an input, and the line that is written where there is none.
#![tactic(auto)]

mod cause;
mod input;

pub use cause::{BundleFault, write_cause};
pub use input::{InputFault, read_all};
