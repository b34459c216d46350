//! Where the elements of a message stand in its bytes, and a message of values that stand in some bytes.
#![tactic(auto)]

mod building;
mod finding;
mod span;

pub use building::build;
pub use finding::{LocateFault, locate};
pub use span::{ElementSpan, span_of};
