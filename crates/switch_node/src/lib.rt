//! One node of the network: what it does for each input, and its trace.
#![tactic(auto)]

mod entry;
mod input;
mod inputs;
mod node;
mod owned;

pub use entry::Entry;
pub use input::{BoxedLending, Case, Input};
pub use node::Node;
pub use owned::OwnedNode;
pub use step_draft::{Output, Outputs};
