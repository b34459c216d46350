//! A handle of a node, for programs that know it by a pointer.
#![tactic(auto)]

mod handle;

pub use handle::NodeHandle;
