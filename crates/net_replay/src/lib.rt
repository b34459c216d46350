//! The lines of a script, run one after another on the nodes of accepted tables.
#![tactic(auto)]

mod fault;
mod packets;
mod run;
mod running;
mod steps;
mod traces;

pub use fault::ReplayFault;
pub use run::replay;
pub use steps::{LineStep, Steps};
pub use traces::Traces;
