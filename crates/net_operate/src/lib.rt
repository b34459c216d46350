//! Nodes, hosts and sessions as threads.
#![tactic(auto)]

mod acquirers;
mod pumping;
mod running;
mod serving;
mod session_ends;
mod sessions;
mod under_way;
mod worker;

pub use running::{Host, OperateFault, operate};
