//! From tables, ranks and a script to the printed text: what the nodes put out line by line, or the line of a fault.
#![tactic(auto)]

mod answer;
mod faults;
mod row;
mod sending;
mod steps;

pub use answer::{TraceMemory, write_replayed};
pub use faults::script_fault_line;
pub use steps::write_traces;
