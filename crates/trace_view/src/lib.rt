//! What `replay` printed, as a table with a row for each input and each output.
#![tactic(auto)]

mod answer;
mod cells;
mod fault;
mod inputs;
mod job;
mod line;
mod packet;
mod rows;
mod table;
mod words;

pub use answer::trace_answer;
pub use job::run_trace;
