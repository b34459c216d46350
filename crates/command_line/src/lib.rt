//! What the program's words ask for, as `clap` parses them.
#![tactic(auto)]

mod job;
mod parse;

pub use job::Job;
pub use parse::job_of;
