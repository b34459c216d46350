//! What the words of `network_view` ask for, as `clap` parses them.
#![tactic(auto)]

mod app;
mod job;
mod parse;

pub use job::{Drawing, Format, Job};
pub use parse::{help_of, job_of};
