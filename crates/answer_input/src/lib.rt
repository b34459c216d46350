//! From the bytes of an input to those of an answer, for all that can be asked of an input.
#![tactic(auto)]

mod of_tables;
mod question;

pub use of_tables::tables_answer;
pub use question::{Question, run_answer};
