//! The lines of a script, which say what happens at which node.
#![tactic(auto)]

mod command;
mod line;
mod script;
mod words;

pub use command::{Command, Loan, ScriptLine};
pub use line::{read_line, read_loan};
pub use script::{MalformedLine, Script};
