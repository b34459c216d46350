//! Running the text of a plan, the report in JSON of what came of it, and what the job `run` prints.
#![tactic(auto)]

mod answer;
mod answered;
mod approvals;
mod fault_lines;
mod limit_host;
mod messages;
mod posts;
mod reporting;
mod tally;
mod text_run;
mod words;

pub use answer::run_answer;
pub use fault_lines::{plan_fault_line, run_fault_line};
pub use limit_host::LimitHost;
pub use reporting::report;
pub use text_run::{RunFault, run_plan_text};
