//! Plans: what a network of threads is to run, for how long, and how bad its links are.
#![tactic(auto)]

mod draft;
mod fault;
mod faults;
mod line;
mod plan;
mod read;

pub use fault::PlanFault;
pub use faults::{Delay, Fate, Faults, LinkFaults};
pub use plan::{Plan, Session};
pub use read::read_plan;
pub use replay_script::Loan;
