//! Inputs of each job, which the benchmark makes from a seed: tables with ranks, scripts, plans and messages. Nothing is promised of them.
#![tactic(auto)]

mod captures;
mod digits;
mod messages;
mod network;
mod plans;
mod random;
mod rank_line;
mod scripts;
mod text;

pub use captures::{Capture, frames};
pub use network::{Network, Order, Shape, Twist, push_ranks, push_tables};
pub use plans::Load;
pub use random::Random;
pub use scripts::Traffic;
pub use text::Text;
