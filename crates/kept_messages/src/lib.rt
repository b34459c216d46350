//! Messages as the bytes that spell them, and outputs of these. Books and links keep them.
#![tactic(auto)]

mod first_element;
mod kept_message;
mod output;

pub use kept_message::KeptMessage;
pub use output::{PreparedOutput, Way};
