//! What a node does with a message that comes to it, and with what its host answers, over a draft of its step.
#![tactic(auto)]

mod answers;
mod incoming;
mod notices;
mod requests;

pub use answers::on_host;
pub use incoming::{enter, take_message};
