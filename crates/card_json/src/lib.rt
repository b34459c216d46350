//! What each node of a network does with one card, as a JSON object.
#![tactic(auto)]

mod answer;
mod card;
mod issuer;
mod job;
mod names;
mod node;
mod ways;

pub use answer::card_answer;
pub use job::run_card_json;
