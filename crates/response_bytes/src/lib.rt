//! The response to a message, made of the bytes that spell the message.
#![tactic(auto)]

mod lengths;
mod response;

pub use response::push_response;
