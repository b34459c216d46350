//! Bytes of messages, sixteen at a time: how far they are digits or text, and hexadecimal digits.
#![tactic(auto)]

mod hex_digits;
mod runs;

pub use hex_digits::{bytes_of_digits, digits_of_bytes};
pub use runs::Known;
