//! Messages of the form of ISO 8583:1987: their codec, and what nodes make of them.
#![tactic(auto)]

mod carried;
mod elements;
pub mod laws;
mod made;
mod message;
mod reading;
mod unread;
mod writing;

pub use carried::is_in_response;
pub use elements::ElementIter;
pub use message::{Message, bytes_of, encode, encode_into};
pub use reading::{bit_map, decode, read_kind, take_mark};
pub use unread::Unread;
pub use writing::{is_binary, map_digits};
