//! The printed form of messages, and the answer of a decode job.
#![tactic(auto)]

mod answer;
mod block;
mod fault;
mod parts;
mod row;
mod sending;

pub use answer::{decode_frames, decode_lines};
pub use fault::PrintFault;
pub use row::put_words;
pub use sending::{MOST_WAITING, add_text, send};
