//! Frames of bytes, as messages are sent in: a length of two bytes, the high one first, and so many bytes.
#![tactic(auto)]

mod frame;

pub use frame::{FrameFault, read_frame, write_frame};
