//! Networks that tests share, put together from rows. Nothing is promised of them, so that the tests are proved fast.
#![tactic(auto)]

mod pieces;
mod rows;
mod sample;

pub use rows::{SETTINGS, push_lines, push_rows, ranks_of, words};
pub use sample::Sample;
