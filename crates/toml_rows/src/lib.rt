//! Rows of a TOML document, one after the other, without the tree of the whole. What is read here is a part of what the crate `toml`
//! reads, and gives the same members; of any other text nothing is said, and it is for `toml` to read.
#![tactic(auto)]

mod blank;
mod digits;
mod key;
mod line;
mod plain;
mod row;
mod string;
mod value;

pub use blank::skip_blank;
pub use line::bare_row_header;
pub use plain::{close_texts, next_text, number_pair, open_texts, text_pair};
pub use row::{first_table, is_over, next_row, start};
