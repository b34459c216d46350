//! Fields of JSON objects, and all refusals of tables as JSON.
#![tactic(auto)]

mod fields;
mod line_words;
mod listed_json;

pub use fields::{json_line, link_text, node_text, prefix_text};
pub use line_words::words;
pub use listed_json::{accepted_line, add_refusals, refused_line, told};
