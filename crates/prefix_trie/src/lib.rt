//! Rows by prefixes of card numbers, found by the longest prefix that begins a card.
#![tactic(auto)]

mod branch;
mod trie;

pub use trie::{Fault, Refused, Trie};
