//! Maps from prefixes of card numbers to values.
#![tactic(auto)]

mod ends;
mod map;
mod node;

pub use map::PrefixMap;
