//! What a node's books keep beside their lists: the places of keys, and sums by card and settlement date.
#![tactic(auto)]

mod card_day;
mod index;
mod sums;

pub use card_day::CardDay;
pub use index::{Place, PlaceIndex};
pub use sums::Sums;
