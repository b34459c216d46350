//! The changes that an entry makes to a node's books, and what the books are after them.
#![tactic(auto)]

mod advice_places;
mod changes;
mod late;
mod link_moves;
mod so_far;

pub use changes::Changes;
pub use so_far::{AdviceState, Forwarding, LinkAfter};
