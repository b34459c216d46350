//! Which requests wait, and for what: each is a slot, in the bucket of its tick, in the list of its link and in the list of how its card
//! ends.
#![tactic(auto)]

mod endings;
mod places;
mod slots;
mod wait;

pub use slots::RequestSlots;
pub use wait::Wait;
