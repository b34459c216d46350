//! Advices and grants that wait for their acknowledgement, each in a slot.
#![tactic(auto)]

mod held;
mod item;
mod kept;
mod places;
mod slots;
mod wanted;
mod wheel;

pub use item::{Advice, Held, Item, ItemName, LentGrant};
pub use kept::{KeptAdvice, KeptGrant, StoredCase, StoredItem};
pub use slots::AdviceSlots;
