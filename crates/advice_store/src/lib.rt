//! Store and forward: advices and grants that wait for their acknowledgement, and the identities that are known.
#![tactic(auto)]

mod grant;
mod known;
mod lenders;
mod node;
mod store;

pub use advice_slots::{Advice, ItemName, KeptAdvice, KeptGrant, StoredCase, StoredItem};
pub use grant::read_grant;
pub use network_law::{Grant, GrantPacket};
pub use node::NodeAdvices;
pub use store::{AdviceStore, GrantFault, StoreFault};
