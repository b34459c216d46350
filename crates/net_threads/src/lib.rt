//! The nodes of accepted tables as stations that threads share, and whether what they did is a run.
#![tactic(auto)]

mod byte_hash;
mod ended;
mod fault;
mod judge;
mod network;
mod own_links;
mod plans;
mod pumping;
mod puts;
mod sending;
mod station;

pub use byte_hash::{hash_behind, hash_of};
pub use ended::{Ended, Finished, LineEnd, SessionEnd, Verdict};
pub use fault::StationFault;
pub use network::Network;
pub use station::Station;
