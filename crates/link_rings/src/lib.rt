//! Rings of packets between nodes, and the packets that bad links hold back.
#![tactic(auto)]

mod held;
mod incoming;
mod outgoing;
mod packet;

pub use held::Held;
pub use incoming::{InEnd, InRings};
pub use outgoing::{OutEnd, OutRings};
pub use packet::Packet;

/// How many packets a ring has room for, and how many of one ring a bad link may hold back.
pub const ROOM: usize = 64;
