//! The rank of a node at a prefix.
use card_digits::{Name, Prefix};

/// The rank of the node of that name at a prefix.
#[derive(Clone, Copy, Debug)]
pub struct Rank {
    pub node: Name,
    pub prefix: Prefix,
    pub rank: u16,
}

/// The most rows of one prefix that are gone through: as many as a network has nodes.
pub const NEAR: usize = 64;
