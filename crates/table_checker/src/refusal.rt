//! Why tables are refused.
use card_digits::{Id, LinkNo, NodeNo, Prefix};

/// The first refusal, by the order of the variants, then by class in ascending order, by node in table order and by link in the
/// row's order.
#[derive(Clone, Copy, Debug, PartialEq, Eq)]
pub enum Refusal {
    /// The node, or the other end of a link of its route, has no rank at the class.
    NoRank(NodeNo, Prefix),
    /// The rank of the link's other end is not less than the node's.
    NotLess(NodeNo, Prefix, LinkNo),
    /// The node may approve by itself, and the issuer does not name it.
    NotNamed(NodeNo, Prefix),
    /// What nodes may approve by themselves adds up to the first amount, which is above the second, the issuer's ceiling.
    OverCeiling(Prefix, u64, u64),
    /// A route or stand-in row of the node whose prefix no issuer's prefix begins.
    NoIssuer(NodeNo, Prefix),
    /// A second acquirer with this padded id.
    AcquirerTwice(Id),
    /// A second node with this padded id.
    NodeIdTwice(Id),
    /// The link's timer runs for more than 4,000 ticks.
    TimerTooLong(LinkNo),
    /// Memory was refused.
    Memory,
}

/// The kinds of refusal that go by class, in their order.
#[derive(Clone, Copy, Debug, PartialEq, Eq)]
pub(crate) enum Kind {
    NoRank,
    NotLess,
    NotNamed,
    OverCeiling,
    NoIssuer,
}
