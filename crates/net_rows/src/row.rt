//! The rows of the tables, names resolved.
ghost use Rattle.std.specs.Prelude.{◌≡◌, ◌==◌, if◌then◌else◌};

use crate::lists::{Links, Nodes};
use crate::prefixed::Prefixed;
use card_digits::{Amount, DateLabel, Id, Name, NodeNo, Prefix, ShortBytes};

/// The most ticks that a request waits on a link or for the host, and that pass before an advice is sent again (our format of tables).
pub const MOST_TICKS: u16 = 4_000;

/// What holds for the whole network.
#[derive(Clone, Copy, Debug)]
pub struct Settings {
    pub currency: ShortBytes<3>,
    pub date: DateLabel,
    pub host_ticks: u16,
    pub advice_ticks: u16,
}

/// A switch node: its name in our formats, and its institution number (elements 32 and 33).
#[derive(Clone, Copy, Debug)]
pub struct Node {
    pub name: Name,
    pub id: Id,
}

/// A link between two different nodes.
#[derive(Clone, Copy, Debug)]
pub struct Link {
    pub name: Name,
    pub from: NodeNo,
    pub to: NodeNo,
    pub ticks: u16,
}

/// An acquirer (element 32), and the node at whose gate it enters requests.
#[derive(Clone, Copy, Debug)]
pub struct Acquirer {
    pub id: Id,
    pub node: NodeNo,
}

/// An issuer of the cards with a prefix: its home node, the nodes that it names to approve by themselves, and the most that these approve
/// together for a card and a settlement date, in minor units.
#[derive(Debug, Drop)]
pub struct Issuer {
    pub name: Name,
    pub prefix: Prefix,
    pub home: NodeNo,
    pub named: Nodes,
    pub ceiling: Amount,
}

/// The links on which a node forwards requests of the cards with a prefix, the preferred one first.
#[derive(Debug, Drop)]
pub struct Route {
    pub node: NodeNo,
    pub prefix: Prefix,
    pub links: Links,
}

/// What a node may approve by itself for a card with a prefix: for a settlement date, and in one amount, in minor units.
#[derive(Clone, Copy, Debug)]
pub struct StandIn {
    pub node: NodeNo,
    pub prefix: Prefix,
    pub day: Amount,
    pub single: Amount,
}

impl Link {
    /// The other end of the link, or its first end where the node is none.
    pub fn other_end(&self, node: NodeNo) -> NodeNo
        ensures { result ≡ (if self.now.from == node then self.now.to else self.now.from) }
    {
        if self.from == node {
            self.to
        } else {
            self.from
        }
    }
}

impl Prefixed for Issuer {
    ghost use Rattle.std.specs.Prelude.{None};

    ghost node_of = { λ r. None };

    ghost prefix_of = { λ r. r.prefix };

    fn node(&self) -> Option<NodeNo> {
        None
    }

    fn prefix(&self) -> &Prefix {
        &self.prefix
    }
}

impl Prefixed for Route {
    ghost use Rattle.std.specs.Prelude.{Some};

    ghost node_of = { λ r. Some r.node };

    ghost prefix_of = { λ r. r.prefix };

    fn node(&self) -> Option<NodeNo> {
        Some(self.node)
    }

    fn prefix(&self) -> &Prefix {
        &self.prefix
    }
}

impl Prefixed for StandIn {
    ghost use Rattle.std.specs.Prelude.{Some};

    ghost node_of = { λ r. Some r.node };

    ghost prefix_of = { λ r. r.prefix };

    fn node(&self) -> Option<NodeNo> {
        Some(self.node)
    }

    fn prefix(&self) -> &Prefix {
        &self.prefix
    }
}
