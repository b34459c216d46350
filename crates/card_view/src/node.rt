//! The line of a node.
ghost use Rattle.std.specs.Prelude.{◌≡◌, Some};
ghost use Rattle.net_rows.specs.Network.{issuer, route, stand_in};
ghost use Rattle.card_view.specs.View.{rank_in, is_home, home_text, rank_text, route_text, stand_in_text, node_line};

use crate::hops::Hops;
use bundle_text::NamedNode;
use card_digits::{Card, NodeNo, Prefix};
use net_rows::Tables;
use rank_cert::Cert;
use std::fmt;

/// A rank, or that there is none.
#[derive(Clone, Copy)]
struct NodeRank {
    rank: Option<u16>,
}

impl fmt::Display for NodeRank {
    ghost output = { λ r. Some (rank_text r.rank) };

    fn fmt<W: fmt::Write>(&self, f: &mut fmt::Formatter<W>) -> fmt::Result {
        match self.rank {
            Some(rank) => write!(f, "rank {rank}"),
            None => f.write_str("no rank"),
        }
    }
}

/// A node, and the card that comes to it.
#[derive(Clone, Copy)]
struct AtNode<'t> {
    tables: &'t Tables,
    card: &'t Card,
    node: NodeNo,
}

/// Whether the host of the card's issuer stands at the node.
pub fn is_home(tables: &Tables, card: &Card, node: NodeNo) -> bool
    ensures { result ≡ is_home (issuer tables.now card.now) node }
{
    match tables.issuer(card) {
        Some(issuer) => issuer.home == node,
        None => false,
    }
}

/// The mark of a card's home.
#[derive(Clone, Copy)]
struct HomeMark<'t> {
    at: &'t AtNode<'t>,
}

impl fmt::Display for HomeMark<'_> {
    ghost output = { λ m. Some (home_text (issuer m.at.now.tables.now m.at.now.card.now) m.at.now.node) };

    fn fmt<W: fmt::Write>(&self, f: &mut fmt::Formatter<W>) -> fmt::Result {
        if is_home(self.at.tables, self.at.card, self.at.node) {
            f.write_str(" (home)")
        } else {
            Ok(())
        }
    }
}

/// The node's route row in force.
#[derive(Clone, Copy)]
struct RouteInForce<'t> {
    at: &'t AtNode<'t>,
}

impl fmt::Display for RouteInForce<'_> {
    ghost output = { λ r. Some (route_text r.at.now.tables.now r.at.now.node (route r.at.now.tables.now r.at.now.node r.at.now.card.now)) };

    fn fmt<W: fmt::Write>(&self, f: &mut fmt::Formatter<W>) -> fmt::Result {
        let (tables, node) = (self.at.tables, self.at.node);
        match tables.route(node, self.at.card) {
            Some(row) => {
                let prefix = row.prefix;
                let links = Hops {
                    tables,
                    node,
                    links: row.links.as_slice(),
                };
                write!(f, "route {prefix}:{links}")
            }
            None => f.write_str("no route"),
        }
    }
}

/// The node's stand-in row in force.
#[derive(Clone, Copy)]
struct StandInInForce<'t> {
    at: &'t AtNode<'t>,
}

impl fmt::Display for StandInInForce<'_> {
    ghost output = { λ s. Some (stand_in_text (stand_in s.at.now.tables.now s.at.now.node s.at.now.card.now)) };

    fn fmt<W: fmt::Write>(&self, f: &mut fmt::Formatter<W>) -> fmt::Result {
        match self.at.tables.stand_in(self.at.node, self.at.card) {
            Some(row) => {
                let prefix = row.prefix;
                let (day, single) = (row.day.value(), row.single.value());
                write!(f, "stand-in {prefix}: day {day}, single {single}")
            }
            None => f.write_str("no stand-in"),
        }
    }
}

/// The rank of a node at a class, if there is one.
pub fn rank_in(tables: &Tables, cert: &Cert, class: Option<Prefix>, node: NodeNo) -> Option<u16>
    ensures { result ≡ rank_in tables.now cert.now class node }
{
    let row = tables.nodes().get(node.place())?;
    cert.rank(&row.name, &class?)
}

/// What a node does with a card of a class.
#[derive(Clone, Copy)]
pub(crate) struct NodeLine<'t> {
    pub(crate) tables: &'t Tables,
    pub(crate) cert: &'t Cert,
    pub(crate) card: &'t Card,
    pub(crate) class: Option<Prefix>,
    pub(crate) node: NodeNo,
}

impl fmt::Display for NodeLine<'_> {
    ghost output = { λ l. Some (node_line l.tables.now l.cert.now l.card.now l.class l.node) };

    fn fmt<W: fmt::Write>(&self, f: &mut fmt::Formatter<W>) -> fmt::Result {
        let (tables, node) = (self.tables, self.node);
        let at = &AtNode {
            tables,
            card: self.card,
            node,
        };
        let name = NamedNode { tables, node };
        let home = HomeMark { at };
        let rank = NodeRank {
            rank: rank_in(tables, self.cert, self.class, node),
        };
        let route = RouteInForce { at };
        let stand_in = StandInInForce { at };
        write!(f, "node {name}{home}: {rank}; {route}; {stand_in}\n")
    }
}
