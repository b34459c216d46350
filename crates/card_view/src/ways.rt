//! The ways of a card from the acquirers' nodes to its home.
ghost use Rattle.std.specs.Prelude.{◌≡◌, Some};
ghost use Rattle.std.specs.Fmt.{WritesOnOk};
ghost use Rattle.net_rows.specs.Network.{route};
ghost use Rattle.card_view.specs.View.{links_of, way_text, acquirer_line, acquirer_lines};

use crate::hops::Hops;
use crate::node::is_home;
use bundle_text::NamedNode;
use card_digits::{Card, LinkNo, NodeNo};
use net_rows::{Acquirer, Tables};
use std::fmt;

/// As many nodes as a way has at most where ranks fall: a longer one goes round.
pub const MOST_HOPS: u8 = 64;

/// The links of a node's route row in force, and none where there is no such row.
pub fn links_of<'t>(tables: &'t Tables, card: &Card, node: NodeNo) -> &'t [LinkNo]
    ensures { result.now ≡ links_of (route tables.now node card.now) }
{
    match tables.route(node, card) {
        Some(row) => row.links.as_slice(),
        None => &[],
    }
}

/// Writes the way of a card from a node, over so many nodes at most.
#[tactic(auto, using(crate::proofs::WayText::way_home, crate::proofs::WayText::way_stops))]
fn write_way<W: fmt::Write>(
    f: &mut fmt::Formatter<W>,
    tables: &Tables,
    card: &Card,
    left: u8,
    node: NodeNo,
) -> fmt::Result
    ensures { WritesOnOk W.write_str_gives f.old result (way_text tables.now card.now left node) f.new }
{
    if left == 0 {
        return f.write_str(" and so on");
    }
    if is_home(tables, card, node) {
        return f.write_str(" home");
    }
    let links = links_of(tables, card, node);
    let Some(first) = links.first() else {
        return f.write_str(" no route");
    };
    let hops = Hops {
        tables,
        node,
        links,
    };
    write!(f, "{hops};")?;
    write_way(f, tables, card, left - 1, tables.other_end(node, *first))
}

/// The way of a card from a node.
#[derive(Clone, Copy)]
struct Way<'t> {
    tables: &'t Tables,
    card: &'t Card,
    node: NodeNo,
}

impl fmt::Display for Way<'_> {
    ghost output = { λ way. Some (way_text way.tables.now way.card.now 64 way.node) };

    fn fmt<W: fmt::Write>(&self, f: &mut fmt::Formatter<W>) -> fmt::Result {
        write_way(f, self.tables, self.card, MOST_HOPS, self.node)
    }
}

/// An acquirer, and the way of a card from its node.
#[derive(Clone, Copy)]
struct AcquirerLine<'t> {
    tables: &'t Tables,
    card: &'t Card,
    row: &'t Acquirer,
}

impl fmt::Display for AcquirerLine<'_> {
    ghost output = { λ line. Some (acquirer_line line.tables.now line.card.now line.row.now) };

    fn fmt<W: fmt::Write>(&self, f: &mut fmt::Formatter<W>) -> fmt::Result {
        let (tables, card, node) = (self.tables, self.card, self.row.node);
        let id = self.row.id;
        let name = NamedNode { tables, node };
        let way = Way { tables, card, node };
        write!(f, "acquirer {id} at {name}:{way}\n")
    }
}

/// The lines of all acquirers.
#[derive(Clone, Copy)]
pub(crate) struct AcquirerLines<'t> {
    pub(crate) tables: &'t Tables,
    pub(crate) card: &'t Card,
}

impl fmt::Display for AcquirerLines<'_> {
    ghost output = { λ lines. Some (acquirer_lines lines.tables.now lines.card.now lines.tables.now.acquirers) };

    fn fmt<W: fmt::Write>(&self, f: &mut fmt::Formatter<W>) -> fmt::Result {
        let (tables, card) = (self.tables, self.card);
        for row in tables.acquirers() {
            let line = AcquirerLine { tables, card, row };
            write!(f, "{line}")?;
        }
        Ok(())
    }
}
