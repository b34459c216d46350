//! The line of a card's issuer.
ghost use Rattle.std.specs.Prelude.{◌≡◌, Some};
ghost use Rattle.net_rows.specs.Network.{issuer};
ghost use Rattle.card_view.specs.View.{issuer_line, named_text};

use bundle_text::{NamedNode, NamedNodes};
use card_digits::{Card, NodeNo};
use net_rows::{Issuer, Tables};
use std::fmt;

/// The nodes that an issuer names.
#[derive(Clone, Copy)]
struct NamedByIssuer<'t> {
    tables: &'t Tables,
    nodes: &'t [NodeNo],
}

impl fmt::Display for NamedByIssuer<'_> {
    ghost output = { λ named. Some (named_text named.tables.now named.nodes.now) };

    fn fmt<W: fmt::Write>(&self, f: &mut fmt::Formatter<W>) -> fmt::Result {
        if self.nodes.is_empty() {
            return f.write_str("no named nodes");
        }
        let names = NamedNodes {
            tables: self.tables,
            nodes: self.nodes,
        };
        write!(f, "named nodes{names}")
    }
}

/// A row of an issuer.
#[derive(Clone, Copy)]
struct IssuerRow<'t> {
    tables: &'t Tables,
    row: &'t Issuer,
}

impl fmt::Display for IssuerRow<'_> {
    ghost output = { λ issuer. Some (issuer_line issuer.tables.now (Some issuer.row.now)) };

    fn fmt<W: fmt::Write>(&self, f: &mut fmt::Formatter<W>) -> fmt::Result {
        let (tables, row) = (self.tables, self.row);
        let (name, prefix) = (row.name, row.prefix);
        let home = NamedNode {
            tables,
            node: row.home,
        };
        let ceiling = row.ceiling.value();
        let named = NamedByIssuer {
            tables,
            nodes: row.named.as_slice(),
        };
        write!(
            f,
            "issuer {name}: PAN prefix {prefix}; home {home}; ceiling {ceiling}; {named}\n"
        )
    }
}

/// The line of a card's issuer.
#[derive(Clone, Copy)]
pub(crate) struct IssuerLine<'t> {
    pub(crate) tables: &'t Tables,
    pub(crate) card: &'t Card,
}

impl fmt::Display for IssuerLine<'_> {
    ghost output = { λ line. Some (issuer_line line.tables.now (issuer line.tables.now line.card.now)) };

    fn fmt<W: fmt::Write>(&self, f: &mut fmt::Formatter<W>) -> fmt::Result {
        let tables = self.tables;
        match tables.issuer(self.card) {
            Some(row) => {
                let issuer = IssuerRow { tables, row };
                write!(f, "{issuer}")
            }
            None => f.write_str("no issuer\n"),
        }
    }
}
