//! The lines of a card.
ghost use Rattle.std.specs.Prelude.{◌≡◌, Some, IfOk, string_bytes};
ghost use Rattle.card_view.specs.View.{class_line, node_lines, view_text};

use crate::class::class_of;
use crate::days::DaysLine;
use crate::issuer::IssuerLine;
use crate::node::NodeLine;
use crate::ways::AcquirerLines;
use card_digits::{Card, NodeNo, Prefix};
use net_rows::Tables;
use rank_cert::Cert;
use std::alloc::{AllocError, Global};
use std::fmt;

/// The line of a card's class.
#[derive(Clone, Copy)]
struct ClassLine<'t> {
    class: &'t Option<Prefix>,
}

impl fmt::Display for ClassLine<'_> {
    ghost output = { λ line. Some (class_line line.class.now) };

    fn fmt<W: fmt::Write>(&self, f: &mut fmt::Formatter<W>) -> fmt::Result {
        match self.class {
            Some(class) => write!(f, "class {class}\n"),
            None => f.write_str("no class\n"),
        }
    }
}

/// What the nodes of tables do with a card, by these ranks: the card's class, its issuer, a line for each node, the sum of days, and
/// the way from each acquirer.
#[derive(Clone, Copy)]
pub struct CardView<'t> {
    pub tables: &'t Tables,
    pub cert: &'t Cert,
    pub card: &'t Card,
}

/// The lines of all nodes.
#[derive(Clone, Copy)]
struct NodeLines<'t> {
    view: CardView<'t>,
    class: &'t Option<Prefix>,
}

impl fmt::Display for NodeLines<'_> {
    ghost use Rattle.std.specs.Prelude.{length};

    ghost output = { λ lines. Some (node_lines lines.view.tables.now lines.view.cert.now lines.view.card.now lines.class.now (length lines.view.tables.now.nodes)) };

    fn fmt<W: fmt::Write>(&self, f: &mut fmt::Formatter<W>) -> fmt::Result {
        let view = self.view;
        for place in 0..view.tables.nodes().len() {
            let line = NodeLine {
                tables: view.tables,
                cert: view.cert,
                card: view.card,
                class: *self.class,
                node: NodeNo::new(place),
            };
            write!(f, "{line}")?;
        }
        Ok(())
    }
}

impl fmt::Display for CardView<'_> {
    ghost output = { λ view. Some (view_text view.tables.now view.cert.now view.card.now) };

    fn fmt<W: fmt::Write>(&self, f: &mut fmt::Formatter<W>) -> fmt::Result {
        let view = *self;
        let class = class_of(view.tables, view.card);
        let class = &class;
        let first = ClassLine { class };
        let issuer = IssuerLine {
            tables: view.tables,
            card: view.card,
        };
        let nodes = NodeLines { view, class };
        let days = DaysLine {
            tables: view.tables,
            card: view.card,
        };
        let acquirers = AcquirerLines {
            tables: view.tables,
            card: view.card,
        };
        write!(f, "{first}{issuer}{nodes}{days}{acquirers}")
    }
}

/// The text of a card's lines.
pub(crate) fn view_text(alloc: Global, view: &CardView<'_>) -> Result<String, AllocError>
    ensures { IfOk result (λ s. string_bytes s ≡ view_text view.now.tables.now view.now.cert.now view.now.card.now) }
{
    format!(in alloc; "{view}")
}
