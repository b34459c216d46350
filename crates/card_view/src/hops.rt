//! The links of a route by their names.
ghost use Rattle.std.specs.Prelude.{Some};
ghost use Rattle.card_view.specs.View.{hop_text, hops_text, fallbacks_text};

use bundle_text::{NamedLink, NamedNode};
use card_digits::{LinkNo, NodeNo};
use net_rows::Tables;
use std::fmt;

/// A link of a node, and the node at its other end.
#[derive(Clone, Copy)]
struct Hop<'t> {
    tables: &'t Tables,
    node: NodeNo,
    link: LinkNo,
}

impl fmt::Display for Hop<'_> {
    ghost output = { λ hop. Some (hop_text hop.tables.now hop.node hop.link) };

    fn fmt<W: fmt::Write>(&self, f: &mut fmt::Formatter<W>) -> fmt::Result {
        let tables = self.tables;
        let link = NamedLink {
            tables,
            link: self.link,
        };
        let far = NamedNode {
            tables,
            node: tables.other_end(self.node, self.link),
        };
        write!(f, "{link} to {far}")
    }
}

/// The links of a node's route in their order, a space before the first and the word "fallback" before each of the others.
#[derive(Clone, Copy)]
pub(crate) struct Hops<'t> {
    pub(crate) tables: &'t Tables,
    pub(crate) node: NodeNo,
    pub(crate) links: &'t [LinkNo],
}

impl fmt::Display for Hops<'_> {
    ghost output = { λ hops. Some (hops_text hops.tables.now hops.node hops.links.now) };

    fn fmt<W: fmt::Write>(&self, f: &mut fmt::Formatter<W>) -> fmt::Result {
        let (tables, node) = (self.tables, self.node);
        let Some((first, others)) = self.links.split_first() else {
            return Ok(());
        };
        let first = Hop {
            tables,
            node,
            link: *first,
        };
        let others = Fallbacks {
            tables,
            node,
            links: others,
        };
        write!(f, " {first}{others}")
    }
}

/// The links of a node's route behind the first.
#[derive(Clone, Copy)]
struct Fallbacks<'t> {
    tables: &'t Tables,
    node: NodeNo,
    links: &'t [LinkNo],
}

impl fmt::Display for Fallbacks<'_> {
    ghost output = { λ hops. Some (fallbacks_text hops.tables.now hops.node hops.links.now) };

    fn fmt<W: fmt::Write>(&self, f: &mut fmt::Formatter<W>) -> fmt::Result {
        let (tables, node) = (self.tables, self.node);
        for link in self.links {
            let hop = Hop {
                tables,
                node,
                link: *link,
            };
            write!(f, ", fallback {hop}")?;
        }
        Ok(())
    }
}
