//! Lines of verdicts.
ghost use Rattle.std.specs.Prelude.{◌≡◌, IfOk, Some};
ghost use Rattle.bundle_text.specs.Lines.{refusal_line, refusal_text};

use crate::names::{NamedLink, NamedNode};
use card_digits::{LinkNo, NodeNo};
use net_rows::Tables;
use std::alloc::{AllocError, Global};
use std::fmt;
use table_checker::Refusal;

/// A refusal of these tables.
#[derive(Clone, Copy)]
struct Refused<'t> {
    tables: &'t Tables,
    refusal: &'t Refusal,
}

impl<'t> Refused<'t> {
    fn node(&self, node: &NodeNo) -> NamedNode<'t>
        ensures { result ≡ record { tables = self.now.tables; node = node.now } }
    {
        NamedNode {
            tables: self.tables,
            node: *node,
        }
    }

    fn link(&self, link: &LinkNo) -> NamedLink<'t>
        ensures { result ≡ record { tables = self.now.tables; link = link.now } }
    {
        NamedLink {
            tables: self.tables,
            link: *link,
        }
    }
}

/// What is printed of it, without the line feed.
impl fmt::Display for Refused<'_> {
    ghost output = { λ refused. Some (refusal_text refused.tables.now refused.refusal.now) };

    fn fmt<W: fmt::Write>(&self, f: &mut fmt::Formatter<W>) -> fmt::Result {
        match self.refusal {
            Refusal::NoRank(node, class) => {
                let node = self.node(node);
                write!(f, "refused 1 no rank: node {node} prefix {class}")
            }
            Refusal::NotLess(node, class, link) => {
                let node = self.node(node);
                let link = self.link(link);
                write!(
                    f,
                    "refused 2 not less: node {node} prefix {class} link {link}"
                )
            }
            Refusal::NotNamed(node, class) => {
                let node = self.node(node);
                write!(f, "refused 3 not named: node {node} prefix {class}")
            }
            Refusal::OverCeiling(class, sum, ceiling) => {
                write!(
                    f,
                    "refused 4 over ceiling: prefix {class} sum {sum} ceiling {ceiling}"
                )
            }
            Refusal::NoIssuer(node, class) => {
                let node = self.node(node);
                write!(f, "refused 5 no issuer: node {node} prefix {class}")
            }
            Refusal::AcquirerTwice(id) => write!(f, "refused 6 acquirer twice: {id}"),
            Refusal::NodeIdTwice(id) => write!(f, "refused 7 node id twice: {id}"),
            Refusal::TimerTooLong(link) => {
                let link = self.link(link);
                write!(f, "refused 8 timer too long: link {link}")
            }
            Refusal::Memory => f.write_str("fault check 9 memory"),
        }
    }
}

/// The line of a refusal of these tables, with its line feed.
pub fn refusal_line(
    alloc: Global,
    tables: &Tables,
    refusal: &Refusal,
) -> Result<Vec<u8>, AllocError>
    ensures { IfOk result (λ v. v.items ≡ refusal_line tables.now refusal.now) }
{
    let refused = Refused { tables, refusal };
    let line = format!(in alloc; "{refused}\n")?;
    Ok(line.into_bytes())
}
