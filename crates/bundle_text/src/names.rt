//! Names of nodes and links of tables.
ghost use Rattle.std.specs.Prelude.{◌≡◌, ◌≤◌, ◌∷◌, length, Some};
ghost use Rattle.std.specs.List.{flat_map};
ghost use Rattle.bundle_text.specs.Lines.{node_name, link_name};

use card_digits::{LinkNo, NodeNo};
use net_rows::Tables;
use std::fmt;

/// The name of a node of the tables; empty where there is no such node.
pub fn node_name(tables: &Tables, node: NodeNo) -> &[u8]
    ensures name { result.now ≡ node_name tables.now node }
    ensures few { length result.now ≤ 8 }
{
    match tables.nodes().get(node.place()) {
        Some(row) => row.name.as_slice(),
        None => &[],
    }
}

/// The name of a link of the tables; empty where there is no such link.
pub fn link_name(tables: &Tables, link: LinkNo) -> &[u8]
    ensures name { result.now ≡ link_name tables.now link }
    ensures few { length result.now ≤ 8 }
{
    match tables.links().get(link.place()) {
        Some(row) => row.name.as_slice(),
        None => &[],
    }
}

/// A node by its name, empty where the tables have no such node.
#[derive(Clone, Copy)]
pub struct NamedNode<'t> {
    pub tables: &'t Tables,
    pub node: NodeNo,
}

impl fmt::Display for NamedNode<'_> {
    ghost output = { λ named. Some (node_name named.tables.now named.node) };

    fn fmt<W: fmt::Write>(&self, f: &mut fmt::Formatter<W>) -> fmt::Result {
        match self.tables.nodes().get(self.node.place()) {
            Some(row) => {
                let name = row.name;
                write!(f, "{name}")
            }
            None => Ok(()),
        }
    }
}

/// A link by its name, empty where the tables have no such link.
#[derive(Clone, Copy)]
pub struct NamedLink<'t> {
    pub tables: &'t Tables,
    pub link: LinkNo,
}

impl fmt::Display for NamedLink<'_> {
    ghost output = { λ named. Some (link_name named.tables.now named.link) };

    fn fmt<W: fmt::Write>(&self, f: &mut fmt::Formatter<W>) -> fmt::Result {
        match self.tables.links().get(self.link.place()) {
            Some(row) => {
                let name = row.name;
                write!(f, "{name}")
            }
            None => Ok(()),
        }
    }
}

/// Nodes by their names, a space before each.
#[derive(Clone, Copy)]
pub struct NamedNodes<'t> {
    pub tables: &'t Tables,
    pub nodes: &'t [NodeNo],
}

impl fmt::Display for NamedNodes<'_> {
    ghost output = { λ named. Some (flat_map (λ n. 32 ∷ node_name named.tables.now n) named.nodes.now) };

    fn fmt<W: fmt::Write>(&self, f: &mut fmt::Formatter<W>) -> fmt::Result {
        let tables = self.tables;
        for node in self.nodes {
            let node = NamedNode {
                tables,
                node: *node,
            };
            write!(f, " {node}")?;
        }
        Ok(())
    }
}
