//! The nodes of a picture.
ghost use Rattle.std.specs.Prelude.{◌≡◌, ◌≤◌, ◌<◌, length, map, unwrap_or, slice_get, option_map, IfOk};
ghost use Rattle.network_picture.specs.Made.{rank_in, ranks_in, stand_in_in, home_in, is_home_of, mark, by_place, numbered, node_box, boxes_at, no_corner};

use crate::marks::{has_node, has_stand_in};
use all_refusals::RowRefusal;
use card_digits::{NodeNo, Prefix};
use net_rows::{Node, StandIn, Tables};
use picture_text::{Corner, NodeBox, StandInMark};
use rank_cert::Cert;
use std::alloc::{AllocError, Global};

/// A network at a class, and the refusals that belong there.
#[derive(Clone, Copy)]
pub(crate) struct AtClass<'t> {
    pub tables: &'t Tables,
    pub cert: &'t Cert,
    pub class: &'t Option<Prefix>,
    pub found: &'t [RowRefusal],
}

/// The rank of a node at a class.
fn rank_in(cert: &Cert, class: &Option<Prefix>, node: &Node) -> Option<u16>
    ensures { result ≡ rank_in cert.now class.now node.now }
{
    match class {
        Some(class) => cert.rank(&node.name, class),
        None => None,
    }
}

/// The ranks of all nodes, in the order of the tables.
pub(crate) fn ranks_in(
    alloc: Global,
    tables: &Tables,
    cert: &Cert,
    class: &Option<Prefix>,
) -> Result<Vec<Option<u16>>, AllocError>
    ensures ranks { IfOk result (λ v. v.items ≡ ranks_in tables.now cert.now class.now) }
    ensures count { IfOk result (λ v. length v.items ≡ length tables.now.nodes) }
    ensures few { IfOk result (λ v. length v.items ≤ 64) }
{
    let nodes = tables.nodes();
    nodes
        .iter()
        .map(|node| rank_in(cert, class, node))
        .collect(alloc)
}

/// A row of the nodes' table, with its place.
#[derive(Clone, Copy)]
pub struct NumberedNode {
    pub node: NodeNo,
    pub row: Node,
}

/// The row at a place.
fn numbered(place: usize, row: &Node) -> NumberedNode
    requires { place < 64 }
    ensures { result ≡ numbered place row.now }
{
    NumberedNode {
        node: NodeNo::new(place),
        row: *row,
    }
}

/// All nodes, in the order of the tables.
fn numbered_nodes(alloc: Global, tables: &Tables) -> Result<Vec<NumberedNode>, AllocError>
    ensures { IfOk result (λ v. v.items ≡ by_place numbered 0 tables.now.nodes) }
{
    let mut nodes = Vec::new(alloc);
    let rows = tables.nodes();
    for (place, row) in rows.iter().enumerate() {
        let next = numbered(place, row);
        nodes.push(next)?;
    }
    Ok(nodes)
}

/// A stand-in row as a mark.
fn mark(tables: &Tables, found: &[RowRefusal], stand_in: &StandIn) -> StandInMark
    ensures { result ≡ mark tables.now found.now stand_in.now }
{
    StandInMark {
        day: stand_in.day,
        is_refused: has_stand_in(tables, found, stand_in),
    }
}

/// The corner at a place.
fn corner_at(corners: &[Corner], place: usize) -> Corner
    ensures { result ≡ unwrap_or (slice_get corners.now place) no_corner }
{
    match corners.get(place) {
        Some(corner) => *corner,
        None => Corner { left: 0, top: 0 },
    }
}

impl AtClass<'_> {
    /// The node's stand-in row in force, as a mark.
    fn stand_in(&self, node: NodeNo) -> Option<StandInMark>
        ensures { result ≡ option_map (mark self.now.tables.now self.now.found.now) (stand_in_in self.now.tables.now self.now.class.now node) }
    {
        let Some(class) = self.class else {
            return None;
        };
        match self.tables.stand_in_at(node, class) {
            Some(row) => Some(mark(self.tables, self.found, row)),
            None => None,
        }
    }

    /// Whether the host of the class's issuer stands at the node.
    fn is_home(&self, node: NodeNo) -> bool
        ensures { result ≡ is_home_of (home_in self.now.tables.now self.now.class.now) node }
    {
        let Some(class) = self.class else {
            return false;
        };
        match self.tables.issuer_at(class) {
            Some(issuer) => issuer.home == node,
            None => false,
        }
    }

    /// A node in the layer of its rank.
    fn node_box(&self, corners: &[Corner], entry: &NumberedNode) -> NodeBox
        ensures { result ≡ node_box self.now.tables.now self.now.cert.now self.now.class.now self.now.found.now corners.now entry.now.node entry.now.row }
    {
        let node = entry.node;
        let row = entry.row;
        NodeBox {
            node,
            name: row.name,
            id: row.id,
            rank: rank_in(self.cert, self.class, &row),
            is_home: self.is_home(node),
            stand_in: self.stand_in(node),
            is_refused: has_node(self.found, node.place()),
            corner: corner_at(corners, node.place()),
        }
    }

    /// These nodes in their layers.
    fn boxes_of(
        &self,
        alloc: Global,
        corners: &[Corner],
        nodes: &[NumberedNode],
    ) -> Result<Vec<NodeBox>, AllocError>
        ensures { IfOk result (λ v. v.items ≡ map (λ n. node_box self.now.tables.now self.now.cert.now self.now.class.now self.now.found.now corners.now n.node n.row) nodes.now) }
    {
        nodes
            .iter()
            .map(|node| self.node_box(corners, node))
            .collect(alloc)
    }

    /// All nodes, in the order of the tables.
    pub fn boxes(&self, alloc: Global, corners: &[Corner]) -> Result<Vec<NodeBox>, AllocError>
        ensures { IfOk result (λ v. v.items ≡ boxes_at self.now.tables.now self.now.cert.now self.now.class.now self.now.found.now corners.now) }
    {
        let nodes = numbered_nodes(alloc, self.tables)?;
        self.boxes_of(alloc, corners, &nodes)
    }
}
