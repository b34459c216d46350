//! Longest walks along the routes for a class.
ghost use Rattle.std.specs.Prelude.{◌≡◌, ◌≤◌, length};
ghost use Rattle.net_rows.specs.Network.{Network};
ghost use Rattle.rank_maker.specs.Longest.{known_rank, rank_past};
ghost use Rattle.rows_in_force.specs.LinkEnds.{AreEnds};

use card_digits::{LinkNo, MOST_NODES, NodeNo};
use net_rows::{Route, Tables};
use rows_in_force::{InForce, LinkEnds};
use std::alloc::{AllocError, AllocFailed, Global};

/// What is known of a node.
#[derive(Clone, Copy, Debug)]
enum Mark {
    New,
    OnPath,
    Ranked(u16),
}

/// Why a walk ended early.
#[derive(Debug, Drop)]
pub(crate) enum Stop {
    /// The walk came to a node of its own path.
    Circle(Vec<NodeNo>),
    GaveUp,
}

impl From<AllocError> for Stop {
    fn from(_e: AllocError) -> Stop {
        Stop::GaveUp
    }
}

impl<T: Drop> From<AllocFailed<T>> for Stop {
    fn from(_e: AllocFailed<T>) -> Stop {
        Stop::GaveUp
    }
}

/// The routes in force at a class, but not those of its home.
#[derive(Clone, Copy, Debug)]
pub(crate) struct Routes<'t> {
    pub(crate) tables: &'t Tables,
    pub(crate) ends: &'t LinkEnds,
    pub(crate) in_force: &'t InForce<'t, Route>,
    pub(crate) home: NodeNo,
}

impl<'t> Routes<'t> {
    fn links(&self, node: NodeNo) -> &'t [LinkNo] {
        if node == self.home {
            return &[];
        }
        match self.in_force.row(node) {
            Some(row) => row.links.as_slice(),
            None => &[],
        }
    }
}

/// The ranks so far, and the path from the node where the walk began.
#[derive(Debug, Drop)]
pub(crate) struct Walk {
    marks: [Mark; MOST_NODES],
    /// The nodes with ranks, in the order in which they got them.
    order: [NodeNo; MOST_NODES],
    ranked: usize,
    path: Vec<NodeNo>,
    alloc: Global,
}

impl Walk {
    pub(crate) fn new(alloc: Global) -> Walk {
        Walk {
            marks: [Mark::New; MOST_NODES],
            order: [NodeNo::new(0); MOST_NODES],
            ranked: 0,
            path: Vec::new(alloc),
            alloc,
        }
    }

    /// Forgets all ranks, for another class. The nodes get new ones in the order of before, as far as the ends of their links have ranks by
    /// then. As the classes are much alike, most have. None of these nodes leads to a circle, so the first circle stays the first.
    pub(crate) fn start_anew(&mut self, routes: &Routes) {
        let (order, ranked) = (self.order, self.ranked);
        self.marks = [Mark::New; MOST_NODES];
        self.ranked = 0;
        self.path.clear();
        for node in order.iter().take(ranked) {
            if let Some(rank) = self.rank_past(routes.ends, *node, routes.links(*node)) {
                self.set_rank(*node, rank);
            }
        }
    }

    #[inline]
    fn set_rank(&mut self, node: NodeNo, rank: u16) {
        self.marks[node.place()] = Mark::Ranked(rank);
        if let Some(place) = self.order.get_mut(self.ranked) {
            *place = node;
            self.ranked += 1;
        }
    }

    /// The number of links of the longest walk from the node.
    #[inline]
    pub(crate) fn rank(&mut self, routes: &Routes, node: NodeNo) -> Result<u16, Stop> {
        match self.known(node) {
            Some(rank) => Ok(rank),
            None => self.rank_anew(routes, node, MOST_NODES),
        }
    }

    /// The rank of a node that has one already, as most ends of links have.
    #[inline]
    fn known(&self, node: NodeNo) -> Option<u16>
        ensures { result ≡ known_rank self.now.marks node }
    {
        match self.marks[node.place()] {
            Mark::Ranked(rank) => Some(rank),
            Mark::New | Mark::OnPath => None,
        }
    }

    /// The rank of a node by those of the ends of its links; none where one has none.
    #[inline]
    fn rank_past(&self, ends: &LinkEnds, node: NodeNo, links: &[LinkNo]) -> Option<u16>
        ensures { (t : Network) → AreEnds t ends.now → result ≡ rank_past t self.now.marks node 0 links.now }
    {
        let mut rank = 0u16;
        for link in links {
            match self.known(ends.other_end(node, *link)) {
                Some(far_rank) => rank = rank.max(far_rank.saturating_add(1)),
                None => return None,
            }
        }
        Some(rank)
    }

    /// The rank of a node that has none yet. No path is longer than all nodes, so `depth` is enough.
    fn rank_anew(&mut self, routes: &Routes, node: NodeNo, depth: usize) -> Result<u16, Stop> {
        if let Mark::OnPath = self.marks[node.place()] {
            let nodes = circle(self.alloc, &self.path, node)?;
            return Err(Stop::Circle(nodes));
        }
        if depth == 0 {
            return Err(Stop::GaveUp);
        }
        self.marks[node.place()] = Mark::OnPath;
        self.path.push(node)?;
        let mut rank = 0u16;
        for link in routes.links(node) {
            let far = routes.ends.other_end(node, *link);
            let far_rank = match self.known(far) {
                Some(known) => known,
                None => self.rank_anew(routes, far, depth - 1)?,
            };
            rank = rank.max(far_rank.saturating_add(1));
        }
        self.path.pop();
        self.set_rank(node, rank);
        Ok(rank)
    }
}

/// The end of a path from a node on, begun at the node that stands first in the tables, and this again at the end.
fn circle(alloc: Global, path: &[NodeNo], node: NodeNo) -> Result<Vec<NodeNo>, AllocError> {
    let start = path.iter().position(|other| *other == node).unwrap_or(0);
    let (_, around) = path.split_at(start);
    let (behind, front) = around.split_at(place_of_least(around));
    let mut nodes = Vec::new(alloc);
    nodes.extend_from_slice(front)?;
    nodes.extend_from_slice(behind)?;
    if let Some(first) = front.first() {
        nodes.push(*first)?;
    }
    Ok(nodes)
}

/// The place of the least of the nodes, 0 where there are none.
fn place_of_least(nodes: &[NodeNo]) -> usize
    ensures { result ≤ length nodes.now }
{
    let mut least = 0;
    for (i, node) in nodes.iter().enumerate() {
        if *node < nodes[least] {
            least = i;
        }
    }
    least
}
