//! The ranks of nodes at one class.
ghost use Rattle.std.specs.Prelude.{◌≡◌, slice_set};
ghost use Rattle.table_checker.specs.Ranks.{rank_at};
ghost use Rattle.all_refusals.specs.Known.{AreRanks, IsFound, lookup_at};

use crate::at::At;
use card_digits::{MOST_NODES, NodeNo};

/// What is known of a node's rank.
#[derive(Clone, Copy, Debug)]
pub(crate) enum Lookup {
    /// It wasn't looked up yet.
    Open,
    /// The rank, or none where the node has none.
    Done(Option<u16>),
}

/// What is known of ranks at a class, by the node's place.
#[derive(Clone, Copy, Debug)]
pub(crate) struct Ranks {
    found: [Lookup; MOST_NODES],
    /// Where the rows of the class begin, as far as is known.
    near: usize,
}

impl Ranks {
    /// What is known of a node's rank.
    fn at(&self, node: NodeNo) -> Lookup
        ensures { result ≡ lookup_at self.now.found node }
    {
        self.found[node.place()]
    }

    /// A node's rank was looked up.
    fn set(&mut self, node: NodeNo, rank: Option<u16>)
        ensures { self.new.found ≡ slice_set self.old.found node (Lookup.Done rank) }
    {
        self.found[node.place()] = Lookup::Done(rank);
    }
}

impl At<'_> {
    /// The ranks of the class, as far as their rows stand in the order of the nodes, as those of ranks that were made do.
    fn ranks_in_order(&self) -> Ranks
        ensures { AreRanks self.now result }
    {
        let near = self.cert.begin_of(&self.class).unwrap_or(0);
        let mut found = [Lookup::Open; MOST_NODES];
        let mut place = near;
        for i in 0..self.tables.nodes().len() {
            found[i] = self.next_lookup(&mut place, i);
        }
        Ranks { found, near }
    }

    /// A node's rank, where the row at the place has it, which is then moved on.
    fn next_lookup(&self, place: &mut usize, node: usize) -> Lookup
        ensures { IsFound (rank_at self.now.tables.now self.now.cert.now node self.now.class) result }
    {
        let Some(row) = self.tables.nodes().get(node) else {
            return Lookup::Open;
        };
        match self.cert.next_rank(place, &row.name, &self.class) {
            Some(rank) => Lookup::Done(Some(rank)),
            None => Lookup::Open,
        }
    }

    /// A node's rank, looked up among the rows of the class.
    fn rank_sought(&self, near: usize, node: NodeNo) -> Option<u16>
        ensures { result ≡ rank_at self.now.tables.now self.now.cert.now node self.now.class }
    {
        let row = self.tables.nodes().get(node.place())?;
        let mut near = near;
        self.cert.rank_near(&mut near, &row.name, &self.class)
    }

    /// A node's rank, looked up where nothing is known of it.
    fn rank_by(&self, lookup: Lookup, near: usize, node: NodeNo) -> Option<u16>
        requires { IsFound (rank_at self.now.tables.now self.now.cert.now node self.now.class) lookup }
        ensures { result ≡ rank_at self.now.tables.now self.now.cert.now node self.now.class }
    {
        match lookup {
            Lookup::Done(rank) => rank,
            Lookup::Open => self.rank_sought(near, node),
        }
    }

    /// The rank of a node.
    pub fn rank(&self, ranks: &Ranks, node: NodeNo) -> Option<u16>
        requires { AreRanks self.now ranks.now }
        ensures { result ≡ rank_at self.now.tables.now self.now.cert.now node self.now.class }
    {
        self.rank_by(ranks.at(node), ranks.near, node)
    }

    /// Looks a node's rank up, where that wasn't done yet.
    fn look_up(&self, ranks: &mut Ranks, node: NodeNo)
        requires { AreRanks self.now ranks.old }
        ensures { AreRanks self.now ranks.new }
    {
        let rank = self.rank(ranks, node);
        ranks.set(node, rank);
    }

    /// Looks up the ranks of a node and of the other ends of its links, where it has a route in force.
    fn look_up_along(&self, ranks: &mut Ranks, node: NodeNo)
        requires { AreRanks self.now ranks.old }
        ensures { AreRanks self.now ranks.new }
    {
        let Some(row) = self.routes.row(node) else {
            return;
        };
        self.look_up(ranks, node);
        for link in row.links.as_slice() {
            self.look_up(ranks, self.ends.other_end(node, *link));
        }
    }

    /// The ranks of all nodes along routes in force, each looked up once.
    pub fn ranks(&self) -> Ranks
        ensures { AreRanks self.now result }
    {
        let mut ranks = self.ranks_in_order();
        for i in 0..self.tables.nodes().len() {
            self.look_up_along(&mut ranks, NodeNo::new(i));
        }
        ranks
    }
}
