//! What was looked up at a class, and what of it is kept for the next.
ghost use Rattle.std.specs.Prelude.{◌≡◌, ◌≤◌, true, Some, slice_get, slice_set};
ghost use Rattle.net_rows.specs.Network.{Network};
ghost use Rattle.table_checker.specs.Known.{AreFalling, IsCodeOf, code_at, code_of};

use crate::trail::Trail;
use card_digits::{MOST_NODES, NodeNo};

/// The code of no rank. Those of ranks are lower.
pub(crate) const NO_RANK: u32 = 65_536;

/// The code of a rank that was not looked up.
pub(crate) const UNKNOWN: u32 = 65_537;

/// The codes of ranks, by node.
pub(crate) type Codes = [u32; MOST_NODES];

/// What was looked up at a class. Where the ranks of the next are the same, the routes along which they fall aren't walked again.
#[derive(Clone, Copy, Debug)]
pub(crate) struct Known {
    pub ranks: Codes,
    /// By node the place of a route along which these ranks fall.
    pub falling: [Option<usize>; MOST_NODES],
    /// Where the certificate was last found to have the rows of the class.
    pub near: usize,
    pub trail: Trail,
}

impl Known {
    /// Nothing was looked up yet.
    pub fn new() -> Known
        ensures { (t : Network) → AreFalling t result.ranks result.falling }
    {
        Known {
            ranks: [UNKNOWN; MOST_NODES],
            falling: [None; MOST_NODES],
            near: 0,
            trail: Trail::new(),
        }
    }

    /// Goes on to a class with these ranks, whose rows stand at a place.
    pub fn enter(&mut self, ranks: &Codes, near: usize)
        ensures ranks { self.new.ranks ≡ ranks.now }
        ensures falling { (t : Network) → AreFalling t self.old.ranks self.old.falling → AreFalling t self.new.ranks self.new.falling }
    {
        if *ranks != self.ranks {
            self.falling = [None; MOST_NODES];
            self.ranks = *ranks;
        }
        self.near = near;
        self.trail.enter();
    }

    /// Whether the ranks are known to fall along the route at a place.
    pub fn has_falling(&self, node: NodeNo, place: usize) -> bool
        ensures { result ≡ true → slice_get self.now.falling node ≡ Some (Some place) }
    {
        match self.falling[node.place()] {
            Some(other) => other == place,
            None => false,
        }
    }

    /// Adds what a node's rank turned out to be. A route that is known to fall goes by no rank that was not looked up, so what is known
    /// stays.
    pub fn add(&mut self, node: NodeNo, rank: Option<u16>)
        requires { 65536 ≤ code_at self.old.ranks node }
        ensures ranks { self.new.ranks ≡ slice_set self.old.ranks node (code_of rank) }
        ensures code { IsCodeOf rank (code_of rank) }
        ensures falling { (t : Network) → AreFalling t self.old.ranks self.old.falling → AreFalling t self.new.ranks self.new.falling }
    {
        self.ranks[node.place()] = code_of(rank);
    }
}

/// The code of a rank or of none.
fn code_of(rank: Option<u16>) -> u32
    ensures code { result ≡ code_of rank }
    ensures says { IsCodeOf rank (code_of rank) }
{
    match rank {
        Some(rank) => rank as u32,
        None => NO_RANK,
    }
}
