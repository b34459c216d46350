//! The ends of links.
ghost use Rattle.std.specs.Prelude.{◌≡◌, ◌==◌, ◌≤◌, length, if◌then◌else◌};
ghost use Rattle.net_rows.specs.Network.{Network, other_end};
ghost use Rattle.rows_in_force.specs.LinkEnds.{ends_of, AreEnds};

use card_digits::{LinkNo, MOST_LINKS, NodeNo};
use net_rows::{Link, Tables};
use std::marker::Model;

/// The ends of a link.
#[derive(Clone, Copy, Debug)]
pub(crate) struct Ends {
    from: NodeNo,
    to: NodeNo,
}

/// The ends of all links of a network, in two bytes each: so they stay in the cache while routes are walked.
#[derive(Debug, Drop)]
pub struct LinkEnds {
    ends: [Ends; MOST_LINKS],
    count: usize,
}

impl Model for LinkEnds {
    ghost use Rattle.std.specs.Prelude.{◌≤◌, List, take};
    ghost use Rattle.rows_in_force.specs.declared.link_ends.Ends.{Ends};

    ghost Value = { List Ends };

    ghost view = { λ a. take a.count a.ends };

    ghost invariant = { λ a. a.count ≤ 256 };
}

impl Ends {
    fn of(link: &Link) -> Ends
        ensures { result ≡ ends_of link.now }
    {
        Ends {
            from: link.from,
            to: link.to,
        }
    }

    /// The end that isn't this node.
    fn other(self, node: NodeNo) -> NodeNo
        ensures { result ≡ (if self.from == node then self.to else self.from) }
    {
        if self.from == node {
            self.to
        } else {
            self.from
        }
    }
}

impl LinkEnds {
    /// The ends of the tables' links.
    pub fn new(tables: &Tables) -> LinkEnds
        ensures { AreEnds tables.now result }
    {
        let nowhere = Ends {
            from: NodeNo::new(0),
            to: NodeNo::new(0),
        };
        let mut ends = [nowhere; MOST_LINKS];
        let links = tables.links();
        for (place, link) in links.iter().enumerate() {
            ends[place] = Ends::of(link);
        }
        LinkEnds {
            ends,
            count: links.len(),
        }
    }

    /// The node at the other end of a link, as `other_end` of `Tables` has it.
    #[inline]
    pub fn other_end(&self, node: NodeNo, link: LinkNo) -> NodeNo
        ensures { (t : Network) → AreEnds t self.now → result ≡ other_end t node link }
    {
        let place = link.place();
        if place < self.count {
            self.ends[place].other(node)
        } else {
            node
        }
    }
}
