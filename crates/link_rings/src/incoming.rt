//! The ends of rings that come into a node.
ghost use Rattle.std.specs.Prelude.{◌≡◌, ◌<◌, [], ◌∷◌, ◌++◌, map, length, OnOk, OnErr, slice_get, Some};
ghost use Rattle.rtrb.specs.Ring.{received, known_items};
ghost use Rattle.link_rings.specs.Rings.{in_of, links_in, Pops, Looks};
ghost use Rattle.link_rings.specs.Ends.{in_view};

use crate::packet::Packet;
use card_digits::LinkNo;
use rtrb::Consumer;
use std::alloc::{AllocError, Global};
use std::marker::Model;

/// The end of the ring that comes in on a link.
#[derive(Drop)]
pub struct InEnd {
    pub link: LinkNo,
    pub ring: Consumer<Packet>,
}

/// The rings that come into a node, one for each of its links. Contracts see for each what was ever taken from it, and what it is
/// known to hold.
#[derive(Drop)]
pub struct InRings {
    ends: Vec<InEnd>,
}

impl Model for InRings {
    ghost use Rattle.std.specs.Prelude.{List, map};
    ghost use Rattle.link_rings.specs.Rings.{InView};
    ghost use Rattle.link_rings.specs.Ends.{in_view};

    ghost Value = { List InView };

    ghost view = { λ r. map in_view r.ends.items };
}

fn pop_at(ends: &mut Vec<InEnd>, k: usize) -> Option<Packet>
    requires { k < length ends.old.items }
    ensures popped { Pops k (map in_view ends.old.items) result (map in_view ends.new.items) }
    ensures count { length ends.new.items ≡ length ends.old.items }
{
    let end = &mut ends[k];
    match end.ring.pop() {
        Ok(packet) => Some(packet),
        Err(_) => None,
    }
}

fn has_at(ends: &mut Vec<InEnd>, k: usize) -> bool
    requires { k < length ends.old.items }
    ensures looked { Looks k (map in_view ends.old.items) result (map in_view ends.new.items) }
    ensures count { length ends.new.items ≡ length ends.old.items }
{
    let end = &mut ends[k];
    !end.ring.is_empty()
}

impl InRings {
    /// No rings. Takes no memory.
    pub fn new(alloc: Global) -> InRings
        ensures { result ≡ [] }
    {
        InRings {
            ends: Vec::new(alloc),
        }
    }

    /// One ring more, from which nothing was taken.
    pub fn add(&mut self, link: LinkNo, ring: Consumer<Packet>) -> Result<(), AllocError>
        requires { (received ring ≡ []) × (known_items ring ≡ []) }
        ensures ok { OnOk result (self.new ≡ self.old ++ in_of link [] [] ∷ []) }
        ensures err { OnErr result (self.new ≡ self.old) }
    {
        self.ends.push(InEnd { link, ring })?;
        Ok(())
    }

    /// How many rings there are.
    pub fn len(&self) -> usize
        ensures { result ≡ length self.now }
    {
        self.ends.len()
    }

    /// The link of a ring.
    pub fn link(&self, k: usize) -> LinkNo
        requires { k < length self.now }
        ensures { slice_get (links_in self.now) k ≡ Some result }
    {
        self.ends[k].link
    }

    /// Takes the next packet from a ring. None where nothing is found there.
    pub fn pop(&mut self, k: usize) -> Option<Packet>
        requires { k < length self.old }
        ensures popped { Pops k self.old result self.new }
        ensures count { length self.new ≡ length self.old }
    {
        pop_at(&mut self.ends, k)
    }

    /// Whether a packet lies on a ring. Another may be put there at any time.
    pub fn has_packet(&mut self, k: usize) -> bool
        requires { k < length self.old }
        ensures looked { Looks k self.old result self.new }
        ensures count { length self.new ≡ length self.old }
    {
        has_at(&mut self.ends, k)
    }
}
