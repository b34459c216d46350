//! The ends of rings that lead out of a node.
ghost use Rattle.std.specs.Prelude.{◌≡◌, ◌<◌, [], ◌∷◌, ◌++◌, map, length, IfSome, OnOk, OnErr, slice_index_or};
ghost use Rattle.rtrb.specs.Ring.{sent};
ghost use Rattle.link_rings.specs.Rings.{put, out_of, Sends};
ghost use Rattle.link_rings.specs.Ends.{out_view};

use crate::packet::Packet;
use card_digits::LinkNo;
use rtrb::Producer;
use std::alloc::{AllocError, Global};
use std::marker::Model;

/// The end of the ring that leads out on a link.
#[derive(Drop)]
pub struct OutEnd {
    pub link: LinkNo,
    pub ring: Producer<Packet>,
}

/// The rings that lead out of a node, one for each of its links. Contracts see for each what was ever put on it.
#[derive(Drop)]
pub struct OutRings {
    ends: Vec<OutEnd>,
}

impl Model for OutRings {
    ghost use Rattle.std.specs.Prelude.{List, map};
    ghost use Rattle.link_rings.specs.Rings.{OutView};
    ghost use Rattle.link_rings.specs.Ends.{out_view};

    ghost Value = { List OutView };

    ghost view = { λ r. map out_view r.ends.items };
}

// The place of the ring of a link.
fn place_of(ends: &[OutEnd], link: LinkNo) -> Option<usize>
    ensures { IfSome result (λ k. (k < length ends.now) × ((d : _) → (slice_index_or ends.now k d).link ≡ link)) }
{
    for (k, end) in ends.iter().enumerate() {
        if end.link == link {
            return Some(k);
        }
    }
    None
}

fn send_one(ends: &mut Vec<OutEnd>, link: LinkNo, packet: Packet)
    ensures { Sends (put link packet ∷ []) (map out_view ends.old.items) (map out_view ends.new.items) }
{
    if let Some(k) = place_of(ends.as_slice(), link) {
        let end = &mut ends[k];
        let _ = end.ring.push(packet);
    }
}

impl OutRings {
    /// No rings. Takes no memory.
    pub fn new(alloc: Global) -> OutRings
        ensures { result ≡ [] }
    {
        OutRings {
            ends: Vec::new(alloc),
        }
    }

    /// One ring more, on which nothing was put.
    pub fn add(&mut self, link: LinkNo, ring: Producer<Packet>) -> Result<(), AllocError>
        requires { sent ring ≡ [] }
        ensures ok { OnOk result (self.new ≡ self.old ++ out_of link [] ∷ []) }
        ensures err { OnErr result (self.new ≡ self.old) }
    {
        self.ends.push(OutEnd { link, ring })?;
        Ok(())
    }

    /// Puts a packet on the ring of its link. One that meets a full ring is lost. Takes no memory.
    pub fn send(&mut self, link: LinkNo, packet: Packet)
        ensures { Sends (put link packet ∷ []) self.old self.new }
    {
        send_one(&mut self.ends, link, packet);
    }
}
