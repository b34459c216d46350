//! Where the packets that a node put on its links stand in its trace.
ghost use Rattle.std.specs.Prelude.{◌≡◌, ◌<◌, [], replicate, OnOk, IfOk, option_and_then};
ghost use Rattle.std.specs.Option.{option_copied};
ghost use Rattle.net_replay.specs.Packets.{bytes_at, place_of, put_at, put_all};

use card_digits::LinkNo;
use kept_messages::Way;
use shared_bytes::SharedBytes;
use std::alloc::{AllocError, Global};
use std::marker::Model;
use switch_node::{Entry, Output};

/// Where a packet stands in the trace of the node that put it.
#[derive(Clone, Copy, Debug)]
pub(crate) struct PacketPlace {
    /// The place of the entry in the trace, from 0.
    entry: u32,
    /// The place among the outputs of the entry, from 0.
    output: u32,
}

/// Where the packets stand that were put on a link, in the order of serials, which count from 1.
#[derive(Drop)]
struct LinkPackets {
    places: Vec<PacketPlace>,
}

impl Model for LinkPackets {
    ghost use Rattle.std.specs.Prelude.{List};
    ghost use Rattle.net_replay.specs.declared.packets.PacketPlace.{PacketPlace};

    ghost Value = { List PacketPlace };

    ghost view = { λ p. p.places.items };
}

/// Where the packets of one node stand, by links.
#[derive(Drop)]
pub(crate) struct Packets {
    links: Vec<LinkPackets>,
}

impl Model for Packets {
    ghost use Rattle.std.specs.Prelude.{List};
    ghost use Rattle.net_replay.specs.declared.packets.PacketPlace.{PacketPlace};

    ghost Value = { List (List PacketPlace) };

    ghost view = { λ p. p.links.items };
}

/// The bytes at a place of a trace, if there is one.
pub(crate) fn bytes_at(trace: &[Entry], place: Option<PacketPlace>) -> Option<&SharedBytes>
    ensures { option_copied result ≡ option_and_then (bytes_at trace.now) place }
{
    let place = place?;
    let entry = trace.get(place.entry as usize)?;
    let output = entry.outputs().as_slice().get(place.output as usize)?;
    Some(output.shared_bytes())
}

impl Packets {
    /// Nothing, on so many links.
    pub(crate) fn new(alloc: Global, count: usize) -> Result<Packets, AllocError>
        ensures { IfOk result (λ p. p ≡ replicate count []) }
    {
        let mut links = Vec::new(alloc);
        for _ in 0..count {
            links.push(LinkPackets {
                places: Vec::new(alloc),
            })?;
        }
        Ok(Packets { links })
    }

    /// Where the packet with this serial on the link stands.
    pub(crate) fn get(&self, link: LinkNo, serial: u64) -> Option<PacketPlace>
        ensures { result ≡ place_of self.now link serial }
    {
        if serial == 0 {
            return None;
        }
        let on_link = self.links.get(link.place())?;
        on_link.places.get(serial as usize - 1).copied()
    }

    /// One more packet on the link.
    fn put(&mut self, link: LinkNo, place: PacketPlace) -> Result<(), AllocError>
        ensures { OnOk result (self.new ≡ put_at self.old link place) }
    {
        let on_link = link.place();
        if on_link < self.links.len() {
            self.links[on_link].places.push(place)?;
        }
        Ok(())
    }

    /// The packets among the outputs of the entry at this place, in their order.
    pub(crate) fn put_all(&mut self, entry: u32, outputs: &[Output]) -> Result<(), AllocError>
        ensures { OnOk result (self.new ≡ put_all self.old entry 0 outputs.now) }
    {
        for index in 0..outputs.len() {
            if let Way::Put(link, _) = outputs[index].way() {
                let output = u32::try_from(index).or(Err(AllocError))?;
                self.put(link, PacketPlace { entry, output })?;
            }
        }
        Ok(())
    }
}
