//! A node with the ends of its rings.
ghost use Rattle.std.specs.Prelude.{◌≡◌, ◌<◌, [], length, reverse, IfOk, slice_get, Some};
ghost use Rattle.network_law.specs.Claims.{IsWithinLimits};
ghost use Rattle.network_law.specs.Entries.{history};
ghost use Rattle.network_law.specs.Runs.{IsLegal};
ghost use Rattle.rtrb.specs.Ring.{sent, received, known_items};
ghost use Rattle.link_rings.specs.Rings.{Pops, Looks, links_in};
ghost use Rattle.net_threads.specs.Pumping.{with_ins, SeesPackets};
ghost use Rattle.net_threads.specs.Station.{Does};

use crate::fault::StationFault;
use crate::own_links::is_own;
use crate::sending::send_all;
use card_digits::{LinkNo, NodeNo};
use link_rings::{InRings, OutRings, Packet};
use net_rows::Tables;
use rtrb::{Consumer, Producer};
use std::alloc::{AllocError, Global};
use std::marker::Model;
use switch_node::{Entry, Input, Node};
use table_checker::Accepted;

/// A node, and the ends of its rings. Whoever has one has a legal trace.
#[derive(Drop)]
pub struct Station<'a> {
    alloc: Global,
    tables: &'a Tables,
    place: NodeNo,
    node: Node<'a>,
    outs: OutRings,
    ins: InRings,
}

impl<'a> Model for Station<'a> {
    ghost use Rattle.net_threads.specs.Station.{StationView, IsStation};

    ghost Value = { StationView };

    ghost view = { λ s. record { t = s.tables.now; n = s.place; trace = s.node.trace; outs = s.outs; ins = s.ins } };

    ghost invariant = { λ s. IsStation s.tables.now s.place s.node };
}

impl<'a> Station<'a> {
    /// A node of accepted tables, to which nothing came yet, without rings.
    pub fn new(
        alloc: Global,
        accepted: &Accepted<'a>,
        place: NodeNo,
    ) -> Result<Station<'a>, AllocError>
        requires there { place < length accepted.now.nodes }
        ensures { IfOk result (λ s. s ≡ record { t = accepted.now; n = place; trace = []; outs = []; ins = [] }) }
    {
        let node = Node::new(alloc, accepted, place)?;
        Ok(Station {
            alloc,
            tables: accepted.tables(),
            place,
            node,
            outs: OutRings::new(alloc),
            ins: InRings::new(alloc),
        })
    }

    /// The place of the node in the tables.
    pub fn place(&self) -> NodeNo
        ensures { result ≡ self.now.n }
    {
        self.place
    }

    /// The tables of the network.
    pub fn tables(&self) -> &'a Tables
        ensures { result.now ≡ self.now.t }
    {
        self.tables
    }

    /// What the node was given and put out, the oldest first.
    pub fn trace(&self) -> &[Entry]
        ensures trace { reverse result.now ≡ self.now.trace }
        ensures legal { IsLegal self.now.t self.now.n self.now.trace }
        // Each key that it approved itself is of a card whose issuer names it, within its allowance.
        ensures limits { IsWithinLimits self.now.t self.now.n (history self.now.trace) }
    {
        self.node.trace()
    }

    /// Makes the step of its node, and puts the outputs on the rings. A packet that meets a full ring, or no memory, is lost.
    pub fn apply(&mut self, input: Input) -> Result<(), StationFault>
        ensures { Does self.old input result self.new }
    {
        if !is_own(&self.node, &input) {
            return Err(StationFault::StrangeLink);
        }
        if let Err(fault) = self.node.advance(input) {
            return Err(StationFault::Step(fault));
        }
        send_all(&mut self.outs, self.node.newest_outputs());
        Ok(())
    }

    pub(crate) fn alloc(&self) -> Global {
        self.alloc
    }

    /// How many rings come in.
    pub fn count_in(&self) -> usize
        ensures { result ≡ length self.now.ins }
    {
        self.ins.len()
    }

    pub(crate) fn link_in(&self, k: usize) -> LinkNo
        requires { k < length self.now.ins }
        ensures { slice_get (links_in self.now.ins) k ≡ Some result }
    {
        self.ins.link(k)
    }

    /// Takes the next packet from a ring.
    pub(crate) fn pop(&mut self, k: usize) -> Option<Packet>
        requires { k < length self.old.ins }
        ensures popped { Pops k self.old.ins result self.new.ins }
        ensures rest { self.new ≡ with_ins self.old self.new.ins }
        ensures count { length self.new.ins ≡ length self.old.ins }
    {
        self.ins.pop(k)
    }

    /// Whether a packet lies on a ring.
    fn has_packet(&mut self, k: usize) -> bool
        requires { k < length self.old.ins }
        ensures looked { Looks k self.old.ins result self.new.ins }
        ensures rest { self.new ≡ with_ins self.old self.new.ins }
        ensures count { length self.new.ins ≡ length self.old.ins }
    {
        self.ins.has_packet(k)
    }

    /// Whether a packet lies on any ring that comes in. Others may be put there at any time.
    pub fn has_packets(&mut self) -> bool
        ensures sees { SeesPackets result self.old.ins self.new.ins }
        ensures rest { self.new ≡ with_ins self.old self.new.ins }
        ensures count { length self.new.ins ≡ length self.old.ins }
    {
        for k in 0..self.count_in() {
            if self.has_packet(k) {
                return true;
            }
        }
        false
    }

    /// One more ring that leads out.
    pub(crate) fn add_out(&mut self, link: LinkNo, ring: Producer<Packet>) -> Result<(), AllocError>
        requires { sent ring ≡ [] }
        ensures same { (self.new.t ≡ self.old.t) × (self.new.n ≡ self.old.n) }
    {
        self.outs.add(link, ring)
    }

    /// One more ring that comes in.
    pub(crate) fn add_in(&mut self, link: LinkNo, ring: Consumer<Packet>) -> Result<(), AllocError>
        requires { (received ring ≡ []) × (known_items ring ≡ []) }
        ensures same { (self.new.t ≡ self.old.t) × (self.new.n ≡ self.old.n) }
    {
        self.ins.add(link, ring)
    }
}
