//! Packets that bad links hold back.
ghost use Rattle.std.specs.Prelude.{◌≡◌, [], replicate, IfOk};
ghost use Rattle.link_rings.specs.Held.{HeldView, first_due, behind_due, turns_to_first, turns_to_due, later, due_packet, without_due, held_in, with_held};

use crate::ROOM;
use crate::packet::Packet;
use std::alloc::{AllocError, Global};
use std::marker::Model;
use turn_clock::sooner;

/// A packet that waits for a turn of the pump that took it.
#[derive(Drop)]
struct HeldPacket {
    due: u64,
    packet: Packet,
}

impl Model for HeldPacket {
    ghost use Rattle.link_rings.specs.Held.{WaitingView};

    ghost Value = { WaitingView };

    ghost view = { λ p. record { due = p.due; packet = p.packet } };
}

/// The packets of one ring, in the order in which they were taken. There is memory for as many as may be held.
#[derive(Drop)]
struct HeldRing {
    packets: Vec<HeldPacket>,
}

impl Model for HeldRing {
    ghost use Rattle.std.specs.Prelude.{List, ◌≤◌, vec_capacity};
    ghost use Rattle.link_rings.specs.Held.{WaitingView};

    ghost Value = { List WaitingView };

    ghost view = { λ r. r.packets.items };

    ghost invariant = { λ r. 64 ≤ vec_capacity r.packets };
}

/// The packets that are held back at a node, for each incoming ring, and the number of turns that its pump made.
#[derive(Drop)]
pub struct Held {
    turn: u64,
    rings: Vec<HeldRing>,
}

impl Model for Held {
    ghost use Rattle.link_rings.specs.Held.{HeldView};

    ghost Value = { HeldView };

    ghost view = { λ h. record { turn = h.turn; rings = h.rings.items } };
}

impl HeldRing {
    fn new(alloc: Global) -> Result<HeldRing, AllocError>
        ensures { IfOk result (λ r. r ≡ []) }
    {
        Ok(HeldRing {
            packets: Vec::with_capacity(alloc, ROOM)?,
        })
    }

    // Holds a packet back until a turn, unless so many are held that it is lost.
    fn hold(&mut self, due: u64, packet: Packet)
        ensures { self.new ≡ held_in due packet self.old }
    {
        if self.packets.len() < ROOM {
            self.packets.push_reserved(HeldPacket { due, packet });
        }
    }

    // The first packet, where its turn has come.
    fn due(&mut self, turn: u64) -> Option<Packet>
        ensures packet { result ≡ first_due turn self.old }
        ensures rest { self.new ≡ behind_due turn self.old }
    {
        match self.packets.first() {
            Some(first) if first.due <= turn => {
                let HeldPacket { due: _, packet } = self.packets.remove(0);
                Some(packet)
            }
            _ => None,
        }
    }

    // How many turns it takes until the first packet is taken, one at least.
    fn turns_to_first(&self, turn: u64) -> Option<u64>
        ensures { result ≡ turns_to_first turn self.now }
    {
        match self.packets.first() {
            Some(first) => Some(first.due.saturating_sub(turn).max(1)),
            None => None,
        }
    }
}

impl Held {
    /// Nothing is held, and there is no place to hold anything. Takes no memory.
    pub fn none(alloc: Global) -> Held
        ensures { result ≡ record { turn = 0; rings = [] } }
    {
        Held {
            turn: 0,
            rings: Vec::new(alloc),
        }
    }

    /// Nothing is held for so many rings. All memory is taken here.
    pub fn new(alloc: Global, count: usize) -> Result<Held, AllocError>
        ensures { IfOk result (λ h. h ≡ record { turn = 0; rings = replicate count [] }) }
    {
        let mut rings = Vec::new(alloc);
        for _ in 0..count {
            rings.push(HeldRing::new(alloc)?)?;
        }
        Ok(Held { turn: 0, rings })
    }

    /// The next turn of the pump.
    pub fn next_turn(&mut self)
        ensures rings { self.new.rings ≡ self.old.rings }
        ensures turn { self.new.turn ≡ later self.old.turn 1 }
    {
        self.pass(1);
    }

    /// So many turns of the pump in which it takes nothing.
    pub fn pass(&mut self, turns: u64)
        ensures rings { self.new.rings ≡ self.old.rings }
        ensures turn { self.new.turn ≡ later self.old.turn turns }
    {
        self.turn = self.turn.saturating_add(turns);
    }

    /// How many turns of the pump it takes until one takes a packet that is held back: 1 where the next one does.
    pub fn turns_to_due(&self) -> Option<u64>
        ensures { result ≡ turns_to_due self.now }
    {
        let mut first = None;
        for ring in self.rings.iter() {
            first = sooner(first, ring.turns_to_first(self.turn));
        }
        first
    }

    /// The packet of a ring whose turn has come.
    pub fn due(&mut self, k: usize) -> Option<Packet>
        ensures packet { result ≡ due_packet k self.old }
        ensures rest { self.new ≡ without_due k self.old }
    {
        let turn = self.turn;
        match self.rings.get_mut(k) {
            Some(ring) => ring.due(turn),
            None => None,
        }
    }

    /// Holds a packet of a ring back for so many turns. It is lost where as many of that ring are held as may be, and only then.
    pub fn hold(&mut self, k: usize, turns: u16, packet: Packet)
        ensures { self.new ≡ with_held k turns packet self.old }
    {
        let due = self.turn.saturating_add(turns as u64);
        if let Some(ring) = self.rings.get_mut(k) {
            ring.hold(due, packet);
        }
    }
}
