//! Taking packets from the rings of a station.
ghost use Rattle.std.specs.Prelude.{◌≡◌, ◌<◌, length};
ghost use Rattle.net_threads.specs.Pumping.{TakesOnce, TakesTimes, TakesDue, TakesNext, PumpsRing, PumpsBy, PumpsSound};

use crate::station::Station;
use card_digits::LinkNo;
use link_rings::{Held, Packet};
use run_plan::{Fate, Faults, LinkFaults};
use switch_node::{Case, Input};

impl<'a> Station<'a> {
    /// Applies the take of a packet.
    fn take_once(&mut self, link: LinkNo, packet: Packet)
        ensures { TakesOnce link packet self.old self.new }
    {
        let serial = packet.serial();
        let _ = self.apply(Input::new(Case::Take(link, serial, packet.into_bytes())));
    }

    /// Applies it once or twice. The first of two is lost where the packet can't be shared.
    fn take_times(&mut self, link: LinkNo, packet: Packet, twice: bool)
        ensures { TakesTimes twice link packet self.old self.new }
    {
        if twice {
            if let Ok(again) = packet.share() {
                self.take_once(link, again);
            }
        }
        self.take_once(link, packet);
    }

    /// The packet that was held back until this turn.
    fn take_due(&mut self, k: usize, link: LinkNo, bad: &LinkFaults, held: &mut Held)
        ensures { TakesDue k link bad.now self.old held.old self.new held.new }
    {
        if let Some(packet) = held.due(k) {
            let twice = bad.is_repeated(packet.serial());
            self.take_times(link, packet, twice);
        }
    }

    /// The next packet of the ring, if there is one, as the link's faults have it.
    fn take_next(&mut self, k: usize, link: LinkNo, bad: &LinkFaults, held: &mut Held)
        requires { k < length self.old.ins }
        ensures { TakesNext k link bad.now self.old held.old self.new held.new }
    {
        let Some(packet) = self.pop(k) else {
            return;
        };
        match bad.fate(packet.serial()) {
            Fate::Lost => {}
            Fate::Held(turns) => held.hold(k, turns, packet),
            Fate::Taken => {
                let twice = bad.is_repeated(packet.serial());
                self.take_times(link, packet, twice);
            }
        }
    }

    fn pump_ring(&mut self, k: usize, faults: &Faults, held: &mut Held)
        requires { k < length self.old.ins }
        ensures { PumpsRing faults.now.links.items k self.old held.old self.new held.new }
    {
        let link = self.link_in(k);
        let bad = faults.of(link);
        self.take_due(k, link, &bad, held);
        self.take_next(k, link, &bad, held);
    }

    /// Pumps a turn over bad links. For each incoming ring, in the order of the links: takes the packet that was held back until this
    /// turn, and pops at most one packet, which is taken, taken twice, held back or lost, as the faults of its link say. A packet
    /// whose take is refused is lost.
    pub fn pump_by(&mut self, faults: &Faults, held: &mut Held)
        ensures { PumpsBy faults.now.links.items self.old held.old self.new held.new }
    {
        held.next_turn();
        for k in 0..self.count_in() {
            self.pump_ring(k, faults, held);
        }
    }

    /// Pumps a turn over links without faults: pops at most one packet of each incoming ring, in the order of the links, and applies
    /// its take. A packet whose take is refused is lost.
    pub fn pump(&mut self)
        ensures { PumpsSound self.old self.new }
    {
        let faults = Faults::none(self.alloc());
        let mut held = Held::none(self.alloc());
        self.pump_by(&faults, &mut held);
    }
}
