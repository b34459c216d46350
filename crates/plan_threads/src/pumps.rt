//! What a pump keeps between its turns.
ghost use Rattle.std.specs.Prelude.{◌≡◌, ◌-◌, ◌==◌, nat_le};
ghost use Rattle.link_rings.specs.Held.{later};
ghost use Rattle.plan_threads.specs.Pumps.{turns_ahead, idle_turns};

use crate::turns::{PumpTurns, idle};
use link_rings::Held;

/// What a pump keeps between its turns.
#[derive(Drop)]
pub struct Pump {
    pub turns: PumpTurns,
    /// The packets that are held back.
    pub held: Held,
    /// The turn up to which those of the pump are counted. Where it works, it may lie ahead of the clock.
    pub counted: u64,
}

impl Pump {
    /// With these turns and packets, counted up to a turn of the clock.
    pub fn new(turns: PumpTurns, held: Held, now: u64) -> Pump
        ensures { result ≡ record { turns = turns; held = held; counted = now } }
    {
        Pump {
            turns,
            held,
            counted: now,
        }
    }

    /// Whether it has no turn left.
    pub fn is_over(&self) -> bool
        ensures { result ≡ nat_le self.now.turns.left 0 }
    {
        self.turns.are_over()
    }

    fn turns_ahead(&self) -> u64
        ensures { result ≡ turns_ahead self.now }
    {
        self.turns.to_event(self.held.turns_to_due())
    }

    /// The turn of the clock at which something happens: a tick, a packet that was held back is taken, or the turns are over.
    pub fn due(&self) -> u64
        ensures { result ≡ later self.now.counted (turns_ahead self.now) }
    {
        self.counted.saturating_add(self.turns_ahead())
    }

    /// Counts the turns of the clock in which nothing happened.
    pub fn catch_up(&mut self, now: u64)
        ensures left { self.new.turns.left ≡ self.old.turns.left - idle_turns now self.old }
        ensures since_tick { self.new.turns.since_tick ≡ later self.old.turns.since_tick (idle_turns now self.old) }
        ensures tick_every { self.new.turns.tick_every ≡ self.old.turns.tick_every }
        ensures turn { self.new.held.turn ≡ later self.old.held.turn (idle_turns now self.old) }
        ensures rings { self.new.held.rings ≡ self.old.held.rings }
        ensures counted { self.new.counted ≡ later self.old.counted (idle_turns now self.old) }
    {
        let idle = idle(now.saturating_sub(self.counted), self.turns_ahead());
        self.turns.pass(idle);
        self.held.pass(idle);
        self.counted = self.counted.saturating_add(idle);
    }

    /// The turn that it counts next.
    pub fn next_counted(&self) -> u64
        ensures { result ≡ later self.now.counted 1 }
    {
        self.counted.saturating_add(1)
    }

    /// A turn in which the pump works is counted; says whether a tick comes behind it.
    pub fn next_turn(&mut self) -> bool
        ensures ticks { result ≡ (later self.old.turns.since_tick 1 == self.old.turns.tick_every) }
        ensures left { self.new.turns.left ≡ self.old.turns.left - 1 }
        ensures counted { self.new.counted ≡ later self.old.counted 1 }
    {
        self.counted = self.next_counted();
        self.turns.next()
    }
}
