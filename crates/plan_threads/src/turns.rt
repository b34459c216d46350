//! The turns that a pump makes, and those that pass while it sleeps.
ghost use Rattle.std.specs.Prelude.{◌≡◌, ◌≤◌, ◌<◌, ◌+◌, ◌-◌, ◌^◌, ◌==◌, min, nat_le, IfSome, if◌then◌else◌};
ghost use Rattle.plan_threads.specs.Turns.{turns_to_tick, turns_to_event};

use std::marker::Model;
use turn_clock::sooner;

/// The turns that a pump has left, and those until its node's next tick.
#[derive(Drop)]
pub struct PumpTurns {
    left: u64,
    /// None where this is 0.
    tick_every: u64,
    since_tick: u64,
}

impl Model for PumpTurns {
    ghost use Rattle.plan_threads.specs.Turns.{PumpTurnsView};

    ghost Value = { PumpTurnsView };

    ghost view = { λ t. record { left = t.left; tick_every = t.tick_every; since_tick = t.since_tick } };
}

impl PumpTurns {
    /// So many, with a tick behind each so many of them; none where that is 0.
    pub fn new(turns: u64, tick_every: u64) -> PumpTurns
        ensures { result ≡ record { left = turns; tick_every = tick_every; since_tick = 0 } }
    {
        PumpTurns {
            left: turns,
            tick_every,
            since_tick: 0,
        }
    }

    /// Whether none is left.
    pub fn are_over(&self) -> bool
        ensures { result ≡ nat_le self.now.left 0 }
    {
        self.left == 0
    }

    fn to_tick(&self) -> Option<u64>
        ensures { result ≡ turns_to_tick self.now }
    {
        if self.tick_every == 0 {
            None
        } else {
            Some(self.tick_every.saturating_sub(self.since_tick))
        }
    }

    /// After how many turns something happens, where a packet that was held back is taken after so many.
    pub fn to_event(&self, held: Option<u64>) -> u64
        ensures event { result ≡ turns_to_event self.now held }
        // Nothing sooner is passed over: no packet, no tick and not the end.
        ensures held { IfSome held (λ turns. result ≤ turns) }
        ensures tick { IfSome (turns_to_tick self.now) (λ turns. result ≤ turns) }
        ensures end { result ≤ self.now.left }
    {
        match sooner(self.to_tick(), held) {
            Some(turns) => turns.min(self.left),
            None => self.left,
        }
    }

    /// So many turns pass in which nothing happens.
    pub fn pass(&mut self, turns: u64)
        ensures left { self.new.left ≡ self.old.left - turns }
        ensures tick_every { self.new.tick_every ≡ self.old.tick_every }
        ensures since_tick { self.new.since_tick ≡ min (self.old.since_tick + turns) (2 ^ 64 - 1) }
    {
        self.left = self.left.saturating_sub(turns);
        self.since_tick = self.since_tick.saturating_add(turns);
    }

    /// A turn in which the pump works; says whether a tick comes behind it.
    pub fn next(&mut self) -> bool
        ensures ticks { result ≡ (min (self.old.since_tick + 1) (2 ^ 64 - 1) == self.old.tick_every) }
        ensures left { self.new.left ≡ self.old.left - 1 }
        ensures tick_every { self.new.tick_every ≡ self.old.tick_every }
        ensures since_tick { self.new.since_tick ≡ (if result then 0 else min (self.old.since_tick + 1) (2 ^ 64 - 1)) }
    {
        self.pass(1);
        let ticks = self.since_tick == self.tick_every;
        if ticks {
            self.since_tick = 0;
        }
        ticks
    }
}

/// Of the turns that passed while a pump waited for what happens after so many, those in which nothing happened: in the last one it
/// does.
pub(crate) fn idle(passed: u64, event: u64) -> u64
    ensures { result ≡ min passed (event - 1) }
{
    passed.min(event.saturating_sub(1))
}
