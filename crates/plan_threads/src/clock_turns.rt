//! Turns that are counted by the clock.
ghost use Rattle.std.specs.Prelude.{◌≡◌, ◌-◌, min, nat_le, if◌then◌else◌};
ghost use Rattle.link_rings.specs.Held.{later};

use std::marker::Model;

/// The turns that a host has left, or a session for one of its lines. Each request that is put to the host takes one, each look for an answer,
/// and each turn of the clock.
#[derive(Drop)]
pub struct ClockTurns {
    left: u64,
    /// The turns of the clock up to which these are counted.
    counted: u64,
}

impl Model for ClockTurns {
    ghost use Rattle.plan_threads.specs.Turns.{ClockTurnsView};

    ghost Value = { ClockTurnsView };

    ghost view = { λ t. record { left = t.left; counted = t.counted } };
}

impl ClockTurns {
    /// So many, from a turn of the clock on.
    pub fn new(turns: u64, now: u64) -> ClockTurns
        ensures { result ≡ record { left = turns; counted = now } }
    {
        ClockTurns {
            left: turns,
            counted: now,
        }
    }

    /// Whether none is left.
    pub fn are_over(&self) -> bool
        ensures { result ≡ nat_le self.now.left 0 }
    {
        self.left == 0
    }

    /// Counts the turns of the clock up to now.
    pub fn catch_up(&mut self, now: u64)
        ensures { self.new ≡ record { left = self.old.left - (now - self.old.counted); counted = now } }
    {
        let passed = now.saturating_sub(self.counted);
        self.left = self.left.saturating_sub(passed);
        self.counted = now;
    }

    /// The turn of a request or a look.
    pub fn next(&mut self)
        ensures { self.new ≡ record { left = self.old.left - 1; counted = self.old.counted } }
    {
        self.left = self.left.saturating_sub(1);
    }

    /// The turn of the clock at which whoever waits looks by itself whether there is something to do: the next one where something is left that
    /// couldn't be done, and otherwise once the turns are over.
    pub fn due(&self, has_more: bool) -> u64
        ensures { result ≡ later self.now.counted (if has_more then min self.now.left 1 else self.now.left) }
    {
        let turns = if has_more {
            self.left.min(1)
        } else {
            self.left
        };
        self.counted.saturating_add(turns)
    }
}
