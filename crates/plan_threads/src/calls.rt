//! Threads that are to be told of a step once the station's lock is free again.
ghost use Rattle.std.specs.Prelude.{◌≡◌, ◌==◌, ◌++◌, ℕ, true, false, [], length};
ghost use Rattle.std.specs.Option.{option_to_list};
ghost use Rattle.std.specs.List.{list_any};
ghost use Rattle.plan_threads.specs.Calls.{is_called};

use std::alloc::Global;
use std::marker::Model;
use turn_clock::TurnClock;

/// Threads that are to be told of a step, by their numbers on the clock. All are where there is no memory for a number.
#[derive(Drop)]
pub struct Calls {
    sessions: Vec<usize>,
    /// Each once.
    hosts: Vec<usize>,
    /// Each once.
    pumps: Vec<usize>,
    all: bool,
}

impl Model for Calls {
    ghost use Rattle.plan_threads.specs.Calls.{CallsView};

    ghost Value = { CallsView };

    ghost view = { λ c. record { sessions = c.sessions.items; hosts = c.hosts.items; pumps = c.pumps.items; all = c.all } };
}

fn is_in(threads: &[usize], thread: usize) -> bool
    ensures { result ≡ list_any (λ t. t == thread) threads.now }
{
    threads.iter().any(|t| *t == thread)
}

fn tell_each(clock: &TurnClock, threads: &[usize]) {
    for thread in threads.iter() {
        clock.tell(*thread);
    }
}

impl Calls {
    /// Nobody is to be told.
    pub fn none(alloc: Global) -> Calls
        ensures { (thread : ℕ) → is_called thread result ≡ false }
    {
        Calls {
            sessions: Vec::new(alloc),
            hosts: Vec::new(alloc),
            pumps: Vec::new(alloc),
            all: false,
        }
    }

    /// A session more.
    pub fn add_session(&mut self, thread: usize)
        ensures added { is_called thread self.new ≡ true }
        ensures others { (other : ℕ) → is_called other self.old ≡ true → is_called other self.new ≡ true }
    {
        if self.sessions.push(thread).is_err() {
            self.all = true;
        }
    }

    /// A host more.
    pub fn add_host(&mut self, thread: usize)
        ensures added { is_called thread self.new ≡ true }
        ensures others { (other : ℕ) → is_called other self.old ≡ true → is_called other self.new ≡ true }
    {
        if is_in(self.hosts.as_slice(), thread) {
            return;
        }
        if self.hosts.push(thread).is_err() {
            self.all = true;
        }
    }

    /// A pump more.
    pub fn add_pump(&mut self, thread: usize)
        ensures added { is_called thread self.new ≡ true }
        ensures others { (other : ℕ) → is_called other self.old ≡ true → is_called other self.new ≡ true }
    {
        if is_in(self.pumps.as_slice(), thread) {
            return;
        }
        if self.pumps.push(thread).is_err() {
            self.all = true;
        }
    }

    /// How many sessions are to be told.
    pub fn count_sessions(&self) -> usize
        ensures { result ≡ length self.now.sessions }
    {
        self.sessions.len()
    }

    /// Takes out one of the sessions.
    pub fn next_session(&mut self) -> Option<usize>
        ensures sessions { self.old.sessions ≡ self.new.sessions ++ option_to_list result }
        ensures hosts { self.new.hosts ≡ self.old.hosts }
        ensures pumps { self.new.pumps ≡ self.old.pumps }
        ensures all { self.new.all ≡ self.old.all }
    {
        self.sessions.pop()
    }

    /// Takes out one of the hosts.
    pub fn next_host(&mut self) -> Option<usize>
        ensures hosts { self.old.hosts ≡ self.new.hosts ++ option_to_list result }
        ensures sessions { self.new.sessions ≡ self.old.sessions }
        ensures pumps { self.new.pumps ≡ self.old.pumps }
        ensures all { self.new.all ≡ self.old.all }
    {
        self.hosts.pop()
    }

    /// Takes out one of the pumps.
    pub fn next_pump(&mut self) -> Option<usize>
        ensures pumps { self.old.pumps ≡ self.new.pumps ++ option_to_list result }
        ensures sessions { self.new.sessions ≡ self.old.sessions }
        ensures hosts { self.new.hosts ≡ self.old.hosts }
        ensures all { self.new.all ≡ self.old.all }
    {
        self.pumps.pop()
    }

    /// Tells all, after which none is left.
    pub fn tell(&mut self, clock: &TurnClock)
        ensures { (thread : ℕ) → is_called thread self.new ≡ false }
    {
        if self.all {
            clock.tell_all();
        } else {
            tell_each(clock, self.sessions.as_slice());
            tell_each(clock, self.hosts.as_slice());
            tell_each(clock, self.pumps.as_slice());
        }
        self.sessions.clear();
        self.hosts.clear();
        self.pumps.clear();
        self.all = false;
    }
}
