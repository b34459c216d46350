//! Threads that sleep, and turns that pass while all do.
ghost use Rattle.std.specs.Prelude.{◌≡◌, ◌≤◌, ◌-◌, ◌^◌};
ghost use Rattle.turn_clock.specs.Helped.{is_helped};

use crate::first::sooner;
use std::alloc::{AllocError, Global};
use std::sync::Wait;
use std::sync::atomic::{AtomicBool, AtomicU64, Ordering};
use std::thread::Parker;

/// A thread that works, or looks whether there is something to do.
const AWAKE: u64 = 0;
/// One that was told of something since it began to look.
const TOLD: u64 = 1;

const ASLEEP: u64 = 2;

/// A thread of the plan.
#[derive(Drop)]
struct Sleeper {
    state: AtomicU64,
    /// After how many turns of the clock it wakes up by itself, while it sleeps.
    due: AtomicU64,
    parker: Parker,
}

impl Sleeper {
    fn awake() -> Sleeper {
        Sleeper {
            state: AtomicU64::new(AWAKE),
            due: AtomicU64::new(u64::MAX),
            parker: Parker::new(),
        }
    }

    fn is_asleep(&self) -> bool {
        self.state.load(Ordering::SeqCst) == ASLEEP
    }

    /// When it wakes up by itself, if it sleeps.
    fn due(&self) -> Option<u64> {
        if self.is_asleep() {
            Some(self.due.load(Ordering::SeqCst))
        } else {
            None
        }
    }

    /// Whether it wakes up by itself at this turn at the latest.
    fn is_due(&self, turns: u64) -> bool {
        self.due.load(Ordering::SeqCst) <= turns
    }

    /// Goes from one state to another, unless it is in a third.
    fn exchange(&self, from: u64, to: u64) -> bool {
        self.state
            .compare_exchange(from, to, Ordering::SeqCst, Ordering::SeqCst)
            .is_ok()
    }
}

/// What became of turns that passed while all slept.
#[derive(Clone, Copy)]
enum Passed {
    /// Nobody sleeps.
    Nobody,
    /// All who were due were woken up.
    Woken,
    /// Some are due whose work another does.
    Helps,
}

/// The threads whose work another thread does in their place: those below one number, and those from another on.
#[derive(Clone, Copy)]
pub struct Helped {
    pub below: usize,
    pub from: usize,
}

impl Helped {
    /// None of them.
    pub fn nobody() -> Helped
        ensures { result ≡ record { below = 0; from = 2 ^ 64 - 1 } }
    {
        Helped {
            below: 0,
            from: usize::MAX,
        }
    }

    fn has(&self, thread: usize) -> bool
        ensures { result ≡ is_helped self.now thread }
    {
        thread < self.below || thread >= self.from
    }
}

/// How many turns have passed, and which threads of a plan sleep. A thread that has nothing to do sleeps until it is told of something,
/// or until the turns that it waits for have passed. Turns pass only while all threads sleep, and then at once as many as the first of
/// them waits for.
///
/// A thread that works may count turns of its own ahead of the clock, but none behind the turn at which another is due: there it sleeps until
/// the clock has come so far, and the other has its turn first. So time is common to all, and nobody who works makes others wait.
#[derive(Drop)]
pub struct TurnClock {
    turns: AtomicU64,
    /// How many threads don't sleep. Who wakes another up counts it before that runs.
    awake: AtomicU64,
    /// Behind the turns that have passed, none at which a thread is due comes before this one.
    next_due: AtomicU64,
    /// All who are due at this turn have had it, so that those who work may count turns ahead of the clock.
    is_open: AtomicBool,
    sleepers: Vec<Sleeper>,
}

impl TurnClock {
    /// A clock for so many threads, none of which sleeps. They are told apart by numbers from 0 on.
    pub fn new(alloc: Global, threads: usize) -> Result<TurnClock, AllocError> {
        let mut sleepers = Vec::with_capacity(alloc, threads)?;
        for _ in 0..threads {
            sleepers.push(Sleeper::awake())?;
        }
        Ok(TurnClock {
            turns: AtomicU64::new(0),
            awake: AtomicU64::new(threads as u64),
            next_due: AtomicU64::new(u64::MAX),
            is_open: AtomicBool::new(true),
            sleepers,
        })
    }

    /// How many turns have passed.
    pub fn turns(&self) -> u64 {
        self.turns.load(Ordering::SeqCst)
    }

    /// A thread looks from here on whether there is something to do: only what it is told of from now on keeps it from going to sleep.
    pub fn listen(&self, thread: usize) {
        if let Some(sleeper) = self.sleepers.get(thread) {
            sleeper.state.store(AWAKE, Ordering::SeqCst);
        }
    }

    /// Tells a thread that there is something to do. It wakes up, or doesn't go to sleep before it has listened again.
    pub fn tell(&self, thread: usize) {
        let Some(sleeper) = self.sleepers.get(thread) else {
            return;
        };
        // One that was told already, and has not listened since, will look.
        if sleeper.state.load(Ordering::SeqCst) == TOLD {
            return;
        }
        if sleeper.state.swap(TOLD, Ordering::SeqCst) == ASLEEP {
            self.awake.fetch_add(1, Ordering::SeqCst);
            sleeper.parker.unpark();
        }
    }

    /// Tells all threads.
    pub fn tell_all(&self) {
        for thread in 0..self.sleepers.len() {
            self.tell(thread);
        }
    }

    /// From here on a thread that sleeps wakes up by itself once so many turns have passed on the clock, and nobody counts turns behind that
    /// one before. Whoever does the work of a sleeper in its place says so, while it is awake itself: no turn passes meanwhile.
    pub fn set_due(&self, thread: usize, due: u64) {
        if let Some(sleeper) = self.sleepers.get(thread) {
            sleeper.due.store(due, Ordering::SeqCst);
            if due > self.turns() {
                self.next_due.fetch_min(due, Ordering::SeqCst);
            }
        }
    }

    /// Whether a thread that works may count this turn: the clock has come to it, or nobody is due before it.
    pub fn may_count(&self, turn: u64) -> bool {
        turn <= self.turns()
            || (self.is_open.load(Ordering::SeqCst) && turn <= self.next_due.load(Ordering::SeqCst))
    }

    /// All whose work the caller does in their place have had the turn at which they were due: from here on those who work may count turns
    /// ahead of the clock.
    pub fn open(&self) {
        self.is_open.store(true, Ordering::SeqCst);
    }

    /// Whether the clock has come to the turn at which a thread wakes up by itself.
    pub fn is_due(&self, thread: usize) -> bool {
        match self.sleepers.get(thread) {
            Some(sleeper) => sleeper.is_due(self.turns()),
            None => false,
        }
    }

    /// Sleeps until the thread is told of something or it is due, and not at all where it was told between listening and this.
    pub fn sleep<R: Wait>(&self, rt: &R, thread: usize) {
        let _ = self.sleep_or_help(rt, thread, Helped::nobody());
    }

    /// Sleeps so, for a thread that can do the work of some in their place. Where turns pass and one of these is due, it doesn't wake up: this
    /// returns true, and the caller does the work of each that is due, says when it is due next, and calls `open`.
    pub fn sleep_or_help<R: Wait>(&self, rt: &R, thread: usize, helped: Helped) -> bool {
        let Some(sleeper) = self.sleepers.get(thread) else {
            return false;
        };
        if !sleeper.exchange(AWAKE, ASLEEP) {
            return false;
        }
        let helps = self.settle(rt, helped);
        if helps {
            if sleeper.exchange(ASLEEP, AWAKE) {
                return true;
            }
            // Who woke it up has counted it once more.
            self.awake.fetch_sub(1, Ordering::SeqCst);
        }
        // Who wakes it up leaves one token here, so it runs only once it is counted.
        sleeper.parker.park(rt);
        helps
    }

    /// Sleeps until the thread is told of something or so many turns have passed, and says how many have: none where it was told between
    /// listening and this.
    pub fn rest<R: Wait>(&self, rt: &R, thread: usize, turns: u64) -> u64
        ensures { result ≤ turns }
    {
        if turns == 0 {
            return 0;
        }
        let before = self.turns();
        self.set_due(thread, before.saturating_add(turns));
        self.sleep(rt, thread);
        self.turns().saturating_sub(before).min(turns)
    }

    /// A thread ends, and nobody waits for it any more.
    pub fn leave<R: Wait>(&self, rt: &R) {
        let _ = self.settle(rt, Helped::nobody());
    }

    /// One thread less is awake. Where none is, turns pass until one is; where none sleeps either, all have left. Returns true where one is due
    /// whose work the caller does: then it is still counted as awake.
    fn settle<R: Wait>(&self, rt: &R, helped: Helped) -> bool {
        if self.awake.fetch_sub(1, Ordering::SeqCst) != 1 {
            return false;
        }
        for _ in rt.forever() {
            // Whoever lets turns pass is counted, so nobody else does at the same time.
            if self
                .awake
                .compare_exchange(0, 1, Ordering::SeqCst, Ordering::SeqCst)
                .is_err()
            {
                return false;
            }
            let passed = self.pass(helped);
            if let Passed::Helps = passed {
                return true;
            }
            if self.awake.fetch_sub(1, Ordering::SeqCst) != 1 {
                return false;
            }
            // Somebody may have been told meanwhile, and sleep again.
            if let Passed::Nobody = passed {
                if !self.has_sleeper() {
                    return false;
                }
            }
        }
        false
    }

    /// The first turn behind this one at which a thread that sleeps is due.
    fn first_behind(&self, turn: u64) -> u64 {
        let mut first = u64::MAX;
        for sleeper in self.sleepers.iter() {
            if let Some(due) = sleeper.due() {
                if due > turn {
                    first = first.min(due);
                }
            }
        }
        first
    }

    /// Lets as many turns pass as the first of those waits for who sleep, and wakes all up who wait for no more, but for those whose work the
    /// caller does. Nobody else is awake meanwhile.
    fn pass(&self, helped: Helped) -> Passed {
        let mut first = None;
        for sleeper in self.sleepers.iter() {
            first = sooner(first, sleeper.due());
        }
        let Some(turns) = first else {
            return Passed::Nobody;
        };
        self.is_open.store(false, Ordering::SeqCst);
        self.turns.fetch_max(turns, Ordering::SeqCst);
        let now = self.turns();
        self.next_due
            .store(self.first_behind(now), Ordering::SeqCst);
        let passed = self.wake_due(now, helped);
        if let Passed::Woken = passed {
            self.open();
        }
        passed
    }

    /// Wakes all up who are due at this turn, but for those whose work the caller does.
    fn wake_due(&self, now: u64, helped: Helped) -> Passed {
        let mut passed = Passed::Woken;
        for (thread, sleeper) in self.sleepers.iter().enumerate() {
            if !sleeper.is_asleep() || !sleeper.is_due(now) {
                continue;
            }
            if helped.has(thread) {
                passed = Passed::Helps;
            } else {
                self.wake(sleeper);
            }
        }
        passed
    }

    fn has_sleeper(&self) -> bool {
        self.sleepers.iter().any(|sleeper| sleeper.is_asleep())
    }

    fn wake(&self, sleeper: &Sleeper) {
        if sleeper.exchange(ASLEEP, AWAKE) {
            self.awake.fetch_add(1, Ordering::SeqCst);
            sleeper.parker.unpark();
        }
    }
}
