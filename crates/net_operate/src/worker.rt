//! What the threads of a plan have in common.
use crate::running::Host;
use net_threads::Station;
use plan_state::PlanState;
use plan_threads::Calls;
use run_plan::Plan;
use std::alloc::Global;
use std::sync::{Mutex, MutexGuard, Wait};
use turn_clock::Helped;

/// How often a thread pumps or asks a host at most behind a step of its own, before it wakes the threads that are there for it.
const MOST_CARRIED: usize = 32;

/// What became of a turn in which a thread pumps at a node, or puts a request to its host.
#[derive(Clone, Copy)]
pub(crate) enum Turn {
    /// It was made, and nothing is left to do.
    Done,
    /// It was made, and there is more to do.
    More,
    /// Another is due before it: it is made once the clock has come so far.
    Later,
    /// Another has the node's station.
    Locked,
    /// No turn is left.
    Over,
}

impl Turn {
    pub(crate) fn made(more: bool) -> Turn {
        if more { Turn::More } else { Turn::Done }
    }

    /// The turn behind which there is more to do where somebody wanted to make it too.
    pub(crate) fn or_more(self, wanted: bool) -> Turn {
        match self {
            Turn::Done if wanted => Turn::More,
            turn => turn,
        }
    }
}

/// What a thread does where another has the station that it wants.
#[derive(Clone, Copy)]
pub(crate) enum Locking {
    Waits,
    GoesOn,
}

/// A thread of a plan at a node.
#[derive(Clone, Copy)]
pub(crate) struct Worker<'s, 't, 'p> {
    pub alloc: Global,
    /// The place of the node.
    pub n: usize,
    /// Its number on the clock.
    pub thread: usize,
    pub stations: &'s Vec<Mutex<Station<'t>>>,
    pub station: &'s Mutex<Station<'t>>,
    pub plan: &'s Plan<'p>,
    pub shared: &'s PlanState,
}

impl<'s, 't, 'p> Worker<'s, 't, 'p> {
    /// From here on the thread doesn't go to sleep where it is told of something.
    pub(crate) fn listen(&self) {
        self.shared.clock().listen(self.thread);
    }

    /// Sleeps until it is told of something, or it is due. Where all threads of the plan sleep and turns pass until pumps are due, the last one
    /// pumps there, and no pump wakes up for a tick. If it is the thread of a session and one waits for its turn or is due then, it doesn't sleep
    /// any longer, and that one's turn it is: so no thread wakes up for that either.
    pub(crate) fn sleep<H: Host, R: Wait>(
        &self,
        rt: &R,
        hosts: &[H],
        calls: &mut Calls,
    ) -> Option<usize> {
        let clock = self.shared.clock();
        for _ in rt.forever() {
            if !clock.sleep_or_help(rt, self.thread, self.helped()) {
                return None;
            }
            self.help_due(rt, hosts, calls);
            let next = self.begin_turn(rt);
            if next.is_some() || clock.is_due(self.thread) {
                return next;
            }
        }
        None
    }

    /// Whether it is the thread of a session, which goes on with sessions itself.
    fn is_of_session(&self) -> bool {
        self.thread >= self.shared.threads().first_session()
    }

    /// Where it is no session's turn and one waits for it, its turn begins. The thread of a session is given it back to go on with it; any other
    /// wakes up that session's own thread for it.
    fn begin_turn<R: Wait>(&self, rt: &R) -> Option<usize> {
        let next = self.shared.begin_turn(rt)?;
        if self.is_of_session() {
            return Some(next);
        }
        self.shared
            .clock()
            .tell(self.shared.threads().session(next));
        None
    }

    /// Whose work the thread does while they sleep: that of pumps, and where it is the thread of a session, that of other sessions.
    fn helped(&self) -> Helped {
        let threads = self.shared.threads();
        Helped {
            below: threads.pumps,
            from: if self.is_of_session() {
                threads.first_session()
            } else {
                usize::MAX
            },
        }
    }

    /// Makes the turn of each pump that is due, has the sessions that are due wait for their turns, and carries on what comes of it.
    fn help_due<H: Host, R: Wait>(&self, rt: &R, hosts: &[H], calls: &mut Calls) {
        let clock = self.shared.clock();
        for n in 0..self.stations.len() {
            if let (true, Some(there)) = (clock.is_due(n), self.at(n)) {
                there.pump_for_other(rt, calls);
            }
        }
        clock.open();
        if self.is_of_session() {
            self.recall_due(rt);
        }
        self.carry_on_for(rt, hosts, self.stations.len(), calls);
    }

    /// Sessions that are due wait for their turn.
    fn recall_due<R: Wait>(&self, rt: &R) {
        for place in 0..self.plan.sessions.len() {
            let thread = self.shared.threads().session(place);
            if self.shared.clock().is_due(thread) {
                self.shared.recall(rt, thread);
            }
        }
    }

    /// The same thread at another station.
    pub(crate) fn at(&self, n: usize) -> Option<Worker<'s, 't, 'p>> {
        let station = self.stations.get(n)?;
        Some(Worker {
            n,
            station,
            ..*self
        })
    }

    /// Carries on what comes of a step: where a packet was put towards a node at which nobody pumps, it is pumped there at once, and a host
    /// that answers at once is asked. So a request goes on without a thread that wakes up for it. Sessions that have an answer are told. Where
    /// there is more to do, the threads that are there for it wake up. Called with no lock held.
    pub(crate) fn carry_on<H: Host, R: Wait>(&self, rt: &R, hosts: &[H], calls: &mut Calls) {
        self.carry_on_for(rt, hosts, 1, calls);
    }

    /// Carries on what comes of steps at so many nodes.
    fn carry_on_for<H: Host, R: Wait>(&self, rt: &R, hosts: &[H], nodes: usize, calls: &mut Calls) {
        for _ in 0..MOST_CARRIED.saturating_mul(nodes) {
            self.recall_sessions(rt, calls);
            if let Some(thread) = calls.next_host() {
                self.serve_at(rt, hosts, thread, calls);
            } else if let Some(n) = calls.next_pump() {
                if let Some(there) = self.at(n) {
                    there.pump_for_other(rt, calls);
                }
            } else {
                break;
            }
        }
        self.tell(rt, calls);
    }

    /// Sessions that have an answer wait for their turn. The thread of a session goes on with them before it sleeps; any other sees to it that
    /// one does.
    fn recall_sessions<R: Wait>(&self, rt: &R, calls: &mut Calls) {
        if calls.count_sessions() == 0 {
            return;
        }
        for _ in 0..calls.count_sessions() {
            if let Some(session) = calls.next_session() {
                self.shared.recall(rt, session);
            }
        }
        if !self.is_of_session() {
            let _ = self.begin_turn(rt);
        }
    }

    /// All who are to be told of something are. Called with no lock held.
    pub(crate) fn tell<R: Wait>(&self, rt: &R, calls: &mut Calls) {
        self.recall_sessions(rt, calls);
        calls.tell(self.shared.clock());
    }

    /// Carries on what comes of a turn, unless there is more to do for oneself: then the threads that are there for it wake up.
    pub(crate) fn hand_on<H: Host, R: Wait>(
        &self,
        rt: &R,
        hosts: &[H],
        turn: Turn,
        calls: &mut Calls,
    ) {
        match turn {
            Turn::More | Turn::Locked => self.tell(rt, calls),
            Turn::Done | Turn::Later | Turn::Over => self.carry_on(rt, hosts, calls),
        }
    }

    /// The node's station, once it is free. Whoever has got it calls `leave_station` when he has given it back.
    pub(crate) fn wait_for_station<R: Wait>(&self, rt: &R) -> MutexGuard<'s, Station<'t>> {
        self.shared.comes(self.n);
        self.station.lock(rt)
    }

    /// The same, or none where another has it and the thread doesn't wait.
    pub(crate) fn try_station<R: Wait>(
        &self,
        rt: &R,
        locking: Locking,
    ) -> Option<MutexGuard<'s, Station<'t>>> {
        match locking {
            Locking::Waits => Some(self.wait_for_station(rt)),
            Locking::GoesOn => {
                let station = self.station.try_lock()?;
                self.shared.comes(self.n);
                Some(station)
            }
        }
    }

    /// The station is free again. Where somebody wanted it meanwhile, he left that turn to whoever had it.
    pub(crate) fn leave_station(&self, calls: &mut Calls) {
        self.shared.goes(self.n);
        self.see_to_missed(calls);
    }

    fn see_to_missed(&self, calls: &mut Calls) {
        if !self.shared.take_missed(self.n) {
            return;
        }
        calls.add_pump(self.n);
        if let Some(host) = self.shared.threads().host(self.n) {
            calls.add_host(host);
        }
    }

    /// Leaves a turn at the node to whoever has its station, unless that is free by now. Where no thread of the plan has it, the one that is
    /// there for the turn wakes up, and waits for the station.
    pub(crate) fn miss(&self, thread: usize, calls: &mut Calls) {
        self.shared.note_missed(self.n);
        let is_free = self.station.try_lock().is_some();
        if is_free {
            self.see_to_missed(calls);
        } else if !self.shared.is_visited(self.n) {
            self.shared.clock().tell(thread);
        }
    }
}
