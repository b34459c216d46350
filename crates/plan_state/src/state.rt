//! What the threads tell each other beside the stations.
ghost use Rattle.std.specs.Prelude.{◌≡◌, nat_lt};

use crate::awaited::{Awaited, key_hash};
use crate::hearing::{Hearer, who_hears};
use crate::keys::key_in;
use crate::node_state::NodeState;
use crate::service::Service;
use crate::session_state::SessionState;
use card_digits::NodeNo;
use net_threads::{LineEnd, Station};
use plan_threads::{Calls, Pump, Queue, Shelf, ThreadNumbers};
use run_plan::Plan;
use std::alloc::{AllocError, Global};
use std::sync::atomic::{AtomicBool, AtomicU64, Ordering};
use std::sync::{Arc, Mutex, Wait};
use switch_node::Entry;
use turn_clock::TurnClock;

/// What is kept of a session.
#[derive(Drop)]
struct Seat {
    awaited: Awaited,
    /// Where it lies how far the session has come, while nobody goes on with it.
    state: Mutex<Shelf<SessionState>>,
}

/// What the threads tell each other beside the stations.
#[derive(Drop)]
pub struct PlanState {
    clock: Arc<TurnClock, Global>,
    threads: ThreadNumbers,
    /// For each node's place the pump that has its station.
    pumps: Vec<usize>,
    /// How many sessions have not ended.
    live: AtomicU64,
    /// Everything is to end.
    stopped: AtomicBool,
    nodes: Vec<NodeState>,
    seats: Vec<Seat>,
    /// Whose turn it is among the plan's sessions.
    queue: Mutex<Queue>,
}

/// Whether entries from a place on may have requests to the host, where all that may stand before another place.
fn are_asks_from(asked: u64, from: usize) -> bool
    ensures { result ≡ nat_lt from asked }
{
    asked > from as u64
}

/// For each node the places of its sessions in the plan.
fn sessions_of(
    alloc: Global,
    count: usize,
    plan: &Plan<'_>,
) -> Result<Vec<Vec<usize>>, AllocError> {
    let mut sessions: Vec<Vec<usize>> = Vec::with_capacity(alloc, count)?;
    for _ in 0..count {
        sessions.push(Vec::new(alloc))?;
    }
    for (place, session) in plan.sessions.iter().enumerate() {
        if let Some(there) = sessions.get_mut(session.node.place()) {
            there.push(place)?;
        }
    }
    Ok(sessions)
}

fn nodes_of(alloc: Global, count: usize, plan: &Plan<'_>) -> Result<Vec<NodeState>, AllocError> {
    let mut nodes: Vec<NodeState> = Vec::with_capacity(alloc, count)?;
    for sessions in sessions_of(alloc, count, plan)? {
        nodes.push(NodeState::new(sessions))?;
    }
    Ok(nodes)
}

fn seat_of(alloc: Global) -> Seat {
    let mut shelf = Shelf::empty();
    let _ = shelf.put(SessionState::new(alloc));
    Seat {
        awaited: Awaited::nothing(),
        state: Mutex::new(shelf),
    }
}

fn seats_of(alloc: Global, sessions: usize) -> Result<Vec<Seat>, AllocError> {
    let mut seats = Vec::with_capacity(alloc, sessions)?;
    for _ in 0..sessions {
        seats.push(seat_of(alloc))?;
    }
    Ok(seats)
}

/// What the lines of each session ended with, once nobody goes on with any.
fn ends_of(alloc: Global, seats: Vec<Seat>) -> Result<Vec<Vec<LineEnd>>, AllocError> {
    let mut ends = Vec::with_capacity(alloc, seats.len())?;
    for seat in seats {
        let Seat { awaited: _, state } = seat;
        let mut shelf = state.into_inner();
        match shelf.take() {
            Some(state) => ends.push(state.into_ends()?)?,
            None => ends.push(Vec::new(alloc))?,
        }
    }
    Ok(ends)
}

impl PlanState {
    /// For a plan with so many hosts. `pumps` has for each node's place that of its station, and so the number of the thread that pumps it.
    pub fn new(
        alloc: Global,
        pumps: Vec<usize>,
        hosts: usize,
        plan: &Plan<'_>,
    ) -> Result<PlanState, AllocError> {
        let nodes = pumps.len();
        let sessions = plan.sessions.len();
        let threads = ThreadNumbers {
            pumps: nodes,
            hosts: hosts.min(nodes),
        };
        let clock = TurnClock::new(alloc, threads.session(sessions))?;
        let nodes = nodes_of(alloc, nodes, plan)?;
        Ok(PlanState {
            clock: Arc::new(alloc, clock)?,
            threads,
            pumps,
            live: AtomicU64::new(sessions as u64),
            stopped: AtomicBool::new(false),
            nodes,
            seats: seats_of(alloc, sessions)?,
            queue: Mutex::new(Queue::new(alloc, sessions)?),
        })
    }

    /// The clock of the plan's threads.
    pub fn clock(&self) -> &Arc<TurnClock, Global> {
        &self.clock
    }

    /// How its threads are numbered on the clock.
    pub fn threads(&self) -> ThreadNumbers
        ensures { result ≡ self.now.threads }
    {
        self.threads
    }

    /// Everything is to end: all threads wake up for it.
    pub fn stop(&self) {
        self.stopped.store(true, Ordering::SeqCst);
        self.clock.tell_all();
    }

    /// Whether everything is to end.
    pub fn is_stopped(&self) -> bool {
        self.stopped.load(Ordering::SeqCst)
    }

    /// Whether no thread has anything more to do.
    pub fn is_over(&self) -> bool {
        self.is_stopped() || self.live.load(Ordering::SeqCst) == 0
    }

    /// A session has ended. Behind the last one all threads end.
    pub fn session_ends(&self) {
        if self.live.fetch_sub(1, Ordering::SeqCst) == 1 {
            self.clock.tell_all();
        }
    }

    /// The pump or the host of a node starts to work.
    pub fn starts(&self, n: usize) {
        if let Some(node) = self.nodes.get(n) {
            node.working.fetch_add(1, Ordering::SeqCst);
        }
    }

    /// The pump or the host of a node has ended. Where neither works any more its sessions hear it.
    pub fn ends(&self, n: usize) {
        let Some(node) = self.nodes.get(n) else {
            return;
        };
        if node.working.fetch_sub(1, Ordering::SeqCst) == 1 {
            self.tell_sessions(node);
        }
    }

    /// The history of a node is full: its sessions hear it, the first time.
    pub fn note_full(&self, n: usize) {
        let Some(node) = self.nodes.get(n) else {
            return;
        };
        if !node.full.swap(true, Ordering::SeqCst) {
            self.tell_sessions(node);
        }
    }

    /// Whether that was noted.
    pub fn is_full(&self, n: usize) -> bool {
        match self.nodes.get(n) {
            Some(node) => node.full.load(Ordering::SeqCst),
            None => false,
        }
    }

    fn tell_sessions(&self, node: &NodeState) {
        for place in node.sessions.iter() {
            self.clock.tell(self.threads.session(*place));
        }
    }

    /// Whether the pump and the host of a node have ended, or its history is full, so that no session there waits any longer.
    pub fn is_idle(&self, n: usize) -> bool {
        match self.nodes.get(n) {
            Some(node) => {
                node.working.load(Ordering::SeqCst) == 0 || node.full.load(Ordering::SeqCst)
            }
            None => true,
        }
    }

    /// Whether it is the turn of the session at a place of the plan. Otherwise it waits for it: one session goes on at a time.
    pub fn take_turn<R: Wait>(&self, rt: &R, session: usize) -> bool {
        self.queue.lock(rt).take(session)
    }

    /// Where it is no session's turn, it is that of one that waits for it, if one does. Whoever calls this sees to it that a thread goes on
    /// with that one.
    pub fn begin_turn<R: Wait>(&self, rt: &R) -> Option<usize> {
        self.queue.lock(rt).begin()
    }

    /// The session at a place of the plan is gone on with no more. It waits for its turn where there is more to do for it, or it has been told
    /// of an answer since its turn began. Unless it is the turn of another, it is that of one that waits for it, which the caller goes on with.
    pub fn leave_turn<R: Wait>(&self, rt: &R, session: usize, more: bool) -> Option<usize> {
        self.queue.lock(rt).leave(session, more)
    }

    /// There is an answer for a session, by its number on the clock: it waits for its turn.
    pub fn recall<R: Wait>(&self, rt: &R, thread: usize) {
        let session = self.threads.place_of_session(thread);
        self.queue.lock(rt).call(session);
    }

    /// Takes out how far the session at a place of the plan has come, unless somebody has it, who is noted to have been asked for it then.
    pub fn take_session<R: Wait>(&self, rt: &R, session: usize) -> Option<SessionState> {
        self.seats.get(session)?.state.lock(rt).take()
    }

    /// Puts it back, and says whether somebody wanted it meanwhile. The session's thread wakes up by itself at this turn.
    pub fn put_session<R: Wait>(
        &self,
        rt: &R,
        session: usize,
        due: u64,
        state: SessionState,
    ) -> bool {
        self.clock.set_due(self.threads.session(session), due);
        match self.seats.get(session) {
            Some(seat) => seat.state.lock(rt).put(state),
            None => false,
        }
    }

    /// Takes out what the pump of the station at a place keeps, unless somebody has it, who is noted to have been asked for it then.
    pub fn take_pump<R: Wait>(&self, rt: &R, n: usize) -> Option<Pump> {
        self.nodes.get(n)?.pump.lock(rt).take()
    }

    /// Puts it back, and says whether somebody wanted it meanwhile.
    pub fn put_pump<R: Wait>(&self, rt: &R, n: usize, pump: Pump) -> bool {
        match self.nodes.get(n) {
            Some(node) => node.pump.lock(rt).put(pump),
            None => false,
        }
    }

    /// Takes out what is kept of the host of the station at a place, unless somebody has it, who is noted to have been asked for it then.
    pub fn take_service<R: Wait>(&self, rt: &R, n: usize) -> Option<Service> {
        self.nodes.get(n)?.service.lock(rt).take()
    }

    /// Puts it back, and says whether somebody wanted it meanwhile.
    pub fn put_service<R: Wait>(&self, rt: &R, n: usize, service: Service) -> bool {
        match self.nodes.get(n) {
            Some(node) => node.service.lock(rt).put(service),
            None => false,
        }
    }

    /// A thread of the plan has the station at a place, or waits for it.
    pub fn comes(&self, n: usize) {
        if let Some(node) = self.nodes.get(n) {
            node.visitors.fetch_add(1, Ordering::SeqCst);
        }
    }

    /// It has given it back, and looks from now on whether somebody missed it.
    pub fn goes(&self, n: usize) {
        if let Some(node) = self.nodes.get(n) {
            node.visitors.fetch_sub(1, Ordering::SeqCst);
        }
    }

    /// Whether a thread of the plan will yet look whether somebody missed the station at a place.
    pub fn is_visited(&self, n: usize) -> bool {
        match self.nodes.get(n) {
            Some(node) => node.visitors.load(Ordering::SeqCst) > 0,
            None => false,
        }
    }

    /// Somebody wanted the station at a place, and another had it.
    pub fn note_missed(&self, n: usize) {
        if let Some(node) = self.nodes.get(n) {
            node.missed.store(true, Ordering::SeqCst);
        }
    }

    /// Whether that was noted, once for each time.
    pub fn take_missed(&self, n: usize) -> bool {
        match self.nodes.get(n) {
            Some(node) => {
                node.missed.load(Ordering::SeqCst) && node.missed.swap(false, Ordering::SeqCst)
            }
            None => false,
        }
    }

    /// Whether entries of a node's trace from this place on may have requests to its host.
    pub fn has_asks(&self, n: usize, from: usize) -> bool {
        match self.nodes.get(n) {
            Some(node) => are_asks_from(node.asked.load(Ordering::SeqCst), from),
            None => false,
        }
    }

    /// What the session at a place of the plan waits for.
    pub fn awaited(&self, place: usize) -> Option<&Awaited> {
        let seat = self.seats.get(place)?;
        Some(&seat.awaited)
    }

    fn into_seats(self) -> Vec<Seat> {
        let PlanState {
            clock: _,
            threads: _,
            pumps: _,
            live: _,
            stopped: _,
            nodes: _,
            seats,
            queue: _,
        } = self;
        seats
    }

    /// What the lines of each session ended with, once all threads have ended.
    pub fn into_ends(self, alloc: Global) -> Result<Vec<Vec<LineEnd>>, AllocError> {
        ends_of(alloc, self.into_seats())
    }

    /// The station at a place has so many entries before the plan's threads start: of these only the host has to hear, as pumps look at
    /// their rings once in any case, and no session waits yet. Called with the station's lock held.
    pub fn begin_at(&self, n: usize, entries: usize) {
        if let Some(node) = self.nodes.get(n) {
            node.told.store(entries as u64, Ordering::SeqCst);
            node.asked.store(entries as u64, Ordering::SeqCst);
        }
    }

    /// Tells of the entries of the station at a place that have not been told, and adds those who have to hear. Called with the station's
    /// lock held.
    pub fn tell(&self, alloc: Global, n: usize, station: &Station<'_>, calls: &mut Calls) {
        let Some(node) = self.nodes.get(n) else {
            return;
        };
        let told = node.told.load(Ordering::SeqCst);
        let trace = station.trace();
        for place in told as usize..trace.len() {
            self.tell_entry(alloc, n, station, place, &trace[place], calls);
        }
        node.told.store(trace.len() as u64, Ordering::SeqCst);
    }

    fn tell_entry(
        &self,
        alloc: Global,
        n: usize,
        station: &Station<'_>,
        place: usize,
        entry: &Entry,
        calls: &mut Calls,
    ) {
        for output in entry.outputs().as_slice() {
            match who_hears(station.tables(), station.place(), output.way()) {
                Hearer::PumpOf(node) => self.call_pump(node, calls),
                Hearer::Host => self.tell_host(n, place, calls),
                Hearer::Sessions => self.tell_answer(alloc, n, place as u64, output.bytes(), calls),
                Hearer::Nobody => {}
            }
        }
    }

    fn call_pump(&self, node: NodeNo, calls: &mut Calls) {
        if let Some(pump) = self.pumps.get(node.place()) {
            calls.add_pump(*pump);
        }
    }

    /// Tells a node's host that the entry at a place has a request to it.
    fn tell_host(&self, n: usize, place: usize, calls: &mut Calls) {
        if let Some(node) = self.nodes.get(n) {
            node.asked
                .store((place as u64).saturating_add(1), Ordering::SeqCst);
        }
        if let Some(host) = self.threads.host(n) {
            calls.add_host(host);
        }
    }

    /// Tells the sessions of a node of an answer in the entry at a place, and adds their threads to those who have to hear. An answer whose
    /// key can't be read may be anybody's. Called with the station's lock held.
    pub fn tell_answer(
        &self,
        alloc: Global,
        n: usize,
        place: u64,
        bytes: &[u8],
        calls: &mut Calls,
    ) {
        let Some(node) = self.nodes.get(n) else {
            return;
        };
        if node.sessions.is_empty() {
            return;
        }
        let hash = match key_in(alloc, bytes) {
            Ok(Some(key)) => Some(key_hash(&key)),
            _ => None,
        };
        for session in node.sessions.iter() {
            match self.awaited(*session) {
                Some(awaited) if awaited.may_be(hash) => {
                    awaited.add(place);
                    calls.add_session(self.threads.session(*session));
                }
                _ => {}
            }
        }
    }
}
