//! Sessions: who enters the lines of an acquirer, and waits for their answers.

use crate::running::Host;
use crate::worker::Worker;
use iso_message::{Message, decode};
use message_elements::{DecodeFault, elements};
use message_keys::key_of;
use net_threads::{LineEnd, StationFault};
use plan_state::{Awaited, Awaiting, Search, SessionState, Wanted, is_answer_to, next_answer};
use plan_threads::{Calls, ClockTurns};
use run_plan::Session;
use shared_bytes::SharedBytes;
use std::alloc::AllocError;
use std::sync::Wait;
use switch_node::{Case, Input};

/// How many lines of a session are gone on with until it is the turn of another.
const LINES_OF_A_TURN: usize = 256;

/// What is left to do for a session.
#[derive(Clone, Copy)]
pub(crate) enum Progress {
    /// There is more to do at once.
    More,
    /// Nothing, until it is told of an answer, or the clock has come to this turn.
    Waits(u64),
    /// All its lines have ended.
    Ended,
}

impl Progress {
    /// The turn of the clock at which there is something to do, whatever the session is told of.
    pub(crate) fn due(&self, now: u64) -> u64 {
        match self {
            Progress::More => now,
            Progress::Waits(due) => *due,
            Progress::Ended => u64::MAX,
        }
    }

    pub(crate) fn is_more(&self) -> bool {
        match self {
            Progress::More => true,
            _ => false,
        }
    }

    pub(crate) fn is_end(&self) -> bool {
        match self {
            Progress::Ended => true,
            _ => false,
        }
    }
}

/// How far a line has come.
enum Line {
    Ended(LineEnd),
    Awaits(Awaiting),
}

/// What the answer to a line has, where the line's message has a time and a trace number.
fn wanted_in(line: &[u8], message: &Message) -> Option<Wanted> {
    let time = message.get(elements::TRANSMISSION_TIME)?;
    let trace = message.get(elements::TRACE_AUDIT_NUMBER)?;
    Wanted::new(line, time, trace)
}

/// The session at a place of the plan, for a thread that goes on with it: its own, or that of another session.
#[derive(Clone, Copy)]
pub(crate) struct Acquirer<'s, 't, 'p> {
    /// The thread at the session's node.
    worker: Worker<'s, 't, 'p>,
    session: &'s Session<'p>,
    /// What it waits for, and what it was told of.
    awaited: &'s Awaited,
}

impl<'s, 't, 'p> Acquirer<'s, 't, 'p> {
    /// None where there is no station at the place of the session's node.
    pub(crate) fn of(worker: &Worker<'s, 't, 'p>, place: usize) -> Option<Acquirer<'s, 't, 'p>> {
        let session = worker.plan.sessions.get(place)?;
        Some(Acquirer {
            worker: worker.at(session.node.place())?,
            session,
            awaited: worker.shared.awaited(place)?,
        })
    }

    /// What is looked for once a line was entered, and whether the session is told of it. Called before it is entered.
    fn await_answer(&self, line: &[u8]) -> Result<Option<(Wanted, bool)>, AllocError> {
        let message = match decode(self.worker.alloc, line) {
            Ok(message) => message,
            Err(DecodeFault::Memory) => return Err(AllocError),
            Err(_) => return Ok(None),
        };
        let Some(wanted) = wanted_in(line, &message) else {
            return Ok(None);
        };
        match key_of(&message) {
            Some(key) => {
                self.awaited.begin(&key);
                Ok(Some((wanted, true)))
            }
            None => Ok(Some((wanted, false))),
        }
    }

    /// Makes the step of a line, and says where the search for its answer begins.
    fn apply<R: Wait>(
        &self,
        rt: &R,
        bytes: SharedBytes,
        calls: &mut Calls,
    ) -> (Search, Result<(), StationFault>) {
        let worker = &self.worker;
        let mut station = worker.wait_for_station(rt);
        let search = Search::from(station.trace().len(), self.awaited.count());
        let entered = station.apply(Input::new(Case::Enter(bytes)));
        worker.shared.tell(worker.alloc, worker.n, &station, calls);
        (search, entered)
    }

    /// Enters a line, carries on what comes of it, and looks for its answer.
    fn enter<H: Host, R: Wait>(
        &self,
        rt: &R,
        hosts: &[H],
        line: &[u8],
        calls: &mut Calls,
    ) -> Result<Line, AllocError> {
        let worker = &self.worker;
        let bytes = SharedBytes::from_slice(worker.alloc, line)?;
        let wanted = self.await_answer(line)?;
        let (search, entered) = self.apply(rt, bytes, calls);
        worker.leave_station(calls);
        worker.carry_on(rt, hosts, calls);
        if let Err(fault) = entered {
            return Ok(Line::Ended(LineEnd::Refused(fault)));
        }
        let Some((wanted, is_told)) = wanted else {
            return Ok(Line::Ended(LineEnd::Nothing));
        };
        let awaiting = Awaiting {
            wanted,
            is_told,
            search,
            turns: ClockTurns::new(worker.plan.turns, worker.shared.clock().turns()),
        };
        self.hear(rt, hosts, line, awaiting, calls)
    }

    /// Whether the session was told of another answer than it has seen.
    fn has_news(&self, awaiting: &Awaiting) -> bool {
        awaiting.is_told && awaiting.search.is_told(self.awaited.count())
    }

    /// Whether nothing can come for the session any more.
    fn is_last(&self) -> bool {
        let shared = self.worker.shared;
        shared.is_stopped() || shared.is_idle(self.worker.n)
    }

    /// Looks for an answer among the entries that were told of. Where a single one was told of, the entries before it have none.
    fn look<R: Wait>(&self, rt: &R, awaiting: &mut Awaiting) -> Option<Vec<u8>> {
        let worker = &self.worker;
        let station = worker.wait_for_station(rt);
        let count = self.awaited.count();
        let search = &mut awaiting.search;
        search.skip(count, self.awaited.newest() as usize);
        let found = next_answer(
            worker.alloc,
            station.trace(),
            &mut search.cursor,
            &awaiting.wanted,
        );
        search.end_look(count, station.trace().len());
        found
    }

    /// Looks for the answer to a line. It is awaited further where it has not come and may come yet.
    fn hear<H: Host, R: Wait>(
        &self,
        rt: &R,
        hosts: &[H],
        line: &[u8],
        awaiting: Awaiting,
        calls: &mut Calls,
    ) -> Result<Line, AllocError> {
        let mut awaiting = awaiting;
        for _ in 0..self.worker.plan.turns {
            if awaiting.turns.are_over() {
                break;
            }
            awaiting.turns.next();
            let last = self.is_last();
            let mut found = None;
            if self.has_news(&awaiting) {
                found = self.look(rt, &mut awaiting);
                self.worker.leave_station(calls);
                self.worker.carry_on(rt, hosts, calls);
            }
            match found {
                Some(bytes) => {
                    if is_answer_to(self.worker.alloc, line, bytes.as_slice())? {
                        return Ok(Line::Ended(LineEnd::Answer(bytes)));
                    }
                }
                None => {
                    if last {
                        break;
                    }
                    return Ok(Line::Awaits(awaiting));
                }
            }
        }
        Ok(Line::Ended(LineEnd::Nothing))
    }

    /// Looks for the answer that the session waits for, where there is something to do. Where there is nothing, no turn is counted.
    fn hear_more<H: Host, R: Wait>(
        &self,
        rt: &R,
        hosts: &[H],
        line: &[u8],
        awaiting: Awaiting,
        calls: &mut Calls,
    ) -> Result<Line, AllocError> {
        let mut awaiting = awaiting;
        awaiting.turns.catch_up(self.worker.shared.clock().turns());
        if awaiting.turns.are_over() || self.has_news(&awaiting) || self.is_last() {
            self.hear(rt, hosts, line, awaiting, calls)
        } else {
            Ok(Line::Awaits(awaiting))
        }
    }

    /// Counts the turn in which a line is entered, unless another is due before it: then the session waits for that turn.
    fn count_turn(&self, state: &mut SessionState) -> Result<(), u64> {
        let clock = self.worker.shared.clock();
        let turn = state.next_counted(clock.turns());
        if !clock.may_count(turn) {
            return Err(turn);
        }
        state.counted = turn;
        Ok(())
    }

    /// Goes on with the session until it waits, has ended, or was gone on with for so many lines.
    pub(crate) fn go_on<H: Host, R: Wait>(
        &self,
        rt: &R,
        hosts: &[H],
        state: &mut SessionState,
        calls: &mut Calls,
    ) -> Progress {
        for _ in 0..LINES_OF_A_TURN {
            let Some(line) = state.next_line(self.session.lines.as_slice()) else {
                return Progress::Ended;
            };
            let line = match state.awaiting.take() {
                None => {
                    if let Err(due) = self.count_turn(state) {
                        return Progress::Waits(due);
                    }
                    self.enter(rt, hosts, line, calls)
                }
                Some(awaiting) => self.hear_more(rt, hosts, line, awaiting, calls),
            };
            match line {
                Ok(Line::Ended(end)) => state.end_line(Ok(end)),
                Ok(Line::Awaits(awaiting)) => {
                    let due = awaiting.turns.due(self.has_news(&awaiting));
                    state.awaiting = Some(awaiting);
                    return Progress::Waits(due);
                }
                Err(fault) => state.end_line(Err(fault)),
            }
        }
        Progress::More
    }
}
