//! Threads of sessions: which sessions they go on with.

use crate::acquirers::{Acquirer, Progress};
use crate::running::Host;
use crate::worker::Worker;
use plan_state::PlanState;
use plan_threads::Calls;
use std::sync::Wait;

impl<'s, 't, 'p> Worker<'s, 't, 'p> {
    /// Goes on with a session whose turn it is. Returns the one whose turn it is then, if one waits for it. Where another thread goes on with
    /// the session already, that one sees to it, and gives the turn on.
    fn go_on_with<H: Host, R: Wait>(
        &self,
        rt: &R,
        hosts: &[H],
        place: usize,
        calls: &mut Calls,
    ) -> Option<usize> {
        let shared = self.shared;
        let mut state = shared.take_session(rt, place)?;
        let progress = match Acquirer::of(self, place) {
            Some(acquirer) => acquirer.go_on(rt, hosts, &mut state, calls),
            None => Progress::Ended,
        };
        let due = progress.due(shared.clock().turns());
        let ends = progress.is_end() && state.end();
        if state.has_failed {
            shared.stop();
        }
        let wanted = shared.put_session(rt, place, due, state);
        if ends {
            shared.session_ends();
        }
        shared.leave_turn(rt, place, progress.is_more() || wanted)
    }

    /// Goes on with a session whose turn it is, and with each whose turn it is then, until none waits for it.
    fn go_on_from<H: Host, R: Wait>(
        &self,
        rt: &R,
        hosts: &[H],
        first: Option<usize>,
        calls: &mut Calls,
    ) {
        let mut next = first;
        for _ in rt.forever() {
            let Some(place) = next else {
                break;
            };
            if self.shared.is_stopped() {
                break;
            }
            next = self.go_on_with(rt, hosts, place, calls);
        }
    }

    /// Looks whether there is something to do for its own session, and goes on with sessions until it is told of something or due.
    fn take_turns<H: Host, R: Wait>(&self, rt: &R, hosts: &[H], calls: &mut Calls) {
        let clock = self.shared.clock();
        let own = self.shared.threads().place_of_session(self.thread);
        clock.set_due(self.thread, clock.turns());
        let mut next = if self.shared.take_turn(rt, own) {
            Some(own)
        } else {
            None
        };
        for _ in rt.forever() {
            self.go_on_from(rt, hosts, next, calls);
            next = self.sleep(rt, hosts, calls);
            if next.is_none() {
                break;
            }
        }
    }

    fn take_part<H: Host, R: Wait>(&self, rt: &R, hosts: &[H]) {
        let mut calls = Calls::none(self.alloc);
        for _ in rt.forever() {
            self.listen();
            if self.shared.is_over() {
                break;
            }
            self.take_turns(rt, hosts, &mut calls);
        }
    }
}

/// The thread of a session, until all sessions have ended. While it doesn't sleep it goes on with each session whose turn it is, its own or
/// another. It sleeps where no session waits for its turn, or another thread goes on with sessions. A session without a station has ended.
pub(crate) fn run_session<H: Host, R: Wait>(
    rt: &R,
    worker: Option<Worker<'_, '_, '_>>,
    hosts: &[H],
    shared: &PlanState,
) {
    match worker {
        Some(worker) => worker.take_part(rt, hosts),
        None => shared.session_ends(),
    }
    shared.clock().leave(rt);
}
