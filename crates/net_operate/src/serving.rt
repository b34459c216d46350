//! Hosts: who puts the requests of a node to its host.

use crate::running::Host;
use crate::worker::{Locking, Turn, Worker};
use iso_message::decode;
use plan_state::{Ask, Cursor, Service, next_ask};
use plan_threads::{Calls, ClockTurns};
use std::sync::Wait;
use switch_node::{Case, Input};

impl<'s, 't, 'p> Worker<'s, 't, 'p> {
    /// Takes out what is kept of the node's host, unless somebody has it, and counts the turns that have passed.
    fn take_service<R: Wait>(&self, rt: &R) -> Option<Service> {
        let mut service = self.shared.take_service(rt, self.n)?;
        service.turns.catch_up(self.shared.clock().turns());
        Some(service)
    }

    /// Whether there may be something to do: an answer to hand over, or a request to look for.
    fn has_more(&self, service: &Service) -> bool {
        service.answer.is_some()
            || service.next.is_some()
            || self.shared.has_asks(self.n, service.cursor.entry)
    }

    /// Puts it back, and says whether somebody wanted it meanwhile. The host has this number on the clock.
    fn put_service<R: Wait>(&self, rt: &R, thread: usize, service: Service) -> bool {
        let due = service.turns.due(self.has_more(&service));
        self.shared.clock().set_due(thread, due);
        self.shared.put_service(rt, self.n, service)
    }

    /// Hands the host's answer to the station, where there is one, and looks for the next request. Says whether the station was to be had.
    fn visit<R: Wait>(
        &self,
        rt: &R,
        locking: Locking,
        service: &mut Service,
        calls: &mut Calls,
    ) -> bool {
        let Some(mut station) = self.try_station(rt, locking) else {
            return false;
        };
        if let Some(answer) = service.answer.take() {
            let _ = station.apply(Input::new(answer));
            self.shared.tell(self.alloc, self.n, &station, calls);
        }
        service.next = next_ask(station.trace(), &mut service.cursor);
        true
    }

    fn visit_and_leave<R: Wait>(
        &self,
        rt: &R,
        locking: Locking,
        service: &mut Service,
        calls: &mut Calls,
    ) -> bool {
        let visited = self.visit(rt, locking, service, calls);
        if visited {
            self.leave_station(calls);
        }
        visited
    }

    /// What the host answers, with no station locked.
    fn ask<H: Host>(&self, host: &H, ask: &Ask) -> Option<Case> {
        let request = decode(self.alloc, ask.bytes.as_slice()).ok()?;
        Some(Case::HostAnswer(ask.number, host.authorize(&request)))
    }

    /// Puts the next request to the host, where there is one, and hands over the answer.
    fn serve<H: Host, R: Wait>(
        &self,
        rt: &R,
        host: &H,
        locking: Locking,
        service: &mut Service,
        calls: &mut Calls,
    ) -> Turn {
        if service.answer.is_none() && service.turns.are_over() {
            return Turn::Over;
        }
        if !self.has_more(service) {
            return Turn::Done;
        }
        if service.next.is_none() && !self.visit_and_leave(rt, locking, service, calls) {
            return Turn::Locked;
        }
        let Some(ask) = service.next.take() else {
            return Turn::Done;
        };
        service.turns.next();
        if !host.answers_at_once() {
            // It may take its time: whoever is to be told of something isn't kept waiting.
            self.tell(rt, calls);
        }
        service.answer = self.ask(host, &ask);
        if service.answer.is_some() && !self.visit_and_leave(rt, locking, service, calls) {
            return Turn::Locked;
        }
        Turn::made(self.has_more(service))
    }

    /// Puts a request to the host that has this number on the clock, in the place of its thread. Where it doesn't answer at once, its thread
    /// wakes up for that.
    pub(crate) fn serve_at<H: Host, R: Wait>(
        &self,
        rt: &R,
        hosts: &[H],
        thread: usize,
        calls: &mut Calls,
    ) {
        let n = self.shared.threads().node_of_host(thread);
        match (self.at(n), hosts.get(n)) {
            (Some(there), Some(host)) if host.answers_at_once() => {
                there.serve_for_other(rt, host, thread, calls)
            }
            _ => self.shared.clock().tell(thread),
        }
    }

    /// Puts a request to the node's host in the place of its thread, and waits for no station. Where another does already, that one sees to it.
    fn serve_for_other<H: Host, R: Wait>(
        &self,
        rt: &R,
        host: &H,
        thread: usize,
        calls: &mut Calls,
    ) {
        let Some(mut service) = self.take_service(rt) else {
            return;
        };
        let turn = self.serve(rt, host, Locking::GoesOn, &mut service, calls);
        let wanted = self.put_service(rt, thread, service);
        match turn.or_more(wanted) {
            Turn::Done | Turn::Later => {}
            Turn::More => calls.add_host(thread),
            Turn::Locked => self.miss(thread, calls),
            Turn::Over => self.shared.clock().tell(thread),
        }
    }

    /// Puts a request to the node's host. Where another does in the place of its thread, that one sees to it.
    fn serve_own<H: Host, R: Wait>(
        &self,
        rt: &R,
        hosts: &[H],
        host: &H,
        calls: &mut Calls,
    ) -> Turn {
        let Some(mut service) = self.take_service(rt) else {
            return Turn::Done;
        };
        let turn = self.serve(rt, host, Locking::Waits, &mut service, calls);
        if let Turn::Over = turn {
            return turn;
        }
        let wanted = self.put_service(rt, self.thread, service);
        let turn = turn.or_more(wanted);
        self.hand_on(rt, hosts, turn, calls);
        turn
    }

    fn serve_all<H: Host, R: Wait>(&self, rt: &R, hosts: &[H], host: &H) {
        let mut calls = Calls::none(self.alloc);
        for _ in rt.forever() {
            self.listen();
            if self.shared.is_over() {
                break;
            }
            match self.serve_own(rt, hosts, host, &mut calls) {
                Turn::Done | Turn::Later => {
                    let _ = self.sleep(rt, hosts, &mut calls);
                }
                Turn::More | Turn::Locked => {}
                Turn::Over => break,
            }
        }
    }
}

/// Puts the requests of a station to its host. It sleeps while there is none, or others put them to it.
pub(crate) fn run_host<H: Host, R: Wait>(
    rt: &R,
    worker: Worker<'_, '_, '_>,
    hosts: &[H],
    host: &H,
) {
    let service = Service {
        turns: ClockTurns::new(worker.plan.turns, worker.shared.clock().turns()),
        cursor: Cursor::at(0),
        next: None,
        answer: None,
    };
    let _ = worker.put_service(rt, worker.thread, service);
    // Requests may stand there already.
    worker.serve_all(rt, hosts, host);
    worker.shared.ends(worker.n);
    worker.shared.clock().leave(rt);
}
