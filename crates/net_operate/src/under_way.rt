//! What is under way when all sessions have ended.

use crate::running::{Host, pump_at};
use crate::worker::Worker;
use net_threads::Station;
use plan_state::PlanState;
use plan_threads::{Calls, Pump};
use run_plan::Plan;
use std::alloc::Global;
use std::sync::{Mutex, Wait};

impl<'s, 't, 'p> Worker<'s, 't, 'p> {
    /// A turn of the pump in which packets are taken that lie on the node's rings or were held back, however long those have to wait. No tick
    /// comes behind it. Says whether there were any.
    fn take_by(&self, station: &mut Station<'_>, pump: &mut Pump, calls: &mut Calls) -> bool {
        if pump.is_over() {
            return false;
        }
        if !station.has_packets() {
            let Some(turns) = pump.held.turns_to_due() else {
                return false;
            };
            let before = turns.saturating_sub(1);
            pump.catch_up(pump.counted.saturating_add(before));
        }
        station.pump_by(&self.plan.faults, &mut pump.held);
        let _ = pump.next_turn();
        self.shared.tell(self.alloc, self.n, station, calls);
        true
    }

    fn take_with<R: Wait>(&self, rt: &R, pump: &mut Pump, calls: &mut Calls) -> bool {
        let mut station = self.station.lock(rt);
        self.take_by(&mut station, pump, calls)
    }

    /// Puts the requests to hosts that answer at once.
    fn ask_all<H: Host, R: Wait>(&self, rt: &R, hosts: &[H], calls: &mut Calls) {
        for _ in rt.forever() {
            let Some(thread) = calls.next_host() else {
                break;
            };
            self.serve_at(rt, hosts, thread, calls);
        }
    }

    /// Takes what is under way to the node, and has its host answer; says whether there was anything.
    fn take_under_way<H: Host, R: Wait>(&self, rt: &R, hosts: &[H], calls: &mut Calls) -> bool {
        let Some(mut pump) = self.shared.take_pump(rt, self.n) else {
            return false;
        };
        let took = self.take_with(rt, &mut pump, calls);
        let _ = self.shared.put_pump(rt, self.n, pump);
        self.ask_all(rt, hosts, calls);
        took
    }
}

/// Takes what is under way at all nodes until nothing is, once all threads have ended. No clock ticks, so that comes to an end.
pub(crate) fn take_all_under_way<'s, 't, 'p, H: Host, R: Wait>(
    rt: &R,
    alloc: Global,
    stations: &'s Vec<Mutex<Station<'t>>>,
    plan: &'s Plan<'p>,
    hosts: &[H],
    shared: &'s PlanState,
) {
    let mut calls = Calls::none(alloc);
    for _ in rt.forever() {
        let mut took = false;
        for n in 0..stations.len() {
            let pump = pump_at(alloc, n, stations, &stations[n], plan, shared);
            if pump.take_under_way(rt, hosts, &mut calls) {
                took = true;
            }
        }
        if !took {
            break;
        }
    }
    calls.tell(shared.clock());
}
