//! Pumps: who takes packets off the rings of a node.

use crate::running::Host;
use crate::worker::{Locking, Turn, Worker};
use link_rings::Held;
use net_threads::{Station, StationFault};
use network_law::StepFault;
use plan_threads::{Calls, Pump, PumpTurns};
use run_plan::Plan;
use std::alloc::{AllocError, Global};
use std::sync::Wait;
use switch_node::{Case, Input};

impl<'s, 't, 'p> Worker<'s, 't, 'p> {
    /// Takes out what the pump of the node keeps, unless somebody has it, and counts the turns that have passed before this one.
    fn take_pump<R: Wait>(&self, rt: &R) -> Option<Pump> {
        let mut pump = self.shared.take_pump(rt, self.n)?;
        pump.catch_up(self.shared.clock().turns().saturating_sub(1));
        Some(pump)
    }

    /// Puts it back after a turn, and says whether somebody wanted it meanwhile. From here on the node's pump wakes up by itself when something
    /// happens, or for the turn that it couldn't make yet.
    fn put_pump<R: Wait>(&self, rt: &R, pump: Pump, turn: Turn) -> bool {
        let due = match turn {
            _ if self.shared.is_full(self.n) => u64::MAX,
            Turn::Later => pump.next_counted(),
            _ => pump.due(),
        };
        self.shared.clock().set_due(self.n, due);
        self.shared.put_pump(rt, self.n, pump)
    }

    /// A turn of the pump, with the tick that comes behind it; says whether packets were left on the rings.
    fn pump_turn(&self, station: &mut Station<'_>, pump: &mut Pump, calls: &mut Calls) -> bool {
        station.pump_by(&self.plan.faults, &mut pump.held);
        let more = station.has_packets();
        if pump.next_turn() {
            self.tick(station);
        }
        self.shared.tell(self.alloc, self.n, station, calls);
        more
    }

    /// A tick of the node. Where its history is full, nothing changes there any more, and no later tick is waited for.
    fn tick(&self, station: &mut Station<'_>) {
        if let Err(StationFault::Step(StepFault::HistoryFull)) = station.apply(Input::new(
            Case::Tick,
        )) {
            self.shared.note_full(self.n);
        }
    }

    /// Whether there is nothing to do in a turn: no packet lies on the rings, and neither a packet that was held back nor a tick is due. Such a
    /// turn isn't counted, however often somebody looks.
    fn is_idle(&self, station: &mut Station<'_>, pump: &Pump) -> bool {
        pump.due() > self.shared.clock().turns() && !station.has_packets()
    }

    /// Makes a turn of the pump, unless there is nothing to do, or another is due before it.
    fn pump_at_station(
        &self,
        station: &mut Station<'_>,
        pump: &mut Pump,
        calls: &mut Calls,
    ) -> Turn {
        if self.is_idle(station, pump) {
            return Turn::Done;
        }
        if !self.shared.clock().may_count(pump.next_counted()) {
            return Turn::Later;
        }
        Turn::made(self.pump_turn(station, pump, calls))
    }

    /// Makes a turn where one is left and the station is to be had.
    fn try_pump<R: Wait>(
        &self,
        rt: &R,
        locking: Locking,
        pump: &mut Pump,
        calls: &mut Calls,
    ) -> Turn {
        if pump.is_over() {
            return Turn::Over;
        }
        match self.try_station(rt, locking) {
            Some(mut station) => self.pump_at_station(&mut station, pump, calls),
            None => Turn::Locked,
        }
    }

    fn pump<R: Wait>(&self, rt: &R, locking: Locking, pump: &mut Pump, calls: &mut Calls) -> Turn {
        let turn = self.try_pump(rt, locking, pump, calls);
        if let Turn::Done | Turn::More | Turn::Later = turn {
            self.leave_station(calls);
        }
        turn
    }

    /// Pumps a turn in the place of the node's pump, and waits for no station. Where somebody pumps there already, that one sees to it.
    pub(crate) fn pump_for_other<R: Wait>(&self, rt: &R, calls: &mut Calls) {
        let Some(mut pump) = self.take_pump(rt) else {
            return;
        };
        let turn = self.pump(rt, Locking::GoesOn, &mut pump, calls);
        let wanted = self.put_pump(rt, pump, turn);
        match turn.or_more(wanted) {
            Turn::Done | Turn::Later => {}
            Turn::More => calls.add_pump(self.n),
            Turn::Locked => self.miss(self.n, calls),
            Turn::Over => self.shared.clock().tell(self.n),
        }
    }

    /// A turn of the node's pump. Where another pumps in its place, that one sees to it.
    fn pump_own<H: Host, R: Wait>(&self, rt: &R, hosts: &[H], calls: &mut Calls) -> Turn {
        let Some(mut pump) = self.take_pump(rt) else {
            return Turn::Done;
        };
        let turn = self.pump(rt, Locking::Waits, &mut pump, calls);
        if let Turn::Over = turn {
            return turn;
        }
        let wanted = self.put_pump(rt, pump, turn);
        let turn = turn.or_more(wanted);
        self.hand_on(rt, hosts, turn, calls);
        turn
    }

    fn pump_all<H: Host, R: Wait>(&self, rt: &R, hosts: &[H]) {
        let mut calls = Calls::none(self.alloc);
        for _ in rt.forever() {
            self.listen();
            if self.shared.is_over() {
                break;
            }
            match self.pump_own(rt, hosts, &mut calls) {
                Turn::Done | Turn::Later => {
                    let _ = self.sleep(rt, hosts, &mut calls);
                }
                Turn::More | Turn::Locked => {}
                Turn::Over => break,
            }
        }
    }
}

/// What the pump of a station keeps before its first turn, where so many rings come in.
pub(crate) fn first_pump(
    alloc: Global,
    plan: &Plan<'_>,
    rings: usize,
    now: u64,
) -> Result<Pump, AllocError> {
    let held = Held::new(alloc, rings)?;
    let turns = PumpTurns::new(plan.turns, plan.tick_every);
    Ok(Pump::new(turns, held, now))
}

/// Pumps a station, with a tick after so many turns. It sleeps while nothing lies on its rings, no packet that was held back is due, and
/// no tick.
pub(crate) fn run_pump<H: Host, R: Wait>(rt: &R, worker: Worker<'_, '_, '_>, hosts: &[H]) {
    // Packets may lie there already.
    worker.pump_all(rt, hosts);
    worker.shared.ends(worker.n);
    worker.shared.clock().leave(rt);
}
