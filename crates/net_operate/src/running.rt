//! Nodes, hosts and sessions as threads.
ghost use Rattle.std.specs.Prelude.{IfOk};
ghost use Rattle.std.specs.List.{AllZip};
ghost use Rattle.net_operate.specs.Sessions.{SessionFits};

use crate::pumping::{first_pump, run_pump};
use crate::serving::run_host;
use crate::session_ends::fitted;
use crate::sessions::run_session;
use crate::under_way::take_all_under_way;
use crate::worker::Worker;
use iso_message::Message;
use message_elements::Code;
use net_threads::{Ended, LineEnd, Network, Station};
use plan_state::PlanState;
use run_plan::{Loan, Plan, Session};
use std::alloc::{AllocError, Global};
use std::sync::{Mutex, Wait};
use std::thread;
use std::thread::Threads;
use switch_node::{Case, Input};
use thiserror::Error;

/// Who answers what the node of an issuer asks.
pub trait Host {
    /// The response code to a request.
    fn authorize(&self, request: &Message) -> Code;

    /// Whether the host answers at once and waits for nobody. Whoever makes the step that asks such a host puts the request to it himself;
    /// any other is asked by a thread of its own, which may take its time.
    fn answers_at_once(&self) -> bool {
        false
    }
}

/// Why a plan was not run to its end.
#[derive(Clone, Copy, Debug, PartialEq, Eq, Error)]
pub enum OperateFault {
    #[error("a thread could not be started")]
    Thread,
    #[error("no memory")]
    Memory,
}

/// Makes the step of a loan at its lender, where there is such a node. One that the node refuses is dropped.
fn lend<R: Wait>(
    rt: &R,
    alloc: Global,
    network: &Network<'_, '_>,
    loan: &Loan,
) -> Result<(), AllocError> {
    if loan.lender.place() >= network.stations().len() {
        return Ok(());
    }
    let input = Input::new(Case::lend(alloc, loan.order)?);
    let _ = network.step_at(rt, loan.lender, input);
    Ok(())
}

/// Makes the steps of the plan's loans.
fn lend_all<R: Wait>(
    rt: &R,
    alloc: Global,
    network: &Network<'_, '_>,
    loans: &[Loan],
) -> Result<(), AllocError> {
    for loan in loans {
        lend(rt, alloc, network, loan)?;
    }
    Ok(())
}

/// For each node the place of the station that is the node's: its own, unless stations have changed places.
fn places_of<R: Wait>(
    rt: &R,
    alloc: Global,
    stations: &Vec<Mutex<Station<'_>>>,
) -> Result<Vec<usize>, AllocError> {
    let mut places = Vec::with_capacity(alloc, stations.len())?;
    for n in 0..stations.len() {
        places.push(n)?;
    }
    for n in 0..stations.len() {
        let node = stations[n].lock(rt).place();
        if let Some(place) = places.get_mut(node.place()) {
            *place = n;
        }
    }
    Ok(places)
}

/// The thread that pumps the station at a place.
pub(crate) fn pump_at<'s, 't, 'p>(
    alloc: Global,
    n: usize,
    stations: &'s Vec<Mutex<Station<'t>>>,
    station: &'s Mutex<Station<'t>>,
    plan: &'s Plan<'p>,
    shared: &'s PlanState,
) -> Worker<'s, 't, 'p> {
    Worker {
        alloc,
        n,
        thread: n,
        stations,
        station,
        plan,
        shared,
    }
}

/// The thread of the session at a place of the plan, where there is a station at its node's place.
fn session_at<'s, 't, 'p>(
    alloc: Global,
    stations: &'s Vec<Mutex<Station<'t>>>,
    plan: &'s Plan<'p>,
    shared: &'s PlanState,
    place: usize,
    session: &Session<'_>,
) -> Option<Worker<'s, 't, 'p>> {
    let n = session.node.place();
    let station = stations.get(n)?;
    let pump = pump_at(alloc, n, stations, station, plan, shared);
    let thread = shared.threads().session(place);
    Some(Worker { thread, ..pump })
}

/// How many rings come into a station, once it was noted how many entries it has.
fn begin_at<R: Wait>(rt: &R, station: &Mutex<Station<'_>>, n: usize, shared: &PlanState) -> usize {
    let station = station.lock(rt);
    shared.begin_at(n, station.trace().len());
    station.count_in()
}

/// Notes how many entries each station has, and when its pump is due, before the threads start.
fn begin_all<R: Wait>(
    rt: &R,
    alloc: Global,
    stations: &Vec<Mutex<Station<'_>>>,
    plan: &Plan<'_>,
    shared: &PlanState,
) -> Result<(), AllocError> {
    for n in 0..stations.len() {
        let rings = begin_at(rt, &stations[n], n, shared);
        let pump = first_pump(alloc, plan, rings, shared.clock().turns())?;
        shared.clock().set_due(n, pump.due());
        let _ = shared.put_pump(rt, n, pump);
    }
    Ok(())
}

/// Makes the loans, and runs the threads.
fn lend_and_run<H: Host + Sync, R: Threads + Wait + Sync>(
    rt: &R,
    alloc: Global,
    network: &Network<'_, '_>,
    plan: &Plan<'_>,
    hosts: &[H],
    shared: &PlanState,
) -> Result<(), OperateFault> {
    if lend_all(rt, alloc, network, plan.loans.as_slice()).is_err() {
        return Err(OperateFault::Memory);
    }
    let stations = network.stations();
    if begin_all(rt, alloc, stations, plan, shared).is_err() {
        return Err(OperateFault::Memory);
    }
    run_all(rt, alloc, stations, plan, hosts, shared)?;
    if !shared.is_stopped() {
        take_all_under_way(rt, alloc, stations, plan, hosts, shared);
    }
    Ok(())
}

/// Runs the threads, which have all ended at the return.
fn run_all<H: Host + Sync, R: Threads + Wait + Sync>(
    rt: &R,
    alloc: Global,
    stations: &Vec<Mutex<Station<'_>>>,
    plan: &Plan<'_>,
    hosts: &[H],
    shared: &PlanState,
) -> Result<(), OperateFault> {
    thread::scope(
        thread::scope_env(),
        rt,
        |scope| -> Result<(), OperateFault> {
            let threads = shared.threads();
            for n in 0..stations.len() {
                let station = &stations[n];
                let pump = pump_at(alloc, n, stations, station, plan, shared);
                shared.starts(n);
                if scope.spawn(move || run_pump(rt, pump, hosts)).is_err() {
                    shared.stop();
                    return Err(OperateFault::Thread);
                }
                if let (Some(host), Some(thread)) = (hosts.get(n), threads.host(n)) {
                    let server = Worker { thread, ..pump };
                    shared.starts(n);
                    if scope
                        .spawn(move || run_host(rt, server, hosts, host))
                        .is_err()
                    {
                        shared.stop();
                        return Err(OperateFault::Thread);
                    }
                }
            }
            for (place, session) in plan.sessions.iter().enumerate() {
                let worker = session_at(alloc, stations, plan, shared, place, session);
                if scope
                    .spawn(move || run_session(rt, worker, hosts, shared))
                    .is_err()
                {
                    shared.stop();
                    return Err(OperateFault::Thread);
                }
            }
            Ok(())
        },
    )
}

/// Makes the loans and runs the threads of a plan, whose clock the network's pumps are told of meanwhile.
fn run_shared<H: Host + Sync, R: Threads + Wait + Sync>(
    rt: &R,
    alloc: Global,
    network: &Network<'_, '_>,
    plan: &Plan<'_>,
    hosts: &[H],
    shared: &PlanState,
) -> Result<(), OperateFault> {
    let Ok(number) = network.add_plan(rt, shared.clock()) else {
        return Err(OperateFault::Memory);
    };
    let ran = lend_and_run(rt, alloc, network, plan, hosts, shared);
    network.remove_plan(rt, number);
    ran
}

/// What the plan's sessions ended with, held against its lines.
fn ended(
    alloc: Global,
    plan: &Plan<'_>,
    ends: Result<Vec<Vec<LineEnd>>, AllocError>,
) -> Result<Ended, OperateFault>
    ensures { IfOk result (λ e. AllZip SessionFits plan.now.sessions.items e.sessions.items) }
{
    let Ok(ends) = ends else {
        return Err(OperateFault::Memory);
    };
    match fitted(alloc, plan.sessions.as_slice(), ends) {
        Ok(sessions) => Ok(Ended { sessions }),
        Err(_) => Err(OperateFault::Memory),
    }
}

/// Runs a plan on a network: for each node a thread that pumps and one that asks its host, and a thread for each session. The plan's
/// loans are made before. All threads have ended at the return, also where one could not be started; steps that were made stay. Each
/// thread ends after the plan's turns at the latest, for each line of a session, and as soon as all sessions have ended. What is under way
/// then is still taken, packets that are held back too, and hosts that answer at once are still asked, but no clock ticks. A host is
/// called with no lock held.
///
/// A thread that has nothing to do sleeps. Whoever makes a step carries on what comes of it: he pumps at the other end of a link, and puts
/// requests to hosts that answer at once, where no other does at that moment; he tells the sessions that have an answer, and the threads of
/// other hosts. A thread that has more to do for itself leaves that to the threads that are there for it. One session is gone on with at a
/// time, and the thread that went on with one goes on with the next that has something to do. Time is common: a turn in which a pump works, and
/// one in which a session enters a line, is counted for it ahead of the clock, but never behind a turn at which another is due. Where all
/// sleep, as many turns pass at once as the first of them waits for: those until a tick, until a packet that was held back is taken, until a
/// turn that somebody couldn't count before, or until a wait or the plan is over. Steps that others
/// make by `step_at`, `pump_once` and `pump_with` of the network wake its node's pump. Another plan on the same network is not told of what
/// this one does, nor this one of that, beyond what their own threads find.
pub fn operate<H: Host + Sync, R: Threads + Wait + Sync>(
    rt: &R,
    alloc: Global,
    network: &Network<'_, '_>,
    plan: &Plan<'_>,
    hosts: &[H],
) -> Result<Ended, OperateFault>
    // For each session an end for each of its lines, at its node; and an answer has the key of its line.
    ensures { IfOk result (λ e. AllZip SessionFits plan.now.sessions.items e.sessions.items) }
{
    let Ok(places) = places_of(rt, alloc, network.stations()) else {
        return Err(OperateFault::Memory);
    };
    let Ok(shared) = PlanState::new(alloc, places, hosts.len(), plan) else {
        return Err(OperateFault::Memory);
    };
    let ran = run_shared(rt, alloc, network, plan, hosts, &shared);
    let ends = shared.into_ends(alloc);
    ran?;
    ended(alloc, plan, ends)
}
