//! Stations under locks of their own.
ghost use Rattle.std.specs.Prelude.{◌≡◌, ◌<◌, All, IfOk, vec_len, length};
ghost use Rattle.network_law.specs.Claims.{Safe, Covered, IsWithinLimits};
ghost use Rattle.network_law.specs.Entries.{history};
ghost use Rattle.network_law.specs.Runs.{IsLegal};
ghost use Rattle.net_threads.specs.Pumping.{PumpsBy, PumpsSound};
ghost use Rattle.net_threads.specs.Station.{StationView, Does};
ghost use Rattle.net_threads.specs.Verdicts.{trace_of, Holds};
ghost use Rattle.net_threads.specs.declared.ended.Verdict.TheVariants.{Linked};

use crate::ended::{Ended, Finished};
use crate::fault::StationFault;
use crate::judge::judge;
use crate::plans::Plans;
use crate::station::Station;
use card_digits::{LinkNo, NodeNo};
use link_rings::{Held, ROOM};
use net_rows::Tables;
use rtrb::RingBuffer;
use run_plan::Faults;
use std::alloc::{AllocError, Global};
use std::marker::Model;
use std::sync::{Arc, Mutex, Wait};
use switch_node::Input;
use table_checker::Accepted;
use turn_clock::TurnClock;

/// A station for each node of accepted tables, each under a lock of its own, and for each link a ring of 64 packets in either
/// direction.
#[derive(Drop)]
pub struct Network<'n, 't> {
    alloc: Global,
    accepted: &'n Accepted<'t>,
    stations: Vec<Mutex<Station<'t>>>,
    plans: Plans,
}

impl<'n, 't> Model for Network<'n, 't> {
    ghost use Rattle.std.specs.Prelude.{◌≡◌, length, vec_len};
    ghost use Rattle.net_threads.specs.Station.{NetworkView};

    ghost Value = { NetworkView };

    ghost view = { λ w. record { t = w.accepted.now } };

    ghost invariant = { λ w. vec_len w.stations ≡ length w.accepted.now.nodes };
}

/// Makes the ring by which a link leads from a node to another.
fn connect(
    alloc: Global,
    stations: &mut Vec<Station<'_>>,
    link: LinkNo,
    from: NodeNo,
    to: NodeNo,
) -> Result<(), AllocError>
    ensures { vec_len stations.new ≡ vec_len stations.old }
{
    let (from, to) = (from.place(), to.place());
    if from >= stations.len() || to >= stations.len() {
        return Ok(());
    }
    let (producer, consumer) = RingBuffer::new(alloc, ROOM)?;
    let source = &mut stations[from];
    source.add_out(link, producer)?;
    let sink = &mut stations[to];
    sink.add_in(link, consumer)
}

/// The rings of all links, in their order.
fn connect_all(
    alloc: Global,
    tables: &Tables,
    stations: &mut Vec<Station<'_>>,
) -> Result<(), AllocError>
    ensures { vec_len stations.new ≡ vec_len stations.old }
{
    let links = tables.links();
    for k in 0..links.len() {
        let link = LinkNo::new(k);
        let (from, to) = (links[k].from, links[k].to);
        connect(alloc, stations, link, from, to)?;
        connect(alloc, stations, link, to, from)?;
    }
    Ok(())
}

fn stations_of<'t>(alloc: Global, accepted: &Accepted<'t>) -> Result<Vec<Station<'t>>, AllocError>
    ensures { IfOk result (λ v. vec_len v ≡ length accepted.now.nodes) }
{
    let tables = accepted.tables();
    let mut stations = Vec::new(alloc);
    for n in 0..tables.nodes().len() {
        stations.push(Station::new(alloc, accepted, NodeNo::new(n))?)?;
    }
    Ok(stations)
}

fn locked<'t>(
    alloc: Global,
    stations: Vec<Station<'t>>,
) -> Result<Vec<Mutex<Station<'t>>>, AllocError>
    ensures { IfOk result (λ v. vec_len v ≡ vec_len stations.entry) }
{
    let mut locks = Vec::new(alloc);
    for station in stations {
        locks.push(Mutex::new(station))?;
    }
    Ok(locks)
}

/// The stations under the locks: whatever happened there, each trace is legal and within its limits.
fn opened<'t>(alloc: Global, locks: Vec<Mutex<Station<'t>>>) -> Result<Vec<Station<'t>>, AllocError>
    ensures whole { IfOk result (λ v. vec_len v ≡ vec_len locks.entry) }
    ensures legal { IfOk result (λ v. All (λ s. IsLegal s.t s.n s.trace) v.items) }
    ensures limits { IfOk result (λ v. All (λ s. IsWithinLimits s.t s.n (history s.trace)) v.items) }
{
    let mut stations = Vec::new(alloc);
    for lock in locks {
        let station = lock.into_inner();
        // The trace is legal and within its limits, as a station keeps it.
        let _ = station.trace();
        stations.push(station)?;
    }
    Ok(stations)
}

impl<'n, 't> Network<'n, 't> {
    ghost use Rattle.std.specs.Prelude.{◌≡◌, ◌<◌, All, IfOk, vec_len, length};
    ghost use Rattle.network_law.specs.Claims.{Safe, Covered, IsWithinLimits};
    ghost use Rattle.network_law.specs.Entries.{history};
    ghost use Rattle.network_law.specs.Runs.{IsLegal};
    ghost use Rattle.net_threads.specs.Pumping.{PumpsBy, PumpsSound};
    ghost use Rattle.net_threads.specs.Station.{StationView, Does};
    ghost use Rattle.net_threads.specs.Verdicts.{trace_of, Holds};
    ghost use Rattle.net_threads.specs.declared.ended.Verdict.TheVariants.{Linked};

    /// Stations to which nothing came yet, with empty rings.
    pub fn new(alloc: Global, accepted: &'n Accepted<'t>) -> Result<Network<'n, 't>, AllocError>
        ensures { IfOk result (λ w. w.t ≡ accepted.now) }
    {
        let mut stations = stations_of(alloc, accepted)?;
        connect_all(alloc, accepted.tables(), &mut stations)?;
        let stations = locked(alloc, stations)?;
        Ok(Network {
            alloc,
            accepted,
            stations,
            plans: Plans::none(alloc),
        })
    }

    /// The stations, in the order of the nodes.
    pub fn stations(&self) -> &Vec<Mutex<Station<'t>>>
        ensures { vec_len result.now ≡ length self.now.t.nodes }
    {
        &self.stations
    }

    /// The station of a node.
    pub fn station(&self, n: NodeNo) -> &Mutex<Station<'t>>
        requires { n < length self.now.t.nodes }
    {
        &self.stations[n.place()]
    }

    /// Takes the lock of one station alone, and applies an input there. Then the pumps of plans that run are told of it; where all threads of
    /// a plan fall asleep between the step and that, turns of theirs may pass first. Whoever steps a station by its lock alone tells
    /// nobody, and is heard when the station's pump wakes up the next time.
    pub fn step_at(&self, rt: &impl Wait, n: NodeNo, input: Input) -> Result<(), StationFault>
        requires { n < length self.now.t.nodes }
        ensures { (before after : StationView) × Does before input result after }
    {
        let done = self.station(n).lock(rt).apply(input);
        self.plans.tell(rt, n.place());
        done
    }

    /// Takes the lock of one station alone, and pumps there. The pumps of plans that run are told of it.
    pub fn pump_once(&self, rt: &impl Wait, n: NodeNo)
        requires { n < length self.now.t.nodes }
        ensures { (before after : StationView) × PumpsSound before after }
    {
        self.station(n).lock(rt).pump();
        self.plans.tell(rt, n.place());
    }

    /// The same over bad links.
    pub fn pump_with(&self, rt: &impl Wait, n: NodeNo, faults: &Faults, held: &mut Held)
        requires { n < length self.now.t.nodes }
        ensures { (before after : StationView) × PumpsBy faults.now.links.items before held.old after held.new }
    {
        self.station(n).lock(rt).pump_by(faults, held);
        self.plans.tell(rt, n.place());
    }

    /// From here on a plan's pumps are told of steps that others make by this network: on its clock the thread that pumps at a node has the
    /// node's place. Returns the number by which the plan is taken out again.
    pub fn add_plan(
        &self,
        rt: &impl Wait,
        clock: &Arc<TurnClock, Global>,
    ) -> Result<u64, AllocError> {
        self.plans.add(rt, clock)
    }

    /// The plan of this number is told of nothing any more.
    pub fn remove_plan(&self, rt: &impl Wait, number: u64) {
        self.plans.remove(rt, number);
    }

    /// The stations, and whether their traces are a run in which each answer of a session was given. The network is spent, also where
    /// memory is wanting. Packets that still lie on rings are lost. The cost is that of a look at each entry, and at nodes with few
    /// sessions of each answer's way from the one before it in its session.
    pub fn finish(self, ended: &Ended) -> Result<Finished<'t>, AllocError>
        ensures whole { IfOk result (λ f. vec_len f.stations ≡ length self.entry.t.nodes) }
        ensures legal { IfOk result (λ f. All (λ s. IsLegal s.t s.n s.trace) f.stations.items) }
        // Each node approves by itself only what the issuer names it for, within its allowances.
        ensures limits { IfOk result (λ f. All (λ s. IsWithinLimits s.t s.n (history s.trace)) f.stations.items) }
        ensures verdict { IfOk result (λ f. Holds self.entry.t f.stations.items ended.now f.verdict) }
        // So all that holds of every run of the tables holds of linked traces.
        ensures safe { IfOk result (λ f. f.verdict ≡ Linked → Safe self.entry.t (λ n. history (trace_of f.stations.items n))) }
        ensures covered { IfOk result (λ f. f.verdict ≡ Linked → Covered self.entry.t (λ n. history (trace_of f.stations.items n))) }
    {
        let Network {
            alloc,
            accepted,
            stations,
            plans: _,
        } = self;
        let tables = accepted.tables();
        let stations = opened(alloc, stations)?;
        let verdict = judge(alloc, tables, stations.as_slice(), ended)?;
        Ok(Finished { stations, verdict })
    }
}
