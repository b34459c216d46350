//! Whether traces are a run.
ghost use Rattle.std.specs.Prelude.{◌≡◌, ◌≤◌, All, IfOk, MatchOption, Some, slice_get, length};
ghost use Rattle.network_law.specs.Entries.{Entry};
ghost use Rattle.network_law.specs.Runs.{IsLegal, WasPut};
ghost use Rattle.network_law.specs.Traces.{IsIn};
ghost use Rattle.net_threads.specs.Verdicts.{trace_of, far_trace, here, Decides, WasAnswered, IsOf, AreOf, IsLinked, AreLinked, IsStrange, HasStrange, IsGiven, AreGiven, IsUngiven, HasUngiven, Holds};

use crate::ended::{Ended, LineEnd, SessionEnd, Verdict};
use crate::puts::{AnswerPlaces, PutPlaces, has_answer_from, has_put};
use crate::station::Station;
use card_digits::{LinkNo, NodeNo};
use net_rows::Tables;
use same_tables::same_tables;
use std::alloc::{AllocError, Global};
use switch_node::{Case, Entry, Input};

/// The stations that are judged, by the tables that they should be of.
#[derive(Clone, Copy)]
struct Judged<'s, 'a> {
    tables: &'s Tables,
    stations: &'s [Station<'a>],
    /// Where the puts of each stand. Only speed rests on them.
    places: &'s [PutPlaces],
}

/// Whether the node at the other end put the packet.
fn was_put(judged: &Judged<'_, '_>, n: NodeNo, link: LinkNo, serial: u64, bytes: &[u8]) -> bool
    ensures { Decides result (WasPut (far_trace judged.now n link) link serial bytes.now) }
{
    let other = judged.tables.other_end(n, link).place();
    if other >= judged.stations.len() {
        return false;
    }
    let station = &judged.stations[other];
    has_put(
        judged.places.get(other),
        station.trace(),
        link,
        serial,
        bytes,
    )
}

/// The link and serial of a packet that the input takes and that was not put.
fn strange_take(judged: &Judged<'_, '_>, n: NodeNo, input: &Input) -> Option<(LinkNo, u64)>
    ensures { MatchOption result (here judged.now IsLinked n input.now) (λ p. here judged.now IsStrange n p.0 p.1 input.now) }
{
    match input.case() {
        Case::Take(link, serial, bytes) => {
            if was_put(judged, n, *link, *serial, bytes.as_slice()) {
                None
            } else {
                Some((*link, *serial))
            }
        }
        _ => None,
    }
}

/// The first of these entries.
fn strange_entry(judged: &Judged<'_, '_>, n: NodeNo, entries: &[Entry]) -> Option<(LinkNo, u64)>
    ensures { MatchOption result (All (λ e. here judged.now IsLinked n e.input) entries.now) (λ p. (e : Entry) × IsIn e entries.now × here judged.now IsStrange n p.0 p.1 e.input) }
{
    for entry in entries {
        if let Some(packet) = strange_take(judged, n, entry.input()) {
            return Some(packet);
        }
    }
    None
}

/// The first of all nodes.
fn strange_link(judged: &Judged<'_, '_>) -> Option<(LinkNo, u64)>
    requires { length judged.now.stations.now ≤ 64 }
    ensures { MatchOption result (here judged.now AreLinked) (λ p. here judged.now HasStrange p.0 p.1) }
{
    for (n, station) in judged.stations.iter().enumerate() {
        if let Some(packet) = strange_entry(judged, NodeNo::new(n), station.trace()) {
            return Some(packet);
        }
    }
    None
}

fn was_answered(
    stations: &[Station<'_>],
    places: &[AnswerPlaces],
    n: NodeNo,
    bytes: &[u8],
    from: &mut usize,
) -> bool
    ensures { Decides result (WasAnswered (trace_of stations.now n) bytes.now) }
{
    let place = n.place();
    if place >= stations.len() {
        return false;
    }
    let station = &stations[place];
    has_answer_from(places.get(place), station.trace(), from, bytes)
}

/// Whether an answer stands in the trace of the node. Looks there from a place on first, which moves to that of the answer.
fn is_given(
    stations: &[Station<'_>],
    places: &[AnswerPlaces],
    n: NodeNo,
    end: &LineEnd,
    from: &mut usize,
) -> bool
    ensures { Decides result (IsGiven stations.now n end.now) }
{
    match end {
        LineEnd::Answer(bytes) => was_answered(stations, places, n, bytes.as_slice(), from),
        _ => true,
    }
}

/// The place of the first line whose answer was not given.
fn strange_line(
    stations: &[Station<'_>],
    places: &[AnswerPlaces],
    session: &SessionEnd,
) -> Option<usize>
    ensures { MatchOption result (All (IsGiven stations.now session.now.node) session.now.lines.items) (IsUngiven stations.now session.now) }
{
    let mut from = 0;
    for (j, end) in session.lines.iter().enumerate() {
        if !is_given(stations, places, session.node, end, &mut from) {
            return Some(j);
        }
    }
    None
}

/// The places of the first such session and its line.
fn strange_answer(
    stations: &[Station<'_>],
    places: &[AnswerPlaces],
    ended: &Ended,
) -> Option<(usize, usize)>
    ensures { MatchOption result (AreGiven stations.now ended.now) (λ p. HasUngiven stations.now ended.now p.0 p.1) }
{
    for (i, session) in ended.sessions.iter().enumerate() {
        if let Some(j) = strange_line(stations, places, session) {
            return Some((i, j));
        }
    }
    None
}

/// Whether the station holds this node of the tables.
fn is_of(tables: &Tables, n: NodeNo, station: &Station<'_>) -> bool
    ensures { Decides result (IsOf tables.now n station.now) }
{
    station.place() == n && same_tables(station.tables(), tables)
}

/// The first place at which a station doesn't hold its node.
fn strange_station(tables: &Tables, stations: &[Station<'_>]) -> Option<NodeNo>
    requires { length stations.now ≤ 64 }
    ensures { MatchOption result (AreOf tables.now stations.now) (λ n. (s : _) × (slice_get stations.now n ≡ Some s) × ¬ IsOf tables.now n s) }
{
    for (n, station) in stations.iter().enumerate() {
        let place = NodeNo::new(n);
        if !is_of(tables, place, station) {
            return Some(place);
        }
    }
    None
}

fn all_put_places(
    alloc: Global,
    stations: &[Station<'_>],
    links: usize,
) -> Result<Vec<PutPlaces>, AllocError> {
    let mut places = Vec::new(alloc);
    for station in stations {
        places.push(PutPlaces::of(alloc, station.trace(), links)?)?;
    }
    Ok(places)
}

/// How many sessions at one node find their answers sooner one after the other than by an index.
const FEW_SESSIONS: usize = 16;

fn count_at(ended: &Ended, n: usize) -> usize {
    ended
        .sessions
        .iter()
        .filter(|session| session.node.place() == n)
        .count()
}

/// The answers of the nodes with many sessions. Of the first stations only, where memory is wanting for more.
fn all_answer_places(alloc: Global, stations: &[Station<'_>], ended: &Ended) -> Vec<AnswerPlaces> {
    let mut all = Vec::new(alloc);
    for (n, station) in stations.iter().enumerate() {
        let trace = if count_at(ended, n) > FEW_SESSIONS {
            station.trace()
        } else {
            &[]
        };
        let Ok(places) = AnswerPlaces::of(alloc, trace) else {
            return all;
        };
        if all.push(places).is_err() {
            return all;
        }
    }
    all
}

/// What the stations show: stations first, then links, then answers.
pub(crate) fn judge(
    alloc: Global,
    tables: &Tables,
    stations: &[Station<'_>],
    ended: &Ended,
) -> Result<Verdict, AllocError>
    requires whole { length stations.now ≡ length tables.now.nodes }
    requires legal { All (λ s. IsLegal s.t s.n s.trace) stations.now }
    ensures { IfOk result (Holds tables.now stations.now ended.now) }
{
    // There are at most 64 nodes, and what the rows point to is there.
    let _ = tables.nodes();
    if let Some(n) = strange_station(tables, stations) {
        return Ok(Verdict::StationStrange(n));
    }
    let places = all_put_places(alloc, stations, tables.links().len())?;
    let judged = Judged {
        tables,
        stations,
        places: places.as_slice(),
    };
    if let Some((link, serial)) = strange_link(&judged) {
        return Ok(Verdict::LinkStrange(link, serial));
    }
    let places = all_answer_places(alloc, stations, ended);
    if let Some((session, line)) = strange_answer(stations, places.as_slice(), ended) {
        return Ok(Verdict::AnswerStrange(session.saturating_add(1), line.saturating_add(1)));
    }
    Ok(Verdict::Linked)
}
