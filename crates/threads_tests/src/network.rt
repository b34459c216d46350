//! The networks of the tests, and steps at their nodes. Nothing is promised of these functions, so that a test is proved fast.

use card_digits::NodeNo;
use net_rows::Tables;
use net_tables::read_tables;
use net_threads::{Network, StationFault};
use rank_cert::{Cert, read_cert};
use sample_networks::Sample;
use std::alloc::{AllocError, Global};
use std::sync::Wait;
use std::test::Fail;
use switch_node::{Case, Input};
use table_checker::{Accepted, check};

pub(crate) fn tables(alloc: Global, sample: Sample) -> Result<Tables, Fail> {
    let text = sample.tables(alloc)?;
    match read_tables(alloc, text.as_bytes()) {
        Ok(tables) => Ok(tables),
        Err(_) => Err("tables".into()),
    }
}

pub(crate) fn ranks(alloc: Global, sample: Sample) -> Result<Cert, Fail> {
    match read_cert(alloc, sample.ranks().as_bytes()) {
        Ok(cert) => Ok(cert),
        Err(_) => Err("ranks".into()),
    }
}

/// What a test without threads does with accepted tables. Tables, ranks and what was accepted are each held by a function of its own:
/// it is the ways out of a function beside such a value that take long to prove.
pub(crate) trait Act {
    type Seen: Drop;

    fn act<R: Wait>(
        &self,
        rt: &R,
        alloc: Global,
        accepted: &Accepted<'_>,
    ) -> Result<Self::Seen, Fail>;
}

fn on_ranked<R: Wait, A: Act>(
    rt: &R,
    alloc: Global,
    tables: &Tables,
    cert: &Cert,
    act: &A,
) -> Result<A::Seen, Fail> {
    match check(alloc, tables, cert) {
        Ok(accepted) => act.act(rt, alloc, &accepted),
        Err(_) => Err("not accepted".into()),
    }
}

fn on_tables<R: Wait, A: Act>(
    rt: &R,
    alloc: Global,
    tables: &Tables,
    sample: Sample,
    act: &A,
) -> Result<A::Seen, Fail> {
    match ranks(alloc, sample) {
        Ok(cert) => on_ranked(rt, alloc, tables, &cert, act),
        Err(fail) => Err(fail),
    }
}

/// What is seen of an act on the tables of a sample.
pub(crate) fn seen_on<R: Wait, A: Act>(
    rt: &R,
    alloc: Global,
    sample: Sample,
    act: &A,
) -> Result<A::Seen, Fail> {
    match tables(alloc, sample) {
        Ok(tables) => on_tables(rt, alloc, &tables, sample, act),
        Err(fail) => Err(fail),
    }
}

/// A request of 10.00 by acquirer 400001 for card 4111111111111111, with a trace number.
pub(crate) fn request(alloc: Global, trace: usize) -> Result<String, AllocError> {
    format!(in alloc;
        "010072200001000080001641111111111111110000000000000010000314091530{trace:06}06400001840"
    )
}

/// A step at a node. None where there is no such node.
pub(crate) fn step<R: Wait>(
    rt: &R,
    network: &Network<'_, '_>,
    n: usize,
    case: Case,
) -> Option<Result<(), StationFault>> {
    if n >= 64 || n >= network.stations().len() {
        return None;
    }
    Some(network.step_at(rt, NodeNo::new(n), Input::new(case)))
}

/// How many entries a node's trace has.
pub(crate) fn entries<R: Wait>(rt: &R, network: &Network<'_, '_>, n: usize) -> usize {
    match network.stations().get(n) {
        Some(station) => station.lock(rt).trace().len(),
        None => 0,
    }
}
