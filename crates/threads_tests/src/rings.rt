//! Rings between nodes that nobody pumps meanwhile.
use crate::network::{Act, entries, request, seen_on, step};
use card_digits::{LinkNo, NodeNo};
use link_rings::Held;
use net_threads::{Network, StationFault};
use run_plan::{Delay, Faults, LinkFaults};
use sample_networks::Sample;
use shared_bytes::SharedBytes;
use std::alloc::Global;
use std::sync::Wait;
use std::test::Fail;
use switch_node::Case;
use table_checker::Accepted;

/// Enters requests at the first node, from trace number 1 on. False where one is refused.
fn enter_all<R: Wait>(
    rt: &R,
    alloc: Global,
    network: &Network<'_, '_>,
    count: usize,
) -> Result<bool, Fail> {
    for k in 0..count {
        let text = request(alloc, k + 1)?;
        let bytes = SharedBytes::from_slice(alloc, text.as_bytes())?;
        if step(rt, network, 0, Case::Enter(bytes)) != Some(Ok(())) {
            return Ok(false);
        }
    }
    Ok(true)
}

/// Pumps the second node so often.
fn pump_all<R: Wait>(rt: &R, network: &Network<'_, '_>, count: usize) {
    if network.stations().len() < 2 {
        return;
    }
    for _ in 0..count {
        network.pump_once(rt, NodeNo::new(1));
    }
}

/// How many entries the nodes have after so many requests at the first and as many pumps of the second.
fn after_pumps<R: Wait>(
    rt: &R,
    alloc: Global,
    network: &Network<'_, '_>,
    count: usize,
) -> Result<(usize, usize), Fail> {
    if !enter_all(rt, alloc, network, count)? {
        return Err("refused".into());
    }
    pump_all(rt, network, count);
    Ok((entries(rt, network, 0), entries(rt, network, 1)))
}

/// So many requests at the first node, and as many pumps of the second.
#[derive(Clone, Copy)]
struct Pumps {
    count: usize,
}

impl Act for Pumps {
    type Seen = (usize, usize);

    fn act<R: Wait>(
        &self,
        rt: &R,
        alloc: Global,
        accepted: &Accepted<'_>,
    ) -> Result<(usize, usize), Fail> {
        match Network::new(alloc, accepted) {
            Ok(network) => after_pumps(rt, alloc, &network, self.count),
            Err(_) => Err("memory".into()),
        }
    }
}

/// A ring has room for 64 packets. The 65th is lost, and nothing else is.
#[test]
fn full_ring_loses_one(rt: HostRuntime) -> Result<(), Fail> {
    let seen = seen_on(&rt, rt.alloc(), Sample::TwoNodes, &Pumps { count: 65 })?;
    assert_eq!(rt; seen, (65, 64));
    Ok(())
}

/// The fault of link BH at the first node, if that leaves it without an entry.
fn strange_link_up<R: Wait>(rt: &R, network: &Network<'_, '_>) -> Option<StationFault> {
    match step(rt, network, 0, Case::LinkUp(LinkNo::new(1))) {
        Some(Err(fault)) if entries(rt, network, 0) == 0 => Some(fault),
        _ => None,
    }
}

/// Takes the link BH up at A.
#[derive(Clone, Copy)]
struct StrangeLink;

impl Act for StrangeLink {
    type Seen = Option<StationFault>;

    fn act<R: Wait>(
        &self,
        rt: &R,
        alloc: Global,
        accepted: &Accepted<'_>,
    ) -> Result<Option<StationFault>, Fail> {
        match Network::new(alloc, accepted) {
            Ok(network) => Ok(strange_link_up(rt, &network)),
            Err(_) => Err("memory".into()),
        }
    }
}

/// Link BH is none of A's.
#[test]
fn a_link_of_other_nodes(rt: HostRuntime) -> Result<(), Fail> {
    let seen = seen_on(&rt, rt.alloc(), Sample::LineOfTwoHomes, &StrangeLink)?;
    assert_eq!(rt; seen, Some(StationFault::StrangeLink));
    Ok(())
}

/// The first link holds each second packet back for two turns, and each third is taken twice.
fn delayed_and_repeated(alloc: Global) -> Result<Faults, Fail> {
    let mut faults = Faults::none(alloc);
    faults.links.push(LinkFaults {
        lose: None,
        delay: Some(Delay { every: 2, turns: 2 }),
        repeat: Some(3),
    })?;
    Ok(faults)
}

/// Pumps the second node so often over these links.
fn pump_over<R: Wait>(
    rt: &R,
    alloc: Global,
    network: &Network<'_, '_>,
    faults: &Faults,
    count: usize,
) -> Result<(), Fail> {
    if network.stations().len() < 2 {
        return Err("no second node".into());
    }
    let mut held = Held::new(alloc, 1)?;
    for _ in 0..count {
        network.pump_with(rt, NodeNo::new(1), faults, &mut held);
    }
    Ok(())
}

/// The serials that the second node took, one digit for each.
fn serials<R: Wait>(rt: &R, alloc: Global, network: &Network<'_, '_>) -> Result<String, Fail> {
    let mut serials = String::new(alloc);
    if let Some(station) = network.stations().get(1) {
        for entry in station.lock(rt).trace() {
            if let Case::Take(_, serial, _) = entry.input().case() {
                serials.push_str(format!(in alloc; "{serial}")?.as_str())?;
            }
        }
    }
    Ok(serials)
}

/// Four requests at the first node, and so many turns of the second node's pump.
#[derive(Clone, Copy)]
struct Delays {
    turns: usize,
}

fn after_delays<R: Wait>(
    rt: &R,
    alloc: Global,
    network: &Network<'_, '_>,
    turns: usize,
) -> Result<String, Fail> {
    let faults = delayed_and_repeated(alloc)?;
    if !enter_all(rt, alloc, network, 4)? {
        return Err("refused".into());
    }
    pump_over(rt, alloc, network, &faults, turns)?;
    serials(rt, alloc, network)
}

impl Act for Delays {
    type Seen = String;

    fn act<R: Wait>(&self, rt: &R, alloc: Global, accepted: &Accepted<'_>) -> Result<String, Fail> {
        match Network::new(alloc, accepted) {
            Ok(network) => after_delays(rt, alloc, &network, self.turns),
            Err(_) => Err("memory".into()),
        }
    }
}

/// The second packet is taken two turns after it was popped, behind both takes of the third; the fourth waits as long.
#[test]
fn delayed_and_repeated_packets_have_an_order(rt: HostRuntime) -> Result<(), Fail> {
    let alloc = rt.alloc();
    let three = seen_on(&rt, alloc, Sample::TwoNodes, &Delays { turns: 3 })?;
    assert_eq!(rt; three.as_str(), "133");
    let five = seen_on(&rt, alloc, Sample::TwoNodes, &Delays { turns: 5 })?;
    assert_eq!(rt; five.as_str(), "1332");
    let six = seen_on(&rt, alloc, Sample::TwoNodes, &Delays { turns: 6 })?;
    assert_eq!(rt; six.as_str(), "13324");
    Ok(())
}
