//! Networks that were meddled with, and what is said of them at the end.
use crate::network::{Act, seen_on, step};
use card_digits::{LinkNo, NodeNo};
use net_threads::{Ended, LineEnd, Network, SessionEnd, Verdict};
use sample_networks::Sample;
use shared_bytes::SharedBytes;
use std::alloc::{AllocError, Global};
use std::mem;
use std::sync::Wait;
use std::test::Fail;
use switch_node::Case;
use table_checker::Accepted;

/// What is done to a network.
#[derive(Clone, Copy)]
enum Trick {
    Nothing,
    /// H takes a packet that nobody put.
    StrangePacket,
    /// A session says that it got an answer that nobody gave.
    StrangeAnswer,
    /// The two stations change places.
    Swapped,
}

/// The request of 10.00 as A puts it on link AH.
const FORWARDED: &[u8] =
    b"010072220001000080001641111111111111110000000000000010000314091530000001031406400001840";

fn take<R: Wait>(rt: &R, alloc: Global, network: &Network<'_, '_>) -> Result<bool, AllocError> {
    let bytes = SharedBytes::from_slice(alloc, FORWARDED)?;
    Ok(step(rt, network, 1, Case::Take(LinkNo::new(0), 7, bytes)) == Some(Ok(())))
}

/// Two stations change places, where there are such.
fn swap<R: Wait>(rt: &R, network: &Network<'_, '_>, first: usize, second: usize) -> bool {
    let stations = network.stations();
    match (stations.get(first), stations.get(second)) {
        (Some(first), Some(second)) => {
            let mut first = first.lock(rt);
            let mut second = second.lock(rt);
            mem::swap(&mut *first, &mut *second);
            true
        }
        _ => false,
    }
}

fn play<R: Wait>(
    rt: &R,
    alloc: Global,
    network: &Network<'_, '_>,
    trick: Trick,
) -> Result<bool, AllocError> {
    match trick {
        Trick::StrangePacket => take(rt, alloc, network),
        Trick::Swapped => Ok(swap(rt, network, 0, 1)),
        _ => Ok(true),
    }
}

/// One session at A whose one line was answered with these bytes.
fn answered(alloc: Global, bytes: &[u8]) -> Result<SessionEnd, AllocError> {
    let mut lines = Vec::new(alloc);
    lines.push(LineEnd::Answer(bytes.to_vec(alloc)?))?;
    Ok(SessionEnd {
        node: NodeNo::new(0),
        lines,
    })
}

fn ended(alloc: Global, trick: Trick) -> Result<Ended, AllocError> {
    let mut sessions = Vec::new(alloc);
    if let Trick::StrangeAnswer = trick {
        sessions.push(answered(alloc, b"0110")?)?;
    }
    Ok(Ended { sessions })
}

fn verdict_on(network: Network<'_, '_>, ended: &Ended) -> Result<Verdict, Fail> {
    match network.finish(ended) {
        Ok(finished) => Ok(finished.verdict),
        Err(_) => Err("memory".into()),
    }
}

fn verdict_after(alloc: Global, network: Network<'_, '_>, trick: Trick) -> Result<Verdict, Fail> {
    match ended(alloc, trick) {
        Ok(ended) => verdict_on(network, &ended),
        Err(_) => Err("memory".into()),
    }
}

fn is_played<R: Wait>(rt: &R, alloc: Global, network: &Network<'_, '_>, trick: Trick) -> bool {
    match play(rt, alloc, network, trick) {
        Ok(is_played) => is_played,
        Err(_) => false,
    }
}

fn verdict_with<R: Wait>(
    rt: &R,
    alloc: Global,
    network: Network<'_, '_>,
    trick: Trick,
) -> Result<Verdict, Fail> {
    if is_played(rt, alloc, &network, trick) {
        verdict_after(alloc, network, trick)
    } else {
        Err("not played".into())
    }
}

impl Act for Trick {
    type Seen = Verdict;

    fn act<R: Wait>(
        &self,
        rt: &R,
        alloc: Global,
        accepted: &Accepted<'_>,
    ) -> Result<Verdict, Fail> {
        match Network::new(alloc, accepted) {
            Ok(network) => verdict_with(rt, alloc, network, *self),
            Err(_) => Err("memory".into()),
        }
    }
}

/// The verdict names the link and the serial of a packet, the session and the line of an answer, both counted from 1, and the first node in whose
/// place another stands.
#[test]
fn networks_that_were_meddled_with(rt: HostRuntime) -> Result<(), Fail> {
    for (trick, wanted) in [
        (Trick::Nothing, Verdict::Linked),
        (
            Trick::StrangePacket,
            Verdict::LinkStrange(LinkNo::new(0), 7),
        ),
        (Trick::StrangeAnswer, Verdict::AnswerStrange(1, 1)),
        (Trick::Swapped, Verdict::StationStrange(NodeNo::new(0))),
    ] {
        let verdict = seen_on(&rt, rt.alloc(), Sample::TwoNodes, &trick)?;
        assert_eq!(rt; verdict, wanted);
    }
    Ok(())
}
