//! Plans for a tree of nodes, whose root is the home of all cards.
use crate::messages::push_request;
use crate::random::Random;
use crate::text::Text;
use std::alloc::{AllocError, Global};

/// How many nodes there are and how many are linked to each, and how many sessions there are and requests of each. Sessions stand at the
/// nodes in turn, the last node first.
#[derive(Clone, Copy)]
pub struct Load {
    pub nodes: u64,
    pub children: u64,
    /// So many nodes have sessions.
    pub gates: u64,
    pub sessions: u64,
    pub requests: u64,
}

fn parent(load: Load, node: u64) -> u64 {
    match node.saturating_sub(1).checked_div(load.children) {
        Some(parent) => parent,
        None => 0,
    }
}

/// How many links lead from a node to the root.
fn depth(load: Load, node: u64) -> u64 {
    let mut depth = 0;
    let mut at = node;
    for step in 0..64 {
        if at != 0 {
            at = parent(load, at);
            depth = step + 1;
        }
    }
    depth
}

fn gate(load: Load, session: u64) -> u64 {
    let place = match session.checked_rem(load.gates) {
        Some(place) => place,
        None => 0,
    };
    load.nodes.saturating_sub(place.saturating_add(1))
}

fn push_name(text: &mut Text, kind: u8, node: u64) -> Result<(), AllocError> {
    text.push_byte(kind)?;
    text.number(node.wrapping_add(1))
}

/// A line of a key and a quoted name.
fn push_named(text: &mut Text, key: &[u8], kind: u8, node: u64) -> Result<(), AllocError> {
    text.push(key)?;
    push_name(text, kind, node)?;
    text.line(b"\"")
}

fn push_settings(text: &mut Text) -> Result<(), AllocError> {
    text.line(b"[network]")?;
    text.line(b"currency = \"840\"")?;
    text.line(b"date = \"0314\"")?;
    text.line(b"host_ticks = 4000")?;
    text.line(b"advice_ticks = 4000")
}

fn push_nodes(text: &mut Text, load: Load) -> Result<(), AllocError> {
    for node in 0..load.nodes {
        text.line(b"[[node]]")?;
        push_named(text, b"name = \"", b'N', node)?;
        text.push(b"id = \"")?;
        text.number(node.wrapping_add(1_001))?;
        text.line(b"\"")?;
    }
    Ok(())
}

fn push_links(text: &mut Text, load: Load) -> Result<(), AllocError> {
    for node in 1..load.nodes {
        text.line(b"[[link]]")?;
        push_named(text, b"name = \"", b'L', node)?;
        text.push(b"ends = [\"")?;
        push_name(text, b'N', node)?;
        text.push(b"\", \"")?;
        push_name(text, b'N', parent(load, node))?;
        text.line(b"\"]")?;
        text.line(b"ticks = 4000")?;
    }
    Ok(())
}

fn push_acquirer(text: &mut Text, session: u64) -> Result<(), AllocError> {
    text.digits(session.wrapping_add(400_001), 6)
}

fn push_acquirers(text: &mut Text, load: Load) -> Result<(), AllocError> {
    for session in 0..load.sessions {
        text.line(b"[[acquirer]]")?;
        text.push(b"id = \"")?;
        push_acquirer(text, session)?;
        text.line(b"\"")?;
        push_named(text, b"node = \"", b'N', gate(load, session))?;
    }
    Ok(())
}

fn push_issuer(text: &mut Text) -> Result<(), AllocError> {
    text.line(b"[[issuer]]")?;
    text.line(b"name = \"I\"")?;
    text.line(b"prefix = \"4\"")?;
    text.line(b"home = \"N1\"")?;
    text.line(b"named = []")?;
    text.line(b"ceiling = 0")
}

fn push_routes(text: &mut Text, load: Load) -> Result<(), AllocError> {
    for node in 1..load.nodes {
        text.line(b"[[route]]")?;
        push_named(text, b"node = \"", b'N', node)?;
        text.line(b"prefix = \"4\"")?;
        text.push(b"links = [\"")?;
        push_name(text, b'L', node)?;
        text.line(b"\"]")?;
    }
    Ok(())
}

fn push_ranks(text: &mut Text, load: Load) -> Result<(), AllocError> {
    text.line(b"RANKS 1")?;
    for node in 0..load.nodes {
        push_name(text, b'N', node)?;
        text.push(b" 4 ")?;
        text.number(depth(load, node))?;
        text.end_line()?;
    }
    text.line(b"END")
}

/// The requests of a session. The host approves 1,000 at most, so some are refused.
fn push_session(
    text: &mut Text,
    random: &mut Random,
    load: Load,
    session: u64,
) -> Result<(), AllocError> {
    text.push(b"session ")?;
    push_acquirer(text, session)?;
    text.end_line()?;
    for trace in 0..load.requests {
        text.push(b"send ")?;
        let card = random.below(1_000_000_000);
        let amount = random.below(1_100);
        push_request(text, card, amount, trace, session.wrapping_add(400_001))?;
        text.end_line()?;
    }
    Ok(())
}

fn push_plan(text: &mut Text, random: &mut Random, load: Load) -> Result<(), AllocError> {
    text.line(b"PLAN 1")?;
    text.line(b"turns 4000000000")?;
    text.line(b"tick_every 0")?;
    text.line(b"host N1 1000")?;
    for session in 0..load.sessions {
        push_session(text, random, load, session)?;
    }
    text.line(b"END")
}

impl Load {
    /// Tables, ranks and a plan over good links.
    pub fn bundle(self, alloc: Global, random: &mut Random) -> Result<Text, AllocError> {
        let mut text = Text::new(alloc);
        push_settings(&mut text)?;
        push_nodes(&mut text, self)?;
        push_links(&mut text, self)?;
        push_acquirers(&mut text, self)?;
        push_issuer(&mut text)?;
        push_routes(&mut text, self)?;
        text.line(b"%%")?;
        push_ranks(&mut text, self)?;
        text.line(b"%%")?;
        push_plan(&mut text, random, self)?;
        Ok(text)
    }
}
