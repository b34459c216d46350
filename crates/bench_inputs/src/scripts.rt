//! Scripts of nodes: a day at two nodes.
use crate::messages::push_request;
use crate::random::Random;
use crate::text::Text;
use sample_networks::Sample;
use std::alloc::{AllocError, Global};

/// What happens in a script, besides requests that are answered.
#[derive(Clone, Copy)]
pub enum Traffic {
    /// So many requests, each answered before the next.
    Answered(u64),
    /// The first number of requests wait, and the second are answered beside them.
    Beside(u64, u64),
    /// So many times the link goes down with so many requests under way, which are reversed, and their reversals acknowledged.
    Failing(u64, u64),
    /// So many times so many requests are approved while the link is down, and their advices acknowledged.
    StandIn(u64, u64),
}

/// What was put and asked up to now.
#[derive(Drop)]
struct Serials {
    trace: u64,
    at_gate: u64,
    at_home: u64,
    asks: u64,
}

/// Ticks after which an advice is sent again.
const ADVICE_TICKS: u64 = 50;

fn push_enter(
    text: &mut Text,
    random: &mut Random,
    serials: &mut Serials,
) -> Result<(), AllocError> {
    text.push(b"enter A ")?;
    serials.trace = serials.trace.wrapping_add(1);
    let card = random.below(1_000_000_000);
    push_request(text, card, 10, serials.trace, 400_001)?;
    text.end_line()
}

fn push_numbered(text: &mut Text, words: &[u8], number: u64) -> Result<(), AllocError> {
    text.push(words)?;
    text.number(number)?;
    text.end_line()
}

/// The home takes what the gate put next, and the gate what the home answers.
fn push_acknowledged(text: &mut Text, serials: &mut Serials) -> Result<(), AllocError> {
    serials.at_gate = serials.at_gate.wrapping_add(1);
    push_numbered(text, b"take AH H ", serials.at_gate)?;
    serials.at_home = serials.at_home.wrapping_add(1);
    push_numbered(text, b"take AH A ", serials.at_home)
}

/// A request to the host and back.
fn push_answered(
    text: &mut Text,
    random: &mut Random,
    serials: &mut Serials,
) -> Result<(), AllocError> {
    push_enter(text, random, serials)?;
    serials.at_gate = serials.at_gate.wrapping_add(1);
    push_numbered(text, b"take AH H ", serials.at_gate)?;
    serials.asks = serials.asks.wrapping_add(1);
    text.push(b"host H ")?;
    text.number(serials.asks)?;
    text.line(b" 00")?;
    serials.at_home = serials.at_home.wrapping_add(1);
    push_numbered(text, b"take AH A ", serials.at_home)
}

fn push_ticks(text: &mut Text) -> Result<(), AllocError> {
    for _ in 0..ADVICE_TICKS {
        text.line(b"tick A")?;
    }
    Ok(())
}

fn push_beside(
    text: &mut Text,
    random: &mut Random,
    serials: &mut Serials,
    waiting: u64,
    count: u64,
) -> Result<(), AllocError> {
    for _ in 0..waiting {
        push_enter(text, random, serials)?;
    }
    serials.at_gate = serials.at_gate.wrapping_add(waiting);
    for _ in 0..count {
        push_answered(text, random, serials)?;
    }
    Ok(())
}

/// Requests whose link goes down, and the acknowledgement of their reversals.
fn push_failing(
    text: &mut Text,
    random: &mut Random,
    serials: &mut Serials,
    count: u64,
) -> Result<(), AllocError> {
    for _ in 0..count {
        push_enter(text, random, serials)?;
    }
    serials.at_gate = serials.at_gate.wrapping_add(count);
    text.line(b"down AH A")?;
    text.line(b"up AH A")?;
    push_ticks(text)?;
    for _ in 0..count {
        push_acknowledged(text, serials)?;
    }
    Ok(())
}

/// Requests that the gate approves by itself, and the acknowledgement of their advices.
fn push_stand_in(
    text: &mut Text,
    random: &mut Random,
    serials: &mut Serials,
    count: u64,
) -> Result<(), AllocError> {
    text.line(b"down AH A")?;
    for _ in 0..count {
        push_enter(text, random, serials)?;
    }
    text.line(b"up AH A")?;
    push_ticks(text)?;
    for _ in 0..count {
        push_acknowledged(text, serials)?;
    }
    Ok(())
}

impl Traffic {
    fn push(self, text: &mut Text, random: &mut Random) -> Result<(), AllocError> {
        let mut serials = Serials {
            trace: 0,
            at_gate: 0,
            at_home: 0,
            asks: 0,
        };
        match self {
            Traffic::Answered(count) => push_beside(text, random, &mut serials, 0, count)?,
            Traffic::Beside(waiting, count) => {
                push_beside(text, random, &mut serials, waiting, count)?
            }
            Traffic::Failing(times, count) => {
                for _ in 0..times {
                    push_failing(text, random, &mut serials, count)?;
                }
            }
            Traffic::StandIn(times, count) => {
                for _ in 0..times {
                    push_stand_in(text, random, &mut serials, count)?;
                }
            }
        }
        Ok(())
    }

    fn network(self) -> Sample {
        match self {
            Traffic::StandIn(_, _) => Sample::LimitAtA,
            _ => Sample::TwoNodes,
        }
    }

    /// Tables, ranks and a script.
    pub fn bundle(self, alloc: Global, random: &mut Random) -> Result<Text, AllocError> {
        let mut text = Text::new(alloc);
        let network = self.network();
        let tables = network.tables(alloc)?;
        text.push(tables.as_bytes())?;
        text.line(b"%%")?;
        text.push(network.ranks().as_bytes())?;
        text.line(b"%%")?;
        self.push(&mut text, random)?;
        Ok(text)
    }
}
