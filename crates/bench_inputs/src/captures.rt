//! Captures of messages: lines or frames.
use crate::messages::{push_binary_request, push_long_advice, push_request};
use crate::random::Random;
use crate::text::Text;
use std::alloc::{AllocError, Global};

/// What a capture has.
#[derive(Clone, Copy)]
pub enum Capture {
    /// Requests, and each fourth a long advice.
    Mixed,
    /// The same with carriage returns.
    CarriageReturns,
    /// Long advices, and requests with elements of eight bytes.
    Long,
    /// Good messages and faults in turn, and lines without bytes.
    Faults,
}

fn push_mixed(text: &mut Text, random: &mut Random, place: u64) -> Result<(), AllocError> {
    let card = random.below(1_000_000_000);
    if place % 4 == 3 {
        push_long_advice(text, card, place)
    } else {
        push_request(text, card, place % 9_000, place, 400_001)
    }
}

fn push_long(text: &mut Text, random: &mut Random, place: u64) -> Result<(), AllocError> {
    let card = random.below(1_000_000_000);
    if place % 2 == 1 {
        push_long_advice(text, card, place)
    } else {
        push_binary_request(text, card, place)
    }
}

fn push_faulty(text: &mut Text, random: &mut Random, place: u64) -> Result<(), AllocError> {
    match place % 8 {
        1 => text.push(b"0100x2200001"),
        3 => text.push(b"010072200001000080001641111111111111x1000000"),
        5 => text.push(b"0999"),
        6 => Ok(()),
        7 => {
            push_mixed(text, random, place)?;
            text.push(b"0")
        }
        _ => push_mixed(text, random, place),
    }
}

impl Capture {
    /// A capture of so many lines.
    pub fn lines(self, alloc: Global, random: &mut Random, lines: u64) -> Result<Text, AllocError> {
        let mut text = match self {
            Capture::CarriageReturns => Text::with_carriage_returns(alloc),
            _ => Text::new(alloc),
        };
        for place in 0..lines {
            match self {
                Capture::Mixed => push_mixed(&mut text, random, place)?,
                Capture::CarriageReturns => push_mixed(&mut text, random, place)?,
                Capture::Long => push_long(&mut text, random, place)?,
                Capture::Faults => push_faulty(&mut text, random, place)?,
            }
            text.end_line()?;
        }
        Ok(text)
    }
}

fn push_frame(text: &mut Text, message: &Text) -> Result<(), AllocError> {
    let len = message.len();
    text.push_byte((len / 256 % 256) as u8)?;
    text.push_byte((len % 256) as u8)?;
    text.push(message.as_bytes())
}

/// Requests and advices in frames, and at the end one that is cut.
pub fn frames(alloc: Global, random: &mut Random, count: u64) -> Result<Text, AllocError> {
    let mut text = Text::new(alloc);
    let mut message = Text::new(alloc);
    for place in 0..count {
        message.clear();
        push_mixed(&mut message, random, place)?;
        push_frame(&mut text, &message)?;
    }
    text.push(b"\x00\x53cut")?;
    Ok(text)
}
