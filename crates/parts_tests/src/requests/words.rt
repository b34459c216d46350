//! Keys, cards and requests of the tests.
use card_digits::{Card, Key, LinkNo};
use iso_message::Message;
use message_elements::Kind;
use pending_book::{Request, Source};
use std::alloc::Global;

/// What a test says of a request.
#[derive(Clone, Copy)]
pub(crate) enum Shape {
    /// Neither card nor link. The request waits for so many ticks.
    Plain(u16),
    /// A card, and the place of a link. The request waits for ten ticks.
    OfCard(&'static str, u8),
    /// The same for one tick.
    DueAtOnce(&'static str, u8),
}

fn digits(number: u32) -> [u8; 6] {
    let mut digits = [b'0'; 6];
    let mut rest = number;
    for place in 0..6 {
        digits[5 - place] = b'0' + (rest % 10) as u8;
        rest /= 10;
    }
    digits
}

/// The numbers of two keys that have one hash: the first eight bytes of their times are the hasher's state before them, and so one
/// factor of the hash is 0, whatever the other is.
pub(crate) const SAME_HASH: [u32; 2] = [1_000_001, 2_000_001];

fn time(number: u32) -> [u8; 10] {
    if number < SAME_HASH[0] {
        *b"0314091530"
    } else if number < SAME_HASH[1] {
        [211, 7, 103, 203, 35, 26, 255, 5, 48, 48]
    } else {
        [211, 7, 103, 203, 35, 26, 255, 5, 49, 48]
    }
}

/// The key of a number.
pub(crate) fn key(number: u32) -> Key {
    Key {
        acquirer: *b"00000400001",
        trace: digits(number),
        time: time(number),
    }
}

pub(crate) fn card(text: &str) -> Option<Card> {
    Card::read(text.as_bytes()).ok()
}

pub(crate) fn link(place: u8) -> LinkNo {
    LinkNo::new(place as usize)
}

fn request_of(alloc: Global, card: Option<Card>, link: Option<LinkNo>, ticks: u16) -> Request {
    Request {
        message: Message::new(alloc, Kind::K0100),
        card,
        source: Source::Gate,
        link,
        ticks,
    }
}

pub(crate) fn request(alloc: Global, shape: Shape) -> Request {
    match shape {
        Shape::Plain(ticks) => request_of(alloc, None, None, ticks),
        Shape::OfCard(text, place) => request_of(alloc, card(text), Some(link(place)), 10),
        Shape::DueAtOnce(text, place) => request_of(alloc, card(text), Some(link(place)), 1),
    }
}
