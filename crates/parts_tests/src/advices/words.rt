//! Advices and grants of the tests.
use crate::requests::words::key;
use advice_store::{Advice, Grant, ItemName};
use card_digits::{Amount, Card, DateLabel, DigitFault};
use iso_message::{Message, encode};
use kept_messages::KeptMessage;
use message_elements::Kind;
use message_keys::{AdviceId, AdviceKind};
use shared_bytes::SharedBytes;
use std::alloc::{AllocError, Global};

/// What a test names an item by.
#[derive(Clone, Copy)]
pub(crate) enum Name {
    Advice(u32),
    Grant(u64),
}

/// Advices from this number on are reversals: this one has the key of 0, the next the key of 1, and so on.
pub(crate) const REVERSALS: u32 = 500_000;

/// The identity of a number.
pub(crate) fn id(number: u32) -> AdviceId {
    let (kind, key_number) = if number < REVERSALS {
        (AdviceKind::StandIn, number)
    } else {
        (AdviceKind::Reversal, number - REVERSALS)
    };
    AdviceId {
        kind,
        key: key(key_number),
        forwarder: *b"00000001001",
    }
}

pub(crate) fn item_name(wanted: Name) -> ItemName {
    match wanted {
        Name::Advice(number) => ItemName::Advice(id(number)),
        Name::Grant(number) => ItemName::Grant(number),
    }
}

/// A message without elements, as the store keeps it.
fn message(alloc: Global) -> Result<KeptMessage, AllocError> {
    let message = Message::new(alloc, Kind::K0120);
    let bytes = encode(alloc, &message)?;
    let shared = SharedBytes::from_vec(alloc, bytes)?;
    Ok(KeptMessage::new(&message, shared))
}

pub(crate) fn advice(alloc: Global, number: u32) -> Result<Advice, AllocError> {
    let message = message(alloc)?;
    Ok(Advice {
        id: id(number),
        message,
        put: false,
    })
}

pub(crate) fn grant(number: u64) -> Result<Grant, DigitFault> {
    Ok(Grant {
        lender: *b"00000001001",
        number,
        borrower: *b"00000001003",
        card: Card::read(b"4111111111111111")?,
        date: DateLabel::read(b"0314")?,
        amount: Amount::read(b"000000000100")?,
    })
}
