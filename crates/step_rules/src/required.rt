//! The elements that a message must have.
ghost use Rattle.std.specs.Prelude.{◌≡◌};
ghost use Rattle.message_elements.specs.Groups.{group};
ghost use Rattle.network_law.specs.Refusals.{required_entered, required_taken, first_missing, missing};

use crate::elements::strange_original;
use iso_message::Message;
use message_elements::{Group, Kind, elements};

/// The elements of a message of this group that an acquirer enters.
pub fn required_entered(group: Group) -> &'static [u8]
    ensures { result.now ≡ required_entered group }
{
    match group {
        Group::AuthorizationRequest => &[2, 3, 4, 7, 11, 32, 49],
        Group::Reversal => &[2, 3, 4, 7, 11, 32, 49, 90],
        Group::AuthorizationResponse
        | Group::Advice
        | Group::AdviceResponse
        | Group::ReversalResponse => &[],
    }
}

/// The elements of a message of this group and type that comes by a link.
pub fn required_taken(group: Group, kind: Kind) -> &'static [u8]
    ensures { result.now ≡ required_taken group kind }
{
    match group {
        Group::AuthorizationRequest => &[2, 3, 4, 7, 11, 15, 32, 49],
        Group::AuthorizationResponse => &[7, 11, 32, 39],
        Group::Advice => &[2, 3, 4, 7, 11, 15, 32, 33, 39, 49],
        Group::Reversal => &[2, 3, 4, 7, 11, 32, 49, 90],
        Group::AdviceResponse => match kind {
            Kind::K0130 => &[7, 11, 32, 33, 39],
            _ => &[32, 39, 90],
        },
        Group::ReversalResponse => &[],
    }
}

/// These elements without those in front that the message has in the same order. Both ascend, so one walk mostly leaves none.
fn without_front<'n>(message: &Message, numbers: &'n [u8]) -> &'n [u8]
    ensures { first_missing message.now numbers.now ≡ first_missing message.now result.now }
{
    let mut left = numbers;
    for (number, _) in message.iter() {
        let Some((first, behind)) = left.split_first() else {
            return left;
        };
        if *first == number {
            left = behind;
        }
    }
    left
}

/// The first of these elements that the message lacks.
fn first_missing(message: &Message, numbers: &[u8]) -> Option<u8>
    ensures { result ≡ first_missing message.now numbers.now }
{
    let left = without_front(message, numbers);
    for number in left {
        if !message.has(*number) {
            return Some(*number);
        }
    }
    None
}

/// The same, and 90 where that names no request of the message's own acquirer.
fn missing(message: &Message, numbers: &[u8]) -> Option<u8>
    ensures { result ≡ missing message.now numbers.now }
{
    let absent = first_missing(message, numbers);
    if absent.is_some() {
        return absent;
    }
    if strange_original(message) {
        return Some(elements::ORIGINAL_DATA);
    }
    None
}

/// The first element that a message lacks to be entered at a gate: 90 also where it names no request of the message's own acquirer.
pub fn missing_entered(message: &Message) -> Option<u8>
    ensures { result ≡ missing message.now (required_entered (group message.now.kind)) }
{
    missing(message, required_entered(message.kind().group()))
}

/// The same of a message that comes by a link.
pub fn missing_taken(message: &Message) -> Option<u8>
    ensures { result ≡ missing message.now (required_taken (group message.now.kind) message.now.kind) }
{
    let kind = message.kind();
    missing(message, required_taken(kind.group(), kind))
}
