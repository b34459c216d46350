//! What a message is known by.
ghost use Rattle.std.specs.Prelude.{◌≡◌, ◌≤◌, ◌+◌, length, bytes_eq};
ghost use Rattle.message_elements.specs.Groups.{group, is_04xx};
ghost use Rattle.message_keys.specs.Keys.{key_eq, identity_eq, part, when, has_key, key_of, own_key, has_identity, identity_of, content, content_eq, original_key, is_identified, advice_kind, padded_or_zeros};
ghost use Rattle.iso_message.specs.Made.{has_own_key};
ghost use Rattle.iso_message.specs.Fields.{get, has, el};

use card_digits::{Key, pad11};
use iso_message::{Message, bytes_of};
use message_elements::{Code, Kind, elements};

/// What an advice tells of.
#[derive(Clone, Copy, Debug, PartialEq, Eq, PartialOrd, Ord, Hash)]
pub enum AdviceKind {
    /// A request was approved by a node itself.
    StandIn,
    /// A request was taken back.
    Reversal,
}

/// What an advice is known by in every node. The forwarder is its maker's id in ASCII digits (ISO 8583, element 33, padded to
/// eleven digits), or zeros where it has none.
#[derive(Clone, Copy, Debug, PartialEq, Eq, PartialOrd, Ord, Hash)]
pub struct AdviceId {
    pub kind: AdviceKind,
    pub key: Key,
    pub forwarder: [u8; 11],
}

/// Whether two keys are one.
pub fn same_key(a: Key, b: Key) -> bool
    ensures { result ≡ key_eq a b }
{
    a == b
}

/// Whether two identities are one.
pub fn same_identity(a: AdviceId, b: AdviceId) -> bool
    ensures { result ≡ identity_eq a b }
{
    a == b
}

/// So many bytes from a place on.
fn array_at<const N: usize>(bytes: &[u8], from: usize) -> [u8; N]
    requires { from + N ≤ length bytes.now }
    ensures { result ≡ part from N bytes.now }
{
    let mut array = [0; N];
    array.copy_from_slice(&bytes[from..from + N]);
    array
}

/// Whether the elements of a request's key are there.
#[tactic(auto, unfolding(iso_message::specs::Made::has_own_key))]
pub fn has_own_key(message: &Message) -> bool
    ensures { result ≡ has_own_key message.now }
{
    message.has(elements::ACQUIRING_INSTITUTION)
        && message.has(elements::TRACE_AUDIT_NUMBER)
        && message.has(elements::TRANSMISSION_TIME)
}

/// The padded element 32, element 11 and element 7.
fn own_key(message: &Message) -> Option<Key>
    ensures { result ≡ when (has_own_key message.now) (own_key message.now) }
{
    // Every message can be written, so element 32 has at most 11 bytes, element 11 six and element 7 ten.
    let _ = message.kind();
    let acquirer = message.get(elements::ACQUIRING_INSTITUTION)?;
    let trace = message.get(elements::TRACE_AUDIT_NUMBER)?;
    let time = message.get(elements::TRANSMISSION_TIME)?;
    Some(Key {
        acquirer: pad11(acquirer),
        trace: array_at(trace, 0),
        time: array_at(time, 0),
    })
}

/// The key of the original that element 90 names, none where that element is absent.
pub fn original_key(message: &Message) -> Option<Key>
    ensures { result ≡ when (has message.now 90) (original_key message.now) }
{
    // Every message can be written, so element 90 has 42 bytes.
    let _ = message.kind();
    let original = message.get(elements::ORIGINAL_DATA)?;
    Some(Key {
        acquirer: array_at(original, 20),
        trace: array_at(original, 4),
        time: array_at(original, 10),
    })
}

/// The key of a message: that of its original where the type is 04xx, and else its own. None where one of the elements 32, 11
/// and 7, or for 04xx element 90, is absent.
pub fn key_of(message: &Message) -> Option<Key>
    ensures { result ≡ when (has_key message.now) (key_of message.now) }
{
    if message.kind().is_04xx() {
        original_key(message)
    } else {
        own_key(message)
    }
}

/// What an advice of the type tells of, or the advice that a message of the type acknowledges.
fn advice_kind(kind: Kind) -> Option<AdviceKind>
    ensures { result ≡ when (is_identified (group kind)) (advice_kind (is_04xx kind)) }
{
    match kind {
        Kind::K0100 | Kind::K0101 | Kind::K0110 => None,
        Kind::K0120 | Kind::K0121 | Kind::K0130 => Some(AdviceKind::StandIn),
        Kind::K0400 | Kind::K0401 | Kind::K0410 => Some(AdviceKind::Reversal),
        Kind::K0420 | Kind::K0421 | Kind::K0430 => Some(AdviceKind::Reversal),
    }
}

/// The padded element 33, or zeros.
fn forwarder_of(message: &Message) -> [u8; 11]
    ensures { result ≡ padded_or_zeros (get message.now 33) }
{
    // Every message can be written, so element 33 has at most 11 bytes.
    let _ = message.kind();
    match message.get(elements::FORWARDING_INSTITUTION) {
        Some(id) => pad11(id),
        None => [b'0'; 11],
    }
}

/// The identity of an advice, a reversal, or what acknowledges one. None for requests and their answers, and where the message
/// has no key.
pub fn advice_id(message: &Message) -> Option<AdviceId>
    ensures { result ≡ when (has_identity message.now) (identity_of message.now) }
{
    let kind = advice_kind(message.kind())?;
    let key = key_of(message)?;
    let forwarder = forwarder_of(message);
    Some(AdviceId {
        kind,
        key,
        forwarder,
    })
}

fn same_element(first: &Message, second: &Message, number: u8) -> bool
    ensures { result ≡ bytes_eq (el first.now number) (el second.now number) }
{
    bytes_of(first, number) == bytes_of(second, number)
}

/// Whether two messages have equal card numbers, processing codes, amounts and currencies (elements 2, 3, 4 and 49; an absent
/// one counts as empty).
#[tactic(auto, unfolding(crate::specs::Keys::content))]
pub fn same_content(first: &Message, second: &Message) -> bool
    ensures { result ≡ content_eq (content first.now) (content second.now) }
{
    let card = same_element(first, second, elements::CARD_NUMBER);
    let processing = same_element(first, second, elements::PROCESSING_CODE);
    let amount = same_element(first, second, elements::AMOUNT);
    let currency = same_element(first, second, elements::CURRENCY);
    card && processing && amount && currency
}

/// The response code, none where element 39 is absent.
pub fn code_of(message: &Message) -> Option<Code>
    ensures { result ≡ get message.now 39 }
{
    // Every message can be written, so element 39 has two bytes of text.
    let _ = message.kind();
    let code = message.get(elements::RESPONSE_CODE)?;
    Code::read(code)
}
