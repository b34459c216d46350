//! Elements, as a node reads them.
ghost use Rattle.std.specs.Prelude.{◌≡◌, bytes_eq};
ghost use Rattle.card_digits.specs.Numbers.{decimal};
ghost use Rattle.message_keys.specs.Keys.{code_of, own_key, part};
ghost use Rattle.message_elements.specs.Codes.{code_00};
ghost use Rattle.iso_message.specs.Fields.{el};
ghost use Rattle.network_law.specs.Refusals.{strange_original, strange_actual};

use card_digits::{Amount, decimal, pad11};
use iso_message::{Message, bytes_of};
use message_elements::{elements, response_codes};
use message_keys::actual_amount;

/// So many bytes from a place on, fewer where the bytes end.
fn part(bytes: &[u8], from: usize, count: usize) -> &[u8]
    ensures { result.now ≡ part from count bytes.now }
{
    let rest = &bytes[from.min(bytes.len())..];
    &rest[..count.min(rest.len())]
}

/// The acquiring institution of the message (element 32), padded.
pub fn acquirer_of(message: &Message) -> [u8; 11]
    ensures { result ≡ (own_key message.now).acquirer }
{
    // Every message can be written, so element 32 has at most 11 digits.
    let _ = message.kind();
    pad11(bytes_of(message, elements::ACQUIRING_INSTITUTION))
}

/// The amount of the message (element 4), 0 where it is absent.
pub fn amount_of(message: &Message) -> Amount
    ensures { result ≡ decimal (el message.now 4) }
{
    // Every message can be written, so element 4 has 12 digits.
    let _ = message.kind();
    Amount::new(decimal(bytes_of(message, elements::AMOUNT)))
}

/// Whether a reversal, or what answers one, names no request of its own acquirer in element 90.
pub fn strange_original(message: &Message) -> bool
    ensures { result ≡ strange_original message.now }
{
    if !message.kind().is_04xx() {
        return false;
    }
    let original = bytes_of(message, elements::ORIGINAL_DATA);
    let request = part(original, 0, 4) == b"0100".as_slice();
    let own = part(original, 20, 11) == acquirer_of(message).as_slice();
    !(request && own)
}

/// Whether element 95 is there, and what should be its actual amount is no number, or more than the amount of element 4.
pub fn strange_actual(message: &Message) -> bool
    ensures { result ≡ strange_actual message.now }
{
    if !message.has(elements::REPLACEMENT_AMOUNTS) {
        return false;
    }
    match actual_amount(message) {
        Some(actual) => amount_of(message).value() < actual.value(),
        None => true,
    }
}

/// Whether the message's response code (element 39) approves.
#[tactic(auto, unfolding(message_keys::specs::Keys::code_of))]
pub fn is_approval(message: &Message) -> bool
    ensures { result ≡ bytes_eq (code_of message.now) code_00 }
{
    bytes_of(message, elements::RESPONSE_CODE) == response_codes::APPROVED.as_slice()
}
