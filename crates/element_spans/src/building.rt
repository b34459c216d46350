//! A message of values that stand in some bytes.
ghost use Rattle.std.specs.Prelude.{◌≡◌, ◌<◌, ◌⊎◌, Ok, length, IfOk, IfErr, OnOk};
ghost use Rattle.hex.specs.Hex.{decode_sized};
ghost use Rattle.message_elements.specs.declared.fault.DecodeFault.TheVariants.{Length, Memory};
ghost use Rattle.message_elements.specs.Table.{form_of};
ghost use Rattle.element_spans.specs.Spans.{text_at, end_of};
ghost use Rattle.element_spans.specs.Building.{IsBuilt, IsDigitsFault, IsTextFault, IsFirstFault, SetsText};

use crate::span::ElementSpan;
use iso_message::{Message, is_binary};
use message_elements::{DecodeFault, Kind};
use std::alloc::Global;

/// The bytes that a span names.
fn text_at<'a>(bytes: &'a [u8], span: &ElementSpan) -> Result<&'a [u8], DecodeFault>
    ensures ok { IfOk result (λ text. text.now ≡ text_at bytes.now span.now) }
    ensures err { IfErr result (λ fault. (length bytes.now < end_of span.now) × (fault ≡ Length span.now.number)) }
{
    let within = match span.start.checked_add(span.length) {
        Some(end) => bytes.get(span.start..end),
        None => None,
    };
    within.ok_or(DecodeFault::Length(span.number))
}

/// The eight bytes that sixteen hexadecimal digits write.
fn eight_bytes(number: u8, digits: &[u8]) -> Result<[u8; 8], DecodeFault>
    ensures ok { IfOk result (λ value. decode_sized digits.now 8 ≡ Ok value) }
    ensures err { IfErr result (IsDigitsFault number digits.now) }
{
    if digits.len() != 16 {
        return Err(DecodeFault::Length(number));
    }
    let mut value = [0; 8];
    match hex::decode_to_slice(digits, &mut value) {
        Ok(()) => Ok(value),
        Err(_) => Err(DecodeFault::Character(number)),
    }
}

/// Sets an element to the value that a text writes.
fn set_text(message: &mut Message, number: u8, text: &[u8]) -> Result<(), DecodeFault>
    ensures ok { OnOk result (SetsText number text.now message.old message.new) }
    ensures err { IfErr result (λ fault. (fault ≡ Memory) ⊎ IsTextFault (form_of number) number text.now fault) }
{
    if is_binary(number) {
        let value = eight_bytes(number, text)?;
        return message.set(number, &value);
    }
    message.set(number, text)
}

/// The message of a type and of the values at spans of some bytes, each put in place of an earlier one of its number. `Length` names an element
/// whose span ends behind the bytes too. The fault is that of the first span that has one, or `Memory`.
pub fn build(
    alloc: Global,
    kind: Kind,
    bytes: &[u8],
    spans: &[ElementSpan],
) -> Result<Message, DecodeFault>
    ensures built { IfOk result (IsBuilt kind bytes.now spans.now) }
    ensures fault { IfErr result (λ fault. (fault ≡ Memory) ⊎ IsFirstFault bytes.now spans.now fault) }
{
    let mut message = Message::new(alloc, kind);
    for span in spans {
        let text = text_at(bytes, span)?;
        set_text(&mut message, span.number, text)?;
    }
    Ok(message)
}
