//! Finding the elements of a message.
ghost use Rattle.std.specs.Prelude.{◌≡◌, ℕ, ◌+◌, ◌<◌, ◌≤◌, ◌^◌, [], Err, All, length, map, IfOk, IfErr};
ghost use Rattle.message_elements.specs.declared.fault.DecodeFault.{DecodeFault};
ghost use Rattle.message_elements.specs.declared.kind.Kind.{Kind};
ghost use Rattle.message_elements.specs.Table.{form_of};
ghost use Rattle.iso_message.specs.Elements.{field_at};
ghost use Rattle.iso_message.specs.Messages.{read};
ghost use Rattle.iso_message.specs.Spelling.{Ascends};
ghost use Rattle.iso_message.specs.Unread.{read_on};
ghost use Rattle.message_text.specs.Room.{line_room};
ghost use Rattle.element_spans.specs.Spans.{LocatesAll, HasCount, TakesElement, LaysOut, length_digits, moved, end_of};

use crate::span::ElementSpan;
use iso_message::Unread;
use message_elements::{DecodeFault, Form, form_at};
use thiserror::Error;

/// Why the elements of a message weren't found.
#[derive(Clone, Copy, Debug, PartialEq, Eq, Error)]
pub enum LocateFault {
    /// The bytes spell no message.
    #[error("{0}")]
    Message(DecodeFault),
    /// The message has more elements than there are places for spans: so many.
    #[error("the message has {0} elements")]
    TooFewPlaces(usize),
}

/// How many elements there are, and how many bytes their pieces have.
#[derive(Clone, Copy, Debug, PartialEq, Eq)]
struct Body {
    count: usize,
    length: usize,
}

/// How many digits of its length an element begins with.
#[inline]
fn length_digits(number: u8) -> usize
    ensures { result ≡ length_digits (form_of number) }
{
    match form_at(number) {
        Some(Form::Llvar(_, _)) => 2,
        Some(Form::Lllvar(_, _)) => 3,
        _ => 0,
    }
}

/// Takes the element of a number, whose piece begins at a place.
#[inline]
fn take_next(number: u8, place: usize, left: &mut Unread) -> Result<ElementSpan, DecodeFault>
    requires { place < 2 ^ 63 }
    ensures span { IfOk result (TakesElement number place left.old.bytes left.new.bytes) }
    ensures fault { IfErr result (λ fault. field_at (form_of number) number left.old.bytes ≡ Err fault) }
    ensures numbers { left.new.numbers ≡ left.old.numbers }
    ensures end { IfOk result (λ s. end_of s < place + line_room number) }
{
    match left.take_plain(number)? {
        Some((_, size)) => Ok(ElementSpan {
            start: place + length_digits(number),
            length: size,
            number,
        }),
        None => {
            let _value = left.take_binary(number)?;
            Ok(ElementSpan {
                start: place,
                length: 16,
                number,
            })
        }
    }
}

/// Takes all elements, and puts their spans as they are where the first element begins at 0, as many as have a place.
fn take_all(unread: Unread, spans: &mut [ElementSpan]) -> Result<Body, DecodeFault>
    requires { Ascends 1 128 unread.numbers }
    ensures laid { IfOk result (λ body. LaysOut unread.entry spans.new body.count body.length) }
    ensures fault { IfErr result (λ fault. (kind : Kind) → read_on kind [] unread.entry ≡ Err fault) }
{
    let mut left = unread;
    let mut count = 0;
    let mut end = 0;
    while let Some(number) = left.next_number() {
        let span = take_next(number, end, &mut left)?;
        end = span.start + span.length;
        if count < spans.len() {
            spans[count] = span;
        }
        count += 1;
    }
    if !left.is_at_end() {
        return Err(DecodeFault::Trailing);
    }
    Ok(Body { count, length: end })
}

/// Moves spans so many bytes on.
fn move_on(spans: &mut [ElementSpan], by: usize)
    requires { All (λ s. s.start + by < 2 ^ 64) spans.old }
    ensures { spans.new ≡ map (moved by) spans.old }
{
    for span in spans.iter_mut() {
        span.start += by;
    }
}

/// Finds the elements of the message that the bytes spell, and puts their spans at the front, in ascending order of number. Returns how many
/// there are. The fault of the message is the first one in the order of reading.
pub fn locate(message: &[u8], spans: &mut [ElementSpan]) -> Result<usize, LocateFault>
    ensures count { IfOk result (λ count. count ≤ length spans.new) }
    ensures spans { IfOk result (LocatesAll message.now spans.new) }
    ensures fault { (fault : DecodeFault) → result ≡ Err (LocateFault.Message fault) → read message.now ≡ Err fault }
    ensures places { (count : ℕ) → result ≡ Err (LocateFault.TooFewPlaces count) → HasCount message.now count × (length spans.old < count) }
{
    let (_kind, unread) = match Unread::of(message) {
        Ok(read) => read,
        Err(fault) => return Err(LocateFault::Message(fault)),
    };
    let body = match take_all(unread, spans) {
        Ok(body) => body,
        Err(fault) => return Err(LocateFault::Message(fault)),
    };
    if body.count > spans.len() {
        return Err(LocateFault::TooFewPlaces(body.count));
    }
    move_on(&mut spans[..body.count], message.len() - body.length);
    Ok(body.count)
}
