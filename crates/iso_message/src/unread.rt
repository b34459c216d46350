//! A message that is read element by element, and isn't kept.
ghost use Rattle.std.specs.Prelude.{◌≡◌, ◌≤◌, ◌==◌, true, false, [], ◌∷◌, length, take, drop, MatchOption, MatchResult, IfOk, IfSome, OnErr, None, Ok, Err};
ghost use Rattle.message_elements.specs.Table.{form_of};
ghost use Rattle.iso_message.specs.Elements.{element_at};
ghost use Rattle.iso_message.specs.Heads.{HasFault, HasHead, HasValue, parted, value_behind};
ghost use Rattle.message_bytes.specs.Known.{IsKnown};
ghost use Rattle.iso_message.specs.Messages.{Reads, read};
ghost use Rattle.iso_message.specs.Spelling.{Ascends, is_binary};
ghost use Rattle.iso_message.specs.Unread.{read_on};

use crate::reading::{binary_of, bit_map, length_of, read_kind, second_map, take_mark};
use message_bytes::Known;
use message_elements::{Class, DecodeFault, FixedForm, Form, Kind, fixed_form_at, form_at};
use std::marker::Model;

/// What of a message is still to be read: the elements of its maps' bits.
#[derive(Debug, Drop)]
pub struct Unread<'a> {
    low: u64,
    high: u64,
    bytes: &'a [u8],
    known: Known,
}

impl<'a> Model for Unread<'a> {
    ghost use Rattle.std.specs.Prelude.{◌++◌};
    ghost use Rattle.message_bytes.specs.Known.{IsKnown};
    ghost use Rattle.iso_message.specs.Messages.{marks};
    ghost use Rattle.iso_message.specs.Unread.{Left};

    ghost Value = { Left };

    ghost view = { λ a. record { numbers = marks 64 64 a.low ++ marks 128 64 a.high; bytes = a.bytes.now } };

    ghost invariant = { λ a. IsKnown a.known a.bytes.now };
}

/// Where the value of an element stands: its class and its length, and the bytes from its first on.
#[derive(Clone, Copy, Debug)]
struct Head<'a> {
    class: Class,
    size: usize,
    front: &'a [u8],
}

/// The head of the element that bytes begin with, none for an element of eight bytes.
#[inline(always)]
#[tactic(auto, unfolding(crate::specs::Elements::counted_at))]
fn head_of<'a>(number: u8, bytes: &'a [u8], known: &Known) -> Result<Option<Head<'a>>, DecodeFault>
    requires { IsKnown known.now bytes.now }
    ensures value { MatchResult result (λ x. MatchOption x (is_binary (form_of number) ≡ true) (HasHead number bytes.now)) (HasFault number bytes.now) }
    ensures other { IfOk result (λ x. IfSome x (λ _. is_binary (form_of number) ≡ false)) }
    ensures known { IfOk result (λ x. IfSome x (λ head. IsKnown known.now head.front.now)) }
{
    if let Some(FixedForm { class, size }) = fixed_form_at(number) {
        let size = size as usize;
        return Ok(Some(Head {
            class,
            size,
            front: bytes,
        }));
    }
    match form_at(number) {
        None => Err(DecodeFault::Element(number)),
        // Was found above.
        Some(Form::Fixed(class, size)) => Ok(Some(Head {
            class,
            size,
            front: bytes,
        })),
        Some(Form::Llvar(class, most)) => {
            let (size, front) = length_of(2, most, number, bytes, known)?;
            Ok(Some(Head { class, size, front }))
        }
        Some(Form::Lllvar(class, most)) => {
            let (size, front) = length_of(3, most, number, bytes, known)?;
            Ok(Some(Head { class, size, front }))
        }
        Some(Form::Binary) => Ok(None),
    }
}

/// What is known where the value behind a head is of its class, of which it has so many bytes.
#[inline(always)]
#[tactic(auto, unfolding(crate::specs::Elements::content_at))]
fn with_value(head: Head, number: u8, known: Known) -> Result<Known, DecodeFault>
    requires { IsKnown known head.front.now }
    ensures value { Reads (λ _. parted head.entry) result (value_behind head.entry number) }
    ensures size { IfOk result (λ _. head.entry.size ≤ length head.entry.front.now) }
    ensures known { IfOk result (λ k. IsKnown k head.entry.front.now) }
{
    if head.front.len() < head.size {
        return Err(DecodeFault::Short);
    }
    match known.with_front(head.class, head.size, head.front) {
        Some(more) => Ok(more),
        None => Err(DecodeFault::Character(number)),
    }
}

impl<'a> Unread<'a> {
    /// Reads the type and the maps that bytes begin with.
    #[tactic(auto, unfolding(crate::specs::Messages::read))]
    #[inline(always)]
    pub fn of(bytes: &'a [u8]) -> Result<(Kind, Unread<'a>), DecodeFault>
        ensures read { MatchResult result (λ x. read bytes.now ≡ read_on x.0 [] x.1) (λ fault. read bytes.now ≡ Err fault) }
        ensures order { IfOk result (λ x. Ascends 1 128 x.1.numbers) }
    {
        let (kind, rest) = read_kind(bytes)?;
        let (first, rest) = bit_map(rest)?;
        let (high, body) = second_map(first, rest)?;
        let unread = Unread {
            low: first % (1 << 63),
            high,
            bytes: body,
            known: Known::of(body),
        };
        Ok((kind, unread))
    }

    /// Takes the number of the next element, none where there is none.
    #[inline(always)]
    pub fn next_number(&mut self) -> Option<u8>
        ensures numbers { MatchOption result (self.old.numbers ≡ []) (λ number. self.old.numbers ≡ number ∷ self.new.numbers) }
        ensures bytes { self.new.bytes ≡ self.old.bytes }
        ensures none { result ≡ None → self.new ≡ self.old }
    {
        if self.low != 0 {
            return Some(take_mark(&mut self.low, 64));
        }
        if self.high != 0 {
            return Some(take_mark(&mut self.high, 128));
        }
        None
    }

    /// Takes the bytes of the element of this number: all from its first on, and how many of them are its own. None where it is one of
    /// eight bytes, which isn't taken. Nothing is taken where it has a fault.
    #[inline(always)]
    pub fn take_plain(&mut self, number: u8) -> Result<Option<(&'a [u8], usize)>, DecodeFault>
        ensures value { MatchResult result (λ x. MatchOption x (self.new.bytes ≡ self.old.bytes) (λ y. HasValue number self.old.bytes (take y.1 y.0.now) self.new.bytes)) (HasFault number self.old.bytes) }
        ensures size { IfOk result (λ x. IfSome x (λ y. y.1 ≤ length y.0.now)) }
        ensures behind { IfOk result (λ x. IfSome x (λ y. drop y.1 y.0.now ≡ self.new.bytes)) }
        ensures variant { IfOk result (λ x. MatchOption x (is_binary (form_of number) ≡ true) (λ _. is_binary (form_of number) ≡ false)) }
        ensures numbers { self.new.numbers ≡ self.old.numbers }
        ensures err { OnErr result (self.new.bytes ≡ self.old.bytes) }
    {
        match head_of(number, self.bytes, &self.known)? {
            None => Ok(None),
            Some(head) => {
                self.known = with_value(head, number, self.known)?;
                let (_, rest) = head.front.split_at(head.size);
                self.bytes = rest;
                Ok(Some((head.front, head.size)))
            }
        }
    }

    /// Takes the eight bytes of the element of this number, nothing where it has a fault.
    #[inline(always)]
    pub fn take_binary(&mut self, number: u8) -> Result<[u8; 8], DecodeFault>
        requires { is_binary (form_of number) ≡ true }
        ensures value { Reads (λ value. (value, self.new.bytes)) result (element_at number self.old.bytes) }
        ensures numbers { self.new.numbers ≡ self.old.numbers }
        ensures err { OnErr result (self.new.bytes ≡ self.old.bytes) }
    {
        let (value, rest) = binary_of(number, self.bytes)?;
        self.bytes = rest;
        Ok(value)
    }

    /// Whether no bytes are left.
    #[inline(always)]
    pub fn is_at_end(&self) -> bool
        ensures { result ≡ (length self.now.bytes == 0) }
    {
        self.bytes.is_empty()
    }
}
