//! Reading a message.
ghost use Rattle.std.specs.Prelude.{◌≡◌, ◌<◌, ◌≤◌, ◌⊎◌, true, [], ◌∷◌, length, IfOk, IfErr, OnErr, MatchResult, Ok, Err};
ghost use Rattle.hex.specs.Hex.{decode_sized};
ghost use Rattle.std.specs.List.{list_all};
ghost use Rattle.message_elements.specs.Types.{kind_of};
ghost use Rattle.message_elements.specs.Values.{fits};
ghost use Rattle.iso_message.specs.Elements.{content_at, length_at, counted_at, binary_at, field_at, with_next, with_all};
ghost use Rattle.message_elements.specs.Table.{form_of};
ghost use Rattle.message_bytes.specs.Known.{IsKnown};
ghost use Rattle.iso_message.specs.Parts.{IsEnd};
ghost use Rattle.message_elements.specs.declared.form.Class.TheVariants.{Digits};
ghost use Rattle.message_elements.specs.declared.fault.DecodeFault.TheVariants.{Memory};
ghost use Rattle.iso_message.specs.Grammar.{Spells, IsFault};
ghost use Rattle.iso_message.specs.Spelling.{IsMessage};
ghost use Rattle.iso_message.specs.Fields.{Fields};
ghost use Rattle.card_digits.specs.Attempts.{Gives};
ghost use Rattle.iso_message.specs.Messages.{marks, kind_at, map_at, second_at, read, Reads, is_memory};

use crate::elements::{Elements, Parts};
use crate::message::Message;
use card_digits::decimal;
use hex::FromHexError;
use message_bytes::{Known, bytes_of_digits};
use message_elements::{Class, DecodeFault, Form, Kind, form_at};
use std::alloc::Global;

#[tactic(auto, unfolding(crate::specs::Elements::content_at))]
#[inline(always)]
fn content_of<'a>(
    class: Class,
    size: usize,
    number: u8,
    bytes: &'a [u8],
    known: &mut Known,
) -> Result<(&'a [u8], &'a [u8]), DecodeFault>
    requires { IsKnown known.old bytes.now }
    ensures value { Reads (λ x. (x.0.now, x.1.now)) result (content_at class size number bytes.now) }
    ensures known { IfOk result (λ x. IsKnown known.new x.1.now) }
{
    if bytes.len() < size {
        return Err(DecodeFault::Short);
    }
    if !known.is_front(class, size, bytes) {
        return Err(DecodeFault::Character(number));
    }
    let (content, rest) = bytes.split_at(size);
    Ok((content, rest))
}

#[tactic(auto, unfolding(crate::specs::Elements::length_at))]
#[inline(always)]
pub(crate) fn length_of<'a>(
    width: usize,
    most: usize,
    number: u8,
    bytes: &'a [u8],
    known: &Known,
) -> Result<(usize, &'a [u8]), DecodeFault>
    requires few { width < 4 }
    requires known { IsKnown known.now bytes.now }
    ensures value { Reads (λ x. (x.0, x.1.now)) result (length_at width most number bytes.now) }
    ensures known { IfOk result (λ x. IsKnown known.now x.1.now) }
{
    if bytes.len() < width {
        return Err(DecodeFault::Short);
    }
    if !known.are_digits(width, bytes) {
        return Err(DecodeFault::Length(number));
    }
    let (digits, rest) = bytes.split_at(width);
    let len = decimal(digits) as usize;
    if len > most {
        return Err(DecodeFault::Length(number));
    }
    Ok((len, rest))
}

#[tactic(auto, unfolding(crate::specs::Elements::counted_at))]
#[inline(always)]
fn counted_of<'a>(
    width: usize,
    class: Class,
    most: usize,
    number: u8,
    bytes: &'a [u8],
    known: &mut Known,
) -> Result<(&'a [u8], &'a [u8]), DecodeFault>
    requires few { width < 4 }
    requires known { IsKnown known.old bytes.now }
    ensures value { Reads (λ x. (x.0.now, x.1.now)) result (counted_at width class most number bytes.now) }
    ensures known { IfOk result (λ x. IsKnown known.new x.1.now) }
{
    let (len, rest) = length_of(width, most, number, bytes, known)?;
    content_of(class, len, number, rest, known)
}

/// The bytes that sixteen hexadecimal digits write. Where a byte is no digit, they are looked at digit by digit for their fault.
#[inline(always)]
fn eight_bytes(digits: &[u8]) -> Result<[u8; 8], FromHexError>
    requires { length digits.now ≡ 16 }
    ensures { MatchResult result (λ bytes. decode_sized digits.now 8 ≡ Ok bytes) (λ e. decode_sized digits.now 8 ≡ Err e) }
{
    if let Some(value) = bytes_of_digits(digits) {
        return Ok(value);
    }
    let mut value = [0; 8];
    hex::decode_to_slice(digits, &mut value)?;
    Ok(value)
}

#[tactic(auto, unfolding(crate::specs::Elements::binary_at))]
pub(crate) fn binary_of(number: u8, bytes: &[u8]) -> Result<([u8; 8], &[u8]), DecodeFault>
    ensures { Reads (λ x. (x.0, x.1.now)) result (binary_at number bytes.now) }
{
    if bytes.len() < 16 {
        return Err(DecodeFault::Short);
    }
    let (digits, rest) = bytes.split_at(16);
    match eight_bytes(digits) {
        Ok(value) => Ok((value, rest)),
        Err(_) => Err(DecodeFault::Character(number)),
    }
}

/// Reads the element of a number, and adds it.
#[inline(always)]
#[tactic(auto, unfolding(crate::specs::Elements::with_next))]
fn add_next<'a>(
    parts: &mut Parts,
    number: u8,
    bytes: &'a [u8],
    known: &mut Known,
) -> Result<&'a [u8], DecodeFault>
    requires known { IsKnown known.old bytes.now }
    requires end { IsEnd bytes.now parts.old.body }
    ensures value { Gives is_memory (λ rest. (parts.new.elements, rest.now)) result (with_next parts.old.elements (form_of number) number bytes.now) }
    ensures known { IfOk result (λ rest. IsKnown known.new rest.now) }
    ensures end { IfOk result (λ rest. IsEnd rest.now parts.new.body) }
{
    match form_at(number) {
        None => Err(DecodeFault::Element(number)),
        Some(Form::Fixed(class, size)) => {
            let (content, rest) = content_of(class, size, number, bytes, known)?;
            parts.add(number, bytes, content, rest)?;
            Ok(rest)
        }
        Some(Form::Llvar(class, most)) => {
            let (content, rest) = counted_of(2, class, most, number, bytes, known)?;
            parts.add(number, bytes, content, rest)?;
            Ok(rest)
        }
        Some(Form::Lllvar(class, most)) => {
            let (content, rest) = counted_of(3, class, most, number, bytes, known)?;
            parts.add(number, bytes, content, rest)?;
            Ok(rest)
        }
        Some(Form::Binary) => {
            let (value, rest) = binary_of(number, bytes)?;
            parts.add_binary(number, &value)?;
            Ok(rest)
        }
    }
}

/// Takes the highest bit off a map, and returns the number of the element that it stands for. The lowest bit stands for the last
/// number, which is 64 for the first map and 128 for the second.
#[inline(always)]
pub fn take_mark(map: &mut u64, last: u8) -> u8
    requires some { 0 < map.old }
    requires least { 64 ≤ last }
    requires most { last ≤ 128 }
    ensures { marks last 64 map.old ≡ result ∷ marks last 64 map.new }
{
    let place = 63 - map.leading_zeros();
    *map -= 1 << place;
    last - place as u8
}

/// Reads the elements of a bit map's set bits, and adds them.
fn add_all<'a>(
    parts: &mut Parts,
    last: u8,
    map: u64,
    bytes: &'a [u8],
    known: &mut Known,
) -> Result<&'a [u8], DecodeFault>
    requires least { 64 ≤ last }
    requires most { last ≤ 128 }
    requires known { IsKnown known.old bytes.now }
    requires end { IsEnd bytes.now parts.old.body }
    ensures value { Gives is_memory (λ rest. (parts.new.elements, rest.now)) result (with_all parts.old.elements (marks last 64 map) bytes.now) }
    ensures known { IfOk result (λ rest. IsKnown known.new rest.now) }
    ensures end { IfOk result (λ rest. IsEnd rest.now parts.new.body) }
{
    let mut left = map;
    let mut rest = bytes;
    while left != 0 {
        let number = take_mark(&mut left, last);
        rest = add_next(parts, number, rest, known)?;
    }
    Ok(rest)
}

/// Reads the elements of the second map, and adds them.
#[inline(always)]
fn add_second<'a>(
    parts: &mut Parts,
    map: u64,
    bytes: &'a [u8],
    known: &mut Known,
) -> Result<&'a [u8], DecodeFault>
    requires known { IsKnown known.old bytes.now }
    requires end { IsEnd bytes.now parts.old.body }
    ensures { Gives is_memory (λ rest. (parts.new.elements, rest.now)) result (with_all parts.old.elements (marks 128 64 map) bytes.now) }
{
    if map == 0 {
        return Ok(bytes);
    }
    add_all(parts, 128, map, bytes, known)
}

/// The type that the first four bytes write, and the bytes after it. `Short`: there are fewer; `BadType`: they write no type.
#[tactic(auto, unfolding(crate::specs::Messages::kind_at))]
pub fn read_kind(bytes: &[u8]) -> Result<(Kind, &[u8]), DecodeFault>
    ensures { Reads (λ x. (x.0, x.1.now)) result (kind_at bytes.now) }
{
    if bytes.len() < 4 {
        return Err(DecodeFault::Short);
    }
    let (text, rest) = bytes.split_at(4);
    match Kind::read(text) {
        None => Err(DecodeFault::BadType),
        Some(kind) => Ok((kind, rest)),
    }
}

/// The bit map that the first sixteen bytes spell as hexadecimal digits in either case, and the bytes after it. `Short`: there are
/// fewer; `BitMap`: one is no such digit.
#[tactic(auto, unfolding(crate::specs::Messages::map_at))]
pub fn bit_map(bytes: &[u8]) -> Result<(u64, &[u8]), DecodeFault>
    ensures { Reads (λ x. (x.0, x.1.now)) result (map_at bytes.now) }
{
    if bytes.len() < 16 {
        return Err(DecodeFault::Short);
    }
    let (digits, rest) = bytes.split_at(16);
    match eight_bytes(digits) {
        Ok(value) => Ok((u64::from_be_bytes(value), rest)),
        Err(_) => Err(DecodeFault::BitMap),
    }
}

#[tactic(auto, unfolding(crate::specs::Messages::second_at))]
pub(crate) fn second_map(first: u64, bytes: &[u8]) -> Result<(u64, &[u8]), DecodeFault>
    ensures { Reads (λ x. (x.0, x.1.now)) result (second_at first bytes.now) }
{
    if first < 1 << 63 {
        return Ok((0, bytes));
    }
    bit_map(bytes)
}

/// The bits of the binary elements in the maps: 52 and 64, and 128.
const BINARY_LOW: u64 = 1 << 12 | 1;

const BINARY_HIGH: u64 = 1;

/// Puts the elements that the bytes spell in the place and the memory of older ones, and returns the type. After a fault there
/// are none.
#[tactic(auto, unfolding(crate::specs::Messages::read))]
pub(crate) fn read_into(elements: &mut Elements, bytes: &[u8]) -> Result<Kind, DecodeFault>
    ensures exact { Gives is_memory (λ kind. record { kind = kind; elements = elements.new }) result (read bytes.now) }
    ensures none { OnErr result (elements.new ≡ []) }
{
    let old = elements.take();
    let (kind, rest) = read_kind(bytes)?;
    let (first, rest) = bit_map(rest)?;
    let (second, body) = second_map(first, rest)?;
    let low = first % (1 << 63);
    let count = low.count_ones() + second.count_ones();
    let binary = (low & BINARY_LOW).count_ones() + (second & BINARY_HIGH).count_ones();
    let mut parts = Parts::of(old, count as usize, binary as usize, body)?;
    let mut known = Known::of(body);
    let rest = add_all(&mut parts, 64, low, body, &mut known)?;
    let rest = add_second(&mut parts, second, rest, &mut known)?;
    if !rest.is_empty() {
        return Err(DecodeFault::Trailing);
    }
    *elements = parts.into_elements();
    Ok(kind)
}

fn whole(alloc: Global, bytes: &[u8]) -> Result<Message, DecodeFault>
    ensures exact { Gives is_memory (λ m. m) result (read bytes.now) }
{
    let mut elements = Elements::new(alloc);
    let kind = read_into(&mut elements, bytes)?;
    Ok(Message { kind, elements })
}

/// The message that the bytes spell. `Short`: they end too early; `BadType`: no type stands at the front; `BitMap`: a byte of a
/// bit map is no hexadecimal digit; `Element`, `Length` and `Character` name an element that is not in the table, whose length
/// is no number or above the most, or that has a byte of another class; `Trailing`: bytes stand behind the last element. The
/// fault is the first one in the order of reading, or `Memory`.
pub fn decode(alloc: Global, bytes: &[u8]) -> Result<Message, DecodeFault>
    // What is read is spelled so, and can be written.
    ensures found { IfOk result (λ m. Spells bytes.now m) }
    ensures is_message { IfOk result (λ m. IsMessage m) }

    // What is spelled so is read, unless memory ran out.
    ensures only { (m : Fields) → Spells bytes.now m → Gives is_memory (λ x. x) result (Ok m) }

    // A fault stands in the place of the first piece that isn't right.
    ensures fault { IfErr result (λ e. (e ≡ Memory) ⊎ IsFault bytes.now e) }

    // Which answer it is.
    ensures exact { Gives is_memory (λ x. x) result (read bytes.now) }
{
    whole(alloc, bytes)
}
