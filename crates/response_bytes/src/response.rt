//! Making a response.
ghost use Rattle.std.specs.Prelude.{◌≡◌, ℕ, ◌+◌, ◌-◌, ◌<◌, ◌≤◌, ◌^◌, ◌++◌, List, [], length, Ok, true, false, IfOk, IfSome, OnOk, OnErr, MatchOption, vec_len, vec_capacity};
ghost use Rattle.message_elements.specs.declared.kind.Kind.{Kind};
ghost use Rattle.iso_message.specs.Fields.{Fields};
ghost use Rattle.iso_message.specs.Made.{response};
ghost use Rattle.iso_message.specs.Spans.{IsLonger};
ghost use Rattle.iso_message.specs.Spelling.{Ascends, IsMessage, bits, high_numbers, numbers_of, pieces, spelling};
ghost use Rattle.response_bytes.specs.Taken.{Elements, ForElements, ForMessage, IsTaken, WroteAll, answered, numbers};

use crate::lengths::piece_length;
use iso_message::{bit_map, is_in_response, map_digits, read_kind, take_mark};
use message_elements::{Code, Kind, elements};
use std::alloc::AllocError;

/// The bits of the elements that a response carries of its message (2, 3, 4, 7, 11, 15, 32, 33, 37, 41 and 49) in the first map.
const CARRIED: u64 = 1 << 62
    | 1 << 61
    | 1 << 60
    | 1 << 57
    | 1 << 53
    | 1 << 49
    | 1 << 32
    | 1 << 31
    | 1 << 27
    | 1 << 23
    | 1 << 15;

/// The bit of the response code.
const CODE: u64 = 1 << (64 - elements::RESPONSE_CODE);

/// The first map of the response to a message with this first map.
fn response_map(first: u64) -> u64
    ensures { (es : Elements) (code : List ℕ) → Ascends 1 64 (numbers es) → first ≡ bits 64 (numbers es) → result ≡ bits 64 (numbers (answered code es)) }
{
    first & CARRIED | CODE
}

/// Copies the pieces of the elements that a response carries behind the bytes of a buffer, of those that are left in a map up to a number.
/// Returns what follows them, none where the bytes end before.
#[inline(always)]
fn push_kept<'a>(
    left: &mut u64,
    up_to: u8,
    body: &'a [u8],
    out: &mut Vec<u8>,
) -> Result<Option<&'a [u8]>, AllocError>
    requires least { 1 ≤ up_to }
    requires most { up_to ≤ 64 }
    ensures taken { ForElements left.old body.now (λ es. IfOk result (λ found. MatchOption found ⊥ (λ rest. IsTaken up_to es left.new rest.now out.old.items out.new.items))) }
    ensures longer { IsLonger out.old.items out.new.items }
    ensures capacity { vec_capacity out.old ≤ vec_capacity out.new }
    ensures room { IfOk result (λ found. IfSome found (λ rest. vec_len out.new + length rest.now ≤ vec_len out.old + length body.now)) }
    ensures full { OnErr result (vec_capacity out.old < vec_len out.old + length body.now) }
{
    let mut at = 0;
    let mut from = 0;
    while *left >= 1 << (64 - up_to) {
        let number = take_mark(left, 64);
        let Some(len) = piece_length(number, &body[at..]) else {
            return Ok(None);
        };
        if !is_in_response(number) {
            out.extend_from_slice(&body[from..at])?;
            from = at + len;
        }
        at += len;
    }
    out.extend_from_slice(&body[from..at])?;
    Ok(Some(&body[at..]))
}

/// Writes the pieces of the response to a message of these elements. Returns whether the bytes have them all.
fn push_pieces(first: u64, body: &[u8], code: Code, out: &mut Vec<u8>) -> Result<bool, AllocError>
    ensures made { ForElements first body.now (λ es. IfOk result (WroteAll out.old.items out.new.items (pieces (answered code es)))) }
    ensures longer { IsLonger out.old.items out.new.items }
    ensures full { OnErr result (vec_capacity out.old < vec_len out.old + (length body.now + 2)) }
{
    let mut left = first;
    let Some(rest) = push_kept(&mut left, elements::RESPONSE_CODE - 1, body, out)? else {
        return Ok(false);
    };
    out.extend_from_slice(code.as_slice())?;
    match push_kept(&mut left, 64, rest, out)? {
        Some(_) => Ok(true),
        None => Ok(false),
    }
}

/// Writes the response to a message of this type, first map and body. Returns whether the body has all elements of the map.
fn push_parts(
    kind: Kind,
    first: u64,
    body: &[u8],
    code: Code,
    out: &mut Vec<u8>,
) -> Result<bool, AllocError>
    ensures made { ForMessage kind first body.now (λ m. IfOk result (WroteAll out.old.items out.new.items (spelling (response m code)))) }
    ensures longer { IsLonger out.old.items out.new.items }
    ensures full { OnErr result (vec_capacity out.old < vec_len out.old + (length body.now + 22)) }
{
    out.extend_from_slice(kind.response().as_slice())?;
    out.extend_from_slice(&map_digits(response_map(first)))?;
    push_pieces(first, body, code, out)
}

/// Appends the bytes that spell the response, with a code, to the message that some bytes spell: its type, its first map with the bits of the
/// elements that a response carries and of the code, and their pieces, which are copied as they stand. Returns whether it was made. That
/// isn't so of a message with an element above 64, nor of bytes that spell no message; the buffer is unchanged then, and where memory is
/// refused, which is asked for only where the buffer has no room for two bytes more than the message has.
pub fn push_response(bytes: &[u8], code: Code, out: &mut Vec<u8>) -> Result<bool, AllocError>
    ensures made { (m : Fields) → IsMessage m → bytes.now ≡ spelling m → result ≡ Ok true → out.new.items ≡ out.old.items ++ spelling (response m code) }
    ensures left { (m : Fields) → IsMessage m → bytes.now ≡ spelling m → high_numbers (numbers_of m) ≡ [] → result ≡ Ok false → ⊥ }
    ensures unchanged { result ≡ Ok false → out.new.items ≡ out.old.items }
    ensures refused { OnErr result (out.new.items ≡ out.old.items) }
    ensures full { OnErr result (vec_capacity out.old < vec_len out.old + (length bytes.now + 2)) }
{
    let Ok((kind, rest)) = read_kind(bytes) else {
        return Ok(false);
    };
    let Ok((first, body)) = bit_map(rest) else {
        return Ok(false);
    };
    if first >= 1 << 63 {
        return Ok(false);
    }
    let start = out.len();
    out.reserve(bytes.len() + 2)?;
    match push_parts(kind, first, body, code, out) {
        Ok(true) => Ok(true),
        Ok(false) => {
            out.truncate(start);
            Ok(false)
        }
        Err(refused) => {
            out.truncate(start);
            Err(refused)
        }
    }
}
