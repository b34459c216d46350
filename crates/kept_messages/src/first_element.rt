//! The bytes of a message behind its type, and those of its first element.
ghost use Rattle.std.specs.Prelude.{◌≡◌, ℕ, ◌<◌, ◌++◌, List, length, MatchOption};
ghost use Rattle.message_elements.specs.declared.kind.Kind.{Kind};
ghost use Rattle.message_elements.specs.Types.{kind_text};
ghost use Rattle.iso_message.specs.Fields.{Fields, as_kind, el};
ghost use Rattle.iso_message.specs.Spelling.{IsMessage, bits, low_numbers, numbers_of, pieces, spelling, two_digits};

use iso_message::{bit_map, read_kind};

/// The first bit of a first map, which says that a second map follows.
const SECOND_MAP: u64 = 1 << 63;

/// The bit of the card number (element 2), which is the first element of a message that has one.
const CARD_NUMBER: u64 = 1 << 62;

/// What follows the type in the bytes of a message. Another type in front of it spells the message under that type.
pub(crate) fn behind_type(bytes: &[u8]) -> &[u8]
    ensures { (m : Fields) (kind : Kind) → bytes.now ≡ spelling m → kind_text kind ++ result.now ≡ spelling (as_kind kind m) }
{
    if bytes.len() < 4 {
        return &[];
    }
    let (_, behind) = bytes.split_at(4);
    behind
}

/// The bits of the elements up to 64 of a message, and the bytes of its elements. None where the bytes spell no message.
fn elements_of(bytes: &[u8]) -> Option<(u64, &[u8])>
    ensures { (m : Fields) → IsMessage m → bytes.now ≡ spelling m → MatchOption result ⊥ (λ found. (found.0 ≡ bits 64 (low_numbers (numbers_of m))) × (found.1.now ≡ pieces m.elements)) }
{
    let Ok((_kind, maps)) = read_kind(bytes) else {
        return None;
    };
    let Ok((first, behind)) = bit_map(maps) else {
        return None;
    };
    if first < SECOND_MAP {
        return Some((first, behind));
    }
    let Ok((_second, elements)) = bit_map(behind) else {
        return None;
    };
    Some((first - SECOND_MAP, elements))
}

/// The value of an element that the bytes begin with, whose length two digits tell.
#[tactic(auto, using(response_bytes::proofs::PieceLengths::two_there, response_bytes::proofs::PieceLengths::two_read))]
fn first_value(bytes: &[u8]) -> &[u8]
    ensures { (value rest : List ℕ) → length value < 100 → bytes.now ≡ two_digits (length value) ++ (value ++ rest) → result.now ≡ value }
{
    if bytes.len() < 2 {
        return &[];
    }
    let len = 10 * (bytes[0] % 16) as usize + (bytes[1] % 16) as usize;
    if bytes.len() < 2 + len {
        return &[];
    }
    &bytes[2..2 + len]
}

/// The card number of the message that the bytes spell, nothing where it has none.
pub(crate) fn card_number(bytes: &[u8]) -> &[u8]
    ensures { (m : Fields) → IsMessage m → bytes.now ≡ spelling m → result.now ≡ el m 2 }
{
    let Some((elements, values)) = elements_of(bytes) else {
        return &[];
    };
    if elements < CARD_NUMBER {
        return &[];
    }
    first_value(values)
}
