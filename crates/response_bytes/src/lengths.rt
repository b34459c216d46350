//! How long the pieces of elements are.
ghost use Rattle.std.specs.Prelude.{◌≡◌, ℕ, ◌<◌, ◌≤◌, ◌%◌, ◌++◌, List, Some, None, length, IfSome};
ghost use Rattle.message_elements.specs.Fixed.{fixed_of};
ghost use Rattle.message_elements.specs.Table.{form_of};
ghost use Rattle.iso_message.specs.Spelling.{IsGood, piece, two_digits, three_digits};

use message_elements::{FixedForm, Form, fixed_form_at, form_at};

/// The value of an ASCII digit.
#[inline(always)]
fn digit(byte: u8) -> usize
    ensures { result ≡ byte % 16 }
{
    (byte % 16) as usize
}

/// The number that the first two digits write, none where there are fewer bytes.
#[inline(always)]
#[tactic(auto, using(crate::proofs::PieceLengths::two_there, crate::proofs::PieceLengths::two_read))]
fn two_digits(bytes: &[u8]) -> Option<usize>
    ensures number { (n : ℕ) (rest : List ℕ) → n < 100 → bytes.now ≡ two_digits n ++ rest → result ≡ Some n }
    ensures bound { IfSome result (λ n. n < 2000) }
{
    if bytes.len() < 2 {
        return None;
    }
    Some(10 * digit(bytes[0]) + digit(bytes[1]))
}

/// The number that the first three digits write, none where there are fewer bytes.
#[inline(always)]
#[tactic(auto, using(crate::proofs::PieceLengths::three_there, crate::proofs::PieceLengths::three_read))]
fn three_digits(bytes: &[u8]) -> Option<usize>
    ensures number { (n : ℕ) (rest : List ℕ) → n < 1000 → bytes.now ≡ three_digits n ++ rest → result ≡ Some n }
    ensures bound { IfSome result (λ n. n < 2000) }
{
    if bytes.len() < 3 {
        return None;
    }
    Some(100 * digit(bytes[0]) + 10 * digit(bytes[1]) + digit(bytes[2]))
}

/// How many bytes the piece of an element takes that the bytes begin with, where its form is of no fixed length.
fn other_length(number: u8, bytes: &[u8]) -> Option<usize>
    ensures { (value rest : List ℕ) → IsGood (form_of number) value → bytes.now ≡ piece (form_of number) value ++ rest → result ≡ Some (length (piece (form_of number) value)) }
{
    match form_at(number) {
        None => None,
        Some(Form::Fixed(_, size)) => Some(size),
        Some(Form::Llvar(_, _)) => {
            let len = two_digits(bytes)?;
            Some(2 + len)
        }
        Some(Form::Lllvar(_, _)) => {
            let len = three_digits(bytes)?;
            Some(3 + len)
        }
        Some(Form::Binary) => Some(16),
    }
}

/// How many bytes the piece of an element takes that the bytes begin with, none where they end before.
#[inline(always)]
pub(crate) fn piece_length(number: u8, bytes: &[u8]) -> Option<usize>
    ensures within { IfSome result (λ len. len ≤ length bytes.now) }
    ensures piece { (value rest : List ℕ) → IsGood (form_of number) value → bytes.now ≡ piece (form_of number) value ++ rest → result ≡ Some (length (piece (form_of number) value)) }
{
    let len = match fixed_form_at(number) {
        Some(FixedForm { size, .. }) => size as usize,
        None => other_length(number, bytes)?,
    };
    if len <= bytes.len() { Some(len) } else { None }
}
