//! Card numbers.
ghost use Rattle.std.specs.Prelude.{◌≡◌, ◌≤◌, ◌<◌, length, IfOk, ◌%◌, ◌==◌, true, if◌then◌else◌};
ghost use Rattle.card_digits.specs.Digits.{AreDigitsWithin, digits_of};
ghost use Rattle.card_digits.specs.Reading.{read_digits};
ghost use Rattle.card_digits.specs.Longest.{begins};
ghost use Rattle.std.specs.Char.{is_ascii_digit};
ghost use Rattle.std.specs.List.{list_all};
ghost use Rattle.card_digits.specs.Numbers.{doubled, passes_luhn, luhn_sum};

use crate::prefix::Prefix;
use crate::short_bytes::{ShortBytes, all_digits};
use std::marker::Model;
use thiserror::Error;

/// Why bytes are no digits.
#[derive(Clone, Copy, Debug, PartialEq, Eq, Error)]
pub enum DigitFault {
    #[error("a byte is no digit")]
    NotDigit,
    #[error("a wrong number of digits")]
    Length,
}

/// A card number of 8 to 19 digits.
#[derive(Clone, Copy, Debug, PartialEq, Eq, PartialOrd, Ord, Hash)]
pub struct Card {
    digits: ShortBytes<19>,
}

impl Model for Card {
    ghost use Rattle.std.specs.Prelude.{ℕ, List};
    ghost use Rattle.card_digits.specs.Digits.{IsCard};

    ghost Value = { List ℕ };

    ghost view = { λ a. a.digits };

    ghost invariant = { λ a. IsCard a.digits };

    ghost inverse = { λ ds. record { digits = ds } };
}

impl Card {
    ghost use Rattle.card_digits.specs.Digits.{IsCard};
    ghost use Rattle.card_digits.specs.Reading.{read_digits};

    /// The card number that ASCII digits write. A byte that is no digit is reported before the length.
    pub fn read(text: &[u8]) -> Result<Card, DigitFault>
        ensures { result ≡ read_digits 8 19 text.now }
    {
        let digits = read(text, 8)?;
        Ok(Card { digits })
    }

    /// The same of bytes that are known to be digits, and aren't looked at for that.
    pub fn read_known(text: &[u8]) -> Result<Card, DigitFault>
        requires { list_all is_ascii_digit text.now ≡ true }
        ensures { result ≡ read_digits 8 19 text.now }
    {
        let digits = read_known(text, 8)?;
        Ok(Card { digits })
    }

    /// The digits in order, as numbers.
    pub fn digits(&self) -> &[u8]
        ensures digits { result.now ≡ self.now }
        ensures few { length result.now ≤ 19 }
        ensures form { IsCard result.now }
    {
        self.digits.as_slice()
    }
}

/// From `least` to `N` digits.
#[tactic(auto, using(crate::proofs::Within::digits_within))]
pub(crate) fn read<const N: usize>(text: &[u8], least: usize) -> Result<ShortBytes<N>, DigitFault>
    requires { N < 256 }
    ensures value { result ≡ read_digits least N text.now }
    ensures within { IfOk result (AreDigitsWithin least N) }
{
    if all_digits(text) {
        read_known(text, least)
    } else {
        Err(DigitFault::NotDigit)
    }
}

/// The same of bytes that are known to be digits.
#[tactic(auto, using(crate::proofs::Within::digits_within))]
pub(crate) fn read_known<const N: usize>(
    text: &[u8],
    least: usize,
) -> Result<ShortBytes<N>, DigitFault>
    requires short { N < 256 }
    requires digits { list_all is_ascii_digit text.now ≡ true }
    ensures value { result ≡ read_digits least N text.now }
    ensures within { IfOk result (AreDigitsWithin least N) }
{
    if text.len() < least || text.len() > N {
        return Err(DigitFault::Length);
    }
    Ok(ShortBytes::from_digits(text))
}

/// Whether the prefix is the card's first digits.
pub fn begins(prefix: &Prefix, card: &Card) -> bool
    ensures { result ≡ begins prefix.now card.now }
{
    card.digits().starts_with(prefix.digits())
}

/// Whether the prefix is the first digits of the class.
pub fn begins_class(prefix: &Prefix, class: &Prefix) -> bool
    ensures { result ≡ begins prefix.now class.now }
{
    class.digits().starts_with(prefix.digits())
}

/// Whether the check digit is right by the Luhn formula (ISO/IEC 7812-1, annex B).
pub fn luhn(card: &Card) -> bool
    ensures { result ≡ passes_luhn card.now }
{
    luhn_sum(card.digits()) % 10 == 0
}

/// The same of a card number that stands in ASCII digits.
pub fn luhn_text(text: &[u8]) -> bool
    requires digits { list_all is_ascii_digit text.now ≡ true }
    requires few { length text.now ≤ 19 }
    ensures { result ≡ passes_luhn (digits_of text.now) }
{
    let mut sum = 0u32;
    for (i, byte) in text.iter().enumerate() {
        sum += worth(*byte - b'0', text.len() - 1 - i);
    }
    sum % 10 == 0
}

fn luhn_sum(digits: &[u8]) -> u32
    requires { length digits.now ≤ 19 }
    ensures { result ≡ luhn_sum digits.now }
{
    let mut sum = 0u32;
    for (i, digit) in digits.iter().enumerate() {
        sum += worth(*digit, digits.len() - 1 - i);
    }
    sum
}

/// What a digit counts for, with so many digits to the right of it.
#[inline(always)]
fn worth(digit: u8, to_right: usize) -> u32
    ensures value { result ≡ (if to_right % 2 == 1 then doubled digit else digit) }
    ensures small { result ≤ 255 }
{
    if to_right % 2 == 1 {
        doubled(digit)
    } else {
        digit as u32
    }
}

/// The digit doubled, and the digits of the double added.
fn doubled(digit: u8) -> u32
    ensures value { result ≡ doubled digit }
    ensures small { result ≤ 255 }
{
    let double = 2 * digit as u32;
    double / 10 + double % 10
}
