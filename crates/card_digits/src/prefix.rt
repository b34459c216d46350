//! Prefixes of card numbers.
ghost use Rattle.std.specs.Prelude.{◌≡◌, ◌<◌, ◌≤◌, length, take, true, All, Some};
ghost use Rattle.std.specs.Char.{is_ascii_digit};
ghost use Rattle.std.specs.List.{list_all};

use crate::card::{Card, DigitFault, read, read_known};
use crate::printed::write_ascii;
use crate::short_bytes::ShortBytes;
use std::fmt;
use std::marker::Model;

/// A prefix of 1 to 12 digits.
#[derive(Clone, Copy, Debug, PartialEq, Eq, PartialOrd, Ord, Hash)]
pub struct Prefix {
    digits: ShortBytes<12>,
}

impl Model for Prefix {
    ghost use Rattle.std.specs.Prelude.{ℕ, List};
    ghost use Rattle.card_digits.specs.Digits.{IsPrefix};

    ghost Value = { List ℕ };

    ghost view = { λ a. a.digits };

    ghost invariant = { λ a. IsPrefix a.digits };

    ghost inverse = { λ ds. record { digits = ds } };
}

impl Prefix {
    ghost use Rattle.card_digits.specs.Digits.{IsPrefix};
    ghost use Rattle.card_digits.specs.Reading.{read_digits};

    /// The prefix that ASCII digits write. A byte that is no digit is reported before the length.
    pub fn read(text: &[u8]) -> Result<Prefix, DigitFault>
        ensures { result ≡ read_digits 1 12 text.now }
    {
        let digits = read(text, 1)?;
        Ok(Prefix { digits })
    }

    /// The same of bytes that are known to be digits, and aren't looked at for that.
    pub fn read_known(text: &[u8]) -> Result<Prefix, DigitFault>
        requires { list_all is_ascii_digit text.now ≡ true }
        ensures { result ≡ read_digits 1 12 text.now }
    {
        let digits = read_known(text, 1)?;
        Ok(Prefix { digits })
    }

    /// The digits in order, as numbers.
    #[tactic(auto, using(crate::proofs::Within::all_below))]
    pub fn digits(&self) -> &[u8]
        ensures digits { result.now ≡ self.now }
        ensures below { All (λ d. d < 10) result.now }
        ensures form { IsPrefix result.now }
    {
        self.digits.as_slice()
    }

    /// The first digits of a card, twelve or all of fewer: every prefix that begins the card is among its fronts.
    #[tactic(auto, using(crate::proofs::Within::card_front))]
    pub fn of(card: &Card) -> Prefix
        ensures { result ≡ take 12 card.now }
    {
        let digits = card.digits();
        let len = digits.len().min(12);
        Prefix {
            digits: ShortBytes::from_slice(&digits[..len]),
        }
    }

    /// The prefix that the first digits are.
    #[tactic(auto, using(crate::proofs::Within::front_within))]
    pub fn front(&self, len: usize) -> Prefix
        requires some { 1 ≤ len }
        requires within { len ≤ length self.now }
        ensures { result ≡ take len self.now }
    {
        Prefix {
            digits: ShortBytes::from_slice(&self.digits()[..len]),
        }
    }
}

/// Its digits.
impl fmt::Display for Prefix {
    ghost use Rattle.card_digits.specs.Digits.{digits_text};

    ghost output = { λ digits. Some (digits_text digits) };

    fn fmt<W: fmt::Write>(&self, f: &mut fmt::Formatter<W>) -> fmt::Result {
        for digit in self.digits() {
            write_ascii(f, *digit + b'0')?;
        }
        Ok(())
    }
}
