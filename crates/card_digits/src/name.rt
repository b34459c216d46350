//! Names and ids.
ghost use Rattle.std.specs.Prelude.{◌≡◌, ◌==◌, ◌<◌, ◌≤◌, length, All, IfSome, Some};
ghost use Rattle.std.specs.List.{list_all};
ghost use Rattle.std.specs.Char.{is_ascii_alphanumeric};

use crate::key::pad11;
use crate::printed::write_ascii;
use crate::short_bytes::{ShortBytes, all_digits};
use std::fmt;
use std::marker::Model;

/// A name of 1 to 8 ASCII letters and digits.
#[derive(Clone, Copy, Debug, PartialEq, Eq, PartialOrd, Ord, Hash)]
pub struct Name {
    text: ShortBytes<8>,
}

impl Model for Name {
    ghost use Rattle.std.specs.Prelude.{ℕ, List};

    ghost Value = { List ℕ };

    ghost view = { λ a. a.text };

    ghost use Rattle.card_digits.specs.Digits.{IsName};

    ghost invariant = { λ a. IsName a.text };

    ghost inverse = { λ bs. record { text = bs } };
}

impl Name {
    ghost use Rattle.card_digits.specs.Reading.{name_of};

    /// The name that the bytes are.
    pub fn read(text: &[u8]) -> Option<Name>
        ensures { result ≡ name_of text.now }
    {
        if text.is_empty() || text.len() > 8 || !all_letters_or_digits(text) {
            return None;
        }
        Some(Name {
            text: ShortBytes::from_slice(text),
        })
    }

    /// The letters and digits.
    #[tactic(auto, using(crate::proofs::Within::name_ascii))]
    pub fn as_slice(&self) -> &[u8]
        ensures text { result.now ≡ self.now }
        ensures few { length result.now ≤ 8 }
        ensures ascii { All (λ b. b < 128) result.now }
    {
        self.text.as_slice()
    }
}

impl fmt::Display for Name {
    ghost output = { λ text. Some text };

    fn fmt<W: fmt::Write>(&self, f: &mut fmt::Formatter<W>) -> fmt::Result {
        for byte in self.as_slice() {
            write_ascii(f, *byte)?;
        }
        Ok(())
    }
}

/// An institution's id of 1 to 11 digits, not all zero.
#[derive(Clone, Copy, Debug, PartialEq, Eq, PartialOrd, Ord)]
pub struct Id {
    text: ShortBytes<11>,
}

impl Model for Id {
    ghost use Rattle.std.specs.Prelude.{ℕ, List};

    ghost Value = { List ℕ };

    ghost view = { λ a. a.text };

    ghost use Rattle.card_digits.specs.Digits.{IsId};

    ghost invariant = { λ a. IsId a.text };

    ghost inverse = { λ bs. record { text = bs } };
}

impl Id {
    ghost use Rattle.card_digits.specs.Reading.{id_of};
    ghost use Rattle.card_digits.specs.Numbers.{pad11};
    ghost use Rattle.card_digits.specs.Digits.{IsId};

    /// The id that the bytes are.
    pub fn read(text: &[u8]) -> Option<Id>
        ensures value { result ≡ id_of text.now }
        ensures form { IfSome result IsId }
    {
        if text.len() > 11 || !all_digits(text) || all_zeros(text) {
            return None;
        }
        Some(Id {
            text: ShortBytes::from_slice(text),
        })
    }

    /// The digits, as text.
    #[tactic(auto, using(crate::proofs::Within::id_ascii))]
    pub fn as_slice(&self) -> &[u8]
        ensures text { result.now ≡ self.now }
        ensures form { IsId result.now }
        ensures ascii { All (λ b. b < 128) result.now }
    {
        self.text.as_slice()
    }

    /// The same of eleven digits, with zeros on the left.
    pub fn padded(&self) -> Id
        ensures { result ≡ pad11 self.now }
    {
        Id {
            text: ShortBytes::from_slice(&pad11(self.as_slice())),
        }
    }
}

impl fmt::Display for Id {
    ghost output = { λ text. Some text };

    fn fmt<W: fmt::Write>(&self, f: &mut fmt::Formatter<W>) -> fmt::Result {
        for byte in self.as_slice() {
            write_ascii(f, *byte)?;
        }
        Ok(())
    }
}

fn all_letters_or_digits(text: &[u8]) -> bool
    ensures { result ≡ list_all is_ascii_alphanumeric text.now }
{
    text.iter().all(|byte| byte.is_ascii_alphanumeric())
}

fn all_zeros(text: &[u8]) -> bool
    ensures { result ≡ list_all (λ b. b == 48) text.now }
{
    text.iter().all(|byte| *byte == b'0')
}
