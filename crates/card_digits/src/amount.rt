//! Amounts, and the numbers of nodes and links.
ghost use Rattle.std.specs.Prelude.{◌≡◌, ◌≤◌, ◌<◌, ◌^◌, true, length};
ghost use Rattle.std.specs.Char.{is_ascii_digit};
ghost use Rattle.std.specs.List.{list_all};
ghost use Rattle.card_digits.specs.Numbers.{decimal};

use crate::card::DigitFault;
use crate::short_bytes::all_digits;
use std::marker::Model;

/// The most that an amount is: twelve digits (ISO 8583, element 4).
pub const MOST_AMOUNT: u64 = 999_999_999_999;

/// As many nodes as a network has at most (our format of tables).
pub const MOST_NODES: usize = 64;

/// As many links as a network has at most (our format of tables).
pub const MOST_LINKS: usize = 256;

/// An amount from 0 to 999,999,999,999.
#[derive(Clone, Copy, Debug, PartialEq, Eq, PartialOrd, Ord)]
pub struct Amount {
    value: u64,
}

impl Model for Amount {
    ghost use Rattle.std.specs.Prelude.{ℕ, ◌<◌, ◌^◌};

    ghost Value = { ℕ };

    ghost view = { λ a. a.value };

    ghost invariant = { λ a. a.value < 10 ^ 12 };

    ghost inverse = { λ n. record { value = n } };
}

impl Amount {
    ghost use Rattle.card_digits.specs.Numbers.{read_amount};

    /// The amount that twelve ASCII digits write, in the currency's smallest unit (ISO 8583, element 4). A byte that is no
    /// digit is reported before the length.
    pub fn read(text: &[u8]) -> Result<Amount, DigitFault>
        ensures { result ≡ read_amount text.now }
    {
        if !all_digits(text) {
            return Err(DigitFault::NotDigit);
        }
        if text.len() != 12 {
            return Err(DigitFault::Length);
        }
        Ok(Amount {
            value: decimal(text),
        })
    }

    /// The amount of so many of the currency's smallest units.
    pub fn new(value: u64) -> Amount
        requires { value < 10 ^ 12 }
        ensures { result ≡ value }
    {
        Amount { value }
    }

    /// How many of the currency's smallest units it is, from 0 to 999,999,999,999.
    pub fn value(self) -> u64
        ensures value { result ≡ self }
        ensures in_range { result < 10 ^ 12 }
    {
        self.value
    }
}

/// The number that at most 18 ASCII digits write.
#[inline]
pub fn decimal(text: &[u8]) -> u64
    requires digits { list_all is_ascii_digit text.now ≡ true }
    requires few { length text.now ≤ 18 }
    ensures value { result ≡ decimal text.now }
    ensures bound { result < 10 ^ length text.now }
{
    let mut value = 0u64;
    for byte in text {
        value = value * 10 + (*byte - b'0') as u64;
    }
    value
}

/// The place of a node in the tables, from 0 to 63.
#[derive(Clone, Copy, Debug, PartialEq, Eq, PartialOrd, Ord)]
pub struct NodeNo {
    place: u8,
}

impl Model for NodeNo {
    ghost use Rattle.std.specs.Prelude.{ℕ, ◌<◌};

    ghost Value = { ℕ };

    ghost view = { λ n. n.place };

    ghost invariant = { λ n. n.place < 64 };

    ghost inverse = { λ n. record { place = n } };
}

impl NodeNo {
    /// The number of the node that stands at this place of the tables, counted from 0.
    pub fn new(place: usize) -> NodeNo
        requires { place < 64 }
        ensures { result ≡ place }
    {
        NodeNo { place: place as u8 }
    }

    /// Where the node stands in the tables, from 0 to 63.
    pub fn place(self) -> usize
        ensures place { result ≡ self }
        ensures in_range { result < 64 }
    {
        self.place as usize
    }
}

/// The place of a link in the tables, from 0 to 255; the first of them by default.
#[derive(Clone, Copy, Debug, Default, PartialEq, Eq, PartialOrd, Ord)]
pub struct LinkNo {
    place: u8,
}

impl Model for LinkNo {
    ghost use Rattle.std.specs.Prelude.{ℕ};

    ghost Value = { ℕ };

    ghost view = { λ n. n.place };

    ghost inverse = { λ n. record { place = n } };
}

impl LinkNo {
    /// The number of the link that stands at this place of the tables, counted from 0.
    pub fn new(place: usize) -> LinkNo
        requires { place < 256 }
        ensures { result ≡ place }
    {
        LinkNo { place: place as u8 }
    }

    /// Where the link stands in the tables, from 0 to 255.
    pub fn place(self) -> usize
        ensures { result ≡ self }
    {
        self.place as usize
    }
}
