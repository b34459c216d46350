//! Own approvals.
ghost use Rattle.std.specs.Prelude.{◌≡◌, ◌≤◌, ◌<◌, ◌+◌, ◌^◌};
ghost use Rattle.standin_book.specs.Approvals.{lessened, day_of, counts_above, is_of, is_whole};

use book_index::CardDay;
use card_digits::{Amount, Key, ShortBytes};
use std::marker::Model;

/// An own approval, and what it counts for: its amount, or what reversals leave of it.
#[derive(Drop)]
pub struct OwnApproval {
    key: Key,
    day: CardDay,
    amount: Amount,
    left: Amount,
}

impl Model for OwnApproval {
    ghost use Rattle.node_machine.specs.Lists.{Take};

    ghost Value = { Take };

    ghost view = { λ a. record { key = a.key; card = a.day.card; date = a.day.date; amount = a.amount; left = a.left } };
}

impl OwnApproval {
    /// An approval of which nothing was reversed, with the digits of its card number and settlement date.
    pub fn new(key: Key, card: ShortBytes<19>, date: ShortBytes<4>, amount: Amount) -> OwnApproval
        ensures { result ≡ record { key = key; card = card; date = date; amount = amount; left = amount } }
    {
        OwnApproval {
            key,
            day: CardDay { card, date },
            amount,
            left: amount,
        }
    }

    /// The key of the request.
    pub fn key(&self) -> Key
        ensures { result ≡ self.now.key }
    {
        self.key
    }

    /// The digits of its card number, as numbers.
    pub fn card(&self) -> &[u8]
        ensures { result.now ≡ self.now.card }
    {
        self.day.card.as_slice()
    }

    /// The digits of its settlement date, as numbers.
    pub fn date(&self) -> &[u8]
        ensures { result.now ≡ self.now.date }
    {
        self.day.date.as_slice()
    }

    /// Its card and settlement date.
    pub fn day(&self) -> CardDay
        ensures { result ≡ day_of self.now }
    {
        self.day
    }

    /// The amount of the request.
    pub fn amount(&self) -> Amount
        ensures { result ≡ self.now.amount }
    {
        self.amount
    }

    /// What it counts for.
    pub fn left(&self) -> Amount
        ensures { result ≡ self.now.left }
    {
        self.left
    }

    /// Whether this is what the key took.
    pub(crate) fn is_of(&self, key: Key) -> bool
        ensures { result ≡ is_of key self.now }
    {
        key == self.key
    }

    /// Whether this is what the key took, and nothing of it was given back.
    pub(crate) fn is_whole(&self, key: Key) -> bool
        ensures { result ≡ is_whole key self.now }
    {
        key == self.key && self.left == self.amount
    }

    /// Whether this is what the key took, and it counts for more than this amount.
    pub(crate) fn counts_above(&self, key: Key, actual: Amount) -> bool
        ensures { result ≡ counts_above key actual self.now }
    {
        key == self.key && actual.value() < self.left.value()
    }

    /// A reversal of this key leaves no more than this amount. The result is what that frees.
    pub(crate) fn lessen(&mut self, key: Key, actual: Amount) -> u64
        ensures lessened { self.new ≡ lessened key actual self.old }
        ensures freed { result + self.new.left ≡ self.old.left }
    {
        let before = self.left.value();
        if key != self.key || before <= actual.value() {
            return 0;
        }
        self.left = actual;
        before - actual.value()
    }
}
