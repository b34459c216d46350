//! A node's own approvals within limits.
ghost use Rattle.std.specs.Prelude.{◌≡◌, ◌≢◌, ◌+◌, ◌<◌, ◌≤◌, ◌^◌, ◌↔◌, [], OnOk, OnErr, true, false};
ghost use Rattle.std.specs.List.{list_any};
ghost use Rattle.node_machine.specs.Lists.{give_back, give_back_to, used};
ghost use Rattle.standin_book.specs.Approvals.{counts_above, without};
ghost use Rattle.standin_book.specs.Limits.{counts_whole, is_borrowed, is_over, is_taken, limit, with_grant, with_loan, with_take, with_takes};

use crate::approval::OwnApproval;
use crate::lending::{Borrowed, LendingBook, Loan};
use crate::standin::StandInBook;
use book_index::CardDay;
use card_digits::{Amount, Card, DateLabel, Key};
use std::alloc::{AllocError, Global};
use std::marker::Model;
use thiserror::Error;

/// Why an amount was not taken.
#[derive(Clone, Copy, Debug, PartialEq, Eq, Error)]
pub enum Over {
    #[error("the amount is above the limit of one amount")]
    Single,
    #[error("the limit of the day leaves less than the amount")]
    Day,
    #[error("no memory")]
    Memory,
}

/// Why an amount was not lent.
#[derive(Clone, Copy, Debug, PartialEq, Eq, Error)]
pub enum LendFault {
    #[error("the limit of the day leaves less than the amount")]
    TooMuch,
    #[error("no memory")]
    Memory,
}

/// What a node approved by itself, lent and borrowed, with the calls that count an amount and that undo it. Each call finds the memory
/// that it needs before it changes anything, so that one that fails changes nothing.
#[derive(Drop)]
pub struct LimitBook {
    approvals: StandInBook,
    lending: LendingBook,
}

impl Model for LimitBook {
    ghost use Rattle.standin_book.specs.Limits.{Limits, TakenOnce};

    ghost Value = { Limits };

    ghost view = { λ b. record { takes = b.approvals.takes; loans = b.lending.loans; borrowed = b.lending.borrowed } };

    ghost invariant = { λ b. TakenOnce b.approvals.takes };
}

impl LimitBook {
    /// Nothing was taken, lent or borrowed.
    pub fn new(alloc: Global) -> LimitBook
        ensures { result ≡ record { takes = []; loans = []; borrowed = [] } }
    {
        LimitBook {
            approvals: StandInBook::new(alloc),
            lending: LendingBook::new(alloc),
        }
    }

    /// What the own approvals of a card and a settlement date count for. One look-up.
    pub fn used(&self, card: &Card, date: &DateLabel) -> u128
        ensures used { result ≡ used self.now.takes card.now date.now }
        ensures bound { result < 2 ^ 104 }
    {
        self.approvals.used(&CardDay::of(card, date))
    }

    /// Whether the limit of the day, with what was borrowed and less what was lent, leaves less than an amount.
    fn is_over(&self, card: &Card, date: &DateLabel, amount: Amount, day: Amount) -> bool
        ensures { result ≡ is_over amount day self.now card.now date.now }
    {
        let at = CardDay::of(card, date);
        let limit = self.lending.allowance(day, &at);
        limit < self.approvals.used(&at) + amount.value() as u128
    }

    /// Whether the key took. One look-up.
    pub fn is_taken(&self, key: Key) -> bool
        ensures { result ≡ is_taken key self.now.takes }
    {
        self.approvals.is_taken(key)
    }

    /// Whether the key took, and nothing of that was given back. One look-up.
    pub fn counts_whole(&self, key: Key) -> bool
        ensures { result ≡ counts_whole key self.now.takes }
    {
        self.approvals.is_whole(key)
    }

    /// The node approves an amount of a card and a settlement date by itself, where the limits of one amount and of the day allow it.
    /// The limit of one amount is tried first.
    pub fn try_take(
        &mut self,
        key: Key,
        card: Card,
        date: DateLabel,
        amount: Amount,
        day: Amount,
        single: Amount,
    ) -> Result<(), Over>
        requires { is_taken key self.old.takes ≡ false }
        ensures single { result ≡ Err Over.Single ↔ single < amount }
        ensures day { result ≡ Err Over.Day ↔ (amount ≤ single) × (limit day self.old card date < used self.old.takes card date + amount) }
        ensures ok { OnOk result (self.new ≡ with_take (record { key = key; card = card; date = date; amount = amount; left = amount }) self.old) }
        ensures err { OnErr result (self.new ≡ self.old) }
    {
        if single.value() < amount.value() {
            return Err(Over::Single);
        }
        if self.is_over(&card, &date, amount, day) {
            return Err(Over::Day);
        }
        if self.approvals.reserve(1).is_err() {
            return Err(Over::Memory);
        }
        let CardDay { card, date } = CardDay::of(&card, &date);
        self.approvals
            .take(OwnApproval::new(key, card, date, amount));
        Ok(())
    }

    /// A reversal in part: where what the key took counts for more than an amount, it counts for that amount, and the answer is true.
    /// Otherwise nothing changes. No memory is needed.
    pub fn give_back_to(&mut self, key: Key, actual: Amount) -> bool
        ensures answer { result ≡ list_any (counts_above key actual) self.old.takes }
        ensures takes { self.new ≡ with_takes (give_back_to key actual self.old.takes) self.old }
        ensures unchanged { result ≡ false → self.new ≡ self.old }
    {
        if !self.approvals.counts_above(key, actual) {
            return false;
        }
        self.approvals.give_back(key, actual);
        true
    }

    /// A whole reversal: what the key took counts for nothing. The answer is whether it counted for more than nothing before, so that
    /// a second call answers false and changes nothing. So does a first one where the amount that was taken is 0. No memory is
    /// needed.
    pub fn give_back(&mut self, key: Key) -> bool
        ensures answer { result ≡ list_any (counts_above key 0) self.old.takes }
        ensures takes { self.new ≡ with_takes (give_back key self.old.takes) self.old }
        ensures unchanged { result ≡ false → self.new ≡ self.old }
    {
        self.give_back_to(key, Amount::new(0))
    }

    /// What the key took is undone, as if it had not been taken. No memory is needed. The time is that of a walk over the approvals
    /// that are newer, so that the newest takes a constant time.
    pub fn untake(&mut self, key: Key)
        requires { counts_whole key self.old.takes ≡ true }
        ensures { self.new ≡ with_takes (without key self.old.takes) self.old }
    {
        self.approvals.untake(key);
    }

    /// The node lends an amount of a card and a settlement date to another, where the limit of the day leaves so much. That lessens its
    /// own limit.
    pub fn lend(
        &mut self,
        card: &Card,
        date: &DateLabel,
        amount: Amount,
        day: Amount,
    ) -> Result<(), LendFault>
        ensures too_much { result ≡ Err LendFault.TooMuch ↔ limit day self.old card.now date.now < used self.old.takes card.now date.now + amount }
        ensures ok { OnOk result (self.new ≡ with_loan (record { card = card.now; date = date.now; amount = amount }) self.old) }
        ensures err { OnErr result (self.new ≡ self.old) }
    {
        if self.is_over(card, date, amount, day) {
            return Err(LendFault::TooMuch);
        }
        if self.lending.reserve(1).is_err() {
            return Err(LendFault::Memory);
        }
        self.lending.lend(Loan::new(*card, *date, amount));
        Ok(())
    }

    /// The node takes a grant of another, by its lender's id in eleven digits and its number. A grant that was taken before counts no
    /// second time: the answer is false, and nothing changes.
    pub fn borrow(
        &mut self,
        lender: [u8; 11],
        number: u64,
        card: &Card,
        date: &DateLabel,
        amount: Amount,
    ) -> Result<bool, AllocError>
        ensures known { result ≡ Ok false ↔ is_borrowed lender number self.old.borrowed ≡ true }
        ensures taken { result ≡ Ok true → self.new ≡ with_grant (record { lender = lender; number = number; card = card.now; date = date.now; amount = amount }) self.old }
        ensures unchanged { result ≢ Ok true → self.new ≡ self.old }
    {
        if self.lending.has_number(lender, number) {
            return Ok(false);
        }
        self.lending.reserve(1)?;
        self.lending
            .borrow(Borrowed::new(lender, number, *card, *date, amount));
        Ok(true)
    }

    /// The own approvals, the oldest first.
    pub fn takes(&self) -> &[OwnApproval]
        ensures { result.now ≡ self.now.takes }
    {
        self.approvals.takes()
    }

    /// What was lent, the oldest first.
    pub fn loans(&self) -> &[Loan]
        ensures { result.now ≡ self.now.loans }
    {
        self.lending.loans()
    }

    /// What was borrowed, the oldest first.
    pub fn borrowed(&self) -> &[Borrowed]
        ensures { result.now ≡ self.now.borrowed }
    {
        self.lending.borrowed()
    }
}
