//! The book of lent amounts.
ghost use Rattle.std.specs.Prelude.{◌≡◌, ◌+◌, ◌-◌, ◌<◌, ◌≤◌, ◌^◌, [], ◌∷◌, ◌++◌, OnOk};
ghost use Rattle.std.specs.List.{list_any};
ghost use Rattle.network_law.specs.Traces.{added};
ghost use Rattle.node_machine.specs.Books.{borrowed_of};
ghost use Rattle.standin_book.specs.Lending.{allowance, is_grant};
ghost use Rattle.node_machine.specs.Machine.{borrowed_for, is_number_of, lent_for, packet_borrowed};

use book_index::{CardDay, Sums};
use card_digits::{Amount, Card, DateLabel};
use crowded_map::CrowdedSet;
use network_law::{Grant, GrantPacket};
use std::alloc::{AllocError, Global};
use std::marker::Model;

/// What the node lent in one grant. Its number is its place, from 1.
#[derive(Drop)]
pub struct Loan {
    card: Card,
    date: DateLabel,
    amount: Amount,
}

impl Model for Loan {
    ghost use Rattle.node_machine.specs.Books.{Loan};

    ghost Value = { Loan };

    ghost view = { λ g. record { card = g.card; date = g.date; amount = g.amount } };
}

impl Loan {
    /// The node lent this amount of a card and a settlement date.
    pub fn new(card: Card, date: DateLabel, amount: Amount) -> Loan
        ensures { result ≡ record { card = card; date = date; amount = amount } }
    {
        Loan { card, date, amount }
    }

    /// The card of whose limit was lent.
    pub fn card(&self) -> &Card
        ensures { result.now ≡ self.now.card }
    {
        &self.card
    }

    /// The settlement date of whose limit was lent.
    pub fn date(&self) -> &DateLabel
        ensures { result.now ≡ self.now.date }
    {
        &self.date
    }

    /// The amount lent, in the currency's smallest unit.
    pub fn amount(&self) -> Amount
        ensures { result ≡ self.now.amount }
    {
        self.amount
    }
}

/// What the node borrowed by one grant: its lender's id in eleven digits, and its number.
#[derive(Drop)]
pub struct Borrowed {
    lender: [u8; 11],
    number: u64,
    card: Card,
    date: DateLabel,
    amount: Amount,
}

impl Model for Borrowed {
    ghost use Rattle.node_machine.specs.Books.{Borrowed};

    ghost Value = { Borrowed };

    ghost view = { λ g. record { lender = g.lender; number = g.number; card = g.card; date = g.date; amount = g.amount } };
}

impl Borrowed {
    /// The node borrowed this amount by the grant of this lender and number.
    pub fn new(
        lender: [u8; 11],
        number: u64,
        card: Card,
        date: DateLabel,
        amount: Amount,
    ) -> Borrowed
        ensures { result ≡ record { lender = lender; number = number; card = card; date = date; amount = amount } }
    {
        Borrowed {
            lender,
            number,
            card,
            date,
            amount,
        }
    }

    /// What a grant lends.
    pub fn of(grant: &Grant) -> Borrowed
        ensures { result ≡ borrowed_of grant.now }
    {
        Borrowed {
            lender: grant.lender,
            number: grant.number,
            card: grant.card,
            date: grant.date,
            amount: grant.amount,
        }
    }

    /// The lender's id, padded to eleven ASCII digits.
    pub fn lender(&self) -> [u8; 11]
        ensures { result ≡ self.now.lender }
    {
        self.lender
    }

    /// The number that the lender gave the grant, from 1.
    pub fn number(&self) -> u64
        ensures { result ≡ self.now.number }
    {
        self.number
    }

    /// The card of whose limit was borrowed.
    pub fn card(&self) -> &Card
        ensures { result.now ≡ self.now.card }
    {
        &self.card
    }

    /// The settlement date of whose limit was borrowed.
    pub fn date(&self) -> &DateLabel
        ensures { result.now ≡ self.now.date }
    {
        &self.date
    }

    /// The amount borrowed, in the currency's smallest unit.
    pub fn amount(&self) -> Amount
        ensures { result ≡ self.now.amount }
    {
        self.amount
    }
}

/// What a grant is known by: its lender's id in eleven digits, and its number.
#[derive(Clone, Copy, Debug, PartialEq, Eq, PartialOrd, Ord, Hash)]
pub(crate) struct GrantNumber {
    pub lender: [u8; 11],
    pub number: u64,
}

/// The grants that were made and taken, the oldest first.
#[derive(Drop)]
pub struct LendingBook {
    loans: Vec<Loan>,
    borrowed: Vec<Borrowed>,
    // What was lent and borrowed of each card and settlement date.
    lent_sums: Sums,
    borrowed_sums: Sums,
    // The grants that were taken.
    taken: CrowdedSet<GrantNumber>,
    room: usize,
}

impl Model for LendingBook {
    ghost use Rattle.std.specs.Prelude.{vec_len, vec_capacity};
    ghost use Rattle.crowded_map.specs.Values.{spare};
    ghost use Rattle.crowded_map.specs.Sets as sets;
    ghost use Rattle.standin_book.specs.Lending.{Lending, IsLending, HasRoom};

    ghost Value = { Lending };

    ghost view = { λ b. record { loans = b.loans.items; borrowed = b.borrowed.items; room = b.room } };

    ghost invariant = { λ b. IsLending b.loans.items b.borrowed.items b.lent_sums.amounts.entries b.borrowed_sums.amounts.entries b.taken.keys × HasRoom b.room (vec_len b.loans) (vec_capacity b.loans) (vec_len b.borrowed) (vec_capacity b.borrowed) (spare b.lent_sums.amounts) (spare b.borrowed_sums.amounts) (sets.spare b.taken) };
}

impl LendingBook {
    /// A book without grants.
    pub fn new(alloc: Global) -> LendingBook
        ensures { result ≡ record { loans = []; borrowed = []; room = 0 } }
    {
        LendingBook {
            loans: Vec::new(alloc),
            borrowed: Vec::new(alloc),
            lent_sums: Sums::new(alloc),
            borrowed_sums: Sums::new(alloc),
            taken: CrowdedSet::new(alloc),
            room: 0,
        }
    }

    /// The next n grants need no memory.
    pub fn reserve(&mut self, n: usize) -> Result<(), AllocError>
        ensures loans { self.new.loans ≡ self.old.loans }
        ensures borrowed { self.new.borrowed ≡ self.old.borrowed }
        ensures ok { OnOk result (self.new.room ≡ n) }
    {
        self.room = 0;
        self.loans.reserve(n)?;
        self.borrowed.reserve(n)?;
        self.lent_sums.reserve(n)?;
        self.borrowed_sums.reserve(n)?;
        self.taken.reserve(n)?;
        self.room = n;
        Ok(())
    }

    /// The node lent to another.
    pub fn lend(&mut self, loan: Loan)
        requires { 0 < self.old.room }
        ensures { self.new ≡ record { loans = self.old.loans ++ loan ∷ []; borrowed = self.old.borrowed; room = self.old.room - 1 } }
    {
        let _ = self.loans.len();
        self.lent_sums.add(CardDay::of(loan.card(), loan.date()), loan.amount().value());
        self.loans.push_reserved(loan);
        self.room -= 1;
    }

    /// The node took a grant of another.
    pub fn borrow(&mut self, grant: Borrowed)
        requires { 0 < self.old.room }
        ensures { self.new ≡ record { loans = self.old.loans; borrowed = self.old.borrowed ++ grant ∷ []; room = self.old.room - 1 } }
    {
        let _ = self.borrowed.len();
        self.borrowed_sums.add(
            CardDay::of(grant.card(), grant.date()),
            grant.amount().value(),
        );
        self.taken.insert(GrantNumber {
            lender: grant.lender(),
            number: grant.number(),
        });
        self.borrowed.push_reserved(grant);
        self.room -= 1;
    }

    /// Whether a grant of this lender and number was taken. One look-up.
    pub fn was_taken(&self, grant: &Grant) -> bool
        ensures { result ≡ list_any (is_number_of grant.now) self.now.borrowed }
    {
        self.taken.contains(&GrantNumber {
            lender: grant.lender,
            number: grant.number,
        })
    }

    /// Whether a grant of a lender, by its id in eleven digits, and a number was taken. One look-up.
    pub fn has_number(&self, lender: [u8; 11], number: u64) -> bool
        ensures { result ≡ list_any (is_grant lender number) self.now.borrowed }
    {
        self.taken.contains(&GrantNumber { lender, number })
    }

    /// A packet was taken: a grant counts where none of its lender and number was taken before.
    pub fn take_packet(&mut self, packet: &GrantPacket)
        requires { 0 < self.old.room }
        ensures { self.new ≡ record { loans = self.old.loans; borrowed = packet_borrowed packet.now self.old.borrowed; room = self.old.room - 1 } }
    {
        match packet {
            GrantPacket::Grant(grant) => {
                if self.was_taken(grant) {
                    self.room -= 1;
                } else {
                    self.borrow(Borrowed::of(grant));
                }
            }
            GrantPacket::Ack { .. } => self.room -= 1,
        }
    }

    /// What was lent of a card and a settlement date. One look-up.
    pub fn lent(&self, day: &CardDay) -> u128
        ensures lent { result ≡ added (lent_for day.now.card day.now.date) self.now.loans }
        ensures bound { result < 2 ^ 104 }
    {
        let _ = self.loans.len();
        self.lent_sums.get(day)
    }

    /// What was borrowed of a card and a settlement date. One look-up.
    pub fn borrowed_sum(&self, day: &CardDay) -> u128
        ensures borrowed { result ≡ added (borrowed_for day.now.card day.now.date) self.now.borrowed }
        ensures bound { result < 2 ^ 104 }
    {
        let _ = self.borrowed.len();
        self.borrowed_sums.get(day)
    }

    /// What a day's limit allows of a card and a settlement date, with what was borrowed and less what was lent. Two look-ups.
    pub fn allowance(&self, limit: Amount, day: &CardDay) -> u128
        ensures { result ≡ allowance limit self.now.borrowed self.now.loans day.now.card day.now.date }
    {
        let most = limit.value() as u128 + self.borrowed_sum(day);
        most.saturating_sub(self.lent(day))
    }

    /// The grants that were made.
    pub fn loans(&self) -> &[Loan]
        ensures { result.now ≡ self.now.loans }
    {
        self.loans.as_slice()
    }

    /// The grants that were taken.
    pub fn borrowed(&self) -> &[Borrowed]
        ensures { result.now ≡ self.now.borrowed }
    {
        self.borrowed.as_slice()
    }
}
