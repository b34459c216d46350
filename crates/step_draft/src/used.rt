//! What a node's own approvals use, and what it may approve by itself.
ghost use Rattle.std.specs.Prelude.{◌≡◌, ◌<◌, ◌^◌, ℕ, drop};
ghost use Rattle.net_rows.specs.Network.{Network};
ghost use Rattle.network_law.specs.Cards.{card_of, label_of};
ghost use Rattle.network_law.specs.Traces.{added};
ghost use Rattle.node_machine.specs.Lists.{LeftAsMarked, forget, view};
ghost use Rattle.node_machine.specs.Machine.{limit, standin_code, used};
ghost use Rattle.node_books.specs.Effects.{progress};
ghost use Rattle.entry_changes.specs.Late.{few};
ghost use Rattle.step_draft.specs.SoFar.{approved_in};
ghost use Rattle.step_draft.specs.Used.{IsQuiet, counted_by};

use crate::digits::{card_number, date_label};
use crate::draft::Draft;
use card_digits::{Amount, NodeNo};
use iso_message::Message;
use message_elements::Code;
use net_rows::Tables;
use node_books::{Books, CardDay, Effect, OwnApproval};
use step_rules::{Limits, single, stand_in_of};

/// What an own approval counts for.
fn counted_by(books: &Books, card: &[u8], date: &[u8], approval: &OwnApproval) -> Amount
    ensures { result ≡ counted_by books.now.lists.marks card.now date.now (forget approval.now) }
{
    if approval.card() == card && approval.date() == date {
        books.left_of(approval.key(), approval.amount())
    } else {
        Amount::new(0)
    }
}

/// What the own approvals among the changes count for.
fn approved_total(effects: &[Effect], books: &Books, card: &[u8], date: &[u8]) -> u128
    ensures sum { result ≡ added (counted_by books.now.lists.marks card.now date.now) (approved_in effects.now) }
    ensures bound { result < 2 ^ 104 }
{
    let mut sum = 0u128;
    for effect in effects {
        if let Effect::Approved(approval) = effect {
            sum += counted_by(books, card, date, approval).value() as u128;
        }
    }
    sum
}

/// The card number and the settlement date of a message.
fn card_day(message: &Message) -> CardDay
    ensures { result ≡ record { card = card_of message.now; date = label_of message.now } }
{
    CardDay {
        card: card_number(message),
        date: date_label(message),
    }
}

impl Draft {
    /// What the own approvals among the later changes count for.
    fn late_used(&self, day: &CardDay) -> u128
        ensures sum { result ≡ added (counted_by self.now.base.marks day.now.card day.now.date) (approved_in (drop few self.now.effects)) }
        ensures bound { result < 2 ^ 104 }
    {
        // Their number fits a `usize`, which bounds the sum.
        let _ = self.effects.len();
        self.late_uses.get(day)
    }

    /// What the node's own approvals use of a card and a settlement date.
    pub(crate) fn used_now(&self, day: &CardDay) -> u128
        requires quiet { IsQuiet self.now.base (progress self.now).lists }
        requires left { LeftAsMarked self.now.base.marks self.now.base.takes }
        ensures used { (t : Network) (n : ℕ) → result ≡ used (view t n (progress self.now).lists) day.now.card day.now.date }
    {
        let first = approved_total(
            self.effects.first(),
            &self.books,
            day.card.as_slice(),
            day.date.as_slice(),
        );
        self.books.used(day) + first + self.late_used(day)
    }

    /// What the node may approve by itself of a message's card and settlement date: 0 without a stand-in row.
    fn limit_now(&self, tables: &Tables, node: NodeNo, message: &Message) -> u128
        requires quiet { IsQuiet self.now.base (progress self.now).lists }
        ensures { result ≡ limit tables.now node (view tables.now node (progress self.now).lists) (card_of message.now) (label_of message.now) }
    {
        let Some(row) = stand_in_of(tables, node, message) else {
            return 0;
        };
        self.books.allowance(row.day, &card_day(message))
    }

    /// The code with which the node answers a request by itself.
    pub(crate) fn standin_code(&self, tables: &Tables, node: NodeNo, message: &Message) -> Code
        requires quiet { IsQuiet self.now.base (progress self.now).lists }
        requires left { LeftAsMarked self.now.base.marks self.now.base.takes }
        ensures { result ≡ standin_code tables.now node (view tables.now node (progress self.now).lists) message.now }
    {
        let day = card_day(message);
        let limits = Limits {
            allowance: self.limit_now(tables, node, message),
            single: single(tables, node, message),
            used: self.used_now(&day),
        };
        limits.code(tables, message)
    }
}
