//! What a node may approve by itself, and when it sends again.
ghost use Rattle.std.specs.Prelude.{◌≡◌, ◌+◌, not, nat_lt, bytes_eq};
ghost use Rattle.card_digits.specs.Numbers.{decimal};
ghost use Rattle.iso_message.specs.Fields.{el};
ghost use Rattle.network_law.specs.Decision.{code_by_limits, is_due_again};

use crate::elements::amount_of;
use card_digits::Amount;
use iso_message::{Message, bytes_of};
use message_elements::{Code, elements, response_codes};
use net_rows::Tables;

/// What a node may approve by itself of a card on a settlement date.
#[derive(Clone, Copy, Debug, PartialEq, Eq)]
pub struct Limits {
    /// The node's limit of the day and what it borrowed, less what it lent. 0 where it has no stand-in row.
    pub allowance: u128,
    /// The most in one amount.
    pub single: Amount,
    /// What its own approvals use.
    pub used: u128,
}

/// Whether the message is in the network's currency (element 49).
fn has_currency(tables: &Tables, message: &Message) -> bool
    ensures { result ≡ bytes_eq (el message.now 49) tables.now.settings.currency }
{
    bytes_of(message, elements::CURRENCY) == tables.settings().currency.as_slice()
}

impl Limits {
    /// The response code of a request that the node answers by itself within these limits.
    pub fn code(&self, tables: &Tables, message: &Message) -> Code
        ensures { result ≡ code_by_limits self.now.allowance self.now.single tables.now.settings.currency self.now.used message.now (decimal (el message.now 4)) }
    {
        if self.allowance == 0 {
            return Code::new(response_codes::ISSUER_OR_SWITCH_INOPERATIVE);
        }
        if !has_currency(tables, message) {
            return Code::new(response_codes::NOT_PERMITTED_TO_CARDHOLDER);
        }
        let amount = amount_of(message).value();
        if self.single.value() < amount || !self.leaves(amount) {
            return Code::new(response_codes::EXCEEDS_AMOUNT_LIMIT);
        }
        Code::new(response_codes::APPROVED)
    }

    /// Whether so much is left of the allowance.
    fn leaves(&self, amount: u64) -> bool
        ensures { result ≡ not (nat_lt self.now.allowance (self.now.used + amount)) }
    {
        self.used <= self.allowance && amount as u128 <= self.allowance - self.used
    }
}

/// Whether an advice or grant that was stored at a count of ticks is sent again now: each time that so many ticks more have passed.
pub fn is_due_again(ticks: u16, now: u64, count: u64) -> bool
    ensures { result ≡ is_due_again ticks now count }
{
    let waited = now.saturating_sub(count);
    waited > 0 && ticks > 0 && waited % ticks as u64 == 0
}
