//! A host that approves up to an amount.
ghost use Rattle.std.specs.Prelude.{◌≡◌, true};
ghost use Rattle.run_report.specs.Hosts.{is_within, limit_code};

use card_digits::Amount;
use iso_message::Message;
use message_elements::{Code, elements, response_codes};
use net_operate::Host;

/// Answers 00 up to an amount, and 05 above it and where the request has no amount.
#[derive(Clone, Copy, Debug, PartialEq, Eq)]
pub struct LimitHost {
    pub amount: Amount,
}

/// Whether the request has an amount, of at most the limit.
fn is_within(limit: Amount, request: &Message) -> bool
    ensures { result ≡ is_within limit request.now }
{
    match request.get(elements::AMOUNT) {
        Some(text) => match Amount::read(text) {
            Ok(amount) => amount.value() <= limit.value(),
            Err(_) => false,
        },
        None => false,
    }
}

impl Host for LimitHost {
    fn authorize(&self, request: &Message) -> Code
        ensures { result ≡ limit_code self.now.amount request.now }
    {
        if is_within(self.amount, request) {
            Code::new(response_codes::APPROVED)
        } else {
            Code::new(response_codes::DO_NOT_HONOR)
        }
    }

    fn answers_at_once(&self) -> bool
        ensures { result ≡ true }
    {
        true
    }
}
