//! Cards and settlement dates of messages.
ghost use Rattle.std.specs.Prelude.{◌≡◌, IfSome};
ghost use Rattle.std.specs.Result.{result_ok};
ghost use Rattle.card_digits.specs.Reading.{read_digits};
ghost use Rattle.iso_message.specs.Fields.{el, has};
ghost use Rattle.message_keys.specs.Keys.{when};
ghost use Rattle.network_law.specs.Cards.{card_of, label_of, is_good_card};

use card_digits::{Card, DateLabel, luhn_text};
use iso_message::{Message, bytes_of};
use message_elements::elements;

/// The card of the message: none where element 2 is absent or has fewer digits than a card number.
pub fn card_of(message: &Message) -> Option<Card>
    ensures read { result ≡ result_ok (read_digits 8 19 (el message.now 2)) }
    ensures card { IfSome result (λ card. card ≡ card_of message.now) }
{
    // Every message can be written, so element 2 has digits alone.
    let _ = message.kind();
    Card::read_known(bytes_of(message, elements::CARD_NUMBER)).ok()
}

/// The least number of digits of a card.
const LEAST_DIGITS: usize = 8;

/// Whether the message has a card number whose check digit is right, which is summed where the number stands.
pub fn has_good_card(message: &Message) -> bool
    ensures { result ≡ is_good_card (el message.now 2) }
{
    // Every message can be written, so element 2 has at most 19 bytes, which are digits.
    let _ = message.kind();
    let Some(number) = message.get(elements::CARD_NUMBER) else {
        return false;
    };
    if number.len() < LEAST_DIGITS {
        return false;
    }
    luhn_text(number)
}

/// The settlement date of the message, none where element 15 is absent.
pub fn label_of(message: &Message) -> Option<DateLabel>
    ensures { result ≡ when (has message.now 15) (label_of message.now) }
{
    // Every message can be written, so element 15 has four digits.
    let _ = message.kind();
    let label = message.get(elements::SETTLEMENT_DATE)?;
    DateLabel::read(label).ok()
}
