//! Amounts that messages carry.
ghost use Rattle.std.specs.Prelude.{◌≡◌};
ghost use Rattle.message_keys.specs.Amounts.{actual_amount};

use card_digits::Amount;
use iso_message::Message;
use message_elements::elements;

/// The actual amount of a partial reversal, in the currency's smallest unit: the first of the replacement amounts (ISO 8583,
/// element 95). None where that element is absent, or where its first twelve bytes are not all ASCII digits.
pub fn actual_amount(message: &Message) -> Option<Amount>
    ensures { result ≡ actual_amount message.now }
{
    // Every message can be written, so element 95 has 42 bytes.
    let _ = message.kind();
    let amounts = message.get(elements::REPLACEMENT_AMOUNTS)?;
    Amount::read(&amounts[..12]).ok()
}
