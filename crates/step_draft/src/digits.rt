//! Card numbers and settlement dates of messages, however many digits they have.
ghost use Rattle.std.specs.Prelude.{◌≡◌};
ghost use Rattle.network_law.specs.Cards.{card_of, label_of};

use card_digits::ShortBytes;
use iso_message::{Message, bytes_of};
use message_elements::elements;

/// The digits of the card number (element 2), none where it is absent.
#[tactic(auto, using(crate::proofs::Few::card_few), unfolding(network_law::specs::Cards::card_of))]
pub(crate) fn card_number(message: &Message) -> ShortBytes<19>
    ensures { result ≡ card_of message.now }
{
    let _ = message.kind();
    ShortBytes::from_digits(bytes_of(message, elements::CARD_NUMBER))
}

/// The digits of the settlement date (element 15), none where it is absent.
#[tactic(auto, using(crate::proofs::Few::date_few), unfolding(network_law::specs::Cards::label_of))]
pub(crate) fn date_label(message: &Message) -> ShortBytes<4>
    ensures { result ≡ label_of message.now }
{
    let _ = message.kind();
    ShortBytes::from_digits(bytes_of(message, elements::SETTLEMENT_DATE))
}
