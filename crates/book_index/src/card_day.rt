//! A card on a settlement date.
ghost use Rattle.std.specs.Prelude.{◌≡◌};

use card_digits::{Card, DateLabel, ShortBytes};

/// The digits of a card number and of a settlement date, as numbers. Limits count by it.
#[derive(Clone, Copy, Debug, PartialEq, Eq, PartialOrd, Ord, Hash)]
pub struct CardDay {
    pub card: ShortBytes<19>,
    pub date: ShortBytes<4>,
}

impl CardDay {
    /// A card on a settlement date.
    pub fn of(card: &Card, date: &DateLabel) -> CardDay
        ensures { result ≡ record { card = card.now; date = date.now } }
    {
        CardDay {
            card: ShortBytes::from_slice(card.digits()),
            date: ShortBytes::from_slice(date.digits()),
        }
    }
}
