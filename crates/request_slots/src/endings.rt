//! How card numbers end.
ghost use Rattle.std.specs.Prelude.{◌≡◌, ◌<◌};
ghost use Rattle.request_slots.specs.Kept.{ending};

use card_digits::Card;

/// As many numbers as three digits write.
pub(crate) const ENDINGS: u32 = 1_000;

/// The number that the last three digits of a card number write, from 0 to 999.
pub(crate) fn ending(card: &Card) -> u32
    ensures value { result ≡ ending card.now }
    ensures few { result < 1000 }
{
    let digits = card.digits();
    let last = digits.len() - 3;
    digits[last] as u32 * 100 + digits[last + 1] as u32 * 10 + digits[last + 2] as u32
}
