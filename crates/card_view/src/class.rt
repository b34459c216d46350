//! The class of a card.
ghost use Rattle.std.specs.Prelude.{◌≡◌, if◌then◌else◌};
ghost use Rattle.card_digits.specs.Longest.{begins, kept};
ghost use Rattle.card_view.specs.View.{class};

use card_digits::{Card, Prefix, begins};
use net_rows::Tables;

/// The longest prefix so far, or the next one where that begins the card and is longer.
fn longer(longest: Option<Prefix>, next: Prefix, card: &Card) -> Option<Prefix>
    ensures { result ≡ (if begins next card.now then kept (λ p. p) longest next else longest) }
{
    if !begins(&next, card) {
        return longest;
    }
    match longest {
        Some(other) if next.digits().len() <= other.digits().len() => longest,
        _ => Some(next),
    }
}

/// The class of a card: the longest prefix of an issuer, route or stand-in row that begins it. It goes along all rows once.
pub fn class_of(tables: &Tables, card: &Card) -> Option<Prefix>
    ensures { result ≡ class tables.now card.now }
{
    let mut longest = None;
    for row in tables.issuers() {
        longest = longer(longest, row.prefix, card);
    }
    for row in tables.routes() {
        longest = longer(longest, row.prefix, card);
    }
    for row in tables.stand_ins() {
        longest = longer(longest, row.prefix, card);
    }
    longest
}
