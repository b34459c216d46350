//! What a request waits for.
ghost use Rattle.std.specs.Prelude.{◌≡◌};
ghost use Rattle.request_slots.specs.Waits.{is_of};

use card_digits::{Card, LinkNo};

/// The place of a request among all, and what it waits for: the link that it was put on, and the count of ticks at which it is due. Its card
/// is there where its message has one.
#[derive(Clone, Copy, Debug)]
pub struct Wait {
    pub place: usize,
    pub card: Option<Card>,
    pub link: Option<LinkNo>,
    pub due: Option<u64>,
}

impl Wait {
    /// Whether the request is of this card.
    pub(crate) fn is_of(&self, card: &Card) -> bool
        ensures { result ≡ is_of card.now self.now }
    {
        match &self.card {
            Some(own) => own == card,
            None => false,
        }
    }
}
