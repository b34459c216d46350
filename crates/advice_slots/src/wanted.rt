//! What is looked for among the items.
ghost use Rattle.std.specs.Prelude.{◌≡◌};
ghost use Rattle.advice_slots.specs.Kept.{name_wanted, wants};

use crate::item::{Held, ItemName};
use message_keys::AdviceId;

/// An item of a name, an advice of an identity that was put, or that wasn't, or a grant of a lender and number.
#[derive(Clone, Copy)]
pub(crate) enum Wanted {
    Item(ItemName),
    Put(AdviceId),
    NotPut(AdviceId),
    Lent([u8; 11], u64),
}

impl Wanted {
    /// The name of all items that are looked for.
    pub fn name(self) -> ItemName
        ensures { result ≡ name_wanted self }
    {
        match self {
            Wanted::Item(name) => name,
            Wanted::Put(id) => ItemName::Advice(id),
            Wanted::NotPut(id) => ItemName::Advice(id),
            Wanted::Lent(_, number) => ItemName::Grant(number),
        }
    }

    /// Whether it is this item.
    pub fn is(self, held: &Held) -> bool
        ensures { result ≡ wants self held.now }
    {
        match self {
            Wanted::Item(name) => held.name() == name,
            Wanted::Put(id) => held.item.was_put(id),
            Wanted::NotPut(id) => held.name() == ItemName::Advice(id) && !held.item.was_put(id),
            Wanted::Lent(lender, number) => held.item.is_lent(lender, number),
        }
    }
}
