//! What waits for its acknowledgement.
ghost use Rattle.std.specs.Prelude.{◌≡◌};
ghost use Rattle.network_law.specs.Decision.{is_due_again};
ghost use Rattle.advice_slots.specs.Items.{is_due, is_lent_in, marked_by, name_in, name_of, put_by, was_put_in};

use card_digits::NodeNo;
use kept_messages::KeptMessage;
use message_keys::{AdviceId, same_identity};
use network_law::Grant;
use step_rules::is_due_again;

/// An advice that waits for its acknowledgement.
#[derive(Drop)]
pub struct Advice {
    pub id: AdviceId,
    pub message: KeptMessage,
    /// Whether it was put on a link.
    pub put: bool,
}

/// A grant that waits for its acknowledgement, and the node that borrows, where that was told.
#[derive(Clone, Copy, Debug)]
pub struct LentGrant {
    pub grant: Grant,
    pub borrower: Option<NodeNo>,
}

/// What an item is named by: an advice by its identity, a grant by its number.
#[derive(Clone, Copy, Debug, PartialEq, Eq, PartialOrd, Ord, Hash)]
pub enum ItemName {
    Advice(AdviceId),
    Grant(u64),
}

/// What is stored.
#[derive(Drop)]
pub enum Item {
    Advice(Advice),
    Grant(LentGrant),
}

impl Item {
    /// What it is named by.
    fn name(&self) -> ItemName
        ensures { result ≡ name_in self.now }
    {
        match self {
            Item::Advice(advice) => ItemName::Advice(advice.id),
            Item::Grant(lent) => ItemName::Grant(lent.grant.number),
        }
    }

    /// Whether it is the advice of this identity, and was put.
    pub(crate) fn was_put(&self, id: AdviceId) -> bool
        ensures { result ≡ was_put_in id self.now }
    {
        match self {
            Item::Advice(advice) => same_identity(advice.id, id) && advice.put,
            Item::Grant(_) => false,
        }
    }

    /// Whether it is the grant of this lender and number.
    pub(crate) fn is_lent(&self, lender: [u8; 11], number: u64) -> bool
        ensures { result ≡ is_lent_in lender number self.now }
    {
        match self {
            Item::Advice(_) => false,
            Item::Grant(lent) => lender == lent.grant.lender && number == lent.grant.number,
        }
    }

    /// The advice was put, if it is that of this identity.
    fn mark(&mut self, id: AdviceId)
        ensures { self.new ≡ put_by id self.old }
    {
        match self {
            Item::Advice(advice) => {
                if same_identity(id, advice.id) {
                    advice.put = true;
                }
            }
            Item::Grant(_) => {}
        }
    }
}

/// An item, and the count of ticks at its storing.
#[derive(Drop)]
pub struct Held {
    pub item: Item,
    pub count: u64,
}

impl Held {
    /// What it is named by.
    pub(crate) fn name(&self) -> ItemName
        ensures { result ≡ name_of self.now }
    {
        self.item.name()
    }

    /// Whether it is due at a count of ticks, where items are due again after so many.
    pub(crate) fn is_due(&self, ticks: u16, now: u64) -> bool
        ensures { result ≡ is_due ticks now self.now }
    {
        is_due_again(ticks, now, self.count)
    }

    /// The advice was put, if it is that of this identity.
    pub(crate) fn mark(&mut self, id: AdviceId)
        ensures { self.new ≡ marked_by id self.old }
    {
        self.item.mark(id);
    }
}
