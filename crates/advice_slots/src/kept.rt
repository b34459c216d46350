//! What a node stores and sends again.
ghost use Rattle.std.specs.Prelude.{◌≡◌, Some, IfOk};
ghost use Rattle.message_keys.specs.Keys.{identity_of};
ghost use Rattle.advice_slots.specs.Items.{HasOwnId, case_of, stored_of};
ghost use Rattle.advice_slots.specs.declared.item.Item.TheVariants as items;

use crate::item::{Advice, Held, Item, LentGrant};
use card_digits::NodeNo;
use kept_messages::KeptMessage;
use message_keys::AdviceId;
use network_law::Grant;
use std::alloc::AllocError;
use std::marker::Model;

/// An advice that waits for its acknowledgement.
#[derive(Drop)]
pub struct KeptAdvice {
    id: AdviceId,
    message: KeptMessage,
    count: u64,
    put: bool,
}

impl Model for KeptAdvice {
    ghost use Rattle.std.specs.Prelude.{◌≡◌};
    ghost use Rattle.message_keys.specs.Keys.{identity_of};
    ghost use Rattle.node_machine.specs.Books.{Kept};

    ghost Value = { Kept };

    ghost view = { λ a. record { message = a.message; count = a.count; put = a.put } };

    ghost invariant = { λ a. a.id ≡ identity_of a.message };
}

impl KeptAdvice {
    /// An advice that was stored at this count of ticks, and whether it was put on a link yet.
    pub fn new(id: AdviceId, message: KeptMessage, count: u64, put: bool) -> KeptAdvice
        requires { id ≡ identity_of message }
        ensures { result ≡ record { message = message; count = count; put = put } }
    {
        KeptAdvice {
            id,
            message,
            count,
            put,
        }
    }

    /// What the advice is known by.
    pub fn id(&self) -> AdviceId
        ensures { result ≡ identity_of self.now.message }
    {
        self.id
    }

    /// The advice, as the node keeps it.
    pub fn message(&self) -> &KeptMessage
        ensures { result.now ≡ self.now.message }
    {
        &self.message
    }

    /// The count at which it was stored.
    pub fn count(&self) -> u64
        ensures { result ≡ self.now.count }
    {
        self.count
    }

    /// Whether it was put on a link.
    pub fn put(&self) -> bool
        ensures { result ≡ self.now.put }
    {
        self.put
    }

    /// The item that is held of it.
    pub fn into_held(self) -> Held
        ensures { result ≡ record { item = items.Advice (record { id = identity_of self.message; message = self.message; put = self.put }); count = self.count } }
    {
        Held {
            item: Item::Advice(Advice {
                id: self.id,
                message: self.message,
                put: self.put,
            }),
            count: self.count,
        }
    }
}

/// A grant that waits for its acknowledgement.
#[derive(Drop)]
pub struct KeptGrant {
    grant: Grant,
    borrower: NodeNo,
    count: u64,
}

impl Model for KeptGrant {
    ghost use Rattle.node_machine.specs.Books.{KeptGrant};

    ghost Value = { KeptGrant };

    ghost view = { λ g. record { grant = g.grant; borrower = g.borrower; count = g.count } };
}

impl KeptGrant {
    /// A grant to another node, at this count of ticks.
    pub fn new(grant: Grant, borrower: NodeNo, count: u64) -> KeptGrant
        ensures { result ≡ record { grant = grant; borrower = borrower; count = count } }
    {
        KeptGrant {
            grant,
            borrower,
            count,
        }
    }

    /// What is lent.
    pub fn grant(&self) -> Grant
        ensures { result ≡ self.now.grant }
    {
        self.grant
    }

    /// The node that borrows.
    pub fn borrower(&self) -> NodeNo
        ensures { result ≡ self.now.borrower }
    {
        self.borrower
    }

    /// The count at which it was stored.
    pub fn count(&self) -> u64
        ensures { result ≡ self.now.count }
    {
        self.count
    }

    /// The item that is held of it.
    pub fn into_held(self) -> Held
        ensures { result ≡ record { item = items.Grant (record { grant = self.grant; borrower = Some self.borrower }); count = self.count } }
    {
        Held {
            item: Item::Grant(LentGrant {
                grant: self.grant,
                borrower: Some(self.borrower),
            }),
            count: self.count,
        }
    }
}

/// What the store keeps.
#[derive(Drop)]
pub enum StoredCase {
    Advice(KeptAdvice),
    Grant(KeptGrant),
}

/// An advice or a grant that waits for its acknowledgement.
#[derive(Drop)]
pub struct StoredItem {
    case: StoredCase,
}

impl Model for StoredItem {
    ghost use Rattle.node_machine.specs.Books.{Stored};
    ghost use Rattle.advice_slots.specs.Items.{case_of};

    ghost Value = { Stored };

    ghost view = { λ i. case_of i.case };
}

impl StoredItem {
    /// An item of the store that is this advice or grant.
    pub fn new(case: StoredCase) -> StoredItem
        ensures { result ≡ case_of case }
    {
        StoredItem { case }
    }

    /// Which of the two it is.
    pub fn case(&self) -> &StoredCase
        ensures { case_of result.now ≡ self.now }
    {
        &self.case
    }

    /// The case, to be used up.
    pub fn into_case(self) -> StoredCase
        ensures { case_of result ≡ self }
    {
        self.case
    }
}

impl Held {
    /// The same for a node, with no copy of the message's bytes. A grant whose borrower wasn't told goes to node 0.
    pub(crate) fn to_stored(&self) -> Result<StoredItem, AllocError>
        requires { HasOwnId self.now.item }
        ensures { IfOk result (λ i. i ≡ stored_of self.now) }
    {
        let case = match &self.item {
            Item::Advice(advice) => {
                let message = advice.message.share()?;
                StoredCase::Advice(KeptAdvice::new(advice.id, message, self.count, advice.put))
            }
            Item::Grant(lent) => {
                let borrower = match lent.borrower {
                    Some(borrower) => borrower,
                    None => NodeNo::new(0),
                };
                StoredCase::Grant(KeptGrant::new(lent.grant, borrower, self.count))
            }
        };
        Ok(StoredItem { case })
    }
}
