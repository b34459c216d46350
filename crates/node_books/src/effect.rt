//! What an entry does to the books.
ghost use Rattle.std.specs.Prelude.{◌≡◌, true, false};
ghost use Rattle.message_keys.specs.Keys.{identity_of};
ghost use Rattle.node_machine.specs.Lists.{leaves};
ghost use Rattle.node_books.specs.Values.{leaves_of};

use advice_store::KeptGrant;
use card_digits::{Amount, DateLabel, Key, LinkNo};
use kept_messages::{KeptMessage, PreparedOutput};
use message_keys::{AdviceId, same_key};
use network_law::GrantPacket;
use pending_book::Row;
use standin_book::OwnApproval;
use std::marker::Model;

/// An advice that was made here, or accepted.
#[derive(Drop)]
pub struct NewAdvice {
    pub(crate) id: AdviceId,
    pub(crate) message: KeptMessage,
    pub(crate) actual: Amount,
    pub(crate) count: u64,
    pub(crate) own: bool,
    pub(crate) home: bool,
    pub(crate) put: bool,
}

impl Model for NewAdvice {
    ghost use Rattle.std.specs.Prelude.{◌≡◌, false};
    ghost use Rattle.message_keys.specs.Keys.{identity_of};
    ghost use Rattle.node_machine.specs.Lists.{leaves};
    ghost use Rattle.node_books.specs.Values.{NewAdvice};

    ghost Value = { NewAdvice };

    ghost view = { λ a. record { message = a.message; count = a.count; own = a.own; home = a.home; put = a.put } };

    ghost invariant = { λ a. (a.id ≡ identity_of a.message) × (a.own ≡ false → a.actual ≡ leaves a.message) };
}

impl NewAdvice {
    /// An advice that the node made at this count. `home` says whether it is the home of the advice's card, and `put` whether
    /// the advice was put on a link.
    pub fn made(id: AdviceId, message: KeptMessage, count: u64, home: bool, put: bool) -> NewAdvice
        requires { id ≡ identity_of message }
        ensures { result ≡ record { message = message; count = count; own = true; home = home; put = put } }
    {
        NewAdvice {
            id,
            message,
            actual: Amount::new(0),
            count,
            own: true,
            home,
            put,
        }
    }

    /// An advice that the node accepted at this count. A reversal leaves its actual amount of what it reverses.
    pub fn accepted(
        id: AdviceId,
        message: KeptMessage,
        actual: Amount,
        count: u64,
        home: bool,
    ) -> NewAdvice
        requires id { id ≡ identity_of message }
        requires actual { actual ≡ leaves message }
        ensures { result ≡ record { message = message; count = count; own = false; home = home; put = false } }
    {
        NewAdvice {
            id,
            message,
            actual,
            count,
            own: false,
            home,
            put: false,
        }
    }
}

impl NewAdvice {
    /// What the advice is known by.
    pub fn id(&self) -> AdviceId
        ensures { result ≡ identity_of self.now.message }
    {
        self.id
    }

    /// The advice, as the node keeps it.
    pub fn message(&self) -> &KeptMessage
        ensures { result.now ≡ self.now.message }
    {
        &self.message
    }

    /// Whether the node is the home of its card.
    pub fn home(&self) -> bool
        ensures { result ≡ self.now.home }
    {
        self.home
    }

    /// Whether it was put on a link.
    pub fn put(&self) -> bool
        ensures { result ≡ self.now.put }
    {
        self.put
    }

    /// The actual amount of a reversal of this key that was accepted.
    #[tactic(auto, using(kept_messages::proofs::Codes::id_key))]
    pub fn leaves(&self, key: Key) -> Option<Amount>
        ensures { result ≡ leaves_of key self.now }
    {
        if !self.own && self.message.kind().is_04xx() && same_key(self.id.key, key) {
            Some(self.actual)
        } else {
            None
        }
    }
}

/// A change of the books.
#[derive(Drop)]
pub enum Effect {
    /// An output went out.
    Sent(PreparedOutput),
    /// An advice was made or accepted.
    Kept(NewAdvice),
    /// The node approved by itself.
    Approved(OwnApproval),
    /// A request came.
    Opened(Row),
    /// An advice was acknowledged.
    Acknowledged(AdviceId),
    /// A link is up, or not.
    LinkIs(LinkNo, bool),
    /// There is a new settlement date.
    Dated(DateLabel),
    /// A tick went by.
    Ticked,
    /// A packet was put on a link, with this serial.
    PacketSent(LinkNo, u64, GrantPacket),
    /// The node lent to another.
    Lent(KeptGrant),
    /// A packet was taken.
    PacketTaken(GrantPacket),
}
