//! The store as a node's books use it, which make all changes of a step at once.
ghost use Rattle.std.specs.Prelude.{◌≡◌, ◌+◌, ◌-◌, ◌<◌, ◌≤◌, ◌^◌, [], ◌∷◌, ◌++◌, map, filter, not, min, max, IfOk, OnOk, OnErr, length};
ghost use Rattle.std.specs.List.{list_any};
ghost use Rattle.message_keys.specs.Keys.{identity_of};
ghost use Rattle.node_machine.specs.Lists.{is_among};
ghost use Rattle.node_machine.specs.Books.{Advised, Granted};
ghost use Rattle.node_machine.specs.Machine.{is_due, was_put};
ghost use Rattle.advice_store.specs.Advices.{marked_by, has_id, packet_acked};

use crate::lenders::Lenders;
use crate::store::AdviceStore;
use advice_slots::{KeptAdvice, KeptGrant, StoredItem};
use message_keys::AdviceId;
use network_law::GrantPacket;
use std::alloc::{AllocError, Global};
use std::marker::Model;

/// After how many ticks at most an item is due again by the wheel.
const MOST_TICKS: u16 = 4000;

/// A node's store. Each advice has the identity of its message.
#[derive(Drop)]
pub struct NodeAdvices {
    store: AdviceStore,
    lenders: Lenders,
}

impl Model for NodeAdvices {
    ghost use Rattle.std.specs.Prelude.{map};
    ghost use Rattle.advice_slots.specs.Items.{stored_of};
    ghost use Rattle.advice_store.specs.Nodes.{AreOwn, NodeStore};

    ghost Value = { NodeStore };

    ghost view = { λ a. record { store = map stored_of a.store.items; known = a.store.known; room = a.store.room; ticks = a.store.ticks; count = a.store.count; visits = a.store.visits } };

    ghost invariant = { λ a. AreOwn a.lenders a.store.items };
}

impl NodeAdvices {
    /// A store without items, for a network in which they are sent again after so many ticks.
    pub fn new(alloc: Global, ticks: u16) -> Result<NodeAdvices, AllocError>
        ensures { IfOk result (λ a. a ≡ record { store = []; known = []; room = 0; ticks = min (max ticks 1) 4000; count = 0; visits = 0 }) }
    {
        let ticks = ticks.max(1).min(MOST_TICKS);
        Ok(NodeAdvices {
            store: AdviceStore::new(alloc, ticks)?,
            lenders: Lenders::None,
        })
    }

    /// The next n calls need no memory. Where it is refused, room that was made before is lost.
    pub fn room(&mut self, n: usize) -> Result<(), AllocError>
        ensures ok { OnOk result (self.new ≡ record self.old { room = max self.old.room n }) }
        ensures err { OnErr result (self.new ≡ record self.old { room = 0 }) }
    {
        self.store.room(n)
    }

    /// Whether an identity is known. One look-up.
    pub fn is_known(&self, id: AdviceId) -> bool
        ensures { result ≡ is_among id self.now.known }
    {
        self.store.known(&id)
    }

    /// Whether an advice of this identity is stored. One look-up.
    pub fn is_stored(&self, id: AdviceId) -> bool
        ensures { result ≡ list_any (has_id id) self.now.store }
    {
        self.store.holds(&id)
    }

    /// Whether an advice of this identity is stored, and was put. One look-up.
    pub fn was_put(&self, id: AdviceId) -> bool
        ensures { result ≡ list_any (was_put id) self.now.store }
    {
        self.store.was_put(id)
    }

    /// An identity is known from now on, and its advice isn't stored.
    pub fn know(&mut self, id: AdviceId)
        requires { 0 < self.old.room }
        ensures { self.new ≡ record self.old { known = self.old.known ++ id ∷ []; room = self.old.room - 1 } }
    {
        self.store.know(id);
    }

    /// An identity is known from now on, and its advice is stored. A count of ticks that is behind that of the advice catches up.
    pub fn keep(&mut self, advice: KeptAdvice)
        requires { 0 < self.old.room }
        ensures { self.new ≡ record self.old { store = self.old.store ++ Advised advice ∷ []; known = self.old.known ++ identity_of advice.message ∷ []; room = self.old.room - 1; count = max self.old.count (min advice.count (2 ^ 63)); visits = self.new.visits } }
    {
        let id = advice.id();
        self.store.keep(id, advice.into_held());
    }

    /// A grant is stored. A count of ticks that is behind that of the grant catches up.
    pub fn keep_grant(&mut self, grant: KeptGrant)
        requires { 0 < self.old.room }
        ensures { self.new ≡ record self.old { store = self.old.store ++ Granted grant ∷ []; room = self.old.room - 1; count = max self.old.count (min grant.count (2 ^ 63)); visits = self.new.visits } }
    {
        self.lenders = self.lenders.with(grant.grant().lender);
        self.store.keep_grant(grant.into_held());
    }

    /// The advice of this identity was put. One look-up.
    pub fn mark_put(&mut self, id: AdviceId)
        ensures { self.new ≡ record self.old { store = map (marked_by id) self.old.store } }
    {
        self.store.mark_put(&id);
    }

    /// The advice of this identity was acknowledged. One look-up.
    pub fn ack(&mut self, id: AdviceId)
        ensures { self.new ≡ record self.old { store = filter (λ a. not (has_id id a)) self.old.store } }
    {
        self.store.ack(&id);
    }

    /// A grant of this lender and number was acknowledged. One look-up, unless grants of several lenders were stored.
    fn ack_grant(&mut self, lender: [u8; 11], number: u64)
        ensures { self.new ≡ record self.old { store = filter (λ a. not (packet_acked (GrantPacket.Ack lender number) a)) self.old.store } }
    {
        match self.lenders {
            Lenders::None => {}
            Lenders::One(own) => {
                if own == lender {
                    self.store.ack_grant(number);
                }
            }
            Lenders::Several => self.store.remove_lent(lender, number),
        }
    }

    /// A packet was taken. An acknowledgement takes its grant out. One look-up, unless grants of several lenders were stored.
    pub fn take_packet(&mut self, packet: &GrantPacket)
        ensures { self.new ≡ record self.old { store = filter (λ a. not (packet_acked packet.now a)) self.old.store } }
    {
        match packet {
            GrantPacket::Ack { lender, number } => self.ack_grant(*lender, *number),
            GrantPacket::Grant(_) => {}
        }
    }

    /// The number of items.
    pub fn len(&self) -> usize
        ensures { result ≡ length self.now.store }
    {
        self.store.len() as usize
    }

    /// Copies of the items that are sent again at a count of ticks, the oldest first. At the next tick it looks at those alone; at another
    /// one, or where they are sent again after another number of ticks than the store was made for, at all.
    pub fn due_at(&self, ticks: u16, now: u64) -> Result<Vec<StoredItem>, AllocError>
        ensures { IfOk result (λ v. v.items ≡ filter (is_due ticks now) self.now.store) }
    {
        self.store.due_at(ticks, now)
    }

    /// Makes the next tick. It looks at the items that are sent again at it, and one list end.
    pub fn tick(&mut self)
        ensures next { self.old.count < 2 ^ 63 → self.new ≡ record self.old { count = self.old.count + 1; visits = length (filter (is_due self.old.ticks (self.old.count + 1)) self.old.store) + 1 } }
        ensures last { 2 ^ 63 ≤ self.old.count → self.new ≡ self.old }
        ensures same { self.new ≡ record self.old { count = self.new.count; visits = self.new.visits } }
    {
        self.store.tick();
    }

    /// The number of slots and list ends that the last tick looked at.
    pub fn visits(&self) -> u64
        ensures { result ≡ self.now.visits }
    {
        self.store.visits()
    }
}
