//! The store of advices.
ghost use Rattle.std.specs.Prelude.{◌≡◌, ◌⊎◌, ◌<◌, ◌+◌, ◌-◌, ◌≤◌, ◌^◌, ◌∷◌, ◌++◌, [], true, false, not, max, min, map, filter, length, Some, None, IsOk, IfOk, IfErr, OnOk, OnErr};
ghost use Rattle.std.specs.List.{list_any};
ghost use Rattle.std.specs.Option.{option_copied};
ghost use Rattle.advice_slots.specs.Items.{HaveOwnIds, is_due, is_held, is_lent, stored_of, was_put};
ghost use Rattle.advice_store.specs.Books.{is_known, load, advice_of, grant_of, due_next, ticked, refusal, grant_refusal, noted, stored, lent, without_item, put_marked};

use crate::known::KnownIds;
use advice_slots::{Advice, AdviceSlots, Held, Item, ItemName, LentGrant, StoredItem};
use message_keys::AdviceId;
use network_law::Grant;
use std::alloc::{AllocError, Global};
use std::marker::Model;

/// How many items may be stored and places reserved, together.
const PLACES: u64 = 65536;

/// Why no place is reserved, an advice isn't stored, or an identity not noted.
#[derive(Clone, Copy, PartialEq, Eq, Debug)]
pub enum StoreFault {
    Full,
    Known,
    Memory,
}

/// Why a grant isn't stored.
#[derive(Clone, Copy, PartialEq, Eq, Debug)]
pub enum GrantFault {
    Full,
    Memory,
}

/// Advices and grants in stored order, each of them due again after so many ticks until it is acknowledged, and the identities that
/// are known. Nothing takes an identity away.
#[derive(Drop)]
pub struct AdviceStore {
    slots: AdviceSlots,
    known: KnownIds,
    reserved: u32,
    room: usize,
}

impl Model for AdviceStore {
    ghost use Rattle.advice_store.specs.Books.{IsStore, Store};

    ghost Value = { Store };

    ghost view = { λ b. record { items = b.slots.items; known = b.known.ids; reserved = b.reserved; room = b.room; ticks = b.slots.ticks; count = b.slots.count; visits = b.slots.visits } };

    ghost invariant = { λ b. IsStore b.reserved b.room b.slots.room b.known.room };
}

/// The next item needs no memory, nor do so many that had room.
fn one_slot(slots: &mut AdviceSlots, room: usize) -> Result<(), AllocError>
    requires { room ≤ slots.old.room }
    ensures same { slots.new ≡ record slots.old { room = slots.new.room } }
    ensures kept { room ≤ slots.new.room }
    ensures ok { OnOk result (1 ≤ slots.new.room) }
    ensures succeeds { 1 ≤ room → IsOk result }
{
    if room > 0 {
        return Ok(());
    }
    slots.reserve(1)
}

/// The next identity needs no memory, nor do so many that had room.
fn one_identity(known: &mut KnownIds, room: usize) -> Result<(), AllocError>
    requires { room ≤ known.old.room }
    ensures same { known.new.ids ≡ known.old.ids }
    ensures kept { room ≤ known.new.room }
    ensures ok { OnOk result (1 ≤ known.new.room) }
    ensures succeeds { 1 ≤ room → IsOk result }
{
    if room > 0 {
        return Ok(());
    }
    known.reserve(1)
}

/// Adds an item at the end. A count of ticks that is behind that of the item catches up.
fn push_at(slots: &mut AdviceSlots, held: Held)
    requires { 1 ≤ slots.old.room }
    ensures items { slots.new ≡ record slots.old { items = slots.old.items ++ held ∷ []; count = max slots.old.count (min held.count (2 ^ 63)); visits = slots.new.visits; room = slots.new.room } }
    ensures room { slots.old.room ≤ slots.new.room + 1 }
{
    slots.catch_up(held.count);
    slots.push(held);
}

impl AdviceStore {
    /// A store without items, which are due again after so many ticks.
    pub fn new(alloc: Global, ticks: u16) -> Result<AdviceStore, AllocError>
        requires some { 1 ≤ ticks }
        requires few { ticks ≤ 4000 }
        ensures { IfOk result (λ b. b ≡ record { items = []; known = []; reserved = 0; room = 0; ticks = ticks; count = 0; visits = 0 }) }
    {
        Ok(AdviceStore {
            slots: AdviceSlots::new(alloc, ticks)?,
            known: KnownIds::new(alloc),
            reserved: 0,
            room: 0,
        })
    }

    /// Whether an identity was stored or noted.
    pub fn known(&self, id: &AdviceId) -> bool
        ensures { result ≡ is_known self.now id.now }
    {
        self.known.contains(*id)
    }

    /// Whether an advice is stored and not acknowledged.
    pub fn holds(&self, id: &AdviceId) -> bool
        ensures { result ≡ is_held self.now.items (ItemName.Advice id.now) }
    {
        self.slots.has(&ItemName::Advice(*id))
    }

    /// The advice of an identity, if it is stored.
    pub fn get(&self, id: &AdviceId) -> Option<&Advice>
        ensures { option_copied result ≡ advice_of self.now id.now }
    {
        match &self.slots.find(&ItemName::Advice(*id))?.item {
            Item::Advice(advice) => Some(advice),
            Item::Grant(_) => None,
        }
    }

    /// The grant of a number, if it is stored.
    pub fn grant(&self, number: u64) -> Option<&Grant>
        ensures { option_copied result ≡ grant_of self.now number }
    {
        match &self.slots.find(&ItemName::Grant(number))?.item {
            Item::Advice(_) => None,
            Item::Grant(lent) => Some(&lent.grant),
        }
    }

    /// The places that are taken.
    fn load(&self) -> u64
        ensures load { result ≡ load self.now }
        ensures few { result < 2 ^ 33 }
    {
        self.slots.len() as u64 + self.reserved as u64
    }

    /// Reserves places for advices to come.
    pub fn reserve(&mut self, n: u32) -> Result<(), StoreFault>
        ensures ok { OnOk result (self.new ≡ record self.old { reserved = self.old.reserved + n }) }
        ensures fits { OnOk result (load self.old + n ≤ 65536) }
        ensures err { OnErr result (self.new ≡ self.old) }
        ensures fault { IfErr result (λ e. e ≡ StoreFault.Full) }
        ensures full { OnErr result (65536 < load self.old + n) }
    {
        if self.load() + n as u64 > PLACES {
            return Err(StoreFault::Full);
        }
        self.reserved += n;
        Ok(())
    }

    /// Gives reserved places back.
    pub fn unreserve(&mut self, n: u32)
        requires { n ≤ self.old.reserved }
        ensures { self.new ≡ record self.old { reserved = self.old.reserved - n } }
    {
        self.reserved -= n;
    }

    /// Makes room: the next so many calls of `store`, `store_grant` and `note` find memory. Where it is refused, room that was made before is
    /// lost.
    pub fn room(&mut self, n: usize) -> Result<(), AllocError>
        ensures ok { OnOk result (self.new ≡ record self.old { room = max self.old.room n }) }
        ensures err { OnErr result (self.new ≡ record self.old { room = 0 }) }
    {
        if n > self.room {
            self.room = 0;
            // More items have no memory.
            if n > u32::MAX as usize {
                return Err(AllocError);
            }
            self.slots.reserve(n as u32)?;
            self.known.reserve(n)?;
            self.room = n;
        }
        Ok(())
    }

    /// Stores an advice, on a place of its own or on a reserved one. After a fault the advice comes back.
    pub fn store(&mut self, advice: Advice, reserved: bool) -> Result<(), (StoreFault, Advice)>
        requires { reserved ≡ true → 1 ≤ self.old.reserved }
        ensures ok { OnOk result (self.new ≡ stored self.old advice reserved) }
        ensures accepted { OnOk result (refusal self.old advice.id reserved ≡ None) }
        ensures err { OnErr result (self.new ≡ self.old) }
        ensures value { IfErr result (λ e. e.1 ≡ advice) }
        ensures cause { IfErr result (λ e. (e.0 ≡ StoreFault.Memory) ⊎ (refusal self.old advice.id reserved ≡ Some e.0)) }
        // Memory is the cause only where no room was made and nothing else refuses.
        ensures no_room { IfErr result (λ e. e.0 ≡ StoreFault.Memory → self.old.room ≡ 0) }
        ensures memory_last { IfErr result (λ e. e.0 ≡ StoreFault.Memory → refusal self.old advice.id reserved ≡ None) }
    {
        if !reserved && self.load() >= PLACES {
            return Err((StoreFault::Full, advice));
        }
        if self.known(&advice.id) {
            return Err((StoreFault::Known, advice));
        }
        if one_slot(&mut self.slots, self.room).is_err() {
            return Err((StoreFault::Memory, advice));
        }
        if one_identity(&mut self.known, self.room).is_err() {
            return Err((StoreFault::Memory, advice));
        }
        self.known.insert(advice.id);
        let count = self.slots.count();
        self.slots.push(Held {
            item: Item::Advice(advice),
            count,
        });
        self.room = self.room.saturating_sub(1);
        if reserved {
            self.reserved -= 1;
        }
        Ok(())
    }

    /// An identity is known from now on, and no advice is stored.
    pub fn note(&mut self, id: AdviceId) -> Result<(), StoreFault>
        ensures ok { OnOk result (self.new ≡ noted self.old id) }
        ensures accepted { OnOk result (is_known self.old id ≡ false) }
        ensures err { OnErr result (self.new ≡ self.old) }
        ensures cause { IfErr result (λ e. (e ≡ StoreFault.Memory) ⊎ ((e ≡ StoreFault.Known) × (is_known self.old id ≡ true))) }
        ensures no_room { IfErr result (λ e. e ≡ StoreFault.Memory → self.old.room ≡ 0) }
        ensures memory_last { IfErr result (λ e. e ≡ StoreFault.Memory → is_known self.old id ≡ false) }
    {
        if self.known(&id) {
            return Err(StoreFault::Known);
        }
        if one_identity(&mut self.known, self.room).is_err() {
            return Err(StoreFault::Memory);
        }
        self.known.insert(id);
        self.room = self.room.saturating_sub(1);
        Ok(())
    }

    /// Stores a grant. One whose number is held already stays as it is.
    pub fn store_grant(&mut self, grant: Grant) -> Result<(), GrantFault>
        ensures ok { OnOk result (self.new ≡ lent self.old grant) }
        ensures accepted { OnOk result (grant_refusal self.old grant.number ≡ None) }
        ensures err { OnErr result (self.new ≡ self.old) }
        ensures cause { IfErr result (λ e. (e ≡ GrantFault.Memory) ⊎ (grant_refusal self.old grant.number ≡ Some e)) }
        ensures no_room { IfErr result (λ e. e ≡ GrantFault.Memory → self.old.room ≡ 0) }
        ensures memory_last { IfErr result (λ e. e ≡ GrantFault.Memory → grant_refusal self.old grant.number ≡ None) }
        ensures again { is_held self.old.items (ItemName.Grant grant.number) ≡ true → IsOk result }
    {
        if self.slots.has(&ItemName::Grant(grant.number)) {
            return Ok(());
        }
        if self.load() >= PLACES {
            return Err(GrantFault::Full);
        }
        if one_slot(&mut self.slots, self.room).is_err() {
            return Err(GrantFault::Memory);
        }
        let count = self.slots.count();
        self.slots.push(Held {
            item: Item::Grant(LentGrant {
                grant,
                borrower: None,
            }),
            count,
        });
        self.room = self.room.saturating_sub(1);
        Ok(())
    }

    /// Takes an advice out. Answers whether it was held.
    pub fn ack(&mut self, id: &AdviceId) -> bool
        ensures held { result ≡ is_held self.old.items (ItemName.Advice id.now) }
        ensures items { self.new ≡ without_item self.old (ItemName.Advice id.now) }
    {
        self.slots.remove(&ItemName::Advice(*id))
    }

    /// Takes a grant out. Answers whether it was held.
    pub fn ack_grant(&mut self, number: u64) -> bool
        ensures held { result ≡ is_held self.old.items (ItemName.Grant number) }
        ensures items { self.new ≡ without_item self.old (ItemName.Grant number) }
    {
        self.slots.remove(&ItemName::Grant(number))
    }

    /// An advice was put on a link, if it is stored. One look-up.
    pub fn mark_put(&mut self, id: &AdviceId)
        ensures { self.new ≡ put_marked self.old id.now }
    {
        self.slots.mark(*id);
    }

    /// What is due at the next tick, in stored order.
    pub fn due(&self) -> Result<Vec<ItemName>, AllocError>
        ensures { IfOk result (λ v. v.items ≡ due_next self.now) }
    {
        self.slots.due()
    }

    /// Makes the next tick. What is due at it is due again later.
    pub fn tick(&mut self)
        ensures next { self.old.count < 2 ^ 63 → self.new ≡ ticked self.old }
        ensures last { 2 ^ 63 ≤ self.old.count → self.new ≡ self.old }
    {
        self.slots.tick();
    }

    /// The number of slots and list ends that the last tick looked at.
    pub fn visits(&self) -> u64
        ensures { result ≡ self.now.visits }
    {
        self.slots.visits()
    }

    /// Whether an advice of this identity is stored, and was put. One look-up.
    pub(crate) fn was_put(&self, id: AdviceId) -> bool
        ensures { result ≡ list_any (was_put id) self.now.items }
    {
        self.slots.was_put(id)
    }

    /// The number of items.
    pub(crate) fn len(&self) -> u32
        ensures { result ≡ length self.now.items }
    {
        self.slots.len()
    }

    /// Copies of the items that are due at a count of ticks, for a node, the oldest first.
    pub(crate) fn due_at(&self, ticks: u16, now: u64) -> Result<Vec<StoredItem>, AllocError>
        requires { HaveOwnIds self.now.items }
        ensures { IfOk result (λ v. v.items ≡ map stored_of (filter (is_due ticks now) self.now.items)) }
    {
        self.slots.due_at(ticks, now)
    }

    /// An identity is known from now on, also one that was.
    pub(crate) fn know(&mut self, id: AdviceId)
        requires { 0 < self.old.room }
        ensures { self.new ≡ noted self.old id }
    {
        self.known.insert(id);
        self.room -= 1;
    }

    /// An advice is stored at its count of ticks, also where no place is free, and its identity known.
    pub(crate) fn keep(&mut self, id: AdviceId, held: Held)
        requires { 0 < self.old.room }
        ensures { self.new ≡ record (noted self.old id) { items = self.old.items ++ held ∷ []; count = max self.old.count (min held.count (2 ^ 63)); visits = self.new.visits } }
    {
        push_at(&mut self.slots, held);
        self.known.insert(id);
        self.room -= 1;
    }

    /// A grant is stored at its count of ticks, also where no place is free or its number is held.
    pub(crate) fn keep_grant(&mut self, held: Held)
        requires { 0 < self.old.room }
        ensures { self.new ≡ record self.old { items = self.old.items ++ held ∷ []; room = self.old.room - 1; count = max self.old.count (min held.count (2 ^ 63)); visits = self.new.visits } }
    {
        push_at(&mut self.slots, held);
        self.room -= 1;
    }

    /// Takes the grants of a lender and number out, where those of several lenders may have the number.
    pub(crate) fn remove_lent(&mut self, lender: [u8; 11], number: u64)
        ensures { self.new ≡ record self.old { items = filter (λ x. not (is_lent lender number x)) self.old.items } }
    {
        self.slots.remove_lent(lender, number);
    }
}
