//! The items that are held, each in a slot.
ghost use Rattle.std.specs.Prelude.{◌≡◌, ℕ, ◌<◌, ◌+◌, ◌≤◌, ◌%◌, ◌==◌, ◌∷◌, ◌++◌, [], false, not, length, map, find, filter, Some, None, IfOk, OnOk, OnErr, IfSome};
ghost use Rattle.std.specs.List.{list_any};
ghost use Rattle.std.specs.Option.{option_and_then, option_copied, option_map};
ghost use Rattle.slab.specs.Slab.{get, slab_len, HasRoomFor, Updates, SameValues};
ghost use Rattle.chain_links.specs.Lists.{Among, without};
ghost use Rattle.advice_slots.specs.Items.{HaveOwnIds, is_due, marked_by, name_of, stored_of};
ghost use Rattle.advice_slots.specs.Kept.{IsFound, items_in, items_of, wants, wants_at};

use crate::item::{Held, ItemName};
use crate::kept::StoredItem;
use crate::wanted::Wanted;
use crate::wheel::{
    ahead_of, arm_class, class_of, due_in, enter, find_in, is_wanted, leave, mark_in, names_in,
    turn_after,
};
use message_keys::AdviceId;
use std::alloc::{AllocError, Global};
use std::marker::Model;
use tick_wheel::{Family, SlotId, Wheel};

/// Items in the order of their storing, each due again after so many ticks.
#[derive(Drop)]
pub(crate) struct HeldItems {
    alloc: Global,
    // An item is a slot. It stands in the one list of `Card`, the order of storing, and in its class, a list of `Link`. A class is in the
    // bucket of the tick at which it is due, and enters it again at each of its ticks.
    wheel: Wheel<Held>,
    ticks: u16,
    // The class that is due at the next tick.
    turn: u16,
}

impl Model for HeldItems {
    ghost use Rattle.advice_slots.specs.Kept.{HeldView, IsTurning, AreListed, order};

    ghost Value = { HeldView };

    ghost view = { λ h. record { slots = h.wheel.slots; order = order h.wheel; ticks = h.ticks; turn = h.turn; visits = h.wheel.visits } };

    ghost invariant = { λ h. IsTurning h.wheel h.ticks h.turn × AreListed h.wheel h.ticks };
}

impl HeldItems {
    /// No items, where they are due again after so many ticks.
    pub fn new(alloc: Global, ticks: u16) -> Result<HeldItems, AllocError>
        requires some { 1 ≤ ticks }
        requires few { ticks ≤ 4000 }
        ensures order { IfOk result (λ h. h.order ≡ []) }
        ensures ticks { IfOk result (λ h. (h.ticks ≡ ticks) × (h.turn ≡ 1 % ticks)) }
        ensures visits { IfOk result (λ h. h.visits ≡ 0) }
    {
        let mut wheel = Wheel::new(alloc)?;
        wheel.grow_heads(Family::Card, 1)?;
        Ok(HeldItems {
            alloc,
            wheel,
            ticks,
            turn: 1 % ticks,
        })
    }

    /// The next n items need no memory.
    pub fn reserve(&mut self, n: u32) -> Result<(), AllocError>
        ensures ok { OnOk result (HasRoomFor self.new.slots n) }
        ensures values { SameValues self.old.slots self.new.slots }
        ensures rest { self.new ≡ record self.old { slots = self.new.slots } }
        ensures fits { HasRoomFor self.old.slots 0 → HasRoomFor self.new.slots 0 }
    {
        // The classes come with the first slots.
        self.wheel.grow_heads(Family::Link, self.ticks as u32)?;
        self.wheel.room(n)
    }

    /// The number of items.
    pub fn len(&self) -> u32
        ensures { result ≡ length (items_of self.now) }
    {
        self.wheel.len(Family::Card, 0)
    }

    /// The item in a slot.
    pub fn get(&self, slot: SlotId) -> Option<&Held>
        ensures { option_copied result ≡ get self.now.slots slot }
    {
        self.wheel.get(slot)
    }

    /// Whether the item in a slot is looked for.
    pub fn is_wanted(&self, slot: SlotId, wanted: Wanted) -> bool
        ensures { result ≡ wants_at wanted (get self.now.slots slot) }
    {
        is_wanted(&self.wheel, slot, wanted)
    }

    /// The oldest item that is looked for. It goes along all items.
    pub fn find(&self, wanted: Wanted) -> Option<SlotId>
        ensures found { IfSome result (λ slot. IsFound wanted self.now.slots self.now.order slot) }
        ensures none { result ≡ None → list_any (wants wanted) (items_of self.now) ≡ false }
        ensures oldest { option_and_then (get self.now.slots) result ≡ find (wants wanted) (items_of self.now) }
    {
        find_in(&self.wheel, wanted)
    }

    /// Adds an item at the end.
    pub fn push(&mut self, held: Held) -> SlotId
        requires { HasRoomFor self.old.slots 1 }
        ensures free { ¬ Among result self.old.order }
        ensures slots { Updates self.old.slots self.new.slots result (Some held) }
        ensures len { slab_len self.new.slots ≡ slab_len self.old.slots + 1 }
        ensures capacity { self.new.slots.capacity ≡ self.old.slots.capacity }
        ensures rest { self.new ≡ record self.old { slots = self.new.slots; order = self.old.order ++ result ∷ [] } }
    {
        let class = class_of(held.count, self.ticks);
        let ahead = ahead_of(self.ticks, self.turn, class);
        let slot = self.wheel.insert(held);
        enter(&mut self.wheel, slot, class, ahead + 1);
        slot
    }

    /// Takes an item out.
    pub fn leave(&mut self, slot: SlotId)
        requires { Among slot self.old.order }
        ensures slots { Updates self.old.slots self.new.slots slot None }
        ensures len { slab_len self.new.slots + 1 ≡ slab_len self.old.slots }
        ensures room { (n : ℕ) → HasRoomFor self.old.slots n → HasRoomFor self.new.slots n }
        ensures rest { self.new ≡ record self.old { slots = self.new.slots; order = without slot self.old.order } }
    {
        leave(&mut self.wheel, slot);
    }

    /// Takes all items that are looked for out. It goes along all items.
    pub fn leave_all(&mut self, wanted: Wanted)
        ensures items { items_of self.new ≡ filter (λ a. not (wants wanted a)) (items_of self.old) }
        ensures len { slab_len self.new.slots ≤ slab_len self.old.slots }
        ensures room { (n : ℕ) → HasRoomFor self.old.slots n → HasRoomFor self.new.slots n }
        ensures rest { self.new ≡ record self.old { slots = self.new.slots; order = self.new.order } }
    {
        while let Some(slot) = self.find(wanted) {
            self.leave(slot);
        }
    }

    /// The advice in a slot was put, if it is that of this identity.
    pub fn mark(&mut self, slot: SlotId, id: AdviceId)
        ensures slots { Updates self.old.slots self.new.slots slot (option_map (marked_by id) (get self.old.slots slot)) }
        ensures len { slab_len self.new.slots ≡ slab_len self.old.slots }
        ensures capacity { self.new.slots.capacity ≡ self.old.slots.capacity }
        ensures rest { self.new ≡ record self.old { slots = self.new.slots } }
    {
        mark_in(&mut self.wheel, slot, id);
    }

    /// All advices of this identity were put. It goes along all items.
    pub fn mark_all(&mut self, id: AdviceId)
        ensures items { items_of self.new ≡ map (marked_by id) (items_of self.old) }
        ensures len { slab_len self.new.slots ≡ slab_len self.old.slots }
        ensures capacity { self.new.slots.capacity ≡ self.old.slots.capacity }
        ensures rest { self.new ≡ record self.old { slots = self.new.slots } }
    {
        while let Some(slot) = self.find(Wanted::NotPut(id)) {
            self.mark(slot, id);
        }
    }

    /// Slots among which are those of all items that are due, the oldest first. Where the next tick is asked for it looks at those alone.
    fn looked_at(&self, ticks: u16, now: u64) -> Result<Vec<SlotId>, AllocError>
        ensures { IfOk result (λ v. filter (is_due ticks now) (items_in self.now.slots v.items) ≡ filter (is_due ticks now) (items_of self.now)) }
    {
        if ticks == self.ticks && now % self.ticks as u64 == self.turn as u64 {
            return self.wheel.due();
        }
        self.wheel.listed(Family::Card, 0)
    }

    /// Copies of the items that are due at a count of ticks, for a node, the oldest first.
    pub fn due_at(&self, ticks: u16, now: u64) -> Result<Vec<StoredItem>, AllocError>
        requires { HaveOwnIds (items_of self.now) }
        ensures { IfOk result (λ v. v.items ≡ map stored_of (filter (is_due ticks now) (items_of self.now))) }
    {
        let slots = self.looked_at(ticks, now)?;
        due_in(self.alloc, &self.wheel, &slots, ticks, now)
    }

    /// The names of the items that are due at a count of ticks, the oldest first.
    pub fn due(&self, now: u64) -> Result<Vec<ItemName>, AllocError>
        ensures { IfOk result (λ v. v.items ≡ map name_of (filter (is_due self.now.ticks now) (items_of self.now))) }
    {
        let slots = self.looked_at(self.ticks, now)?;
        names_in(self.alloc, &self.wheel, &slots, self.ticks, now)
    }

    /// A tick was made. What was due at it is due again later.
    #[inline]
    pub fn tick(&mut self)
        ensures turn { self.new.turn ≡ (self.old.turn + 1) % self.old.ticks }
        ensures visits { self.new.visits ≡ length (filter (λ x. x.count % self.old.ticks == self.old.turn) (items_of self.old)) + 1 }
        ensures rest { self.new ≡ record self.old { turn = self.new.turn; visits = self.new.visits } }
    {
        // No slot is in two classes.
        let _ = self.wheel.first(Family::Link, self.turn as u32);
        self.wheel.advance();
        arm_class(&mut self.wheel, self.turn, self.ticks);
        self.turn = turn_after(self.ticks, self.turn);
    }

    /// So many ticks were made. What is due at them is due again later.
    pub fn pass(&mut self, count: u64)
        ensures turn { self.new.turn ≡ (self.old.turn + count) % self.old.ticks }
        ensures rest { self.new ≡ record self.old { turn = self.new.turn; visits = self.new.visits } }
    {
        // After as many ticks as a class waits, each class is due as before.
        for _ in 0..count % self.ticks as u64 {
            self.tick();
        }
    }

    /// The number of slots and list ends that the last tick looked at.
    pub fn visits(&self) -> u64
        ensures { result ≡ self.now.visits }
    {
        self.wheel.visits()
    }
}
