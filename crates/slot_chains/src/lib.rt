//! Slots that hold values, in three families of linked lists.
#![tactic(auto)]

mod family;
mod slot;

ghost use Rattle.std.specs.Prelude.{◌≡◌, nat_le, nat_eq, if◌then◌else◌, ◌<◌, ◌+◌, ◌-◌, ◌≤◌, ◌∷◌, ◌++◌, ℕ, [], IsOk, IsTrue, IsFalse, IfOk, OnOk, OnErr, length, slice_get, Some, None};
ghost use Rattle.std.specs.Borrow.{sem};
ghost use Rattle.std.specs.Option.{option_copied, option_copied_mut};
ghost use Rattle.slab.specs.Slab.{get, slab_len, HasRoomFor, Updates, SameValues};
ghost use Rattle.chain_links.specs.Lists.{IsMember, AreApart, list_at, no_lists, with_heads, pushed, unlinked, popped, cleared};
ghost use Rattle.slot_chains.specs.Chains.{lists_in, with_lists, with_slots, over, IsHeld, IsLoose};

use crate::slot::{named, named_if};
use chain_links::Links;
pub use family::Family;
use slab::Slab;
pub use slot::SlotId;
use std::alloc::{AllocError, Global};
use std::marker::Model;

/// So many slots there may be.
const MOST: usize = 0xFFFF_FFFF;

/// Slots that hold values. Each is a member of at most one list of each family.
#[derive(Drop)]
pub struct Chains<T> {
    alloc: Global,
    slots: Slab<T>,
    /// How many values fit.
    capacity: u32,
    /// So many slots stand in each family at least, and no value is held in another.
    limit: u32,
    bucket: Links,
    card: Links,
    link: Links,
}

impl<T> Model for Chains<T> {
    ghost use Rattle.slot_chains.specs.Chains.{ChainsView, seen_as, bounded, AreKept};

    ghost Value = { ChainsView T };

    ghost view = { λ c. seen_as (bounded c.slots c.capacity) c.bucket c.card c.link };

    ghost invariant = { λ c. AreKept c.slots c.capacity c.limit c.bucket c.card c.link };
}

/// Makes so many slots in each family, if there are fewer. The lists stay.
fn widen(
    bucket: &mut Links,
    card: &mut Links,
    link: &mut Links,
    slots: u32,
) -> Result<(), AllocError>
    ensures buckets { bucket.new ≡ over bucket.old bucket.new.slots }
    ensures cards { card.new ≡ over card.old card.new.slots }
    ensures links { link.new ≡ over link.old link.new.slots }
    ensures fewer { (bucket.old.slots ≤ bucket.new.slots) × (card.old.slots ≤ card.new.slots) × (link.old.slots ≤ link.new.slots) }
    ensures enough { OnOk result ((slots ≤ bucket.new.slots) × (slots ≤ card.new.slots) × (slots ≤ link.new.slots)) }
{
    bucket.grow_slots(slots)?;
    card.grow_slots(slots)?;
    link.grow_slots(slots)
}

/// How many values fit once one of so many is taken out. Where there was no room, none is there before it is made.
fn capacity_after(capacity: u32, held: u32) -> u32
    ensures { result ≡ (if nat_eq capacity held then capacity - 1 else capacity) }
{
    if capacity == held {
        capacity.saturating_sub(1)
    } else {
        capacity
    }
}

impl<T: Drop> Chains<T> {
    /// Chains without slots and heads, which take no memory.
    pub fn new(alloc: Global) -> Chains<T>
        ensures slots { (result.slots.slots ≡ []) × (result.slots.capacity ≡ 0) }
        ensures lists { (result.bucket ≡ no_lists) × (result.card ≡ no_lists) × (result.link ≡ no_lists) }
    {
        Chains {
            alloc,
            slots: Slab::new(alloc),
            capacity: 0,
            limit: 0,
            bucket: Links::new(alloc),
            card: Links::new(alloc),
            link: Links::new(alloc),
        }
    }

    /// Makes so many heads in a family, if there are fewer. The lists of the new ones have no slots.
    pub fn grow_heads(&mut self, family: Family, heads: u32) -> Result<(), AllocError>
        ensures ok { OnOk result (self.new ≡ with_lists self.old family (with_heads (lists_in self.old family) heads)) }
        ensures err { OnErr result (self.new ≡ self.old) }
        ensures succeeds { heads ≤ length (lists_in self.old family).lists → IsOk result }
    {
        match family {
            Family::Bucket => self.bucket.grow_heads(heads),
            Family::Card => self.card.grow_heads(heads),
            Family::Link => self.link.grow_heads(heads),
        }
    }

    /// Whether so many values more fit.
    fn has_room(&self, slots: u32) -> bool
        ensures { result ≡ nat_le (slab_len self.now.slots + slots) self.now.slots.capacity }
    {
        slots <= self.capacity - self.held_count()
    }

    /// Makes room: the next so many calls of `insert` find a slot. Where memory is refused, none may find one.
    pub fn room(&mut self, slots: u32) -> Result<(), AllocError>
        ensures ok { OnOk result (HasRoomFor self.new.slots slots) }
        ensures values { SameValues self.old.slots self.new.slots }
        ensures len { slab_len self.new.slots ≡ slab_len self.old.slots }
        ensures held { HasRoomFor self.new.slots 0 }
        ensures lists { self.new ≡ with_slots self.old self.new.slots }
        ensures succeeds { HasRoomFor self.old.slots slots → IsOk result }
        ensures same { HasRoomFor self.old.slots slots → self.new ≡ self.old }
    {
        if self.has_room(slots) {
            return Ok(());
        }
        self.capacity = self.held_count();
        self.slots.reserve(slots as usize)?;
        let all = self.slots.capacity();
        if all > MOST {
            return Err(AllocError);
        }
        let limit = all as u32;
        widen(&mut self.bucket, &mut self.card, &mut self.link, limit)?;
        self.limit = limit;
        self.capacity = limit;
        Ok(())
    }

    /// The number of slots that hold a value.
    pub fn held_count(&self) -> u32
        ensures { result ≡ slab_len self.now.slots }
    {
        self.slots.len() as u32
    }

    /// Holds a value in a slot, which is in no list.
    pub fn insert(&mut self, value: T) -> SlotId
        requires { HasRoomFor self.old.slots 1 }
        ensures was_free { get self.old.slots result ≡ None }
        ensures slots { Updates self.old.slots self.new.slots result (Some value) }
        ensures len { slab_len self.new.slots ≡ slab_len self.old.slots + 1 }
        ensures capacity { self.new.slots.capacity ≡ self.old.slots.capacity }
        ensures lists { self.new ≡ record self.old { slots = self.new.slots } }
    {
        let slot = self.slots.insert_reserved(value);
        // All slots that were ever held are among those that the slab has memory for.
        let _ = self.slots.capacity();
        named(slot as u32)
    }

    /// Gives up a slot that is in no list. The next value gets it.
    pub fn take(&mut self, slot: SlotId) -> T
        requires held { IsHeld self.old slot }
        requires loose { IsLoose self.old slot }
        ensures value { get self.old.slots slot ≡ Some result }
        ensures slots { Updates self.old.slots self.new.slots slot None }
        ensures len { slab_len self.new.slots + 1 ≡ slab_len self.old.slots }
        ensures next { self.new.slots.vacant_key ≡ slot }
        ensures room { (n : ℕ) → HasRoomFor self.old.slots n → HasRoomFor self.new.slots n }
        ensures capacity { slab_len self.old.slots < self.old.slots.capacity → self.new.slots.capacity ≡ self.old.slots.capacity }
        ensures lists { self.new ≡ with_slots self.old self.new.slots }
    {
        self.capacity = capacity_after(self.capacity, self.held_count());
        self.slots.remove(slot.index() as usize)
    }
}

impl<T> Chains<T> {
    ghost use Rattle.slot_chains.specs.Lends.{lends_slot, lends_held};

    /// Adds a slot at the end of one list. All other lists and slots stay.
    pub fn push_back(&mut self, family: Family, head: u32, slot: SlotId)
        requires head { head < length (lists_in self.old family).lists }
        requires held { IsHeld self.old slot }
        requires free { ¬ IsMember (lists_in self.old family) slot }
        ensures { self.new ≡ with_lists self.old family (pushed (lists_in self.old family) head slot) }
    {
        // A slot that holds a value is one of those that stand in each family.
        let _ = self.slots.capacity();
        let slot = slot.index();
        match family {
            Family::Bucket => self.bucket.push_back(head, slot),
            Family::Card => self.card.push_back(head, slot),
            Family::Link => self.link.push_back(head, slot),
        }
    }

    /// Takes a slot out of its list of one family. All other lists and slots stay.
    pub fn unlink(&mut self, family: Family, slot: SlotId)
        requires { IsMember (lists_in self.old family) slot }
        ensures { self.new ≡ with_lists self.old family (unlinked (lists_in self.old family) slot) }
    {
        let slot = slot.index();
        match family {
            Family::Bucket => self.bucket.unlink(slot),
            Family::Card => self.card.unlink(slot),
            Family::Link => self.link.unlink(slot),
        }
    }

    /// Takes the first slot out of one list. All other lists and slots stay.
    pub fn pop_front(&mut self, family: Family, head: u32) -> Option<SlotId>
        ensures value { result ≡ slice_get (list_at (lists_in self.old family) head) 0 }
        ensures lists { self.new ≡ with_lists self.old family (popped (lists_in self.old family) head) }
    {
        match family {
            Family::Bucket => named_if(self.bucket.pop_front(head)),
            Family::Card => named_if(self.card.pop_front(head)),
            Family::Link => named_if(self.link.pop_front(head)),
        }
    }

    /// Takes all slots out of one list, and answers how many they were. All other lists and slots stay.
    pub fn clear(&mut self, family: Family, head: u32) -> u32
        ensures count { result ≡ length (list_at (lists_in self.old family) head) }
        ensures lists { self.new ≡ with_lists self.old family (cleared (lists_in self.old family) head) }
    {
        match family {
            Family::Bucket => self.bucket.clear(head),
            Family::Card => self.card.clear(head),
            Family::Link => self.link.clear(head),
        }
    }

    /// The number of heads of a family.
    pub fn head_count(&self, family: Family) -> u32
        ensures { result ≡ length (lists_in self.now family).lists }
    {
        match family {
            Family::Bucket => self.bucket.head_count(),
            Family::Card => self.card.head_count(),
            Family::Link => self.link.head_count(),
        }
    }

    /// Whether the slot is in a list of the family.
    pub fn is_member(&self, family: Family, slot: SlotId) -> bool
        ensures yes { IsTrue result → IsMember (lists_in self.now family) slot }
        ensures no { IsFalse result → ¬ IsMember (lists_in self.now family) slot }
    {
        match family {
            Family::Bucket => self.bucket.is_member(slot.index()),
            Family::Card => self.card.is_member(slot.index()),
            Family::Link => self.link.is_member(slot.index()),
        }
    }

    /// The first slot of one list.
    pub fn first(&self, family: Family, head: u32) -> Option<SlotId>
        ensures value { result ≡ slice_get (list_at (lists_in self.now family) head) 0 }
        ensures apart { AreApart (lists_in self.now family) }
    {
        match family {
            Family::Bucket => named_if(self.bucket.first(head)),
            Family::Card => named_if(self.card.first(head)),
            Family::Link => named_if(self.link.first(head)),
        }
    }

    /// The slot after this one in its list of the family.
    pub fn next(&self, family: Family, slot: SlotId) -> Option<SlotId>
        ensures after { (head : ℕ) (ls rs : _) → list_at (lists_in self.now family) head ≡ ls ++ slot ∷ rs → result ≡ slice_get rs 0 }
        ensures none { ¬ IsMember (lists_in self.now family) slot → result ≡ None }
    {
        if !self.is_member(family, slot) {
            return None;
        }
        match family {
            Family::Bucket => named_if(self.bucket.next(slot.index())),
            Family::Card => named_if(self.card.next(slot.index())),
            Family::Link => named_if(self.link.next(slot.index())),
        }
    }

    /// The slot before this one in its list of the family.
    pub fn prev(&self, family: Family, slot: SlotId) -> Option<SlotId>
        ensures before { (head : ℕ) (ls rs : _) → list_at (lists_in self.now family) head ≡ ls ++ slot ∷ rs → result ≡ slice_get ls (length ls - 1) }
        ensures none { ¬ IsMember (lists_in self.now family) slot → result ≡ None }
    {
        if !self.is_member(family, slot) {
            return None;
        }
        match family {
            Family::Bucket => named_if(self.bucket.prev(slot.index())),
            Family::Card => named_if(self.card.prev(slot.index())),
            Family::Link => named_if(self.link.prev(slot.index())),
        }
    }

    /// The number of slots in one list.
    pub fn len(&self, family: Family, head: u32) -> u32
        ensures { result ≡ length (list_at (lists_in self.now family) head) }
    {
        match family {
            Family::Bucket => self.bucket.len(head),
            Family::Card => self.card.len(head),
            Family::Link => self.link.len(head),
        }
    }

    /// The slots of one list, in order.
    pub fn listed(&self, family: Family, head: u32) -> Result<Vec<SlotId>, AllocError>
        ensures { IfOk result (λ v. v.items ≡ list_at (lists_in self.now family) head) }
    {
        let mut found = Vec::new(self.alloc);
        let mut cursor = self.first(family, head);
        while let Some(slot) = cursor {
            found.push(slot)?;
            cursor = self.next(family, slot);
        }
        Ok(found)
    }

    /// The value in a slot for writing. All else stays.
    pub fn get_mut(&mut self, slot: SlotId) -> Option<&mut T>
        ensures* writes_back { sem 𝓛 (lends_slot T.row self.entry slot result) }
        ensures value { option_copied_mut result ≡ get self.old.slots slot }
    {
        if self.get(slot).is_some() {
            Some(self.value_mut(slot))
        } else {
            None
        }
    }

    fn value_mut(&mut self, slot: SlotId) -> &mut T
        requires { IsHeld self.old slot }
        ensures* writes_back { sem 𝓛 (lends_held T.row self.entry slot result) }
        ensures value { get self.old.slots slot ≡ Some result.now }
    {
        &mut self.slots[slot.index() as usize]
    }

    /// The value in a slot, if it holds one.
    pub fn get(&self, slot: SlotId) -> Option<&T>
        ensures { option_copied result ≡ get self.now.slots slot }
    {
        self.slots.get(slot.index() as usize)
    }
}
