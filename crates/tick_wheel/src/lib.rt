//! Slots that wait for a tick, at most 4,000 ticks ahead.
#![tactic(auto)]

ghost use Rattle.std.specs.Prelude.{◌≡◌, ◌≢◌, ◌<◌, ◌+◌, ◌-◌, ◌≤◌, ◌^◌, ◌∷◌, ◌++◌, ℕ, [], IsOk, IsTrue, IsFalse, IfOk, OnOk, OnErr, length, replicate, slice_get, Some, None};
ghost use Rattle.std.specs.Borrow.{sem};
ghost use Rattle.std.specs.Option.{option_copied, option_copied_mut};
ghost use Rattle.slab.specs.Slab.{get, slab_len, HasRoomFor, Updates, SameValues, ContainsKey};
ghost use Rattle.chain_links.specs.Lists.{LinksView, IsMember, Distinct, AreApart, list_at, no_lists, with_heads, pushed, unlinked};
ghost use Rattle.tick_wheel.specs.Turned.{place};
ghost use Rattle.tick_wheel.specs.Wheel.{WheelView, IsArmed, due_after, lists_in, with_lists, with_slots, armed, disarmed, advanced};

use slot_chains::Chains;
pub use slot_chains::{Family, SlotId};
use std::alloc::{AllocError, Global};
use std::marker::Model;

const BUCKETS: u32 = 4096;

/// Slots that hold values. Each may be due at one tick to come, and is a member of at most one list of each of two families.
#[derive(Drop)]
pub struct Wheel<T> {
    chains: Chains<T>,
    // The bucket of the next tick.
    next: u32,
    visits: u64,
}

impl<T> Model for Wheel<T> {
    ghost use Rattle.tick_wheel.specs.Wheel.{WheelView, seen_as, IsRound};

    ghost Value = { WheelView T };

    ghost view = { λ w. seen_as w.chains w.next w.visits };

    ghost invariant = { λ w. IsRound w.chains w.next };
}

// The bucket so many places after the next one.
fn bucket_of(next: u32, ahead: u32) -> u32
    requires next { next < 4096 }
    requires ahead { ahead < 4096 }
    ensures { result ≡ place next ahead }
{
    if next + ahead < BUCKETS {
        next + ahead
    } else {
        next + ahead - BUCKETS
    }
}

impl<T: Drop> Wheel<T> {
    /// A wheel without slots, and without heads of the families `Card` and `Link`. The buckets take memory.
    pub fn new(alloc: Global) -> Result<Wheel<T>, AllocError>
        ensures slots { IfOk result (λ w. (w.slots.slots ≡ []) × (w.slots.capacity ≡ 0)) }
        ensures waiting { IfOk result (λ w. w.waiting ≡ replicate 4096 []) }
        ensures lists { IfOk result (λ w. (w.card ≡ no_lists) × (w.link ≡ no_lists)) }
        ensures visits { IfOk result (λ w. w.visits ≡ 0) }
    {
        let mut chains = Chains::new(alloc);
        chains.grow_heads(Family::Bucket, BUCKETS)?;
        Ok(Wheel {
            chains,
            next: 0,
            visits: 0,
        })
    }

    /// Makes so many heads of `Card` or `Link`, if there are fewer. The lists of the new ones have no slots.
    pub fn grow_heads(&mut self, family: Family, heads: u32) -> Result<(), AllocError>
        requires { family ≢ Family.Bucket }
        ensures ok { OnOk result (self.new ≡ with_lists self.old family (with_heads (lists_in self.old family) heads)) }
        ensures err { OnErr result (self.new ≡ self.old) }
        ensures succeeds { heads ≤ length (lists_in self.old family).lists → IsOk result }
    {
        match family {
            Family::Bucket => Ok(()),
            Family::Card => self.chains.grow_heads(Family::Card, heads),
            Family::Link => self.chains.grow_heads(Family::Link, heads),
        }
    }

    /// Makes room: the next so many calls of `insert` find a slot. Where memory is refused, none may find one.
    pub fn room(&mut self, slots: u32) -> Result<(), AllocError>
        ensures ok { OnOk result (HasRoomFor self.new.slots slots) }
        ensures values { SameValues self.old.slots self.new.slots }
        ensures len { slab_len self.new.slots ≡ slab_len self.old.slots }
        ensures held { HasRoomFor self.new.slots 0 }
        ensures lists { self.new ≡ with_slots self.old self.new.slots }
        ensures succeeds { HasRoomFor self.old.slots slots → IsOk result }
        ensures same { HasRoomFor self.old.slots slots → self.new ≡ self.old }
    {
        // The bucket of the next tick is one of the 4,096.
        let _ = self.next;
        self.chains.room(slots)
    }

    /// The number of slots that hold a value.
    pub fn held_count(&self) -> u32
        ensures { result ≡ slab_len self.now.slots }
    {
        self.chains.held_count()
    }

    /// Holds a value in a slot, which isn't armed and is in no list.
    pub fn insert(&mut self, value: T) -> SlotId
        requires { HasRoomFor self.old.slots 1 }
        ensures was_free { get self.old.slots result ≡ None }
        ensures slots { Updates self.old.slots self.new.slots result (Some value) }
        ensures len { slab_len self.new.slots ≡ slab_len self.old.slots + 1 }
        ensures capacity { self.new.slots.capacity ≡ self.old.slots.capacity }
        ensures lists { self.new ≡ record self.old { slots = self.new.slots } }
    {
        self.chains.insert(value)
    }

    /// Gives up a slot that isn't armed and is in no list. The next value gets it.
    pub fn take(&mut self, slot: SlotId) -> T
        requires held { ContainsKey self.old.slots slot }
        requires unarmed { ¬ IsArmed self.old slot }
        requires loose { (family : Family) → ¬ IsMember (lists_in self.old family) slot }
        ensures value { get self.old.slots slot ≡ Some result }
        ensures slots { Updates self.old.slots self.new.slots slot None }
        ensures len { slab_len self.new.slots + 1 ≡ slab_len self.old.slots }
        ensures next { self.new.slots.vacant_key ≡ slot }
        ensures room { (n : ℕ) → HasRoomFor self.old.slots n → HasRoomFor self.new.slots n }
        ensures capacity { slab_len self.old.slots < self.old.slots.capacity → self.new.slots.capacity ≡ self.old.slots.capacity }
        ensures lists { self.new ≡ with_slots self.old self.new.slots }
    {
        // The bucket of the next tick is one of the 4,096.
        let _ = self.next;
        self.chains.take(slot)
    }
}

impl<T> Wheel<T> {
    ghost use Rattle.tick_wheel.specs.Lends.{lends_slot};

    /// Lets a slot be due after so many ticks, behind those that were armed for that tick before.
    pub fn arm(&mut self, slot: SlotId, ticks: u16)
        requires ticks { (1 ≤ ticks) × (ticks ≤ 4000) }
        requires held { ContainsKey self.old.slots slot }
        requires free { ¬ IsArmed self.old slot }
        ensures { self.new ≡ armed self.old slot ticks }
    {
        let bucket = bucket_of(self.next, ticks as u32 - 1);
        self.chains.push_back(Family::Bucket, bucket, slot);
    }

    /// Lets an armed slot be due at no tick.
    pub fn disarm(&mut self, slot: SlotId)
        requires { IsArmed self.old slot }
        ensures { self.new ≡ disarmed self.old slot }
    {
        // The bucket of the next tick is one of the 4,096.
        let _ = self.next;
        self.chains.unlink(Family::Bucket, slot);
    }

    /// Whether the slot is due at a tick to come.
    pub fn is_armed(&self, slot: SlotId) -> bool
        ensures yes { IsTrue result → IsArmed self.now slot }
        ensures no { IsFalse result → ¬ IsArmed self.now slot }
    {
        // The bucket of the next tick is one of the 4,096.
        let _ = self.next;
        self.chains.is_member(Family::Bucket, slot)
    }

    /// The slots due at the next tick, in arming order.
    pub fn due(&self) -> Result<Vec<SlotId>, AllocError>
        ensures { IfOk result (λ v. v.items ≡ due_after self.now 0) }
    {
        self.chains.listed(Family::Bucket, self.next)
    }

    /// Makes the next tick: the slots due at it are armed no more.
    pub fn advance(&mut self)
        ensures wheel { self.new ≡ advanced self.old }
        ensures once { Distinct (due_after self.old 0) }
    {
        // No slot is in a bucket twice.
        let _ = self.chains.first(Family::Bucket, self.next);
        let due = self.chains.clear(Family::Bucket, self.next);
        self.visits = due as u64 + 1;
        self.next = bucket_of(self.next, 1);
    }

    /// The number of slots and list ends that the last `advance` looked at.
    pub fn visits(&self) -> u64
        ensures { result ≡ self.now.visits }
    {
        self.visits
    }

    /// The value in a slot, if it holds one.
    pub fn get(&self, slot: SlotId) -> Option<&T>
        ensures { option_copied result ≡ get self.now.slots slot }
    {
        self.chains.get(slot)
    }

    /// The value in a slot for writing. All else stays.
    pub fn get_mut(&mut self, slot: SlotId) -> Option<&mut T>
        ensures* writes_back { sem 𝓛 (lends_slot T.row self.entry slot result) }
        ensures value { option_copied_mut result ≡ get self.old.slots slot }
    {
        self.chains.get_mut(slot)
    }

    /// Adds a slot at the end of one list of `Card` or `Link`. All else stays.
    pub fn push_back(&mut self, family: Family, head: u32, slot: SlotId)
        requires family { family ≢ Family.Bucket }
        requires head { head < length (lists_in self.old family).lists }
        requires held { ContainsKey self.old.slots slot }
        requires free { ¬ IsMember (lists_in self.old family) slot }
        ensures { self.new ≡ with_lists self.old family (pushed (lists_in self.old family) head slot) }
    {
        match family {
            Family::Bucket => {}
            Family::Card => self.chains.push_back(Family::Card, head, slot),
            Family::Link => self.chains.push_back(Family::Link, head, slot),
        }
    }

    /// Takes a slot out of its list of `Card` or `Link`. All else stays.
    pub fn unlink(&mut self, family: Family, slot: SlotId)
        requires family { family ≢ Family.Bucket }
        requires member { IsMember (lists_in self.old family) slot }
        ensures { self.new ≡ with_lists self.old family (unlinked (lists_in self.old family) slot) }
    {
        match family {
            Family::Bucket => {}
            Family::Card => self.chains.unlink(Family::Card, slot),
            Family::Link => self.chains.unlink(Family::Link, slot),
        }
    }

    /// The number of heads of `Card` or `Link`.
    pub fn head_count(&self, family: Family) -> u32
        requires { family ≢ Family.Bucket }
        ensures { result ≡ length (lists_in self.now family).lists }
    {
        match family {
            Family::Bucket => 0,
            Family::Card => self.chains.head_count(Family::Card),
            Family::Link => self.chains.head_count(Family::Link),
        }
    }

    /// Whether the slot is in a list of `Card` or `Link`.
    pub fn is_member(&self, family: Family, slot: SlotId) -> bool
        requires { family ≢ Family.Bucket }
        ensures yes { IsTrue result → IsMember (lists_in self.now family) slot }
        ensures no { IsFalse result → ¬ IsMember (lists_in self.now family) slot }
    {
        match family {
            Family::Bucket => false,
            Family::Card => self.chains.is_member(Family::Card, slot),
            Family::Link => self.chains.is_member(Family::Link, slot),
        }
    }

    /// The first slot of one list of `Card` or `Link`.
    pub fn first(&self, family: Family, head: u32) -> Option<SlotId>
        requires { family ≢ Family.Bucket }
        ensures value { result ≡ slice_get (list_at (lists_in self.now family) head) 0 }
        ensures apart { AreApart (lists_in self.now family) }
    {
        match family {
            Family::Bucket => None,
            Family::Card => self.chains.first(Family::Card, head),
            Family::Link => self.chains.first(Family::Link, head),
        }
    }

    /// The slot after this one in its list of `Card` or `Link`.
    pub fn next(&self, family: Family, slot: SlotId) -> Option<SlotId>
        requires { family ≢ Family.Bucket }
        ensures after { (head : ℕ) (ls rs : _) → list_at (lists_in self.now family) head ≡ ls ++ slot ∷ rs → result ≡ slice_get rs 0 }
        ensures none { ¬ IsMember (lists_in self.now family) slot → result ≡ None }
    {
        match family {
            Family::Bucket => None,
            Family::Card => self.chains.next(Family::Card, slot),
            Family::Link => self.chains.next(Family::Link, slot),
        }
    }

    /// The slot before this one in its list of `Card` or `Link`.
    pub fn prev(&self, family: Family, slot: SlotId) -> Option<SlotId>
        requires { family ≢ Family.Bucket }
        ensures before { (head : ℕ) (ls rs : _) → list_at (lists_in self.now family) head ≡ ls ++ slot ∷ rs → result ≡ slice_get ls (length ls - 1) }
        ensures none { ¬ IsMember (lists_in self.now family) slot → result ≡ None }
    {
        match family {
            Family::Bucket => None,
            Family::Card => self.chains.prev(Family::Card, slot),
            Family::Link => self.chains.prev(Family::Link, slot),
        }
    }

    /// The number of slots in one list of `Card` or `Link`.
    pub fn len(&self, family: Family, head: u32) -> u32
        requires { family ≢ Family.Bucket }
        ensures { result ≡ length (list_at (lists_in self.now family) head) }
    {
        match family {
            Family::Bucket => 0,
            Family::Card => self.chains.len(Family::Card, head),
            Family::Link => self.chains.len(Family::Link, head),
        }
    }

    /// The slots of one list of `Card` or `Link`, in order.
    pub fn listed(&self, family: Family, head: u32) -> Result<Vec<SlotId>, AllocError>
        requires { family ≢ Family.Bucket }
        ensures { IfOk result (λ v. v.items ≡ list_at (lists_in self.now family) head) }
    {
        self.chains.listed(family, head)
    }
}
