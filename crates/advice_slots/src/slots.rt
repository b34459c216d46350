//! Slots of advices and grants, found by their names.
ghost use Rattle.std.specs.Prelude.{◌≡◌, ◌<◌, ◌≤◌, ◌+◌, ◌^◌, ◌∷◌, ◌++◌, [], false, not, length, map, find, filter, min, max, true, None, IfOk, IfSome, OnOk};
ghost use Rattle.std.specs.List.{list_any};
ghost use Rattle.std.specs.Option.{option_and_then, option_copied};
ghost use Rattle.slab.specs.Slab.{get};
ghost use Rattle.advice_slots.specs.Items.{HaveOwnIds, is_due, is_held, is_lent, is_named, item_of, marked_by, name_of, stored_of, was_put};
ghost use Rattle.advice_slots.specs.Kept.{ArePlaced, items_of, wants};

use crate::held::HeldItems;
use crate::item::{Held, ItemName};
use crate::kept::StoredItem;
use crate::places::ItemPlaces;
use crate::wanted::Wanted;
use message_keys::AdviceId;
use std::alloc::{AllocError, Global};
use std::marker::Model;
use tick_wheel::SlotId;

/// More ticks than a node makes.
const MOST_TICKS: u64 = 1 << 63;

/// Advices and grants in the order of their storing, each due again after so many ticks.
#[derive(Drop)]
pub struct AdviceSlots {
    held: HeldItems,
    places: ItemPlaces,
    // Whether a name ever had an item more while it had one. The places of names don't tell enough then.
    several: bool,
    count: u64,
}

impl Model for AdviceSlots {
    ghost use Rattle.crowded_map.specs.Values.{spare};
    ghost use Rattle.advice_slots.specs.Items.{SlotsView};
    ghost use Rattle.advice_slots.specs.Kept.{AreHeld, items_of, room_in};

    ghost Value = { SlotsView };

    ghost view = { λ s. record { items = items_of s.held; ticks = s.held.ticks; count = s.count; visits = s.held.visits; room = room_in (spare s.places.slots) s.held.slots } };

    ghost invariant = { λ s. AreHeld s.held s.several s.places.slots.entries s.count };
}

/// The slot of the oldest item that is looked for. One look-up, unless several items had one name.
fn slot_of(held: &HeldItems, places: &ItemPlaces, several: bool, wanted: Wanted) -> Option<SlotId>
    requires { several ≡ false → ArePlaced held.now places.now.slots.entries }
    ensures found { IfSome result (λ _. list_any (wants wanted) (items_of held.now) ≡ true) }
    ensures none { result ≡ None → list_any (wants wanted) (items_of held.now) ≡ false }
    ensures oldest { option_and_then (get held.now.slots) result ≡ find (wants wanted) (items_of held.now) }
{
    if several {
        return held.find(wanted);
    }
    let slot = places.find(wanted.name())?;
    if held.is_wanted(slot, wanted) {
        Some(slot)
    } else {
        None
    }
}

impl AdviceSlots {
    /// No items, where they are due again after so many ticks.
    pub fn new(alloc: Global, ticks: u16) -> Result<AdviceSlots, AllocError>
        requires some { 1 ≤ ticks }
        requires few { ticks ≤ 4000 }
        ensures { IfOk result (λ s. s ≡ record { items = []; ticks = ticks; count = 0; visits = 0; room = s.room }) }
    {
        let held = HeldItems::new(alloc, ticks)?;
        Ok(AdviceSlots {
            held,
            places: ItemPlaces::new(alloc),
            several: false,
            count: 0,
        })
    }

    /// The next n items need no memory. Where it is refused, the next item may need some.
    pub fn reserve(&mut self, n: u32) -> Result<(), AllocError>
        ensures same { self.new ≡ record self.old { room = self.new.room } }
        ensures ok { OnOk result (n ≤ self.new.room) }
    {
        self.held.reserve(n)?;
        self.places.reserve(n as usize)
    }

    /// The number of items.
    pub fn len(&self) -> u32
        ensures { result ≡ length self.now.items }
    {
        self.held.len()
    }

    /// The oldest item of a name. One look-up.
    pub fn find(&self, name: &ItemName) -> Option<&Held>
        ensures { option_copied result ≡ item_of self.now.items name.now }
    {
        let wanted = Wanted::Item(*name);
        let slot = slot_of(&self.held, &self.places, self.several, wanted)?;
        self.held.get(slot)
    }

    /// Whether an item of a name is there. One look-up.
    pub fn has(&self, name: &ItemName) -> bool
        ensures { result ≡ is_held self.now.items name.now }
    {
        self.find(name).is_some()
    }

    /// Whether an advice of this identity is there that was put. One look-up.
    pub fn was_put(&self, id: AdviceId) -> bool
        ensures { result ≡ list_any (was_put id) self.now.items }
    {
        slot_of(&self.held, &self.places, self.several, Wanted::Put(id)).is_some()
    }

    /// The names of the items that are due at the next tick, the oldest first.
    pub fn due(&self) -> Result<Vec<ItemName>, AllocError>
        ensures { IfOk result (λ v. v.items ≡ map name_of (filter (is_due self.now.ticks (self.now.count + 1)) self.now.items)) }
    {
        self.held.due(self.count + 1)
    }

    /// Copies of the items that are due at a count of ticks, for a node, the oldest first. At the next tick it looks at those alone; at
    /// another one, or where they are due again after another number of ticks than the slots were made for, at all.
    pub fn due_at(&self, ticks: u16, now: u64) -> Result<Vec<StoredItem>, AllocError>
        requires { HaveOwnIds self.now.items }
        ensures { IfOk result (λ v. v.items ≡ map stored_of (filter (is_due ticks now) self.now.items)) }
    {
        self.held.due_at(ticks, now)
    }

    /// Adds an item at the end.
    pub fn push(&mut self, held: Held)
        requires room { 1 ≤ self.old.room }
        requires past { self.old.count < 2 ^ 63 → held.count ≤ self.old.count }
        ensures items { self.new ≡ record self.old { items = self.old.items ++ held ∷ []; room = self.new.room } }
        ensures room { self.old.room ≤ self.new.room + 1 }
    {
        let name = held.name();
        let slot = self.held.push(held);
        let again = self.places.put(name, slot);
        self.several |= again;
    }

    /// Takes the items of a name out. Answers whether there was one. One look-up.
    pub fn remove(&mut self, name: &ItemName) -> bool
        ensures held { result ≡ is_held self.old.items name.now }
        ensures items { self.new ≡ record self.old { items = filter (λ x. not (is_named name.now x)) self.old.items; room = self.new.room } }
        ensures room { self.old.room ≤ self.new.room }
    {
        let slot = self.places.remove(*name);
        if self.several {
            let wanted = Wanted::Item(*name);
            let found = self.held.find(wanted).is_some();
            self.held.leave_all(wanted);
            return found;
        }
        match slot {
            Some(slot) => {
                self.held.leave(slot);
                true
            }
            None => false,
        }
    }

    /// Takes the grants of a lender and number out, where those of several lenders may have the number. It goes along all items, and so
    /// does each look-up from then on.
    pub fn remove_lent(&mut self, lender: [u8; 11], number: u64)
        ensures items { self.new ≡ record self.old { items = filter (λ x. not (is_lent lender number x)) self.old.items; room = self.new.room } }
        ensures room { self.old.room ≤ self.new.room }
    {
        self.several = true;
        self.held.leave_all(Wanted::Lent(lender, number));
    }

    /// The advice of this identity was put. One look-up.
    pub fn mark(&mut self, id: AdviceId)
        ensures { self.new ≡ record self.old { items = map (marked_by id) self.old.items } }
    {
        if self.several {
            self.held.mark_all(id);
        } else if let Some(slot) = self.places.find(ItemName::Advice(id)) {
            self.held.mark(slot, id);
        }
    }

    /// Makes the next tick. The items that are due at it are due again later. It looks at these, and one list end.
    pub fn tick(&mut self)
        ensures last { 2 ^ 63 ≤ self.old.count → self.new ≡ self.old }
        ensures next { self.old.count < 2 ^ 63 → self.new ≡ record self.old { count = self.old.count + 1; visits = length (filter (is_due self.old.ticks (self.old.count + 1)) self.old.items) + 1 } }
    {
        if self.count < MOST_TICKS {
            self.held.tick();
            self.count += 1;
        }
    }

    /// Brings the count of ticks up to this one, if it is behind.
    pub fn catch_up(&mut self, count: u64)
        ensures { self.new ≡ record self.old { count = max self.old.count (min count (2 ^ 63)); visits = self.new.visits } }
    {
        let count = count.min(MOST_TICKS);
        if self.count < count {
            self.held.pass(count - self.count);
            self.count = count;
        }
    }

    /// How many ticks were made.
    pub fn count(&self) -> u64
        ensures count { result ≡ self.now.count }
        ensures few { result ≤ 2 ^ 63 }
    {
        self.count
    }

    /// The number of slots and list ends that the last tick looked at.
    pub fn visits(&self) -> u64
        ensures { result ≡ self.now.visits }
    {
        self.held.visits()
    }
}
