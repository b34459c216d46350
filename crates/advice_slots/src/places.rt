//! The slots of items by their names.
ghost use Rattle.std.specs.Prelude.{◌≡◌, ◌≤◌, ◌+◌, OnOk, Some, None, cond, is_some};
ghost use Rattle.std.specs.Map.{lookup};
ghost use Rattle.crowded_map.specs.Values.{spare};
ghost use Rattle.advice_slots.specs.Items.{name_eq};

use crate::item::ItemName;
use crowded_map::CrowdedMap;
use std::alloc::{AllocError, Global};
use tick_wheel::SlotId;

/// The slot of each name, of the newest item where there are several of it.
#[derive(Drop)]
pub(crate) struct ItemPlaces {
    pub slots: CrowdedMap<ItemName, SlotId>,
}

impl ItemPlaces {
    /// No name has a slot.
    pub fn new(alloc: Global) -> ItemPlaces
        ensures { (k : ItemName) → lookup (name_eq k) result.slots.entries ≡ None }
    {
        ItemPlaces {
            slots: CrowdedMap::new(alloc),
        }
    }

    /// The next n names need no memory.
    pub fn reserve(&mut self, n: usize) -> Result<(), AllocError>
        ensures slots { (k : ItemName) → lookup (name_eq k) self.new.slots.entries ≡ lookup (name_eq k) self.old.slots.entries }
        ensures room { OnOk result (n ≤ spare self.new.slots) }
    {
        self.slots.reserve(n)
    }

    /// The slot of a name.
    pub fn find(&self, name: ItemName) -> Option<SlotId>
        ensures { result ≡ lookup (name_eq name) self.now.slots.entries }
    {
        self.slots.get(&name).copied()
    }

    /// The name has this slot. Answers whether it had one before.
    pub fn put(&mut self, name: ItemName, slot: SlotId) -> bool
        requires { 1 ≤ spare self.old.slots }
        ensures again { result ≡ is_some (lookup (name_eq name) self.old.slots.entries) }
        ensures slots { (k : ItemName) → lookup (name_eq k) self.new.slots.entries ≡ cond (name_eq name k) (Some slot) (lookup (name_eq k) self.old.slots.entries) }
        ensures room { spare self.old.slots ≤ spare self.new.slots + 1 }
    {
        self.slots.insert(name, slot).is_some()
    }

    /// The name has no slot. Answers the one that it had.
    pub fn remove(&mut self, name: ItemName) -> Option<SlotId>
        ensures slot { result ≡ lookup (name_eq name) self.old.slots.entries }
        ensures slots { (k : ItemName) → lookup (name_eq k) self.new.slots.entries ≡ cond (name_eq name k) None (lookup (name_eq k) self.old.slots.entries) }
        ensures room { spare self.old.slots ≤ spare self.new.slots }
    {
        self.slots.remove(&name)
    }
}
