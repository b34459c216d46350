//! A slot in its lists: all items in the order of storing, its class, and the bucket of the tick at which its class is due.
ghost use Rattle.std.specs.Prelude.{◌≡◌, ◌<◌, ◌+◌, ◌-◌, ◌≤◌, ◌%◌, ◌∷◌, ◌++◌, ℕ, [], false, length, find, filter, map, slice_set, Some, None, IfOk, IfSome, OnOk};
ghost use Rattle.slab.specs.Slab.{get, slab_len, HasRoomFor, Updates, ContainsKey};
ghost use Rattle.chain_links.specs.Lists.{IsMember, Among, list_at, pushed, unlinked};
ghost use Rattle.tick_wheel.specs.Wheel.{IsArmed, due_after, armed, disarmed, with_slots};
ghost use Rattle.std.specs.List.{list_any};
ghost use Rattle.std.specs.Option.{option_and_then, option_map};
ghost use Rattle.advice_slots.specs.Items.{HaveOwnIds, HasOwnId, is_due, marked_by, name_of, stored_of};
ghost use Rattle.advice_slots.specs.declared.item.Held.{Held};
ghost use Rattle.advice_slots.specs.Kept.{IsFound, class_after, items_in, order, wants, wants_at};

use crate::item::{Held, ItemName};
use crate::kept::StoredItem;
use crate::wanted::Wanted;
use message_keys::AdviceId;
use std::alloc::{AllocError, Global};
use tick_wheel::{Family, SlotId, Wheel};

/// The class of a count of ticks. Items of one class are due together.
pub(crate) fn class_of(count: u64, ticks: u16) -> u16
    requires { 1 ≤ ticks }
    ensures class { result ≡ count % ticks }
    ensures below { result < ticks }
{
    (count % ticks as u64) as u16
}

/// How many ticks after the next one a class is due, where the next one is the turn of this class.
pub(crate) fn ahead_of(ticks: u16, turn: u16, class: u16) -> u16
    requires turn { turn < ticks }
    requires class { class < ticks }
    ensures below { result < ticks }
    ensures class { class_after ticks turn result ≡ class }
{
    if turn <= class {
        class - turn
    } else {
        ticks - turn + class
    }
}

/// The class that is due after that of this turn.
pub(crate) fn turn_after(ticks: u16, turn: u16) -> u16
    requires { turn < ticks }
    ensures { result ≡ class_after ticks turn 1 }
{
    if turn + 1 < ticks {
        turn + 1
    } else {
        turn + 1 - ticks
    }
}

/// Puts a slot at the end of the order, of its class and of a bucket.
pub(crate) fn enter(wheel: &mut Wheel<Held>, slot: SlotId, class: u16, after: u16)
    requires some { 1 ≤ after }
    requires few { after ≤ 4000 }
    requires held { ContainsKey wheel.old.slots slot }
    requires unarmed { ¬ IsArmed wheel.old slot }
    requires loose { ¬ IsMember wheel.old.card slot }
    requires free { ¬ IsMember wheel.old.link slot }
    requires order { 0 < length wheel.old.card.lists }
    requires class { class < length wheel.old.link.lists }
    ensures { wheel.new ≡ record (armed wheel.old slot after) { card = pushed wheel.old.card 0 slot; link = pushed wheel.old.link class slot } }
{
    wheel.arm(slot, after);
    wheel.push_back(Family::Card, 0, slot);
    wheel.push_back(Family::Link, class as u32, slot);
}

/// Takes a slot out of its lists, and gives it up.
pub(crate) fn leave(wheel: &mut Wheel<Held>, slot: SlotId)
    requires held { ContainsKey wheel.old.slots slot }
    requires armed { IsArmed wheel.old slot }
    requires member { IsMember wheel.old.card slot }
    requires classed { IsMember wheel.old.link slot }
    ensures wheel { wheel.new ≡ with_slots (record (disarmed wheel.old slot) { card = unlinked wheel.old.card slot; link = unlinked wheel.old.link slot }) wheel.new.slots }
    ensures slots { Updates wheel.old.slots wheel.new.slots slot None }
    ensures len { slab_len wheel.new.slots + 1 ≡ slab_len wheel.old.slots }
    ensures room { (n : ℕ) → HasRoomFor wheel.old.slots n → HasRoomFor wheel.new.slots n }
{
    wheel.disarm(slot);
    wheel.unlink(Family::Card, slot);
    wheel.unlink(Family::Link, slot);
    let _ = wheel.take(slot);
}

/// Lets all slots of a class be due after so many ticks, in their order.
pub(crate) fn arm_class(wheel: &mut Wheel<Held>, class: u16, ticks: u16)
    requires some { 1 ≤ ticks }
    requires few { ticks ≤ 4000 }
    requires held { (slot : ℕ) → Among slot (list_at wheel.old.link class) → ContainsKey wheel.old.slots slot }
    requires unarmed { (slot : ℕ) → Among slot (list_at wheel.old.link class) → ¬ IsArmed wheel.old slot }
    requires none { due_after wheel.old (ticks - 1) ≡ [] }
    requires buckets { length wheel.old.waiting ≡ 4096 }
    ensures { wheel.new ≡ record wheel.old { waiting = slice_set wheel.old.waiting (ticks - 1) (list_at wheel.old.link class) } }
{
    let mut cursor = wheel.first(Family::Link, class as u32);
    while let Some(slot) = cursor {
        wheel.arm(slot, ticks);
        cursor = wheel.next(Family::Link, slot);
    }
}

/// Whether the item in a slot is looked for.
pub(crate) fn is_wanted(wheel: &Wheel<Held>, slot: SlotId, wanted: Wanted) -> bool
    ensures { result ≡ wants_at wanted (get wheel.now.slots slot) }
{
    match wheel.get(slot) {
        Some(held) => wanted.is(held),
        None => false,
    }
}

/// The advice in a slot was put, if it is that of this identity.
pub(crate) fn mark_in(wheel: &mut Wheel<Held>, slot: SlotId, id: AdviceId)
    ensures slots { Updates wheel.old.slots wheel.new.slots slot (option_map (marked_by id) (get wheel.old.slots slot)) }
    ensures len { slab_len wheel.new.slots ≡ slab_len wheel.old.slots }
    ensures capacity { wheel.new.slots.capacity ≡ wheel.old.slots.capacity }
    ensures rest { wheel.new ≡ record wheel.old { slots = wheel.new.slots } }
{
    if let Some(held) = wheel.get_mut(slot) {
        held.mark(id);
    }
}

/// The oldest item that is looked for.
pub(crate) fn find_in(wheel: &Wheel<Held>, wanted: Wanted) -> Option<SlotId>
    ensures found { IfSome result (λ slot. IsFound wanted wheel.now.slots (order wheel.now) slot) }
    ensures none { result ≡ None → list_any (wants wanted) (items_in wheel.now.slots (order wheel.now)) ≡ false }
    ensures oldest { option_and_then (get wheel.now.slots) result ≡ find (wants wanted) (items_in wheel.now.slots (order wheel.now)) }
{
    let mut cursor = wheel.first(Family::Card, 0);
    for _ in 0..wheel.len(Family::Card, 0) {
        let slot = cursor?;
        if is_wanted(wheel, slot, wanted) {
            return Some(slot);
        }
        cursor = wheel.next(Family::Card, slot);
    }
    None
}

/// Adds a copy of the item in a slot, if it is due.
fn push_due(
    items: &mut Vec<StoredItem>,
    wheel: &Wheel<Held>,
    slot: SlotId,
    ticks: u16,
    now: u64,
) -> Result<(), AllocError>
    requires { HaveOwnIds (items_in wheel.now.slots (slot ∷ [])) }
    ensures { OnOk result (items.new.items ≡ items.old.items ++ map stored_of (filter (is_due ticks now) (items_in wheel.now.slots (slot ∷ [])))) }
{
    if let Some(held) = wheel.get(slot) {
        if held.is_due(ticks, now) {
            items.push(held.to_stored()?)?;
        }
    }
    Ok(())
}

/// Copies of the items in these slots that are due, for a node.
pub(crate) fn due_in(
    alloc: Global,
    wheel: &Wheel<Held>,
    slots: &[SlotId],
    ticks: u16,
    now: u64,
) -> Result<Vec<StoredItem>, AllocError>
    requires { (slot : ℕ) (x : Held) → get wheel.now.slots slot ≡ Some x → HasOwnId x.item }
    ensures { IfOk result (λ v. v.items ≡ map stored_of (filter (is_due ticks now) (items_in wheel.now.slots slots.now))) }
{
    let mut items = Vec::new(alloc);
    for slot in slots {
        push_due(&mut items, wheel, *slot, ticks, now)?;
    }
    Ok(items)
}

/// Adds the name of the item in a slot, if it is due.
fn push_name(
    names: &mut Vec<ItemName>,
    wheel: &Wheel<Held>,
    slot: SlotId,
    ticks: u16,
    now: u64,
) -> Result<(), AllocError>
    ensures { OnOk result (names.new.items ≡ names.old.items ++ map name_of (filter (is_due ticks now) (items_in wheel.now.slots (slot ∷ [])))) }
{
    if let Some(held) = wheel.get(slot) {
        if held.is_due(ticks, now) {
            names.push(held.name())?;
        }
    }
    Ok(())
}

/// The names of the items in these slots that are due.
pub(crate) fn names_in(
    alloc: Global,
    wheel: &Wheel<Held>,
    slots: &[SlotId],
    ticks: u16,
    now: u64,
) -> Result<Vec<ItemName>, AllocError>
    ensures { IfOk result (λ v. v.items ≡ map name_of (filter (is_due ticks now) (items_in wheel.now.slots slots.now))) }
{
    let mut names = Vec::new(alloc);
    for slot in slots {
        push_name(&mut names, wheel, *slot, ticks, now)?;
    }
    Ok(names)
}
