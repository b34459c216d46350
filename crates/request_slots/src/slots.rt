//! Slots for requests that wait.
ghost use Rattle.std.specs.Prelude.{◌≡◌, ◌<◌, ◌≤◌, ◌+◌, ◌-◌, ◌^◌, ◌++◌, ◌∷◌, [], IfOk, IfSome, OnOk, Some, None, length, suc};
ghost use Rattle.std.specs.Option.{option_copied, option_map};
ghost use Rattle.slab.specs.Slab.{ContainsKey};
ghost use Rattle.chain_links.specs.Lists.{IsMember, unlinked};
ghost use Rattle.tick_wheel.specs.Wheel.{IsArmed, disarmed};
ghost use Rattle.request_slots.specs.Kept.{armed_by, ending, linked};
ghost use Rattle.request_slots.specs.Waits.{count_due, places_where, wait_at, with_wait, is_due, is_on, is_of};

use crate::endings::{ENDINGS, ending};
use crate::places::{in_order, places_of, places_of_card};
use crate::wait::Wait;
use card_digits::{Card, LinkNo};
use std::alloc::{AllocError, Global};
use std::marker::Model;
use tick_wheel::{Family, SlotId, Wheel};

/// How many links a network may have.
const LINKS: u32 = 256;

/// The requests that wait, each in a slot.
#[derive(Drop)]
pub struct RequestSlots {
    wheel: Wheel<Wait>,
    /// The slot of each place whose request waits.
    slots: Vec<Option<SlotId>>,
    count: u64,
    room: usize,
    alloc: Global,
}

impl Model for RequestSlots {
    ghost use Rattle.std.specs.Prelude.{vec_len, vec_capacity};
    ghost use Rattle.request_slots.specs.Waits.{SlotsView, held_waits};
    ghost use Rattle.request_slots.specs.Kept.{IsKept, HasRoom};

    ghost Value = { SlotsView };

    ghost view = { λ s. record { waits = held_waits s.wheel.slots s.slots.items; count = s.count; visits = s.wheel.visits; room = s.room } };

    ghost invariant = { λ s. IsKept s.wheel s.slots.items s.count × HasRoom s.room s.wheel (vec_len s.slots) (vec_capacity s.slots) };
}

/// Puts a slot in the bucket of its tick, if it is due at one.
fn enter_tick(wheel: &mut Wheel<Wait>, slot: SlotId, count: u64, due: Option<u64>)
    requires held { ContainsKey wheel.old.slots slot }
    requires unarmed { ¬ IsArmed wheel.old slot }
    requires due { IfSome due (λ due. (count < due) × (due ≤ count + 4000)) }
    ensures { wheel.new ≡ armed_by wheel.old slot count due }
{
    if let Some(due) = due {
        wheel.arm(slot, (due - count) as u16);
    }
}

/// Puts a slot in the list of a link, if its request was put on one.
fn enter_link(wheel: &mut Wheel<Wait>, slot: SlotId, link: Option<LinkNo>)
    requires held { ContainsKey wheel.old.slots slot }
    requires loose { ¬ IsMember wheel.old.link slot }
    requires link { IfSome link (λ link. link < length wheel.old.link.lists) }
    ensures { wheel.new ≡ record wheel.old { link = linked wheel.old.link link slot } }
{
    if let Some(link) = link {
        wheel.push_back(Family::Link, link.place() as u32, slot);
    }
}

/// Puts a slot in the list of how its card ends, if it has one.
fn enter_card(wheel: &mut Wheel<Wait>, slot: SlotId, card: Option<Card>)
    requires held { ContainsKey wheel.old.slots slot }
    requires loose { ¬ IsMember wheel.old.card slot }
    requires heads { length wheel.old.card.lists ≡ 1000 }
    ensures wheel { wheel.new ≡ record wheel.old { card = linked wheel.old.card (option_map ending card) slot } }
    ensures head { IfSome card (λ card. ending card < 1000) }
{
    if let Some(card) = card {
        wheel.push_back(Family::Card, ending(&card), slot);
    }
}

/// Takes a slot out of the bucket of its tick, if its tick is to come.
fn leave_tick(wheel: &mut Wheel<Wait>, slot: SlotId)
    ensures wheel { wheel.new ≡ disarmed wheel.old slot }
    ensures loose { ¬ IsArmed wheel.new slot }
{
    if wheel.is_armed(slot) {
        wheel.disarm(slot);
    }
}

/// Takes a slot out of the list of its link, if it is in one.
fn leave_link(wheel: &mut Wheel<Wait>, slot: SlotId)
    ensures wheel { wheel.new ≡ record wheel.old { link = unlinked wheel.old.link slot } }
    ensures loose { ¬ IsMember wheel.new.link slot }
{
    if wheel.is_member(Family::Link, slot) {
        wheel.unlink(Family::Link, slot);
    }
}

/// Takes a slot out of the list of how its card ends, if it is in one.
fn leave_card(wheel: &mut Wheel<Wait>, slot: SlotId)
    ensures wheel { wheel.new ≡ record wheel.old { card = unlinked wheel.old.card slot } }
    ensures loose { ¬ IsMember wheel.new.card slot }
{
    if wheel.is_member(Family::Card, slot) {
        wheel.unlink(Family::Card, slot);
    }
}

impl RequestSlots {
    /// No request waits, and no tick was made.
    pub fn new(alloc: Global) -> Result<RequestSlots, AllocError>
        ensures { IfOk result (λ s. s ≡ record { waits = []; count = 0; visits = 0; room = 0 }) }
    {
        let mut wheel = Wheel::new(alloc)?;
        wheel.grow_heads(Family::Link, LINKS)?;
        wheel.grow_heads(Family::Card, ENDINGS)?;
        Ok(RequestSlots {
            wheel,
            slots: Vec::new(alloc),
            count: 0,
            room: 0,
            alloc,
        })
    }

    /// The next n requests that begin to wait need no memory, nor do so many places more.
    pub fn reserve(&mut self, n: usize) -> Result<(), AllocError>
        ensures waits { self.new.waits ≡ self.old.waits }
        ensures count { self.new.count ≡ self.old.count }
        ensures visits { self.new.visits ≡ self.old.visits }
        ensures ok { OnOk result (self.new.room ≡ n) }
    {
        self.room = 0;
        let Ok(slots) = u32::try_from(n) else {
            return Err(AllocError);
        };
        self.wheel.room(slots)?;
        self.slots.reserve(n)?;
        self.room = n;
        Ok(())
    }

    /// The next place, whose request doesn't wait yet.
    pub fn add_place(&mut self)
        requires { 0 < self.old.room }
        ensures { self.new ≡ record self.old { waits = self.old.waits ++ None ∷ []; room = self.old.room - 1 } }
    {
        self.slots.push_reserved(None);
        self.room -= 1;
    }

    /// The request at a place waits.
    pub fn enter(&mut self, wait: Wait)
        requires room { 0 < self.old.room }
        requires place { wait.place < length self.old.waits }
        requires none { wait_at self.old.waits wait.place ≡ None }
        requires due { IfSome wait.due (λ due. (self.old.count < due) × (due ≤ self.old.count + 4000)) }
        requires link { IfSome wait.link (λ link. link < 256) }
        ensures { self.new ≡ record self.old { waits = with_wait self.old.waits wait.place (Some wait); room = self.old.room - 1 } }
    {
        let count = self.count;
        let Wait {
            place,
            card,
            link,
            due,
        } = wait;
        let slot = self.wheel.insert(wait);
        enter_tick(&mut self.wheel, slot, count, due);
        enter_link(&mut self.wheel, slot, link);
        enter_card(&mut self.wheel, slot, card);
        self.slots[place] = Some(slot);
        self.room -= 1;
    }

    /// The request at a place no longer waits, if it did.
    pub fn leave(&mut self, place: usize)
        requires { place < length self.old.waits }
        ensures { self.new ≡ record self.old { waits = with_wait self.old.waits place None } }
    {
        let Some(slot) = self.slots[place] else {
            return;
        };
        leave_tick(&mut self.wheel, slot);
        leave_card(&mut self.wheel, slot);
        leave_link(&mut self.wheel, slot);
        let _ = self.wheel.take(slot);
        self.slots[place] = None;
    }

    /// What the request at a place waits for, if it waits.
    pub fn wait(&self, place: usize) -> Option<&Wait>
        ensures { option_copied result ≡ wait_at self.now.waits place }
    {
        let slot = (*self.slots.get(place)?)?;
        self.wheel.get(slot)
    }

    /// One tick more. Requests that were due at it wait on, and are due at no other. It looks at the slots of those alone, and at one end of
    /// a list.
    pub fn tick(&mut self)
        requires { self.old.count < 2 ^ 63 }
        ensures slots { self.new ≡ record self.old { count = self.old.count + 1; visits = self.new.visits } }
        ensures visits { self.new.visits ≡ count_due (self.old.count + 1) self.old.waits + 1 }
    {
        self.wheel.advance();
        self.count += 1;
    }

    /// How many ticks went by.
    pub fn count(&self) -> u64
        ensures { result ≡ self.now.count }
    {
        self.count
    }

    /// How many slots and ends of lists the last tick looked at: one more than the requests that were due at it.
    pub fn visits(&self) -> u64
        ensures { result ≡ self.now.visits }
    {
        self.wheel.visits()
    }

    /// The places of the requests that are due at the next tick, in opening order.
    pub fn due(&self) -> Result<Vec<usize>, AllocError>
        ensures exact { IfOk result (λ places. places.items ≡ places_where (is_due (suc self.now.count)) self.now.waits) }
    {
        let slots = self.wheel.due()?;
        let places = places_of(self.alloc, &self.wheel, &slots)?;
        Ok(in_order(places))
    }

    /// The places of the requests that wait on a link, in opening order.
    pub fn on_link(&self, link: LinkNo) -> Result<Vec<usize>, AllocError>
        ensures exact { IfOk result (λ places. places.items ≡ places_where (is_on link) self.now.waits) }
    {
        let slots = self.wheel.listed(Family::Link, link.place() as u32)?;
        let places = places_of(self.alloc, &self.wheel, &slots)?;
        Ok(in_order(places))
    }

    /// The places of the requests of a card that wait, in opening order. It looks at those of all cards whose last three digits are the same.
    pub fn of_card(&self, card: &Card) -> Result<Vec<usize>, AllocError>
        ensures exact { IfOk result (λ places. places.items ≡ places_where (is_of card.now) self.now.waits) }
    {
        let slots = self.wheel.listed(Family::Card, ending(card))?;
        let places = places_of_card(self.alloc, &self.wheel, &slots, card)?;
        Ok(in_order(places))
    }
}
