//! The stand-in book.
ghost use Rattle.std.specs.Prelude.{◌≡◌, ◌+◌, ◌-◌, ◌<◌, ◌≤◌, ◌^◌, [], ◌∷◌, ◌++◌, OnOk, length, set, get_or, true};
ghost use Rattle.std.specs.List.{list_any};
ghost use Rattle.crowded_map.specs.Values.{spare};
ghost use Rattle.std.specs.Vec.{vec_len, vec_capacity};
ghost use Rattle.node_machine.specs.Lists.{Take, give_back_to, used};
ghost use Rattle.book_index.specs.Found.{found, holds_at, ChangesPlace, Tells};
ghost use Rattle.standin_book.specs.Approvals.{lessened, used_on, is_of, times, without, counts_above, is_whole, skips, moved};
ghost use Rattle.standin_book.specs.Sums.{AreSums};
ghost use Rattle.message_keys.specs.Keys.{key_eq};

use crate::approval::OwnApproval;
use book_index::{CardDay, Place, PlaceIndex, Sums};
use card_digits::{Amount, Key};
use std::alloc::{AllocError, Global};
use std::marker::Model;

/// The own approvals.
#[derive(Drop)]
pub struct StandInBook {
    takes: Vec<OwnApproval>,
    // The place of each key's approval.
    places: PlaceIndex<Key>,
    // What the approvals of each card and settlement date count for.
    sums: Sums,
    room: usize,
}

impl Model for StandInBook {
    ghost use Rattle.std.specs.Prelude.{vec_len, vec_capacity};
    ghost use Rattle.crowded_map.specs.Values.{spare};
    ghost use Rattle.standin_book.specs.Approvals.{Approvals, IsBook};

    ghost Value = { Approvals };

    ghost view = { λ b. record { takes = b.takes.items; room = b.room } };

    ghost invariant = { λ b. IsBook b.takes.items b.places.places.entries b.sums.amounts.entries b.room (vec_len b.takes) (vec_capacity b.takes) (spare b.places.places) (spare b.sums.amounts) };
}

/// What a key took at a place counts for no more than an amount.
fn lessen_at(takes: &mut [OwnApproval], sums: &mut Sums, place: usize, key: Key, actual: Amount)
    requires place { place < length takes.old }
    requires sums { AreSums used_on takes.old sums.old.amounts.entries }
    ensures takes { (d : Take) → takes.new ≡ set takes.old place (lessened key actual (get_or takes.old place d)) }
    ensures sums { AreSums used_on takes.new sums.new.amounts.entries }
    ensures room { spare sums.new.amounts ≡ spare sums.old.amounts }
{
    let approval = &mut takes[place];
    let day = approval.day();
    let freed = approval.lessen(key, actual);
    sums.lessen(&day, freed);
}

/// What a key took counts for no more than an amount.
fn lessen_all(takes: &mut [OwnApproval], sums: &mut Sums, key: Key, actual: Amount)
    requires { AreSums used_on takes.old sums.old.amounts.entries }
    ensures takes { takes.new ≡ give_back_to key actual takes.old }
    ensures sums { AreSums used_on takes.new sums.new.amounts.entries }
    ensures room { spare sums.new.amounts ≡ spare sums.old.amounts }
{
    for i in 0..takes.len() {
        lessen_at(takes, sums, i, key, actual);
    }
}

/// What a key took, which stands at these places, counts for no more than an amount.
fn lessen_in(takes: &mut [OwnApproval], sums: &mut Sums, place: Place, key: Key, actual: Amount)
    requires sums { AreSums used_on takes.old sums.old.amounts.entries }
    requires place { Tells place (holds_at (is_of key) takes.old) }
    ensures takes { takes.new ≡ give_back_to key actual takes.old }
    ensures sums { AreSums used_on takes.new sums.new.amounts.entries }
    ensures room { spare sums.new.amounts ≡ spare sums.old.amounts }
{
    match place {
        Place::Nowhere => {}
        Place::At(place) => lessen_at(takes, sums, place, key, actual),
        Place::Several => lessen_all(takes, sums, key, actual),
    }
}

/// Whether the approval at a place is of a key.
fn is_of_key(takes: &[OwnApproval], place: usize, key: Key) -> bool
    requires { place < length takes.now }
    ensures { result ≡ holds_at (is_of key) takes.now place }
{
    takes[place].key() == key
}

/// Whether the approval at a place is of a key, and counts for more than an amount.
fn counts_above_at(takes: &[OwnApproval], place: usize, key: Key, actual: Amount) -> bool
    requires { place < length takes.now }
    ensures { (d : Take) → result ≡ counts_above key actual (get_or takes.now place d) }
{
    takes[place].counts_above(key, actual)
}

/// Whether what a key took, which stands at these places, counts for more than an amount.
fn any_counts_above(takes: &[OwnApproval], place: Place, key: Key, actual: Amount) -> bool
    requires { Tells place (holds_at (is_of key) takes.now) }
    ensures { result ≡ list_any (counts_above key actual) takes.now }
{
    match place {
        Place::Nowhere => false,
        Place::At(place) => counts_above_at(takes, place, key, actual),
        Place::Several => takes.iter().any(|a| a.counts_above(key, actual)),
    }
}

/// Whether the approval at a place is of a key, and nothing of it was given back.
fn is_whole_at(takes: &[OwnApproval], place: usize, key: Key) -> bool
    requires { place < length takes.now }
    ensures { (d : Take) → result ≡ is_whole key (get_or takes.now place d) }
{
    takes[place].is_whole(key)
}

/// Whether nothing was given back of what a key took, which stands at these places.
fn any_is_whole(takes: &[OwnApproval], place: Place, key: Key) -> bool
    requires { Tells place (holds_at (is_of key) takes.now) }
    ensures { result ≡ list_any (is_whole key) takes.now }
{
    match place {
        Place::Nowhere => false,
        Place::At(place) => is_whole_at(takes, place, key),
        Place::Several => takes.iter().any(|a| a.is_whole(key)),
    }
}

/// Whether a key, whose approvals stand at these places, took.
fn any_is_of(takes: &[OwnApproval], place: Place, key: Key) -> bool
    requires { Tells place (holds_at (is_of key) takes.now) }
    ensures { result ≡ list_any (is_of key) takes.now }
{
    match place {
        Place::Nowhere => false,
        Place::At(_) => true,
        Place::Several => takes.iter().any(|a| a.is_of(key)),
    }
}

/// The place of the newest approval of a key.
fn newest_place(takes: &[OwnApproval], key: Key) -> usize
    requires { list_any (is_of key) takes.now ≡ true }
    ensures { holds_at (is_of key) takes.now result ≡ true }
{
    let mut place = takes.len();
    while place > 0 {
        place -= 1;
        if is_of_key(takes, place, key) {
            return place;
        }
    }
    place
}

/// A place that is known becomes another.
fn moved_to(known: Place, place: usize) -> Place
    ensures { result ≡ moved place known }
{
    match known {
        Place::Nowhere => Place::Nowhere,
        Place::At(_) => Place::At(place),
        Place::Several => Place::Several,
    }
}

/// A key that has one place has this one.
fn move_place(places: &mut PlaceIndex<Key>, key: &Key, place: usize)
    ensures found { ChangesPlace key_eq key.now (moved place) places.old.places.entries places.new.places.entries }
    ensures room { spare places.new.places ≡ spare places.old.places }
{
    let moved = moved_to(places.find(key), place);
    let _ = places.places.replace(key, moved);
}

/// The approvals from the gap on stand one place earlier than the index has them.
fn close_gap(takes: &[OwnApproval], places: &mut PlaceIndex<Key>, gap: usize)
    requires within { gap ≤ length takes.now }
    requires places { (k : Key) → Tells (found (key_eq k) places.old.places.entries) (skips gap (holds_at (is_of k) takes.now)) }
    ensures places { (k : Key) → Tells (found (key_eq k) places.new.places.entries) (holds_at (is_of k) takes.now) }
    ensures room { spare places.new.places ≡ spare places.old.places }
{
    for i in gap..takes.len() {
        move_place(places, &takes[i].key(), i);
    }
}

impl StandInBook {
    /// A book without approvals.
    pub fn new(alloc: Global) -> StandInBook
        ensures { result ≡ record { takes = []; room = 0 } }
    {
        StandInBook {
            takes: Vec::new(alloc),
            places: PlaceIndex::new(alloc),
            sums: Sums::new(alloc),
            room: 0,
        }
    }

    /// The next n approvals need no memory.
    pub fn reserve(&mut self, n: usize) -> Result<(), AllocError>
        ensures takes { self.new.takes ≡ self.old.takes }
        ensures ok { OnOk result (self.new.room ≡ n) }
    {
        self.room = 0;
        self.takes.reserve(n)?;
        self.places.reserve(n)?;
        self.sums.reserve(n)?;
        self.room = n;
        Ok(())
    }

    /// The node approved by itself.
    #[inline(never)]
    pub fn take(&mut self, approval: OwnApproval)
        requires { 0 < self.old.room }
        ensures { self.new ≡ record { takes = self.old.takes ++ approval ∷ []; room = self.old.room - 1 } }
    {
        self.places.add(approval.key(), self.takes.len());
        self.sums.add(approval.day(), approval.left().value());
        self.takes.push_reserved(approval);
        self.room -= 1;
    }

    /// A reversal was accepted, which leaves no more than an amount of what its key took. One look-up, and a walk over the approvals
    /// only where the key was approved more than once.
    pub fn give_back(&mut self, key: Key, actual: Amount)
        ensures { self.new ≡ record { takes = give_back_to key actual self.old.takes; room = self.old.room } }
    {
        let place = self.places.find(&key);
        lessen_in(
            self.takes.as_mut_slice(),
            &mut self.sums,
            place,
            key,
            actual,
        );
    }

    /// An approval of a key that took once is undone, as if it had not been made. The time is that of a walk over the approvals that
    /// are newer, so that the newest takes a constant time.
    pub fn untake(&mut self, key: Key)
        requires { times key self.old.takes ≡ 1 }
        ensures { self.new ≡ record { takes = without key self.old.takes; room = self.old.room } }
    {
        let place = newest_place(self.takes.as_slice(), key);
        let approval = self.takes.remove(place);
        self.sums.lessen(&approval.day(), approval.left().value());
        self.places.remove(&key);
        close_gap(self.takes.as_slice(), &mut self.places, place);
    }

    /// Whether the key took. One look-up, and a walk over the approvals only where the key was approved more than once.
    pub fn is_taken(&self, key: Key) -> bool
        ensures { result ≡ list_any (is_of key) self.now.takes }
    {
        let place = self.places.find(&key);
        any_is_of(self.takes.as_slice(), place, key)
    }

    /// Whether the key took, and nothing of that was given back. One look-up, and a walk over the approvals only where the key was
    /// approved more than once.
    pub fn is_whole(&self, key: Key) -> bool
        ensures { result ≡ list_any (is_whole key) self.now.takes }
    {
        let place = self.places.find(&key);
        any_is_whole(self.takes.as_slice(), place, key)
    }

    /// Whether what the key took counts for more than an amount. One look-up, and a walk over the approvals only where the key was
    /// approved more than once.
    pub fn counts_above(&self, key: Key, actual: Amount) -> bool
        ensures { result ≡ list_any (counts_above key actual) self.now.takes }
    {
        let place = self.places.find(&key);
        any_counts_above(self.takes.as_slice(), place, key, actual)
    }

    /// What the approvals of a card and a settlement date count for. One look-up.
    pub fn used(&self, day: &CardDay) -> u128
        ensures used { result ≡ used self.now.takes day.now.card day.now.date }
        ensures bound { result < 2 ^ 104 }
    {
        let _ = self.takes.len();
        self.sums.get(day)
    }

    /// The approvals, the oldest first.
    pub fn takes(&self) -> &[OwnApproval]
        ensures { result.now ≡ self.now.takes }
    {
        self.takes.as_slice()
    }
}
