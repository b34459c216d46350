//! How many keys of a table share a stretch of its places.
ghost use Rattle.std.specs.Prelude.{◌≡◌, ◌*◌, ◌^◌, ◌<◌, [], Some, None, OnOk, OnErr, cond, length, nat_lt, replicate};
ghost use Rattle.crowded_map.specs.Counts.{place_in, alike_in, count_at, raised, lowered, has_room, with_key, without_key, stretches_for, increased, poured, AreHalved};

use std::alloc::{AllocError, Global};
use std::marker::Model;

/// A table has places for twelve keys each, of which it fills nine on average, and looks for a key first at the place that the lowest bits of
/// its hash name. Where that is full it goes on to the next. So many places are a stretch.
const STRETCH: usize = 16;

/// While a stretch has no more keys than this, they find room in it and in the next.
const MOST: u8 = 192;

/// For how many keys a table grows at each place.
const KEYS_AT_PLACE: usize = 9;

/// Before it compares keys, a table compares the highest bits of their hashes. The keys of a stretch are counted by six of these too.
const TAGS: usize = 64;

/// So many keys of a stretch may be alike in these.
const MOST_ALIKE: u8 = 15;

/// Keys are counted by the stretches of a table this many times as large too, so that they needn't be hashed again when the table doubles.
const FINER: usize = 16;

/// How many keys lie in each stretch of a table. Nothing but speed depends on it.
#[derive(Debug, Drop)]
pub(crate) struct Crowds {
    stretches: Vec<u8>,
    finer: Vec<u8>,
    alike: Vec<u8>,
}

impl Model for Crowds {
    ghost use Rattle.crowded_map.specs.Counts.{Counts};

    ghost Value = { Counts };

    ghost view = { λ c. record { stretches = c.stretches.items; finer = c.finer.items; alike = c.alike.items } };
}

/// The stretch of a hash among so many.
fn place_in(hash: u32, count: usize) -> usize
    ensures { result ≡ place_in hash count }
{
    hash as usize / STRETCH & count.saturating_sub(1)
}

/// Where keys of the same highest bits are counted.
fn alike_in(hash: u32, count: usize) -> usize
    ensures { result ≡ alike_in hash count }
{
    (hash as usize / STRETCH * TAGS + hash as usize / (1 << 26)) & count.saturating_sub(1)
}

fn count_at(counts: &[u8], place: usize) -> u8
    ensures { result ≡ count_at counts.now place }
{
    if place < counts.len() {
        counts[place]
    } else {
        0
    }
}

/// One more, as far as a byte goes.
fn raise(counts: &mut [u8], place: usize)
    ensures { counts.new ≡ raised place counts.old }
{
    if place < counts.len() {
        counts[place] = counts[place].saturating_add(1);
    }
}

/// One less.
fn lower(counts: &mut [u8], place: usize)
    ensures { counts.new ≡ lowered place counts.old }
{
    if place < counts.len() {
        counts[place] = counts[place].saturating_sub(1);
    }
}

impl Crowds {
    /// Nothing is counted.
    pub fn new(alloc: Global) -> Crowds
        ensures { result ≡ record { stretches = []; finer = []; alike = [] } }
    {
        Crowds {
            stretches: Vec::new(alloc),
            finer: Vec::new(alloc),
            alike: Vec::new(alloc),
        }
    }

    /// Whether keys are counted.
    pub fn are_kept(&self) -> bool {
        !self.stretches.is_empty()
    }

    /// Counts a key of this hash, if its stretch takes one more.
    pub fn enter(&mut self, hash: u32) -> bool
        ensures room { result ≡ has_room hash self.old }
        ensures counts { self.new ≡ cond result (with_key hash self.old) self.old }
    {
        let place = place_in(hash, self.stretches.len());
        let alike = alike_in(hash, self.alike.len());
        if count_at(&self.stretches, place) >= MOST || count_at(&self.alike, alike) >= MOST_ALIKE {
            return false;
        }
        raise(&mut self.stretches, place);
        raise(&mut self.alike, alike);
        let finer = place_in(hash, self.finer.len());
        raise(&mut self.finer, finer);
        true
    }

    /// A key of this hash is gone.
    pub fn leave(&mut self, hash: u32)
        ensures { self.new ≡ without_key hash self.old }
    {
        let place = place_in(hash, self.stretches.len());
        lower(&mut self.stretches, place);
        let alike = alike_in(hash, self.alike.len());
        lower(&mut self.alike, alike);
        let finer = place_in(hash, self.finer.len());
        lower(&mut self.finer, finer);
    }

    /// Whether a table with room for so many keys has more stretches than are counted.
    pub fn are_behind(&self, capacity: usize) -> bool
        ensures { result ≡ nat_lt (length self.now.stretches) (stretches_for capacity) }
    {
        self.stretches.len() < stretches_for(capacity)
    }

    /// By how many stretches all keys have to be counted first, if these aren't in the finer counts.
    pub fn wanted(&self, capacity: usize) -> Option<usize>
        ensures { result ≡ cond (nat_lt (length self.now.finer) (stretches_for capacity)) (Some (stretches_for capacity * 16)) None }
    {
        let count = stretches_for(capacity);
        if self.finer.len() < count {
            Some(count * FINER)
        } else {
            None
        }
    }

    /// All keys were counted by this many stretches.
    pub fn set_finer(&mut self, finer: Vec<u8>)
        ensures { self.new ≡ record { stretches = self.old.stretches; finer = finer.items; alike = self.old.alike } }
    {
        self.finer = finer;
    }

    /// Makes the counts of the stretches of a table with room for so many keys. Of the keys that are alike each new stretch is taken to have half.
    pub fn divide(&mut self, alloc: Global, capacity: usize) -> Result<(), AllocError>
        ensures finer { self.new.finer ≡ self.old.finer }
        ensures stretches { OnOk result (self.new.stretches ≡ poured 0 self.old.finer (replicate (stretches_for capacity) 0)) }
        ensures alike { OnOk result (AreHalved self.old.alike self.new.alike (stretches_for capacity * 64)) }
        ensures err { OnErr result (self.new ≡ self.old) }
    {
        let count = stretches_for(capacity);
        let mut stretches = vec![in alloc; 0; count]?;
        let mut alike = vec![in alloc; 0; count * TAGS]?;
        pour(&self.finer, &mut stretches);
        halve(&self.alike, &mut alike);
        self.stretches = stretches;
        self.alike = alike;
        Ok(())
    }
}

/// How many stretches a table has with room for so many keys. A table that is smaller than a stretch has none, and its keys aren't counted.
fn stretches_for(capacity: usize) -> usize
    ensures value { result ≡ stretches_for capacity }
    ensures few { result < 2 ^ 58 }
{
    capacity / (KEYS_AT_PLACE * STRETCH)
}

/// So many more, as far as a byte goes.
fn increase(counts: &mut [u8], place: usize, more: u8)
    ensures counts { counts.new ≡ increased place more counts.old }
{
    if place < counts.len() {
        counts[place] = counts[place].saturating_add(more);
    }
}

/// Adds counts, as far as a byte goes.
fn pour(finer: &[u8], counts: &mut [u8])
    ensures { counts.new ≡ poured 0 finer.now counts.old }
{
    for i in 0..finer.len() {
        let place = i & counts.len().saturating_sub(1);
        increase(counts, place, finer[i]);
    }
}

/// Makes counts of halves of others.
fn halve(whole: &[u8], halves: &mut [u8])
    ensures { AreHalved whole.now halves.new (length halves.old) }
{
    for i in 0..halves.len() {
        halves[i] = count_at(whole, i & whole.len().saturating_sub(1)) / 2;
    }
}

/// One key more is counted among these.
pub(crate) fn count(counts: &mut [u8], hash: u32)
    ensures { counts.new ≡ raised (place_in hash (length counts.old)) counts.old }
{
    let place = place_in(hash, counts.len());
    raise(counts, place);
}
