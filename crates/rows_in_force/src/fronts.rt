//! The rows in force at the fronts of a class.
ghost use Rattle.std.specs.Prelude.{◌≡◌, ◌≤◌, ◌<◌, ◌-◌, length, slice_get, replicate, Some, IfOk};
ghost use Rattle.rows_in_force.specs.InForce.{AreKnown, slot_at};
ghost use Rattle.rows_in_force.specs.Own.{IsChained};
ghost use Rattle.rows_in_force.specs.Kept.{AreFronts, AreAllWithin, nowhere};

use crate::own::{OwnRows, Places};
use crate::placed::Placed;
use card_digits::{MOST_NODES, Prefix};
use std::alloc::{AllocError, Global};

const MOST_DIGITS: usize = 12;

/// The places of the rows in force at the first digits of a class. Digits that are no row's prefix have the places of fewer digits, so
/// these are not copied.
#[derive(Debug, Drop)]
pub(crate) struct Fronts {
    /// Where the places at so many digits stand.
    pub slots: Vec<usize>,
    pub places: Vec<Places>,
}

impl Fronts {
    /// No row, at any number of digits.
    pub fn new(alloc: Global) -> Result<Fronts, AllocError>
        ensures slots { IfOk result (λ fronts. fronts.slots.items ≡ replicate 13 0) }
        ensures places { IfOk result (λ fronts. fronts.places.items ≡ replicate 13 (replicate 64 nowhere)) }
    {
        Ok(Fronts {
            slots: Vec::from_array(alloc, [0; MOST_DIGITS + 1])?,
            places: Vec::from_array(alloc, [[None; MOST_NODES]; MOST_DIGITS + 1])?,
        })
    }

    /// The places at so many digits.
    pub fn at(&self, len: usize) -> &Places
        requires fronts { AreFronts self.now.slots.items self.now.places.items }
        requires slot { slot_at self.now.slots.items len ≤ len }
        requires few { len ≤ 12 }
        ensures { slice_get self.now.places.items (slot_at self.now.slots.items len) ≡ Some result.now }
    {
        &self.places[self.slots[len]]
    }

    /// Adds the rows in force at a front to those at its own fronts.
    pub fn add<R: Placed>(&mut self, rows: &[R], own: &OwnRows, front: &Prefix)
        requires chained { IsChained R.prefix_of rows.now own.now.last.entries own.now.before.items }
        requires fronts { AreFronts self.old.slots.items self.old.places.items }
        requires known { AreKnown R.node_of R.prefix_of rows.now front.now (length front.now - 1) self.old.slots.items self.old.places.items }
        requires within { AreAllWithin (length rows.now) self.old.places.items }
        ensures fronts { AreFronts self.new.slots.items self.new.places.items }
        ensures known { AreKnown R.node_of R.prefix_of rows.now front.now (length front.now) self.new.slots.items self.new.places.items }
        ensures within { AreAllWithin (length rows.now) self.new.places.items }
    {
        let len = front.digits().len();
        let slot = self.slots[len - 1];
        if own.has(front) {
            let mut places = self.places[slot];
            own.put(rows, front, &mut places);
            self.places[len] = places;
            self.slots[len] = len;
        } else {
            self.slots[len] = slot;
        }
    }
}
