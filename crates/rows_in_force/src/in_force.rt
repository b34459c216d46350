//! The rows in force, class by class.
ghost use Rattle.std.specs.Prelude.{◌≡◌, ◌<◌, ◌≤◌, [], length, take, option_and_then, slice_get, unwrap_or, None, IfOk, IfSome};
ghost use Rattle.std.specs.Option.{option_copied};
ghost use Rattle.rows_in_force.specs.InForce.{in_force, row_at};

use crate::fronts::Fronts;
use crate::own::{OwnRows, Places};
use crate::placed::Placed;
use card_digits::{NodeNo, Prefix, ShortBytes};
use std::alloc::{AllocError, Global};
use std::marker::Model;

/// The rows in force at the class that was entered last, which is none at first.
///
/// It has the rows in force at each front of the class, so a class costs a look-up for each digit that it doesn't share with the one
/// before, and a copy where these digits are the prefix of a row: few where classes come in ascending order.
#[derive(Debug, Drop)]
pub struct InForce<'t, R: Placed> {
    rows: &'t [R],
    own: OwnRows,
    class: ShortBytes<12>,
    fronts: Fronts,
}

impl<'t, R: Placed> Model for InForce<'t, R> {
    ghost use Rattle.rows_in_force.specs.InForce.{Entered};
    ghost use Rattle.rows_in_force.specs.Kept.{IsKept};

    ghost Value = { Entered R };

    ghost view = { λ a. record { rows = a.rows.now; class = a.class } };

    ghost invariant = { λ a. IsKept R.node_of R.prefix_of a.rows.now a.class a.own.last.entries a.own.before.items a.fronts.slots.items a.fronts.places.items };
}

impl<'t, R: Placed> InForce<'t, R> {
    /// The rows in force at the empty class, of these rows.
    pub fn new(alloc: Global, rows: &'t [R]) -> Result<InForce<'t, R>, AllocError>
        ensures { IfOk result (λ r. r ≡ record { rows = rows.entry.now; class = [] }) }
    {
        Ok(InForce {
            rows,
            own: OwnRows::new(alloc, rows)?,
            class: ShortBytes::from_slice(&[]),
            fronts: Fronts::new(alloc)?,
        })
    }

    /// Goes on to a class.
    pub fn enter(&mut self, class: Prefix)
        ensures rows { self.new.rows ≡ self.old.rows }
        ensures class { self.new.class ≡ class }
    {
        let shared = shared(self.class.as_slice(), class.digits());
        for len in shared..class.digits().len() {
            self.fronts.add(self.rows, &self.own, &class.front(len + 1));
        }
        self.class = ShortBytes::from_slice(class.digits());
    }

    /// The place of the node's row in force among the rows.
    #[inline]
    pub fn place(&self, node: NodeNo) -> Option<usize>
        ensures row { option_and_then (slice_get self.now.rows) result ≡ in_force R.node_of R.prefix_of self.now.rows node self.now.class }
        // No place where there is no row.
        ensures within { IfSome result (λ place. place < length self.now.rows) }
    {
        place_of(self.fronts.at(self.class.as_slice().len()), node)
    }

    /// The node's row in force: of those with the most digits whose prefix begins the class the first.
    pub fn row(&self, node: NodeNo) -> Option<&'t R>
        ensures { option_copied result ≡ in_force R.node_of R.prefix_of self.now.rows node self.now.class }
    {
        row_of(self.rows, self.fronts.at(self.class.as_slice().len()), node)
    }
}

/// The place of a node.
fn place_of(places: &Places, node: NodeNo) -> Option<usize>
    ensures { result ≡ unwrap_or (slice_get places.now node) None }
{
    places[node.place()]
}

/// The row at a node's place.
fn row_of<'t, R>(rows: &'t [R], places: &Places, node: NodeNo) -> Option<&'t R>
    ensures { option_copied result ≡ row_at rows.now places.now node }
{
    match places[node.place()] {
        Some(place) => rows.get(place),
        None => None,
    }
}

/// How many of the first digits are the same.
fn shared(digits: &[u8], others: &[u8]) -> usize
    ensures first { result ≤ length digits.now }
    ensures second { result ≤ length others.now }
    ensures same { take result digits.now ≡ take result others.now }
{
    let most = digits.len().min(others.len());
    for i in 0..most {
        if digits[i] != others[i] {
            return i;
        }
    }
    most
}
