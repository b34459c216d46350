//! The rows of a prefix, each with the one before it.
ghost use Rattle.std.specs.Prelude.{◌≡◌, ◌==◌, ◌<◌, ◌≤◌, ◌-◌, ◌++◌, ◌∷◌, ℕ, Some, length, slice_get, is_some, IfOk, OnOk};
ghost use Rattle.std.specs.Map.{lookup};
ghost use Rattle.std.specs.Cmp.Lexicographic.{pointwise};
ghost use Rattle.std.specs.Option.{option_or};
ghost use Rattle.rows_in_force.specs.Own.{IsChained, own_row, places_from};
ghost use Rattle.rows_in_force.specs.InForce.{row_at};
ghost use Rattle.rows_in_force.specs.Kept.{AreWithin};

use crate::placed::Placed;
use card_digits::{MOST_NODES, Prefix};
use prefix_map::PrefixMap;
use std::alloc::{AllocError, Global};

/// The places of rows, by node.
pub(crate) type Places = [Option<usize>; MOST_NODES];

/// The place of the last row of each prefix, and for each row the place of the one before it that has its prefix.
#[derive(Debug, Drop)]
pub(crate) struct OwnRows {
    pub last: PrefixMap<usize>,
    pub before: Vec<Option<usize>>,
}

/// Where the rows end that stand behind each other from a place on and have one prefix.
fn run_end<R: Placed>(rows: &[R], place: usize) -> usize
    requires { place < length rows.now }
    ensures from { place < result }
    ensures within { result ≤ length rows.now }
    ensures same { (k : ℕ) (r s : R) → place ≤ k → k < result → slice_get rows.now place ≡ Some r → slice_get rows.now k ≡ Some s → R.prefix_of s ≡ R.prefix_of r }
{
    let prefix = rows[place].prefix();
    for end in place + 1..rows.len() {
        if rows[end].prefix() != prefix {
            return end;
        }
    }
    rows.len()
}

/// Adds what stands before each row of a run: an earlier row before the first of them, and the one before it before each other.
fn push_run(
    before: &mut Vec<Option<usize>>,
    earlier: Option<usize>,
    place: usize,
    end: usize,
) -> Result<(), AllocError>
    requires { place < end }
    ensures { OnOk result (before.new.items ≡ before.old.items ++ earlier ∷ places_from place (end - place - 1)) }
{
    before.push(earlier)?;
    for next in place..end - 1 {
        before.push(Some(next))?;
    }
    Ok(())
}

impl OwnRows {
    /// A prefix is looked up once for all its rows that stand behind each other.
    pub fn new<R: Placed>(alloc: Global, rows: &[R]) -> Result<OwnRows, AllocError>
        ensures { IfOk result (λ own. IsChained R.prefix_of rows.now own.last.entries own.before.items) }
    {
        let mut last = PrefixMap::new(alloc);
        let mut before = Vec::with_capacity(alloc, rows.len())?;
        let mut place = 0;
        while place < rows.len() {
            let end = run_end(rows, place);
            let prefix = rows[place].prefix();
            let _ = prefix.digits();
            last.reserve(1)?;
            let earlier = last.insert(prefix, end - 1);
            push_run(&mut before, earlier, place, end)?;
            place = end;
        }
        Ok(OwnRows { last, before })
    }

    /// Whether a row has the prefix.
    pub fn has(&self, prefix: &Prefix) -> bool
        ensures { result ≡ is_some (lookup (λ q. pointwise ◌==◌ prefix.now q) self.now.last.entries) }
    {
        self.last.contains_key(prefix)
    }

    /// Puts the places of the prefix's own rows over others. The first of several rows of a node comes last, and so stays.
    pub fn put<R: Placed>(&self, rows: &[R], prefix: &Prefix, places: &mut Places)
        requires { IsChained R.prefix_of rows.now self.now.last.entries self.now.before.items }
        ensures rows { (n : ℕ) → n < 64 → row_at rows.now places.new n ≡ option_or (own_row R.node_of R.prefix_of rows.now n prefix.now) (row_at rows.now places.old n) }
        ensures within { AreWithin (length rows.now) places.old → AreWithin (length rows.now) places.new }
    {
        let mut next = self.last.get(prefix).copied();
        while let Some(place) = next {
            places[rows[place].node().place()] = Some(place);
            next = self.before[place];
        }
    }
}
