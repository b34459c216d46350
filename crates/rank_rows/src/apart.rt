//! Rows in any order, each found by its pair.
ghost use Rattle.std.specs.Prelude.{◌≡◌, ◌≤◌, ◌∷◌, ◌++◌, ◌≢◌, [], true, false, is_none, Ok, IfOk, OnErr};
ghost use Rattle.rank_rows.specs.Ranks.{rank_of, IsCert};
ghost use Rattle.std.specs.Option.{option_map};

use crate::found::FoundPairs;
use crate::pair::{Found, Pair};
use crate::rank::{NEAR, Rank};
use card_digits::{Name, Prefix};
use std::alloc::{AllocError, Global};
use std::marker::Model;

/// Rows in the order in which they were added, no two of the same pair. Whoever writes them chooses their pairs.
#[derive(Debug, Drop)]
pub struct ApartRows {
    rows: Vec<Rank>,
    found: FoundPairs,
}

impl Model for ApartRows {
    ghost use Rattle.std.specs.Prelude.{List};
    ghost use Rattle.rank_rows.specs.declared.rank.Rank.{Rank};
    ghost use Rattle.rank_rows.specs.Apart.{AreFound};
    ghost use Rattle.rank_rows.specs.Found.{found_of};

    ghost Value = { List Rank };

    ghost view = { λ a. a.rows.items };

    ghost invariant = { λ a. AreFound a.rows.items (found_of a.found) };
}

impl ApartRows {
    /// No rows, with memory for so many.
    fn with_room(alloc: Global, rows: usize) -> Result<ApartRows, AllocError>
        ensures { IfOk result (λ apart. apart ≡ []) }
    {
        Ok(ApartRows {
            rows: Vec::with_capacity(alloc, rows)?,
            found: FoundPairs::new(alloc),
        })
    }

    /// The same rows as these, of which no two have the same pair.
    pub fn of_rows(alloc: Global, rows: &[Rank]) -> Result<ApartRows, AllocError>
        requires { IsCert rows.now }
        ensures { IfOk result (λ apart. apart ≡ rows.now) }
    {
        let mut apart = ApartRows::with_room(alloc, rows.len())?;
        for row in rows {
            apart.add(*row)?;
        }
        Ok(apart)
    }

    /// The rows, in the order in which they were added.
    pub fn rows(&self) -> &[Rank]
        ensures { result.now ≡ self.now }
    {
        &self.rows
    }

    /// Adds a row at the end, but not where its pair is there.
    pub fn add(&mut self, row: Rank) -> Result<bool, AllocError>
        ensures added { IfOk result (λ added. added ≡ is_none (rank_of self.old row.node row.prefix)) }
        ensures yes { result ≡ Ok true → self.new ≡ self.old ++ row ∷ [] }
        ensures no { result ≡ Ok false → self.new ≡ self.old }
        ensures err { OnErr result (self.new ≡ self.old) }
    {
        let pair = Pair {
            node: row.node,
            prefix: row.prefix,
        };
        self.rows.reserve(1)?;
        let found = Found {
            rank: row.rank,
            place: self.rows.len(),
        };
        if self.found.get_or_insert(pair, found)?.is_some() {
            return Ok(false);
        }
        self.rows.push_reserved(row);
        Ok(true)
    }

    fn found(&self, node: &Name, prefix: &Prefix) -> Option<Found>
        ensures { option_map (λ f. f.rank) result ≡ rank_of self.now node.now prefix.now }
    {
        let pair = Pair {
            node: *node,
            prefix: *prefix,
        };
        self.found.get(&pair)
    }

    /// The rank of a pair.
    pub fn rank(&self, node: &Name, prefix: &Prefix) -> Option<u16>
        ensures { result ≡ rank_of self.now node.now prefix.now }
    {
        let found = self.found(node, prefix)?;
        Some(found.rank)
    }

    /// The rank of a pair. `near` is moved to where the rows begin that stand together with the pair's and have its prefix.
    pub fn rank_near(&self, near: &mut usize, node: &Name, prefix: &Prefix) -> Option<u16>
        ensures { result ≡ rank_of self.now node.now prefix.now }
    {
        let found = self.found(node, prefix)?;
        let place = found.place;
        *near = place - count_before(&self.rows, place, prefix);
        Some(found.rank)
    }
}

/// How many rows of this prefix stand right before a place, of the 64 there.
fn count_before(rows: &[Rank], place: usize, prefix: &Prefix) -> usize
    ensures { result ≤ place }
{
    let most = place.min(NEAR);
    for count in 0..most {
        if !is_at(rows, place - count - 1, prefix) {
            return count;
        }
    }
    most
}

/// Whether a row of this prefix stands at a place.
fn is_at(rows: &[Rank], place: usize, prefix: &Prefix) -> bool {
    match rows.get(place) {
        Some(row) => row.prefix == *prefix,
        None => false,
    }
}
