//! Ranks of pairs of a node's name and a prefix.
ghost use Rattle.std.specs.Prelude.{◌≡◌, ◌≢◌, [], ◌∷◌, ◌++◌, drop, Some, IfOk, IfSome, OnErr, is_none, true, false, Ok, All};
ghost use Rattle.rank_rows.specs.Ranks.{rank_of, is_new, like_rows, IsRow, IsCert, EndsWith};
ghost use Rattle.rank_rows.specs.Runs.{IsRun};

use card_digits::{Name, Prefix};
use rank_rows::{Kept, NEAR, Rank, rows_from};
use std::alloc::{AllocError, Global};
use std::marker::Model;

/// Ranks in the order in which they were added, at most one for a pair of a name and a prefix. Where the rows of each prefix are added
/// one after the other, at most 64 of them, a row whose name may be there already is compared with them, and only the first of them costs
/// a hash; from the first row on that stands otherwise, each costs one.
#[derive(Debug, Drop)]
pub struct Cert {
    kept: Kept,
}

impl Model for Cert {
    ghost use Rattle.std.specs.Prelude.{List};
    ghost use Rattle.rank_rows.specs.declared.rank.Rank.{Rank};
    ghost use Rattle.rank_rows.specs.Ranks.{IsCert};
    ghost use Rattle.rank_rows.specs.Kept.{rows_of};

    ghost Value = { List Rank };

    ghost view = { λ a. rows_of a.kept };

    ghost invariant = { λ a. IsCert (rows_of a.kept) };
}

impl Cert {
    /// A certificate without rows.
    pub fn new(alloc: Global) -> Cert
        ensures { result ≡ [] }
    {
        Cert {
            kept: Kept::new(alloc),
        }
    }

    /// The same, with memory for so many rows at least.
    pub fn with_room(alloc: Global, rows: usize) -> Result<Cert, AllocError>
        ensures { IfOk result (λ cert. cert ≡ []) }
    {
        Ok(Cert {
            kept: Kept::with_room(alloc, rows)?,
        })
    }

    /// Adds a row at the end, but not where the pair is there or the bytes are no name.
    pub fn add(&mut self, name: &[u8], prefix: Prefix, rank: u16) -> Result<bool, AllocError>
        ensures added { IfOk result (λ added. added ≡ is_new self.old name.now prefix) }
        ensures yes { result ≡ Ok true → self.new ≡ self.old ++ record { node = name.now; prefix = prefix; rank = rank } ∷ [] }
        ensures no { result ≡ Ok false → self.new ≡ self.old }
        ensures err { OnErr result (self.new ≡ self.old) }
    {
        match Name::read(name) {
            Some(node) => self.add_row(Rank { node, prefix, rank }),
            None => Ok(false),
        }
    }

    /// Adds the rank of a node at the end, but not where it has one at the prefix.
    pub fn add_rank(&mut self, node: Name, prefix: Prefix, rank: u16) -> Result<bool, AllocError>
        ensures added { IfOk result (λ added. added ≡ is_none (rank_of self.old node prefix)) }
        ensures yes { result ≡ Ok true → self.new ≡ self.old ++ record { node = node; prefix = prefix; rank = rank } ∷ [] }
        ensures no { result ≡ Ok false → self.new ≡ self.old }
        ensures err { OnErr result (self.new ≡ self.old) }
    {
        self.add_row(Rank { node, prefix, rank })
    }

    /// Adds a row of a prefix for each row from a place on, with its name and the next of these ranks. That is done, for less than a row
    /// costs otherwise, only where those are the rows of the last prefix, which stand together as those of each prefix do, where
    /// there is a rank for each, and where this prefix has no row; otherwise it is `false`.
    pub fn repeat_run(
        &mut self,
        place: usize,
        prefix: Prefix,
        ranks: &[u16],
    ) -> Result<bool, AllocError>
        ensures yes { result ≡ Ok true → self.new ≡ self.old ++ like_rows (drop place self.old) prefix ranks.now }
        ensures no { result ≢ Ok true → self.new ≡ self.old }
    {
        if rows_from(self.rows(), place).len() != ranks.len() {
            return Ok(false);
        }
        self.repeat_front(place, prefix, ranks)
    }

    /// The rows in the order in which they were added.
    pub fn rows(&self) -> &[Rank]
        ensures rows { result.now ≡ self.now }
        // No two rows have the same pair.
        ensures good { IsCert self.now }
        ensures each { All IsRow self.now }
    {
        self.kept.rows()
    }

    /// The rank of a name at a prefix.
    pub fn rank(&self, node: &Name, prefix: &Prefix) -> Option<u16>
        ensures { result ≡ rank_of self.now node.now prefix.now }
    {
        self.kept.rank(node, prefix)
    }

    /// The same for look-ups at one prefix, where its rows stand together: `near` is where they begin, or any other place, and is
    /// moved there. The rows from that place on are gone through first, at most 64, which costs less than a look-up by hash.
    #[tactic(auto, using(crate::proofs::Together::rank_here))]
    pub fn rank_near(&self, near: &mut usize, node: &Name, prefix: &Prefix) -> Option<u16>
        ensures { result ≡ rank_of self.now node.now prefix.now }
    {
        if let Some(rank) = rank_in(rows_from(self.rows(), *near), node, prefix) {
            return Some(rank);
        }
        self.kept.rank_near(near, node, prefix)
    }
}

impl Cert {
    /// Where the rows of a prefix begin, where those of each prefix stand together.
    pub fn begin_of(&self, prefix: &Prefix) -> Option<usize>
        ensures { IfSome result (IsRun self.now prefix.now) }
    {
        self.kept.begin_of(prefix)
    }

    /// The rank of the row at a place, where that row is of this pair; the place is then moved on. So ranks that are asked for in the
    /// order of the rows cost no search.
    #[tactic(auto, using(crate::proofs::Together::rank_here))]
    pub fn next_rank(&self, place: &mut usize, node: &Name, prefix: &Prefix) -> Option<u16>
        ensures { IfSome result (λ rank. rank_of self.now node.now prefix.now ≡ Some rank) }
    {
        let rank = first_rank(rows_from(self.rows(), *place), node, prefix)?;
        *place = place.saturating_add(1);
        Some(rank)
    }
}

/// The rank of a pair, where the first row is of it.
fn first_rank(rows: &[Rank], node: &Name, prefix: &Prefix) -> Option<u16>
    ensures { IfSome result (λ rank. rank_of rows.now node.now prefix.now ≡ Some rank) }
{
    let row = rows.first()?;
    if row.node == *node && row.prefix == *prefix {
        Some(row.rank)
    } else {
        None
    }
}

/// The rank of a pair, where the first of some rows that is of its name has it.
fn rank_in(rows: &[Rank], node: &Name, prefix: &Prefix) -> Option<u16>
    ensures { IfSome result (λ rank. rank_of rows.now node.now prefix.now ≡ Some rank) }
{
    for i in 0..NEAR {
        let row = rows.get(i)?;
        if row.node == *node {
            return if row.prefix == *prefix {
                Some(row.rank)
            } else {
                None
            };
        }
    }
    None
}

impl Cert {
    /// Adds a row at the end, but not where its pair is there.
    pub(crate) fn add_row(&mut self, row: Rank) -> Result<bool, AllocError>
        requires { IsRow row }
        ensures added { IfOk result (λ added. added ≡ is_none (rank_of self.old row.node row.prefix)) }
        ensures yes { result ≡ Ok true → self.new ≡ self.old ++ row ∷ [] }
        ensures no { result ≡ Ok false → self.new ≡ self.old }
        ensures err { OnErr result (self.new ≡ self.old) }
    {
        self.kept.add(row)
    }

    /// The same for a row of the last row's prefix.
    #[inline]
    pub(crate) fn add_to_last(&mut self, row: Rank) -> Result<bool, AllocError>
        requires good { IsRow row }
        requires ends { EndsWith row.prefix self.old }
        ensures added { IfOk result (λ added. added ≡ is_none (rank_of self.old row.node row.prefix)) }
        ensures yes { result ≡ Ok true → self.new ≡ self.old ++ row ∷ [] }
        ensures no { result ≡ Ok false → self.new ≡ self.old }
        ensures err { OnErr result (self.new ≡ self.old) }
    {
        self.kept.add_to_last(row)
    }

    /// Where the last prefix's rows begin, where those of each prefix stand together.
    pub(crate) fn last_run(&self) -> Option<usize> {
        self.kept.last_run()
    }

    /// Adds rows as `repeat_run` does, but only for so many of the first rows of the last prefix as there are ranks.
    pub(crate) fn repeat_front(
        &mut self,
        place: usize,
        prefix: Prefix,
        ranks: &[u16],
    ) -> Result<bool, AllocError>
        ensures yes { result ≡ Ok true → self.new ≡ self.old ++ like_rows (drop place self.old) prefix ranks.now }
        ensures no { result ≢ Ok true → self.new ≡ self.old }
        ensures good { IsCert self.new }
    {
        let _ = prefix.digits();
        self.kept.repeat_run(place, prefix, ranks)
    }
}
