//! The rows of a certificate: in runs as long as each prefix's rows stand together, and otherwise each found by its pair.
ghost use Rattle.std.specs.Prelude.{◌≡◌, ◌≤◌, ◌∷◌, ◌++◌, ◌≢◌, [], true, false, drop, is_none, Ok, IfOk, IfSome, OnErr, if◌then◌else◌};
ghost use Rattle.rank_rows.specs.Ranks.{rank_of, like_rows, IsCert, EndsWith};
ghost use Rattle.rank_rows.specs.Kept.{rows_of};
ghost use Rattle.rank_rows.specs.Runs.{IsRun, CanRepeat};

use crate::apart::ApartRows;
use crate::rank::Rank;
use crate::runs::{Added, Runs, rank_in_run, rows_from};
use card_digits::{Name, Prefix};
use std::alloc::{AllocError, Global};

/// A certificate that was made has the rows of a prefix together, and is kept without a hash for each row. A text may have them in
/// any order: from the first row that stands apart from those of its prefix on, each row is found by its pair.
#[derive(Debug, Drop)]
pub enum Kept {
    Together(Runs),
    Apart(ApartRows),
}

impl Kept {
    /// No rows.
    pub fn new(alloc: Global) -> Kept
        ensures { rows_of result ≡ [] }
    {
        Kept::Together(Runs::new(alloc))
    }

    /// The same, with memory for so many rows at least.
    pub fn with_room(alloc: Global, rows: usize) -> Result<Kept, AllocError>
        ensures { IfOk result (λ kept. rows_of kept ≡ []) }
    {
        Ok(Kept::Together(Runs::with_room(alloc, rows)?))
    }

    /// The rows, in the order in which they were added.
    pub fn rows(&self) -> &[Rank]
        ensures { result.now ≡ rows_of self.now }
    {
        match self {
            Kept::Together(runs) => runs.rows(),
            Kept::Apart(apart) => apart.rows(),
        }
    }

    /// The rank of a node at a prefix, none where no row has it.
    pub fn rank(&self, node: &Name, prefix: &Prefix) -> Option<u16>
        ensures { result ≡ rank_of (rows_of self.now) node.now prefix.now }
    {
        match self {
            Kept::Together(runs) => runs.rank(node, prefix),
            Kept::Apart(apart) => apart.rank(node, prefix),
        }
    }

    /// Where the rows of a prefix begin, where those of each prefix stand together.
    pub fn begin_of(&self, prefix: &Prefix) -> Option<usize>
        ensures { IfSome result (IsRun (rows_of self.now) prefix.now) }
    {
        match self {
            Kept::Together(runs) => runs.begin_of(prefix),
            Kept::Apart(_) => None,
        }
    }

    /// The same as `rank`. `near` is moved to where the rows begin that stand together and have the prefix.
    pub fn rank_near(&self, near: &mut usize, node: &Name, prefix: &Prefix) -> Option<u16>
        ensures { result ≡ rank_of (rows_of self.now) node.now prefix.now }
    {
        match self {
            Kept::Together(runs) => {
                *near = runs.begin_of(prefix)?;
                rank_in_run(rows_from(runs.rows(), *near), node, prefix)
            }
            Kept::Apart(apart) => apart.rank_near(near, node, prefix),
        }
    }

    /// Adds a row at the end, but not where its pair is there.
    pub fn add(&mut self, row: Rank) -> Result<bool, AllocError>
        requires { IsCert (rows_of self.old) }
        ensures added { IfOk result (λ added. added ≡ is_none (rank_of (rows_of self.old) row.node row.prefix)) }
        ensures yes { result ≡ Ok true → rows_of self.new ≡ rows_of self.old ++ row ∷ [] }
        ensures no { result ≡ Ok false → rows_of self.new ≡ rows_of self.old }
        ensures err { OnErr result (rows_of self.new ≡ rows_of self.old) }
    {
        match self {
            Kept::Apart(apart) => apart.add(row),
            Kept::Together(runs) => match runs.add(row)? {
                Added::Yes => Ok(true),
                Added::Twice => Ok(false),
                Added::Apart => self.move_over(&row),
            },
        }
    }

    /// The same for a row of the last row's prefix.
    #[inline]
    pub fn add_to_last(&mut self, row: Rank) -> Result<bool, AllocError>
        requires cert { IsCert (rows_of self.old) }
        requires ends { EndsWith row.prefix (rows_of self.old) }
        ensures added { IfOk result (λ added. added ≡ is_none (rank_of (rows_of self.old) row.node row.prefix)) }
        ensures yes { result ≡ Ok true → rows_of self.new ≡ rows_of self.old ++ row ∷ [] }
        ensures no { result ≡ Ok false → rows_of self.new ≡ rows_of self.old }
        ensures err { OnErr result (rows_of self.new ≡ rows_of self.old) }
    {
        match self {
            Kept::Apart(apart) => apart.add(row),
            Kept::Together(runs) => match runs.add_to_last(row)? {
                Added::Yes => Ok(true),
                Added::Twice => Ok(false),
                Added::Apart => self.move_over(&row),
            },
        }
    }

    /// Where the last prefix's rows begin, where those of each prefix stand together.
    pub fn last_run(&self) -> Option<usize> {
        match self {
            Kept::Together(runs) => Some(runs.last()),
            Kept::Apart(_) => None,
        }
    }

    /// Adds a row of a prefix for each of these ranks, with the name of the next row from a place on, where the rows of each prefix stand
    /// together and those are the last prefix's.
    pub fn repeat_run(
        &mut self,
        place: usize,
        prefix: Prefix,
        ranks: &[u16],
    ) -> Result<bool, AllocError>
        ensures may { result ≡ Ok true → CanRepeat (rows_of self.old) place prefix }
        ensures yes { result ≡ Ok true → rows_of self.new ≡ rows_of self.old ++ like_rows (drop place (rows_of self.old)) prefix ranks.now }
        ensures no { result ≢ Ok true → rows_of self.new ≡ rows_of self.old }
    {
        match self {
            Kept::Together(runs) => runs.repeat_run(place, prefix, ranks),
            Kept::Apart(_) => Ok(false),
        }
    }

    /// The same, where each row is found by its pair from here on.
    #[cold]
    #[inline(never)]
    fn move_over(&mut self, row: &Rank) -> Result<bool, AllocError>
        requires { IsCert (rows_of self.old) }
        ensures added { IfOk result (λ added. added ≡ is_none (rank_of (rows_of self.old) row.now.node row.now.prefix)) }
        ensures yes { result ≡ Ok true → rows_of self.new ≡ rows_of self.old ++ row.now ∷ [] }
        ensures no { result ≡ Ok false → rows_of self.new ≡ rows_of self.old }
        ensures err { OnErr result (rows_of self.new ≡ rows_of self.old) }
    {
        match self {
            Kept::Apart(apart) => apart.add(*row),
            Kept::Together(runs) => {
                let (apart, added) = moved_over(runs, row)?;
                *self = Kept::Apart(apart);
                Ok(added)
            }
        }
    }
}

/// The rows, with one more at the end, and whether its pair was new.
fn moved_over(runs: &Runs, row: &Rank) -> Result<(ApartRows, bool), AllocError>
    requires { IsCert runs.now }
    ensures added { IfOk result (λ moved. moved.1 ≡ is_none (rank_of runs.now row.now.node row.now.prefix)) }
    ensures rows { IfOk result (λ moved. moved.0 ≡ (if moved.1 then runs.now ++ row.now ∷ [] else runs.now)) }
{
    let mut apart = runs.to_apart()?;
    let added = apart.add(*row)?;
    Ok((apart, added))
}
