//! Rows of ranks of which those of one prefix stand together.
ghost use Rattle.std.specs.Prelude.{◌≡◌, ◌+◌, ◌≤◌, ◌==◌, ◌∷◌, ◌++◌, ◌≢◌, [], ℕ, List, true, false, is_some, length, drop, Some, None, Ok, IfOk, MatchOption, OnErr, if◌then◌else◌};
ghost use Rattle.std.specs.Cmp.Lexicographic.{pointwise};
ghost use Rattle.std.specs.Vec.{vec_len, vec_capacity};
ghost use Rattle.rank_rows.specs.Ranks.{rank_of, like_rows, IsCert, EndsWith};
ghost use Rattle.rank_rows.specs.Runs.{rank_in_run, begins_with, has_name, begin_of, IsRun, HasNone, CanRepeat};
ghost use Rattle.rank_rows.specs.Marks.{AreMarked};
ghost use Rattle.rank_rows.specs.Greatest.{IsOf};
ghost use Rattle.rank_rows.specs.Adding.{Adds};

use crate::apart::ApartRows;
use crate::greatest::Greatest;
use crate::marks::{Marks, place_of};
use crate::rank::{NEAR, Rank};
use card_digits::{Name, Prefix};
use prefix_map::PrefixMap;
use std::alloc::{AllocError, Global};
use std::marker::Model;

/// Rows in the order in which they were added. Those of one prefix are a run: no row of another prefix stands among them. So only
/// the place where its run begins is kept for a prefix, and a prefix is looked up only where the row before has another.
#[derive(Debug, Drop)]
pub struct Runs {
    rows: Vec<Rank>,
    /// The place of the first row of each prefix.
    begins: PrefixMap<usize>,
    /// Where the run of the last row begins.
    last: usize,
    /// The marks of the names in that run: of a name without one no row has to be looked at.
    marks: Marks,
    /// The greatest name in that run: a name behind it is new, whether it has a mark or not.
    greatest: Greatest,
}

impl Model for Runs {
    ghost use Rattle.std.specs.Prelude.{List};
    ghost use Rattle.rank_rows.specs.declared.rank.Rank.{Rank};
    ghost use Rattle.std.specs.Prelude.{drop};
    ghost use Rattle.rank_rows.specs.Runs.{AreRuns};
    ghost use Rattle.rank_rows.specs.Marks.{AreMarked};
    ghost use Rattle.rank_rows.specs.Greatest.{IsOf};

    ghost Value = { List Rank };

    ghost view = { λ a. a.rows.items };

    ghost invariant = { λ a. AreRuns a.rows.items a.begins.entries a.last × AreMarked a.marks (drop a.last a.rows.items) × IsOf a.greatest (drop a.last a.rows.items) };
}

/// What became of a row that was to be added.
#[derive(Clone, Copy, Debug, PartialEq, Eq)]
pub enum Added {
    Yes,
    /// Its pair is there already.
    Twice,
    /// It would stand apart from the rows of its prefix, or its run is as long as a run may be.
    Apart,
}

impl Runs {
    /// No rows.
    pub fn new(alloc: Global) -> Runs
        ensures { result ≡ [] }
    {
        Runs {
            rows: Vec::new(alloc),
            begins: PrefixMap::new(alloc),
            last: 0,
            marks: Marks::none(),
            greatest: Greatest::none(),
        }
    }

    /// The same, with memory for so many rows at least, but for no prefix yet.
    pub fn with_room(alloc: Global, rows: usize) -> Result<Runs, AllocError>
        ensures { IfOk result (λ runs. runs ≡ []) }
    {
        Ok(Runs {
            rows: Vec::with_capacity(alloc, rows)?,
            begins: PrefixMap::new(alloc),
            last: 0,
            marks: Marks::none(),
            greatest: Greatest::none(),
        })
    }

    /// The rows, in the order in which they were added.
    pub fn rows(&self) -> &[Rank]
        ensures { result.now ≡ self.now }
    {
        &self.rows
    }

    /// Where the rows of a prefix begin.
    pub fn begin_of(&self, prefix: &Prefix) -> Option<usize>
        ensures { MatchOption result (HasNone self.now prefix.now) (IsRun self.now prefix.now) }
    {
        self.begins.get(prefix).copied()
    }

    /// The rank of a name at a prefix: one look-up, and then the rows of the prefix one after the other.
    pub fn rank(&self, node: &Name, prefix: &Prefix) -> Option<u16>
        ensures { result ≡ rank_of self.now node.now prefix.now }
    {
        let begin = self.begin_of(prefix)?;
        rank_in_run(rows_from(self.rows(), begin), node, prefix)
    }

    /// Adds a row at the end, where it may stand there. Where memory is refused, nothing has changed.
    pub fn add(&mut self, row: Rank) -> Result<Added, AllocError>
        ensures ok { IfOk result (λ added. Adds (is_some (rank_of self.old row.node row.prefix)) self.old row added self.new) }
        ensures err { OnErr result (self.new ≡ self.old) }
    {
        if begins_with(rows_from(&self.rows, self.last), &row.prefix) {
            return add_to_run(
                &mut self.rows,
                self.last,
                &mut self.marks,
                &mut self.greatest,
                row,
            );
        }
        let place = self.rows.len();
        if begin_run(&mut self.rows, &mut self.begins, row)? {
            self.last = place;
            self.marks = Marks::none();
            self.marks.mark(place_of(row.node.as_slice()));
            self.greatest = Greatest::none();
            Ok(Added::Yes)
        } else {
            Ok(Added::Apart)
        }
    }

    /// The same for a row of the last row's prefix, which isn't compared.
    #[inline]
    pub fn add_to_last(&mut self, row: Rank) -> Result<Added, AllocError>
        requires { EndsWith row.prefix self.old }
        ensures ok { IfOk result (λ added. Adds (is_some (rank_of self.old row.node row.prefix)) self.old row added self.new) }
        ensures err { OnErr result (self.new ≡ self.old) }
    {
        if self.last < self.rows.len() {
            add_to_run(
                &mut self.rows,
                self.last,
                &mut self.marks,
                &mut self.greatest,
                row,
            )
        } else {
            Ok(Added::Apart)
        }
    }

    /// Where the last run begins.
    pub fn last(&self) -> usize {
        self.last
    }

    /// Adds a row of a prefix that has none for each of these ranks, with the name of the next row of the last run. The run has to begin
    /// at the place, and to have so many rows at least.
    pub fn repeat_run(
        &mut self,
        place: usize,
        prefix: Prefix,
        ranks: &[u16],
    ) -> Result<bool, AllocError>
        ensures may { result ≡ Ok true → CanRepeat self.old place prefix }
        ensures yes { result ≡ Ok true → self.new ≡ self.old ++ like_rows (drop place self.old) prefix ranks.now }
        ensures no { result ≢ Ok true → self.new ≡ self.old }
    {
        let begin = self.rows.len();
        if place != self.last || place >= begin || ranks.is_empty() || ranks.len() > begin - place {
            return Ok(false);
        }
        if !begin_repeat(&mut self.rows, &mut self.begins, place, prefix, ranks)? {
            return Ok(false);
        }
        self.last = begin;
        self.greatest = Greatest::none();
        if ranks.len() < begin - place {
            self.marks = marks_of(rows_from(&self.rows, begin));
        }
        Ok(true)
    }

    /// The same rows, where those of one prefix may stand apart.
    pub fn to_apart(&self) -> Result<ApartRows, AllocError>
        requires { IsCert self.now }
        ensures { IfOk result (λ apart. apart ≡ self.now) }
    {
        ApartRows::of_rows(*self.rows.allocator(), &self.rows)
    }
}

/// The rows from a place on.
pub fn rows_from(rows: &[Rank], place: usize) -> &[Rank]
    ensures { result.now ≡ drop place rows.now }
{
    &rows[place.min(rows.len())..]
}

/// The rank of a name among the rows that come before one of another prefix.
pub(crate) fn rank_in_run(rows: &[Rank], node: &Name, prefix: &Prefix) -> Option<u16>
    ensures { result ≡ rank_in_run rows.now node.now prefix.now }
{
    for row in rows {
        if row.prefix != *prefix {
            return None;
        }
        if row.node == *node {
            return Some(row.rank);
        }
    }
    None
}

/// Whether the first row has the prefix.
fn begins_with(rows: &[Rank], prefix: &Prefix) -> bool
    ensures { result ≡ begins_with rows.now prefix.now }
{
    match rows.first() {
        Some(row) => row.prefix == *prefix,
        None => false,
    }
}

/// Whether a row has the name.
fn has_name(rows: &[Rank], node: &Name) -> bool
    ensures { result ≡ has_name rows.now node.now }
{
    rows.iter().any(|row| row.node == *node)
}

/// Whether a row has the name, which none has where it has no mark, or comes behind the greatest.
fn is_known(run: &[Rank], is_marked: bool, greatest: &mut Greatest, node: &Name) -> bool
    requires marked { is_marked ≡ false → has_name run.now node.now ≡ false }
    requires greatest { IsOf greatest.old run.now }
    ensures known { result ≡ has_name run.now node.now }
    ensures greatest { IsOf greatest.new run.now }
{
    is_marked && !greatest.is_before(run, node) && has_name(run, node)
}

/// Adds a row to the run that begins at a place and has its prefix. A name is compared with those of the run, no more than a run may have,
/// only where it has a mark and doesn't come behind the greatest.
fn add_to_run(
    rows: &mut Vec<Rank>,
    begin: usize,
    marks: &mut Marks,
    greatest: &mut Greatest,
    row: Rank,
) -> Result<Added, AllocError>
    requires within { begin ≤ length rows.old.items }
    requires marked { AreMarked marks.old (drop begin rows.old.items) }
    requires greatest { IsOf greatest.old (drop begin rows.old.items) }
    ensures ok { IfOk result (λ added. Adds (has_name (drop begin rows.old.items) row.node) rows.old.items row added rows.new.items) }
    ensures err { OnErr result (rows.new.items ≡ rows.old.items) }
    ensures marked { AreMarked marks.new (drop begin rows.new.items) }
    ensures greatest { IsOf greatest.new (drop begin rows.new.items) }
{
    let place = place_of(row.node.as_slice());
    let is_marked = marks.has(place);
    let run = rows_from(rows, begin);
    if is_known(run, is_marked, greatest, &row.node) {
        return Ok(Added::Twice);
    }
    if run.len() >= NEAR {
        return Ok(Added::Apart);
    }
    rows.reserve(1)?;
    rows.push_reserved(row);
    marks.mark(place);
    Ok(Added::Yes)
}

/// Begins a run with a row, unless its prefix has one. Memory is asked for before anything is written.
#[inline(never)]
fn begin_run(
    rows: &mut Vec<Rank>,
    begins: &mut PrefixMap<usize>,
    row: Rank,
) -> Result<bool, AllocError>
    ensures new { result ≡ Ok true → begin_of begins.old.entries row.prefix ≡ None }
    ensures rows { result ≡ Ok true → rows.new.items ≡ rows.old.items ++ row ∷ [] }
    ensures begins { result ≡ Ok true → (p : List ℕ) → begin_of begins.new.entries p ≡ (if pointwise ◌==◌ row.prefix p then Some (length rows.old.items) else begin_of begins.old.entries p) }
    ensures rows_stay { result ≢ Ok true → rows.new.items ≡ rows.old.items }
    ensures begins_stay { result ≢ Ok true → (p : List ℕ) → begin_of begins.new.entries p ≡ begin_of begins.old.entries p }
{
    rows.reserve(1)?;
    begins.reserve(1)?;
    if begins.get_or_insert(row.prefix, rows.len()).is_some() {
        return Ok(false);
    }
    rows.push_reserved(row);
    Ok(true)
}

/// Begins a run of a prefix that has none, with a row for each of these ranks and the name of the next row from a place on. Memory is
/// asked for before anything is written.
fn begin_repeat(
    rows: &mut Vec<Rank>,
    begins: &mut PrefixMap<usize>,
    place: usize,
    prefix: Prefix,
    ranks: &[u16],
) -> Result<bool, AllocError>
    requires { place + length ranks.now ≤ length rows.old.items }
    ensures new { result ≡ Ok true → begin_of begins.old.entries prefix ≡ None }
    ensures rows { result ≡ Ok true → rows.new.items ≡ rows.old.items ++ like_rows (drop place rows.old.items) prefix ranks.now }
    ensures begins { result ≡ Ok true → (p : List ℕ) → begin_of begins.new.entries p ≡ (if pointwise ◌==◌ prefix p then Some (length rows.old.items) else begin_of begins.old.entries p) }
    ensures rows_stay { result ≢ Ok true → rows.new.items ≡ rows.old.items }
    ensures begins_stay { result ≢ Ok true → (p : List ℕ) → begin_of begins.new.entries p ≡ begin_of begins.old.entries p }
{
    rows.reserve(ranks.len())?;
    begins.reserve(1)?;
    if begins.get_or_insert(prefix, rows.len()).is_some() {
        return Ok(false);
    }
    repeat_names(rows, place, prefix, ranks);
    Ok(true)
}

/// Adds a row for each of these ranks, with the name of the next row from a place on.
fn repeat_names(rows: &mut Vec<Rank>, place: usize, prefix: Prefix, ranks: &[u16])
    requires each { place + length ranks.now ≤ length rows.old.items }
    requires room { vec_len rows.old + length ranks.now ≤ vec_capacity rows.old }
    ensures { rows.new.items ≡ rows.old.items ++ like_rows (drop place rows.old.items) prefix ranks.now }
{
    for i in 0..ranks.len() {
        let node = rows[place + i].node;
        let rank = ranks[i];
        rows.push_reserved(Rank { node, prefix, rank });
    }
}

/// The marks of the names of some rows.
fn marks_of(rows: &[Rank]) -> Marks
    ensures { AreMarked result rows.now }
{
    let mut marks = Marks::none();
    for row in rows {
        marks.mark(place_of(row.node.as_slice()));
    }
    marks
}
