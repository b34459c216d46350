//! The branches of a trie, in one list. The root is the first.
ghost use Rattle.std.specs.Prelude.{◌≡◌, ◌==◌, ◌&&◌, ◌<◌, ◌≤◌, ◌+◌, ℕ, false, length, All, OnOk, OnErr, IfOk, Some};
ghost use Rattle.prefix_trie.specs.Walk.{behind, row_at, reach, bare, number_at};
ghost use Rattle.prefix_trie.specs.Growth.{IsTree, IsSameTo};

use std::alloc::AllocError;

/// The end of a walk along digits, and what is behind it.
#[derive(Clone, Copy, Debug)]
pub(crate) struct Branch {
    /// The place of the row whose prefix ends here.
    pub row: Option<u32>,
    /// The branches behind the ten digits, or 0 where there is none: nothing leads back to the root.
    pub behind: [u32; 10],
}

impl Branch {
    fn new() -> Branch
        ensures { result ≡ bare }
    {
        Branch {
            row: None,
            behind: [0; 10],
        }
    }
}

/// The branch behind a digit, or 0 where there is none.
pub(crate) fn behind(branches: &[Branch], at: usize, digit: u8) -> usize
    ensures { result ≡ behind branches.now at digit }
{
    match branches.get(at) {
        Some(branch) => number_at(&branch.behind, digit),
        None => 0,
    }
}

fn number_at(numbers: &[u32], digit: u8) -> usize
    ensures { result ≡ number_at numbers.now digit }
{
    match numbers.get(digit as usize) {
        Some(number) => *number as usize,
        None => 0,
    }
}

/// The place of the row whose prefix ends at the branch.
pub(crate) fn row_at(branches: &[Branch], at: usize) -> Option<usize>
    ensures { result ≡ row_at branches.now at }
{
    match branches.get(at)?.row {
        Some(row) => Some(row as usize),
        None => None,
    }
}

/// Adds a bare branch, to which nothing leads yet.
fn push_bare(branches: &mut Vec<Branch>) -> Result<(), AllocError>
    ensures behind { (i d : ℕ) → behind branches.new.items i d ≡ behind branches.old.items i d }
    ensures rows { (i : ℕ) → row_at branches.new.items i ≡ row_at branches.old.items i }
    ensures len { OnOk result (length branches.new.items ≡ length branches.old.items + 1) }
    ensures err { OnErr result (branches.new.items ≡ branches.old.items) }
{
    branches.push(Branch::new())?;
    Ok(())
}

/// Puts a branch behind a digit.
fn link(branches: &mut Vec<Branch>, at: usize, digit: u8, number: u32)
    requires within { at < length branches.old.items }
    requires digit { digit < 10 }
    ensures now { behind branches.new.items at digit ≡ number }
    ensures others { (i d : ℕ) → ((i == at) && (d == digit)) ≡ false → behind branches.new.items i d ≡ behind branches.old.items i d }
    ensures rows { (i : ℕ) → row_at branches.new.items i ≡ row_at branches.old.items i }
    ensures len { length branches.new.items ≡ length branches.old.items }
{
    branches[at].behind[digit as usize] = number;
}

/// Makes the root, where it isn't there.
fn add_root(branches: &mut Vec<Branch>) -> Result<(), AllocError>
    requires tree { IsTree branches.old.items }
    ensures same { IsSameTo branches.old.items branches.new.items }
    ensures root { OnOk result (0 < length branches.new.items) }
{
    if branches.is_empty() {
        push_bare(branches)?;
    }
    Ok(())
}

/// Makes a branch behind a digit where there is none.
fn add_behind(branches: &mut Vec<Branch>, at: usize, digit: u8) -> Result<usize, AllocError>
    requires tree { IsTree branches.old.items }
    requires within { at < length branches.old.items }
    requires digit { digit < 10 }
    requires free { behind branches.old.items at digit ≡ 0 }
    ensures same { IsSameTo branches.old.items branches.new.items }
    ensures made { IfOk result (λ i. behind branches.new.items at digit ≡ i) }
    ensures some { IfOk result (λ i. 0 < i) }
    ensures longer { length branches.old.items ≤ length branches.new.items }
{
    let made = branches.len();
    if made > u32::MAX as usize {
        return Err(AllocError);
    }
    push_bare(branches)?;
    link(branches, at, digit, made as u32);
    Ok(made)
}

/// The branch behind a digit, made where there is none.
fn step(branches: &mut Vec<Branch>, at: usize, digit: u8) -> Result<usize, AllocError>
    requires tree { IsTree branches.old.items }
    requires within { at < length branches.old.items }
    requires digit { digit < 10 }
    ensures same { IsSameTo branches.old.items branches.new.items }
    ensures to { IfOk result (λ i. behind branches.new.items at digit ≡ i) }
    ensures some { IfOk result (λ i. 0 < i) }
    ensures longer { length branches.old.items ≤ length branches.new.items }
{
    let next = branches[at].behind[digit as usize];
    if next != 0 {
        return Ok(next as usize);
    }
    add_behind(branches, at, digit)
}

/// The branch that digits lead to, with those on the way made where they aren't there.
pub(crate) fn branch_at(branches: &mut Vec<Branch>, digits: &[u8]) -> Result<usize, AllocError>
    requires tree { IsTree branches.old.items }
    requires digits { All (λ d. d < 10) digits.now }
    ensures same { IsSameTo branches.old.items branches.new.items }
    ensures to { IfOk result (λ i. reach (behind branches.new.items) 0 digits.now ≡ Some i) }
    ensures within { IfOk result (λ i. i < length branches.new.items) }
{
    add_root(branches)?;
    let mut at = 0;
    for digit in digits {
        at = step(branches, at, *digit)?;
    }
    Ok(at)
}

/// Puts a row at the end of the digits that lead to a branch.
pub(crate) fn set_row(branches: &mut Vec<Branch>, at: usize, row: u32)
    requires within { at < length branches.old.items }
    ensures behind { (i d : ℕ) → behind branches.new.items i d ≡ behind branches.old.items i d }
    ensures now { row_at branches.new.items at ≡ Some row }
    ensures others { (i : ℕ) → (i == at) ≡ false → row_at branches.new.items i ≡ row_at branches.old.items i }
    ensures len { length branches.new.items ≡ length branches.old.items }
{
    branches[at].row = Some(row);
}
