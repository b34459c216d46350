//! Pairs of a prefix and a value.
ghost use Rattle.std.specs.Prelude.{◌≡◌, ◌≤◌, ◌+◌, [], length, is_some, true, None, IfOk, OnOk, OnErr, IfErr, option_map, option_and_then, slice_get};
ghost use Rattle.std.specs.Option.{option_copied};
ghost use Rattle.card_digits.specs.Longest.{longest};
ghost use Rattle.prefix_trie.specs.Pairs.{prefix_of, pair_of, inserted, in_order};
ghost use Rattle.prefix_trie.specs.Index.{IsIndexed};

use crate::branch::{Branch, behind, branch_at, row_at, set_row};
use card_digits::{Card, Prefix};
use std::alloc::{AllocError, Global};
use std::marker::Model;
use thiserror::Error;

/// Why a pair is refused.
#[derive(Clone, Copy, Debug, PartialEq, Eq, Error)]
pub enum Fault {
    #[error("the prefix is there")]
    Present,
    #[error("no memory")]
    Memory,
}

/// A pair that was refused, and why.
#[derive(Debug, Drop)]
pub struct Refused<T> {
    pub fault: Fault,
    pub prefix: Prefix,
    pub value: T,
}

/// Pairs of a prefix and a value in ascending order of prefix, no prefix twice.
///
/// A look-up goes digit by digit from branch to branch, at most thirteen of them.
#[derive(Debug, Drop)]
pub struct Trie<T> {
    rows: Vec<(Prefix, T)>,
    branches: Vec<Branch>,
}

impl<T> Model for Trie<T> {
    ghost use Rattle.std.specs.Prelude.{List, ℕ};
    ghost use Rattle.prefix_trie.specs.Pairs.{in_order};
    ghost use Rattle.prefix_trie.specs.Index.{IsIndexed};

    ghost Value = { List (List ℕ × T) };

    ghost view = { λ a. in_order a.rows.items };

    ghost invariant = { λ a. IsIndexed a.rows.items a.branches.items };
}

impl<T> Trie<T> {
    /// A trie without pairs, which asks for no memory.
    pub fn new(alloc: Global) -> Trie<T>
        ensures { result ≡ [] }
    {
        Trie {
            rows: Vec::new(alloc),
            branches: Vec::new(alloc),
        }
    }
}

impl<T: Drop> Trie<T> {
    ghost use Rattle.prefix_trie.specs.declared.trie.Fault.TheVariants as fault;

    /// No pair, but memory for so many pairs, whose prefixes have so many digits together. Each digit costs a branch at most, and
    /// so does the root.
    pub fn with_room(alloc: Global, pairs: usize, digits: usize) -> Result<Trie<T>, AllocError>
        ensures { IfOk result (λ trie. trie ≡ []) }
    {
        Ok(Trie {
            rows: Vec::with_capacity(alloc, pairs)?,
            branches: Vec::with_capacity(alloc, digits.saturating_add(1))?,
        })
    }

    /// Adds a pair, but not where its prefix is there; the refusal gives it back.
    pub fn insert(&mut self, prefix: Prefix, value: T) -> Result<(), Refused<T>>
        ensures added { OnOk result (self.new ≡ inserted (prefix, value) self.old) }
        ensures new { OnOk result (pair_of prefix self.old ≡ None) }
        ensures kept { OnErr result (self.new ≡ self.old) }
        ensures prefix { IfErr result (λ e. e.prefix ≡ prefix) }
        ensures value { IfErr result (λ e. e.value ≡ value) }
        ensures present { IfErr result (λ e. e.fault ≡ fault.Present → is_some (pair_of prefix self.old) ≡ true) }
    {
        let Ok(at) = branch_at(&mut self.branches, prefix.digits()) else {
            return Err(Refused {
                fault: Fault::Memory,
                prefix,
                value,
            });
        };
        if row_at(&self.branches, at).is_some() {
            return Err(Refused {
                fault: Fault::Present,
                prefix,
                value,
            });
        }
        let Ok(place) = u32::try_from(self.rows.len()) else {
            return Err(Refused {
                fault: Fault::Memory,
                prefix,
                value,
            });
        };
        match self.rows.push((prefix, value)) {
            Ok(()) => {
                set_row(&mut self.branches, at, place);
                Ok(())
            }
            Err(refused) => {
                let (prefix, value) = refused.value;
                Err(Refused {
                    fault: Fault::Memory,
                    prefix,
                    value,
                })
            }
        }
    }

    /// The pair with the longest prefix that begins the card.
    pub fn longest(&self, card: &Card) -> Option<(Prefix, &T)>
        ensures { option_map (λ p. (p.0, p.1.now)) result ≡ longest prefix_of self.now card.now }
    {
        self.longest_counted(card).0
    }

    /// The same, and the number of branches that were looked at: the root and one for each digit.
    pub fn longest_counted(&self, card: &Card) -> (Option<(Prefix, &T)>, usize)
        ensures longest { option_map (λ p. (p.0, p.1.now)) result.0 ≡ longest prefix_of self.now card.now }
        ensures few { result.1 ≤ 13 }
    {
        let front = Prefix::of(card);
        let (row, looked) = walk(&self.rows, &self.branches, front.digits());
        (parts(row), looked)
    }

    /// The pair with the longest prefix that begins the class.
    pub fn longest_at(&self, class: &Prefix) -> Option<(Prefix, &T)>
        ensures { option_map (λ p. (p.0, p.1.now)) result ≡ longest prefix_of self.now class.now }
    {
        let (row, _) = walk(&self.rows, &self.branches, class.digits());
        parts(row)
    }
}

fn parts<T>(row: Option<&(Prefix, T)>) -> Option<(Prefix, &T)>
    ensures { option_map (λ p. (p.0, p.1.now)) result ≡ option_copied row.entry }
{
    match row {
        Some(pair) => Some((pair.0, &pair.1)),
        None => None,
    }
}

/// The row of the longest prefix that the digits begin with, and the number of branches that were looked at.
fn walk<'t, T>(
    rows: &'t [(Prefix, T)],
    branches: &[Branch],
    digits: &[u8],
) -> (Option<&'t (Prefix, T)>, usize)
    requires { IsIndexed rows.now branches.now }
    ensures longest { option_copied result.0 ≡ longest prefix_of (in_order rows.now) digits.now }
    ensures few { result.1 ≤ length digits.now + 1 }
{
    let mut at = 0;
    let mut looked = 1;
    let mut found = None;
    for digit in digits {
        let next = behind(branches, at, *digit);
        if next == 0 {
            return (row_of(rows, found), looked);
        }
        at = next;
        looked += 1;
        found = row_at(branches, at).or(found);
    }
    (row_of(rows, found), looked)
}

fn row_of<T>(rows: &[(Prefix, T)], place: Option<usize>) -> Option<&(Prefix, T)>
    ensures { option_copied result ≡ option_and_then (slice_get rows.now) place }
{
    rows.get(place?)
}
