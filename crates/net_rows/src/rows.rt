//! Rows, found by their longest prefix.
ghost use Rattle.std.specs.Prelude.{◌≡◌, ◌==◌, ◌≤◌, ◌<◌, ◌+◌, [], length, true, ℕ, Option, IfOk, OnOk, option_and_then, slice_get};
ghost use Rattle.std.specs.Char.{is_ascii_digit};
ghost use Rattle.std.specs.List.{filter, list_all};
ghost use Rattle.std.specs.Option.{option_copied, option_eq};
ghost use Rattle.card_digits.specs.Digits.{digits_of};
ghost use Rattle.card_digits.specs.Longest.{longest};
ghost use Rattle.net_rows.specs.Index.{IsIndexed, slot, places_at};
ghost use Rattle.net_rows.specs.Adding.{IsAdded};
ghost use Rattle.prefix_trie.specs.Pairs.{prefix_of};

use crate::prefixed::{Prefixed, RowKey};
use card_digits::{Card, NodeNo, Prefix};
use prefix_trie::{Fault, Trie};
use std::alloc::{AllocError, Global};
use std::marker::Model;

/// Rows in the order of the text, with tries of the places of the first rows of each key.
#[derive(Debug, Drop)]
pub(crate) struct Rows<R: Prefixed> {
    rows: Vec<R>,
    tries: Vec<Trie<usize>>,
}

impl<R: Prefixed> Model for Rows<R> {
    ghost use Rattle.std.specs.Prelude.{List};
    ghost use Rattle.net_rows.specs.Index.{IsIndexed};

    ghost Value = { List R };

    ghost view = { λ a. a.rows.items };

    ghost invariant = { λ a. IsIndexed R.node_of R.prefix_of a.rows.items a.tries.items };
}

impl<R: Prefixed + Drop> Rows<R> {
    /// The rows in their order, with a trie of places for each node that has some.
    pub fn new(alloc: Global, rows: Vec<R>) -> Result<Rows<R>, AllocError>
        ensures { IfOk result (λ r. r ≡ rows.items) }
    {
        let tries = tries_of(alloc, &rows)?;
        Ok(Rows { rows, tries })
    }

    /// The rows in the order of the text.
    pub fn as_slice(&self) -> &[R]
        ensures { result.now ≡ self.now }
    {
        &self.rows
    }

    /// The first of the node's rows with the most digits whose prefix begins the class: one walk in the node's trie.
    pub fn for_class(&self, class: RowKey) -> Option<&R>
        ensures { option_copied result ≡ longest R.prefix_of (filter (λ r. option_eq ◌==◌ (R.node_of r) class.node) self.now) class.prefix }
    {
        let trie = self.tries.get(slot(class.node))?;
        row_in(&self.rows, trie, &class.prefix)
    }

    /// The same for a card.
    pub fn for_card(&self, node: Option<NodeNo>, card: &Card) -> Option<&R>
        ensures { option_copied result ≡ longest R.prefix_of (filter (λ r. option_eq ◌==◌ (R.node_of r) node) self.now) card.now }
    {
        let _ = &self.rows;
        self.for_class(RowKey {
            node,
            prefix: Prefix::of(card),
        })
    }

    /// The same for a card number in ASCII digits, however many they are.
    pub fn for_number(&self, node: Option<NodeNo>, number: &[u8]) -> Option<&R>
        requires { list_all is_ascii_digit number.now ≡ true }
        ensures { option_copied result ≡ longest R.prefix_of (filter (λ r. option_eq ◌==◌ (R.node_of r) node) self.now) (digits_of number.now) }
    {
        let _ = &self.rows;
        match Prefix::read_known(&number[..number.len().min(12)]) {
            Ok(prefix) => self.for_class(RowKey { node, prefix }),
            Err(_) => None,
        }
    }
}

/// The row whose place the trie has at the longest prefix of the class.
fn row_in<'r, R>(rows: &'r [R], places: &Trie<usize>, class: &Prefix) -> Option<&'r R>
    ensures { option_copied result ≡ option_and_then (λ p. slice_get rows.now p.1) (longest prefix_of places.now class.now) }
{
    match places.longest_at(class) {
        Some((_, place)) => rows.get(*place),
        None => None,
    }
}

/// The place of a node's trie.
fn slot(node: Option<NodeNo>) -> usize
    ensures { result ≡ slot node }
{
    match node {
        None => 0,
        Some(node) => node.place() + 1,
    }
}

/// How many rows a node has, and how many digits their prefixes have together.
#[derive(Clone, Copy, Debug)]
struct Counts {
    rows: usize,
    digits: usize,
}

/// The counts of each trie. They say how much memory to ask for, and nothing else hangs on them.
fn counts_of<R: Prefixed>(alloc: Global, rows: &[R]) -> Result<Vec<Counts>, AllocError> {
    let mut counts = Vec::new(alloc);
    for row in rows {
        let slot = slot(row.node());
        make_place(&mut counts, slot)?;
        count(&mut counts, slot, row.prefix().digits().len());
    }
    Ok(counts)
}

/// Makes the place of a trie, where it isn't there.
fn make_place(counts: &mut Vec<Counts>, slot: usize) -> Result<(), AllocError> {
    let more = slot.saturating_add(1).saturating_sub(counts.len());
    for _ in 0..more {
        counts.push(Counts { rows: 0, digits: 0 })?;
    }
    Ok(())
}

/// Counts a row with so many digits.
fn count(counts: &mut [Counts], slot: usize, digits: usize) {
    if let Some(counts) = counts.get_mut(slot) {
        counts.rows = counts.rows.saturating_add(1);
        counts.digits = counts.digits.saturating_add(digits);
    }
}

/// A trie with memory for the rows that were counted, where memory is given for them.
fn empty_trie(alloc: Global, counts: Option<&Counts>) -> Trie<usize>
    ensures { result ≡ [] }
{
    let Some(counts) = counts else {
        return Trie::new(alloc);
    };
    match Trie::with_room(alloc, counts.rows, counts.digits) {
        Ok(trie) => trie,
        Err(_) => Trie::new(alloc),
    }
}

/// As many tries as that.
fn grow(
    alloc: Global,
    counts: &[Counts],
    tries: &mut Vec<Trie<usize>>,
    most: usize,
) -> Result<(), AllocError>
    ensures same { (node : Option ℕ) → places_at tries.new.items node ≡ places_at tries.old.items node }
    ensures many { OnOk result (most ≤ length tries.new.items) }
{
    let more = most.saturating_sub(tries.len());
    for _ in 0..more {
        let trie = empty_trie(alloc, counts.get(tries.len()));
        tries.push(trie)?;
    }
    Ok(())
}

/// Puts the place of a row at its key, where no row came before.
fn add(
    alloc: Global,
    counts: &[Counts],
    tries: &mut Vec<Trie<usize>>,
    key: RowKey,
    place: usize,
) -> Result<(), AllocError>
    ensures { OnOk result (IsAdded key place tries.old.items tries.new.items) }
{
    let slot = slot(key.node);
    grow(alloc, counts, tries, slot + 1)?;
    match tries[slot].insert(key.prefix, place) {
        Ok(()) => Ok(()),
        Err(refused) => match refused.fault {
            Fault::Present => Ok(()),
            Fault::Memory => Err(AllocError),
        },
    }
}

/// The place of the first row of each key.
fn tries_of<R: Prefixed>(alloc: Global, rows: &[R]) -> Result<Vec<Trie<usize>>, AllocError>
    ensures { IfOk result (λ t. IsIndexed R.node_of R.prefix_of rows.now t.items) }
{
    let counts = counts_of(alloc, rows)?;
    let mut tries = Vec::new(alloc);
    for i in 0..rows.len() {
        add(alloc, &counts, &mut tries, RowKey::of(&rows[i]), i)?;
    }
    Ok(tries)
}
