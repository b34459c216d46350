//! What is found by pairs of a name and a prefix.
ghost use Rattle.std.specs.Prelude.{◌≡◌, ◌<◌, ◌&&◌, ◌==◌, ◌∷◌, ◌++◌, ℕ, List, [], Some, None, IfOk, OnOk, OnErr, MatchOption, cond, is_none, length, true, false};
ghost use Rattle.std.specs.Cmp.Lexicographic.{pointwise};
ghost use Rattle.std.specs.Map.{lookup};
ghost use Rattle.rank_rows.specs.Apart.{is_same_pair};
ghost use Rattle.prefix_map.specs.Values.{value_of};
ghost use Rattle.rank_rows.specs.Found.{has_name_at, HasNoName, found_of, value_at};

use crate::marks::place_of;
use crate::pair::{Found, Pair};
use card_digits::{Name, Prefix};
use crowded_map::CrowdedMap;
use prefix_map::PrefixMap;
use std::alloc::{AllocError, Global};
use std::marker::Model;

/// What is found by the prefixes of one name.
#[derive(Debug, Drop)]
pub(crate) struct OfName {
    pub node: Name,
    pub found: PrefixMap<Found>,
}

/// So many names have a map of their own: as many as a network has nodes.
const MOST_NAMES: usize = 64;

/// As many places as a byte has values.
const PLACES: usize = 256;

/// What is found by pairs, whoever chose them. The first 64 names have a map of their own each, and those behind them share another.
#[derive(Debug, Drop)]
pub(crate) struct FoundPairs {
    names: Vec<OfName>,
    others: CrowdedMap<Pair, Found>,
    /// Where a name of each place may stand among those with a map of their own.
    marks: [u8; PLACES],
}

impl Model for FoundPairs {
    ghost use Rattle.rank_rows.specs.Found.{Known, AreApart};

    ghost Value = { Known };

    ghost view = { λ a. record { names = a.names.items; others = a.others.entries } };

    ghost invariant = { λ a. AreApart a.names.items a.others.entries };
}

/// Whether the name at a place is this one.
fn is_at(names: &[OfName], at: usize, node: &Name) -> bool
    ensures { result ≡ has_name_at names.now node.now at }
{
    match names.get(at) {
        Some(name) => *node == name.node,
        None => false,
    }
}

/// Where the name stands. The one at a place that is likely is looked at first.
fn place_in(names: &[OfName], likely: usize, node: &Name) -> Option<usize>
    ensures { MatchOption result (HasNoName names.now node.now) (λ at. has_name_at names.now node.now at ≡ true) }
{
    if is_at(names, likely, node) {
        return Some(likely);
    }
    for at in 0..names.len() {
        if is_at(names, at, node) {
            return Some(at);
        }
    }
    None
}

/// What is found by a prefix of the name at a place.
fn found_in(names: &[OfName], at: usize, prefix: &Prefix) -> Option<Found>
    ensures { result ≡ value_at names.now prefix.now at }
{
    match names.get(at) {
        Some(name) => name.found.get(prefix).copied(),
        None => None,
    }
}

/// What is found by a prefix. Where nothing is, this is found from then on.
fn put_found(
    map: &mut PrefixMap<Found>,
    prefix: Prefix,
    found: Found,
) -> Result<Option<Found>, AllocError>
    ensures old { IfOk result (λ had. had ≡ value_of prefix map.old.entries) }
    ensures updates { IfOk result (λ had. (q : List ℕ) → value_of q map.new.entries ≡ cond (is_none had && pointwise ◌==◌ prefix q) (Some found) (value_of q map.old.entries)) }
    ensures err { OnErr result ((q : List ℕ) → value_of q map.new.entries ≡ value_of q map.old.entries) }
{
    map.reserve(1)?;
    Ok(map.get_or_insert(prefix, found))
}

/// The same of the name at a place.
fn put_in(
    names: &mut Vec<OfName>,
    at: usize,
    prefix: Prefix,
    found: Found,
) -> Result<Option<Found>, AllocError>
    requires { at < length names.old.items }
    ensures old { IfOk result (λ had. had ≡ value_at names.old.items prefix at) }
    ensures names { (name : List ℕ) (i : ℕ) → has_name_at names.new.items name i ≡ has_name_at names.old.items name i }
    ensures here { IfOk result (λ had. (q : List ℕ) → value_at names.new.items q at ≡ cond (is_none had && pointwise ◌==◌ prefix q) (Some found) (value_at names.old.items q at)) }
    ensures others { (i : ℕ) (q : List ℕ) → (i == at) ≡ false → value_at names.new.items q i ≡ value_at names.old.items q i }
    ensures len { length names.new.items ≡ length names.old.items }
    ensures err { OnErr result ((q : List ℕ) → value_at names.new.items q at ≡ value_at names.old.items q at) }
{
    put_found(&mut names[at].found, prefix, found)
}

/// A name of which this alone is found.
fn first_of_name(alloc: Global, pair: Pair, found: Found) -> Result<OfName, AllocError>
    ensures node { IfOk result (λ name. name.node ≡ pair.node) }
    ensures found { IfOk result (λ name. (q : List ℕ) → value_of q name.found.entries ≡ cond (pointwise ◌==◌ pair.prefix q) (Some found) None) }
{
    let mut map = PrefixMap::new(alloc);
    map.reserve(1)?;
    let _ = map.insert(pair.prefix, found);
    Ok(OfName {
        node: pair.node,
        found: map,
    })
}

/// What is found by a pair. Where nothing is, this is found from then on.
fn put_beside(
    others: &mut CrowdedMap<Pair, Found>,
    pair: Pair,
    found: Found,
) -> Result<Option<Found>, AllocError>
    ensures old { IfOk result (λ had. had ≡ lookup (is_same_pair pair) others.old.entries) }
    ensures updates { IfOk result (λ had. (q : Pair) → lookup (is_same_pair q) others.new.entries ≡ cond (is_none had && is_same_pair pair q) (Some found) (lookup (is_same_pair q) others.old.entries)) }
    ensures err { OnErr result ((q : Pair) → lookup (is_same_pair q) others.new.entries ≡ lookup (is_same_pair q) others.old.entries) }
{
    if let Some(had) = others.get(&pair) {
        return Ok(Some(*had));
    }
    others.reserve(1)?;
    let _ = others.insert(pair, found);
    Ok(None)
}

impl FoundPairs {
    /// Nothing is found.
    pub fn new(alloc: Global) -> FoundPairs
        ensures { (p : Pair) → found_of result p ≡ None }
    {
        FoundPairs {
            names: Vec::new(alloc),
            others: CrowdedMap::new(alloc),
            marks: [0; PLACES],
        }
    }

    /// Where the name is likely to stand.
    fn likely(&self, node: &Name) -> usize {
        usize::from(self.marks[place_of(node.as_slice()) as usize])
    }

    /// What is found by a pair.
    pub fn get(&self, pair: &Pair) -> Option<Found>
        ensures { result ≡ found_of self.now pair.now }
    {
        match place_in(&self.names, self.likely(&pair.node), &pair.node) {
            Some(at) => found_in(&self.names, at, &pair.prefix),
            None => self.others.get(pair).copied(),
        }
    }

    /// What is found by a pair. Where nothing is, this is found from then on. Where memory is refused, nothing has changed.
    pub fn get_or_insert(&mut self, pair: Pair, found: Found) -> Result<Option<Found>, AllocError>
        ensures old { IfOk result (λ had. had ≡ found_of self.old pair) }
        ensures updates { IfOk result (λ had. (q : Pair) → found_of self.new q ≡ cond (is_none had && is_same_pair pair q) (Some found) (found_of self.old q)) }
        ensures err { OnErr result ((q : Pair) → found_of self.new q ≡ found_of self.old q) }
    {
        if let Some(at) = place_in(&self.names, self.likely(&pair.node), &pair.node) {
            return put_in(&mut self.names, at, pair.prefix, found);
        }
        let place = self.names.len();
        if place >= MOST_NAMES {
            return put_beside(&mut self.others, pair, found);
        }
        let name = first_of_name(*self.names.allocator(), pair, found)?;
        self.names.push(name)?;
        self.marks[place_of(pair.node.as_slice()) as usize] = place as u8;
        Ok(None)
    }
}
