//! The map.
ghost use Rattle.std.specs.Prelude.{◌≡◌, ◌==◌, ◌≤◌, ◌+◌, ℕ, List, [], Some, OnOk, ◌&&◌, false, cond, is_some, is_none};
ghost use Rattle.std.specs.Cmp.Lexicographic.{pointwise};
ghost use Rattle.std.specs.Option.{option_copied};
ghost use Rattle.prefix_map.specs.Values.{spare, value_of};

use crate::node::{End, Node, add_behind, add_first, find, put, value_at, walk};
use card_digits::Prefix;
use std::alloc::{AllocError, Global};
use std::marker::Model;

/// A map from prefixes to values, whoever chose the prefixes.
///
/// Each prefix has a node of its own. The walk along the digits of a prefix goes from node to node until it finds it, at most some
/// two dozen steps: one for each digit, and few more.
#[derive(Debug, Drop)]
pub struct PrefixMap<V> {
    nodes: Vec<Node<V>>,
    /// The place of the prefix that was put last.
    last: usize,
}

impl<V> Model for PrefixMap<V> {
    ghost use Rattle.std.specs.Prelude.{◌-◌, min};
    ghost use Rattle.std.specs.Vec.{vec_len, vec_capacity};
    ghost use Rattle.prefix_map.specs.Values.{Entries};
    ghost use Rattle.prefix_map.specs.Walk.{pairs, next};
    ghost use Rattle.prefix_map.specs.Tree.{IsTree};

    ghost Value = { Entries V };

    ghost view = { λ m. record { entries = pairs m.nodes.items; room = min (vec_capacity m.nodes) 4_294_967_296 - vec_len m.nodes } };

    ghost invariant = { λ m. IsTree (pairs m.nodes.items) (next m.nodes.items) };
}

impl<V: Copy + Drop> PrefixMap<V> {
    /// No prefix has a value.
    pub fn new(alloc: Global) -> PrefixMap<V>
        ensures { result.entries ≡ [] }
    {
        PrefixMap {
            nodes: Vec::new(alloc),
            last: 0,
        }
    }

    /// The next n prefixes need no memory.
    pub fn reserve(&mut self, n: usize) -> Result<(), AllocError>
        ensures entries { (q : List ℕ) → value_of q self.new.entries ≡ value_of q self.old.entries }
        ensures room { OnOk result (n ≤ spare self.new) }
    {
        let most = u32::MAX as usize;
        if n > most || self.nodes.len() > most - n {
            return Err(AllocError);
        }
        self.nodes.reserve(n)
    }

    /// The value of a prefix.
    pub fn get(&self, prefix: &Prefix) -> Option<&V>
        ensures { option_copied result ≡ value_of prefix.now self.now.entries }
    {
        match walk(&self.nodes, prefix) {
            End::There(at) => value_at(&self.nodes, at),
            End::Free(_, _) => None,
            End::Empty => None,
        }
    }

    /// Whether a prefix has a value.
    pub fn contains_key(&self, prefix: &Prefix) -> bool
        ensures { result ≡ is_some (value_of prefix.now self.now.entries) }
    {
        self.get(prefix).is_some()
    }

    /// The value of the prefix. Where it has none, it gets this one.
    pub fn get_or_insert(&mut self, prefix: Prefix, value: V) -> Option<V>
        requires { 1 ≤ spare self.old }
        ensures old { result ≡ value_of prefix self.old.entries }
        ensures updates { (q : List ℕ) → value_of q self.new.entries ≡ cond (is_none result && pointwise ◌==◌ prefix q) (Some value) (value_of q self.old.entries) }
        ensures room { spare self.old ≤ spare self.new + 1 }
        ensures kept { is_none result ≡ false → spare self.new ≡ spare self.old }
    {
        let place = self.nodes.len();
        match find(&self.nodes, self.last, &prefix) {
            End::There(at) => {
                self.last = at;
                value_at(&self.nodes, at).copied()
            }
            End::Free(at, digit) => {
                add_behind(&mut self.nodes, at, digit, prefix, value);
                self.last = place;
                None
            }
            End::Empty => {
                add_first(&mut self.nodes, prefix, value);
                self.last = place;
                None
            }
        }
    }

    /// The prefix has this value, if it has one.
    pub fn replace(&mut self, prefix: &Prefix, value: V) -> Option<V>
        ensures old { result ≡ value_of prefix.now self.old.entries }
        ensures updates { (q : List ℕ) → value_of q self.new.entries ≡ cond (is_some result && pointwise ◌==◌ prefix.now q) (Some value) (value_of q self.old.entries) }
        ensures room { spare self.new ≡ spare self.old }
    {
        match find(&self.nodes, self.last, prefix) {
            End::There(at) => {
                self.last = at;
                Some(put(&mut self.nodes, at, value))
            }
            End::Free(_, _) => None,
            End::Empty => None,
        }
    }

    /// The prefix has this value, in place of one that it may have had.
    pub fn insert(&mut self, prefix: Prefix, value: V) -> Option<V>
        requires { 1 ≤ spare self.old }
        ensures old { result ≡ value_of prefix self.old.entries }
        ensures updates { (q : List ℕ) → value_of q self.new.entries ≡ cond (pointwise ◌==◌ prefix q) (Some value) (value_of q self.old.entries) }
        ensures room { spare self.old ≤ spare self.new + 1 }
    {
        let old = self.get_or_insert(prefix, value)?;
        let _ = self.replace(&prefix, value);
        Some(old)
    }
}
