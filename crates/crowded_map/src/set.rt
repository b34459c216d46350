//! A set of such keys.
ghost use Rattle.std.specs.Prelude.{◌≡◌, ◌≤◌, ◌+◌, [], OnOk, cond, true};
ghost use Rattle.std.specs.List.{list_any};
ghost use Rattle.crowded_map.specs.Sets.{spare};

use crate::map::CrowdedMap;
use std::alloc::{AllocError, Global};
use std::hash::Hash;
use std::marker::Model;

/// A set of keys.
#[derive(Drop)]
pub struct CrowdedSet<K: Eq + Hash + Ord> {
    map: CrowdedMap<K, ()>,
}

impl<K: Eq + Hash + Ord> Model for CrowdedSet<K> {
    ghost use Rattle.std.specs.Map.{keys_of};
    ghost use Rattle.crowded_map.specs.Sets.{Members};

    ghost Value = { Members K };

    ghost view = { λ s. record { keys = keys_of s.map.entries; room = s.map.room } };
}

impl<K: Eq + Hash + Ord + Copy + Drop> CrowdedSet<K> {
    /// No key is in it.
    pub fn new(alloc: Global) -> CrowdedSet<K>
        ensures { result.keys ≡ [] }
    {
        CrowdedSet {
            map: CrowdedMap::new(alloc),
        }
    }

    /// The next n keys need no memory.
    pub fn reserve(&mut self, n: usize) -> Result<(), AllocError>
        ensures keys { (q : K) → list_any (K.eq q) self.new.keys ≡ list_any (K.eq q) self.old.keys }
        ensures room { OnOk result (n ≤ spare self.new) }
    {
        self.map.reserve(n)
    }

    /// Whether a key is in it.
    pub fn contains(&self, key: &K) -> bool
        ensures { result ≡ list_any (K.eq key.now) self.now.keys }
    {
        self.map.contains_key(key)
    }

    /// A key is in it too.
    pub fn insert(&mut self, key: K)
        requires { 1 ≤ spare self.old }
        ensures keys { (q : K) → list_any (K.eq q) self.new.keys ≡ cond (K.eq key q) true (list_any (K.eq q) self.old.keys) }
        ensures room { spare self.old ≤ spare self.new + 1 }
    {
        let _ = self.map.insert(key, ());
    }
}
