//! The map.
ghost use Rattle.std.specs.Prelude.{◌≡◌, ◌≤◌, ◌+◌, ◌&&◌, [], Some, None, IfOk, OnOk, OnErr, cond, is_some, length};
ghost use Rattle.std.specs.HashMap as table;
ghost use Rattle.std.specs.Map.{lookup};
ghost use Rattle.std.specs.Option.{option_copied};
ghost use Rattle.crowded_map.specs.Values.{spare, in_either};

use crate::crowds::{Crowds, count};
use crate::hashed::HashedTree;
use std::alloc::{AllocError, Global};
use std::collections::HashMap;
use std::hash::{BuildHasher, Hash};
use std::marker::Model;

/// A map from keys to values.
#[derive(Debug, Drop)]
pub struct CrowdedMap<K: Eq + Hash + Ord, V> {
    near: HashMap<K, V>,
    far: HashedTree<K, V>,
    crowds: Crowds,
    alloc: Global,
}

impl<K: Eq + Hash + Ord, V> Model for CrowdedMap<K, V> {
    ghost use Rattle.std.specs.Prelude.{◌++◌};
    ghost use Rattle.std.specs.HashMap.{spare};
    ghost use Rattle.crowded_map.specs.Values.{Entries};

    ghost Value = { Entries K V };

    ghost view = { λ m. record { entries = m.near.entries ++ m.far; room = spare m.near } };
}

/// The 32 bits by which a table finds a key.
fn hash_of<K: Eq + Hash + Copy + Drop, V>(near: &HashMap<K, V>, key: &K) -> u32 {
    let hash = near.hasher().hash_one(*key);
    ((hash ^ hash >> 32) & 0xFFFF_FFFF) as u32
}

/// Puts a value where there is room for a key.
fn put_near<K: Eq + Hash + Copy + Drop, V: Copy + Drop>(
    near: &mut HashMap<K, V>,
    key: K,
    value: V,
) -> Option<V>
    requires { 1 ≤ table.spare near.old }
    ensures old { result ≡ lookup (K.eq key) near.old.entries }
    ensures updates { (q : K) → lookup (K.eq q) near.new.entries ≡ cond (K.eq key q) (Some value) (lookup (K.eq q) near.old.entries) }
    ensures room { table.spare near.old ≤ table.spare near.new + 1 }
{
    match near.insert(key, value) {
        Ok(old) => old,
        Err(_) => None,
    }
}

/// Puts a value where the key has one.
fn replace_near<K: Eq + Hash + Copy + Drop, V: Copy + Drop>(
    near: &mut HashMap<K, V>,
    key: &K,
    value: V,
) -> Option<V>
    ensures old { result ≡ lookup (K.eq key.now) near.old.entries }
    ensures updates { (q : K) → lookup (K.eq q) near.new.entries ≡ cond (is_some result && K.eq key.now q) (Some value) (lookup (K.eq q) near.old.entries) }
    ensures room { table.spare near.new ≡ table.spare near.old }
{
    let place = near.get_mut(key)?;
    let old = *place;
    *place = value;
    Some(old)
}

/// Puts a value where some keys lie in a tree, or where this one belongs there.
fn put_beside<K: Eq + Hash + Ord + Copy + Drop, V: Copy + Drop>(
    near: &mut HashMap<K, V>,
    far: &mut HashedTree<K, V>,
    crowds: &mut Crowds,
    hash: u32,
    key: K,
    value: V,
) -> Option<V>
    requires { 1 ≤ table.spare near.old }
    ensures old { result ≡ in_either near.old.entries far.old (K.eq key) }
    ensures updates { (q : K) → in_either near.new.entries far.new (K.eq q) ≡ cond (K.eq key q) (Some value) (in_either near.old.entries far.old (K.eq q)) }
    ensures room { table.spare near.old ≤ table.spare near.new + 1 }
{
    if near.contains_key(&key) {
        return put_near(near, key, value);
    }
    let is_crowded = !crowds.enter(hash);
    if !is_crowded && far.get(&key).is_none() {
        return put_near(near, key, value);
    }
    if !is_crowded {
        crowds.leave(hash);
    }
    match far.insert(key, value) {
        Ok(old) => old,
        // Without memory for the tree the table takes the key, where there is room.
        Err(_) => put_near(near, key, value),
    }
}

/// Puts a value where there is room for a key.
fn put<K: Eq + Hash + Ord + Copy + Drop, V: Copy + Drop>(
    near: &mut HashMap<K, V>,
    far: &mut HashedTree<K, V>,
    crowds: &mut Crowds,
    hash: u32,
    key: K,
    value: V,
) -> Option<V>
    requires { 1 ≤ table.spare near.old }
    ensures old { result ≡ in_either near.old.entries far.old (K.eq key) }
    ensures updates { (q : K) → in_either near.new.entries far.new (K.eq q) ≡ cond (K.eq key q) (Some value) (in_either near.old.entries far.old (K.eq q)) }
    ensures room { table.spare near.old ≤ table.spare near.new + 1 }
{
    if !far.is_empty() || !crowds.enter(hash) {
        return put_beside(near, far, crowds, hash, key, value);
    }
    let old = put_near(near, key, value);
    if old.is_some() {
        crowds.leave(hash);
    }
    old
}

/// Puts a value where the key has one.
fn put_again<K: Eq + Hash + Ord + Copy + Drop, V: Copy + Drop>(
    near: &mut HashMap<K, V>,
    far: &mut HashedTree<K, V>,
    key: &K,
    value: V,
) -> Option<V>
    ensures old { result ≡ in_either near.old.entries far.old (K.eq key.now) }
    ensures updates { (q : K) → in_either near.new.entries far.new (K.eq q) ≡ cond (is_some result && K.eq key.now q) (Some value) (in_either near.old.entries far.old (K.eq q)) }
    ensures room { table.spare near.new ≡ table.spare near.old }
{
    if let Some(old) = replace_near(near, key, value) {
        return Some(old);
    }
    far.replace(key, value)
}

/// Takes a key out.
fn take<K: Eq + Hash + Ord + Copy + Drop, V: Copy + Drop>(
    near: &mut HashMap<K, V>,
    far: &mut HashedTree<K, V>,
    crowds: &mut Crowds,
    hash: u32,
    key: &K,
) -> Option<V>
    ensures old { result ≡ in_either near.old.entries far.old (K.eq key.now) }
    ensures updates { (q : K) → in_either near.new.entries far.new (K.eq q) ≡ cond (K.eq key.now q) None (in_either near.old.entries far.old (K.eq q)) }
    ensures room { table.spare near.old ≤ table.spare near.new }
{
    let old = near.remove(key);
    if old.is_some() {
        crowds.leave(hash);
    }
    if far.is_empty() {
        return old;
    }
    old.or(far.remove(key))
}

/// The keys of a table by so many stretches.
fn counts_of<K: Eq + Hash + Copy + Drop, V: Copy + Drop>(
    alloc: Global,
    near: &HashMap<K, V>,
    stretches: usize,
) -> Result<Vec<u8>, AllocError>
    ensures { IfOk result (λ counts. length counts.items ≡ stretches) }
{
    let mut counts = vec![in alloc; 0; stretches]?;
    for key in near.keys() {
        count(&mut counts, hash_of(near, key));
    }
    Ok(counts)
}

/// The table has grown: its stretches are counted again.
#[inline(never)]
fn recount<K: Eq + Hash + Copy + Drop, V: Copy + Drop>(
    alloc: Global,
    near: &HashMap<K, V>,
    crowds: &mut Crowds,
) -> Result<(), AllocError> {
    let capacity = near.capacity();
    if let Some(stretches) = crowds.wanted(capacity) {
        crowds.set_finer(counts_of(alloc, near, stretches)?);
    }
    crowds.divide(alloc, capacity)
}

impl<K: Eq + Hash + Ord + Copy + Drop, V: Copy + Drop> CrowdedMap<K, V> {
    /// No key has a value.
    pub fn new(alloc: Global) -> CrowdedMap<K, V>
        ensures { result.entries ≡ [] }
    {
        CrowdedMap {
            near: HashMap::new(alloc),
            far: HashedTree::new(alloc),
            crowds: Crowds::new(alloc),
            alloc,
        }
    }

    /// The next n keys need no memory.
    pub fn reserve(&mut self, n: usize) -> Result<(), AllocError>
        ensures entries { (q : K) → lookup (K.eq q) self.new.entries ≡ lookup (K.eq q) self.old.entries }
        ensures room { OnOk result (n ≤ spare self.new) }
    {
        self.near.reserve(n)?;
        if self.crowds.are_behind(self.near.capacity()) {
            recount(self.alloc, &self.near, &mut self.crowds)?;
        }
        Ok(())
    }

    /// The value of a key.
    pub fn get(&self, key: &K) -> Option<&V>
        ensures { option_copied result ≡ lookup (K.eq key.now) self.now.entries }
    {
        if let Some(value) = self.near.get(key) {
            return Some(value);
        }
        if self.far.is_empty() {
            return None;
        }
        self.far.get(key)
    }

    /// Whether a key has a value.
    pub fn contains_key(&self, key: &K) -> bool
        ensures { result ≡ is_some (lookup (K.eq key.now) self.now.entries) }
    {
        self.get(key).is_some()
    }

    /// By which a new key is counted, or 0 where none is.
    fn counted_by(&self, key: &K) -> u32 {
        if self.crowds.are_kept() {
            hash_of(&self.near, key)
        } else {
            0
        }
    }

    /// The key has this value, in place of one that it may have had.
    pub fn insert(&mut self, key: K, value: V) -> Option<V>
        requires { 1 ≤ spare self.old }
        ensures old { result ≡ lookup (K.eq key) self.old.entries }
        ensures updates { (q : K) → lookup (K.eq q) self.new.entries ≡ cond (K.eq key q) (Some value) (lookup (K.eq q) self.old.entries) }
        ensures room { spare self.old ≤ spare self.new + 1 }
    {
        let hash = self.counted_by(&key);
        put(
            &mut self.near,
            &mut self.far,
            &mut self.crowds,
            hash,
            key,
            value,
        )
    }

    /// The key has this value, if it has one.
    pub fn replace(&mut self, key: &K, value: V) -> Option<V>
        ensures old { result ≡ lookup (K.eq key.now) self.old.entries }
        ensures updates { (q : K) → lookup (K.eq q) self.new.entries ≡ cond (is_some result && K.eq key.now q) (Some value) (lookup (K.eq q) self.old.entries) }
        ensures room { spare self.new ≡ spare self.old }
    {
        put_again(&mut self.near, &mut self.far, key, value)
    }

    /// The key has no value.
    pub fn remove(&mut self, key: &K) -> Option<V>
        ensures old { result ≡ lookup (K.eq key.now) self.old.entries }
        ensures updates { (q : K) → lookup (K.eq q) self.new.entries ≡ cond (K.eq key.now q) None (lookup (K.eq q) self.old.entries) }
        ensures room { spare self.old ≤ spare self.new }
    {
        let hash = self.counted_by(key);
        take(&mut self.near, &mut self.far, &mut self.crowds, hash, key)
    }
}
