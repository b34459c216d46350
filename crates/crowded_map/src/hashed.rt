//! Keys in a tree, by their hashes.
ghost use Rattle.std.specs.Prelude.{◌≡◌, [], Some, None, IfOk, IfNone, IfSome, OnOk, OnErr, IsTrue, cond, is_some, ◌&&◌};
ghost use Rattle.std.specs.BTreeMap.{insert_entry, is_at};
ghost use Rattle.std.specs.Map.{lookup, set_value};
ghost use Rattle.std.specs.Option.{option_copied};
ghost use Rattle.crowded_map.specs.Hashed.{hash_by};

use std::alloc::{AllocError, Global};
use std::collections::BTreeMap;
use std::hash::{BuildHasher, BuildHasherDefault, FoldHasher, Hash};
use std::marker::Model;

/// A key beside its hash, by which keys are compared first.
#[derive(Debug, PartialEq, Eq, PartialOrd, Ord, Drop)]
pub(crate) struct HashedKey<K> {
    pub hash: u64,
    pub key: K,
}

/// A map that finds a key by comparisons, of hashes first.
#[derive(Debug, Drop)]
pub(crate) struct HashedTree<K: Hash + Ord, V> {
    tree: BTreeMap<HashedKey<K>, V>,
    builder: BuildHasherDefault<FoldHasher>,
}

impl<K: Hash + Ord, V> Model for HashedTree<K, V> {
    ghost use Rattle.std.specs.Prelude.{List};
    ghost use Rattle.crowded_map.specs.Hashed.{unhashed, AreHashed, hash_by};

    ghost Value = { List (K × V) };

    ghost view = { λ t. unhashed t.tree.entries };

    ghost invariant = { λ t. AreHashed (λ k. hash_by t.builder (K.hash_input k)) t.tree.entries };
}

/// A key beside its hash.
fn with_hash<K: Hash + Copy + Drop>(
    builder: &BuildHasherDefault<FoldHasher>,
    key: K,
) -> HashedKey<K>
    ensures key { result.key ≡ key }
    ensures hash { result.hash ≡ hash_by builder.now (K.hash_input result.key) }
{
    HashedKey {
        hash: builder.hash_one(key),
        key,
    }
}

/// Puts a value where the key has one.
fn replace_in<K: Ord + Drop, V: Copy + Drop>(
    tree: &mut BTreeMap<K, V>,
    key: &K,
    value: V,
) -> Option<V>
    ensures old { result ≡ lookup (is_at (K.cmp key.now)) tree.old.entries }
    ensures none { IfNone result (tree.new.entries ≡ tree.old.entries) }
    ensures some { IfSome result (λ _. tree.new.entries ≡ set_value (is_at (K.cmp key.now)) tree.old.entries value) }
    ensures updates { IfSome result (λ _. (q : K) → lookup (is_at (K.cmp q)) tree.new.entries ≡ cond (is_at (K.cmp key.now) q) (Some value) (lookup (is_at (K.cmp q)) tree.old.entries)) }
{
    let place = tree.get_mut(key)?;
    let old = *place;
    *place = value;
    Some(old)
}

/// Puts a value where there is memory for it.
fn insert_in<K: Ord + Drop, V: Copy + Drop>(
    tree: &mut BTreeMap<K, V>,
    key: K,
    value: V,
) -> Result<Option<V>, AllocError>
    ensures old { IfOk result (λ old. old ≡ lookup (is_at (K.cmp key)) tree.old.entries) }
    ensures entries { OnOk result (tree.new.entries ≡ insert_entry K.cmp tree.old.entries key value) }
    ensures updates { OnOk result ((q : K) → lookup (is_at (K.cmp q)) tree.new.entries ≡ cond (is_at (K.cmp key) q) (Some value) (lookup (is_at (K.cmp q)) tree.old.entries)) }
    ensures absent { OnErr result (lookup (is_at (K.cmp key)) tree.old.entries ≡ None) }
    ensures err { OnErr result (tree.new.entries ≡ tree.old.entries) }
{
    match tree.insert(key, value) {
        Ok(old) => Ok(old),
        Err(refused) => {
            drop(refused);
            Err(AllocError)
        }
    }
}

impl<K: Hash + Ord + Copy + Drop, V: Copy + Drop> HashedTree<K, V> {
    /// No key has a value.
    pub fn new(alloc: Global) -> HashedTree<K, V>
        ensures { result ≡ [] }
    {
        HashedTree {
            tree: BTreeMap::new(alloc),
            builder: BuildHasherDefault::new(),
        }
    }

    /// Whether no key has a value.
    pub fn is_empty(&self) -> bool
        ensures { IsTrue result → self.now ≡ [] }
    {
        self.tree.is_empty()
    }

    /// The value of a key.
    pub fn get(&self, key: &K) -> Option<&V>
        ensures { option_copied result ≡ lookup (K.eq key.now) self.now }
    {
        let hashed = with_hash(&self.builder, *key);
        self.tree.get(&hashed)
    }

    /// The key has this value, where there is memory for it.
    pub fn insert(&mut self, key: K, value: V) -> Result<Option<V>, AllocError>
        ensures old { IfOk result (λ old. old ≡ lookup (K.eq key) self.old) }
        ensures updates { OnOk result ((q : K) → lookup (K.eq q) self.new ≡ cond (K.eq key q) (Some value) (lookup (K.eq q) self.old)) }
        ensures absent { OnErr result (lookup (K.eq key) self.old ≡ None) }
        ensures err { OnErr result (self.new ≡ self.old) }
    {
        let hashed = with_hash(&self.builder, key);
        let old = insert_in(&mut self.tree, hashed, value)?;
        Ok(old)
    }

    /// The key has this value, if it has one.
    pub fn replace(&mut self, key: &K, value: V) -> Option<V>
        ensures old { result ≡ lookup (K.eq key.now) self.old }
        ensures updates { (q : K) → lookup (K.eq q) self.new ≡ cond (is_some result && K.eq key.now q) (Some value) (lookup (K.eq q) self.old) }
    {
        let hashed = with_hash(&self.builder, *key);
        let old = replace_in(&mut self.tree, &hashed, value)?;
        Some(old)
    }

    /// The key has no value.
    pub fn remove(&mut self, key: &K) -> Option<V>
        ensures old { result ≡ lookup (K.eq key.now) self.old }
        ensures updates { (q : K) → lookup (K.eq q) self.new ≡ cond (K.eq key.now q) None (lookup (K.eq q) self.old) }
    {
        let hashed = with_hash(&self.builder, *key);
        self.tree.remove(&hashed)
    }
}
