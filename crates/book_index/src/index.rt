//! The places of keys.
ghost use Rattle.std.specs.Prelude.{◌≡◌, ◌≤◌, ◌+◌, OnOk};
ghost use Rattle.crowded_map.specs.Values.{spare};
ghost use Rattle.book_index.specs.Found.{ChangesPlace, found, joined};

use crowded_map::CrowdedMap;
use std::alloc::{AllocError, Global};
use std::hash::Hash;

/// Where the items of a key stand in a list.
#[derive(Clone, Copy, Debug, PartialEq, Eq)]
pub enum Place {
    Nowhere,
    At(usize),
    /// At more places than one, so that whoever looks for them walks the list.
    Several,
}

/// The places of keys in a list.
#[derive(Drop)]
pub struct PlaceIndex<K: Eq + Hash + Ord> {
    pub places: CrowdedMap<K, Place>,
}

impl<K: Eq + Hash + Ord + Copy + Drop> PlaceIndex<K> {
    /// No key has a place.
    pub fn new(alloc: Global) -> PlaceIndex<K>
        ensures { (k : K) → found (K.eq k) result.places.entries ≡ Place.Nowhere }
    {
        PlaceIndex {
            places: CrowdedMap::new(alloc),
        }
    }

    /// The next n keys need no memory.
    pub fn reserve(&mut self, n: usize) -> Result<(), AllocError>
        ensures found { (k : K) → found (K.eq k) self.new.places.entries ≡ found (K.eq k) self.old.places.entries }
        ensures room { OnOk result (n ≤ spare self.new.places) }
    {
        self.places.reserve(n)
    }

    /// What is known of a key.
    pub fn find(&self, key: &K) -> Place
        ensures { result ≡ found (K.eq key.now) self.now.places.entries }
    {
        match self.places.get(key) {
            Some(place) => *place,
            None => Place::Nowhere,
        }
    }

    /// The key has this place too.
    pub fn add(&mut self, key: K, place: usize)
        requires { 1 ≤ spare self.old.places }
        ensures found { ChangesPlace K.eq key (λ known. joined known place) self.old.places.entries self.new.places.entries }
        ensures room { spare self.old.places ≤ spare self.new.places + 1 }
    {
        let joined = match self.find(&key) {
            Place::Nowhere => Place::At(place),
            _ => Place::Several,
        };
        let _ = self.places.insert(key, joined);
    }

    /// The key has no place.
    pub fn remove(&mut self, key: &K)
        ensures found { ChangesPlace K.eq key.now (λ _. Place.Nowhere) self.old.places.entries self.new.places.entries }
        ensures room { spare self.old.places ≤ spare self.new.places }
    {
        let _ = self.places.remove(key);
    }
}
