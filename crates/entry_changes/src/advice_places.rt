//! The places of changes that say something of an advice.
ghost use Rattle.std.specs.Prelude.{◌≡◌, ◌≤◌, OnOk};
ghost use Rattle.crowded_map.specs.Values.{spare};
ghost use Rattle.message_keys.specs.Keys.{identity_eq};
ghost use Rattle.book_index.specs.Found.{ChangesPlace, found, joined};

use book_index::{Place, PlaceIndex};
use message_keys::AdviceId;
use std::alloc::{AllocError, Global};

/// The places of advices, by their identities.
#[derive(Drop)]
pub(crate) struct AdvicePlaces {
    pub index: PlaceIndex<AdviceId>,
}

impl AdvicePlaces {
    /// No advice has a place.
    pub fn new(alloc: Global) -> AdvicePlaces
        ensures { (k : AdviceId) → found (identity_eq k) result.index.places.entries ≡ Place.Nowhere }
    {
        AdvicePlaces {
            index: PlaceIndex::new(alloc),
        }
    }

    /// The next place needs no memory.
    pub fn reserve(&mut self) -> Result<(), AllocError>
        ensures found { (k : AdviceId) → found (identity_eq k) self.new.index.places.entries ≡ found (identity_eq k) self.old.index.places.entries }
        ensures room { OnOk result (1 ≤ spare self.new.index.places) }
    {
        self.index.reserve(1)
    }

    /// What is known of an advice.
    pub fn find(&self, id: AdviceId) -> Place
        ensures { result ≡ found (identity_eq id) self.now.index.places.entries }
    {
        self.index.find(&id)
    }

    /// The advice has this place too.
    pub fn add(&mut self, id: AdviceId, place: usize)
        requires { 1 ≤ spare self.old.index.places }
        ensures { ChangesPlace identity_eq id (λ known. joined known place) self.old.index.places.entries self.new.index.places.entries }
    {
        self.index.add(id, place);
    }
}
