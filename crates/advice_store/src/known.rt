//! The identities that are known.
ghost use Rattle.std.specs.Prelude.{◌≡◌, ◌≤◌, ◌+◌, ◌∷◌, ◌++◌, [], OnOk, IfOk};
ghost use Rattle.node_machine.specs.Lists.{is_among};

use crowded_map::CrowdedSet;
use message_keys::AdviceId;
use std::alloc::{AllocError, Global};
use std::marker::Model;

/// Identities in the order in which they came.
#[derive(Drop)]
pub(crate) struct KnownIds {
    list: Vec<AdviceId>,
    set: CrowdedSet<AdviceId>,
}

impl Model for KnownIds {
    ghost use Rattle.std.specs.Prelude.{vec_len, vec_capacity, min, ◌-◌};
    ghost use Rattle.crowded_map.specs.Sets.{spare};
    ghost use Rattle.advice_store.specs.Books.{AreKnown, KnownView};

    ghost Value = { KnownView };

    ghost view = { λ k. record { ids = k.list.items; room = min (vec_capacity k.list - vec_len k.list) (spare k.set) } };

    ghost invariant = { λ k. AreKnown k.set.keys k.list.items };
}

impl KnownIds {
    /// No identity is known.
    pub fn new(alloc: Global) -> KnownIds
        ensures { result.ids ≡ [] }
    {
        KnownIds {
            list: Vec::new(alloc),
            set: CrowdedSet::new(alloc),
        }
    }

    /// The next n identities need no memory. Where it is refused, the next one may need some.
    pub fn reserve(&mut self, n: usize) -> Result<(), AllocError>
        ensures same { self.new.ids ≡ self.old.ids }
        ensures ok { OnOk result (n ≤ self.new.room) }
    {
        self.list.reserve(n)?;
        self.set.reserve(n)
    }

    /// Whether the identity is among them. One look-up.
    pub fn contains(&self, id: AdviceId) -> bool
        ensures { result ≡ is_among id self.now.ids }
    {
        self.set.contains(&id)
    }

    /// An identity more.
    pub fn insert(&mut self, id: AdviceId)
        requires { 1 ≤ self.old.room }
        ensures ids { self.new.ids ≡ self.old.ids ++ id ∷ [] }
        ensures room { self.old.room ≤ self.new.room + 1 }
    {
        self.list.push_reserved(id);
        self.set.insert(id);
    }
}
