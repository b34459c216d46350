//! The keys of which a reversal was accepted.
ghost use Rattle.std.specs.Prelude.{◌≡◌, ◌-◌, ◌<◌, [], ◌∷◌, ◌++◌, OnOk};
ghost use Rattle.node_machine.specs.Lists.{is_marked, left_marks};
ghost use Rattle.pending_book.specs.NodeKept.{at_most};

use card_digits::{Amount, Key};
use crowded_map::CrowdedMap;
use std::alloc::{AllocError, Global};
use std::marker::Model;

/// A key of which a reversal was accepted, and the actual amount of that, which is 0 for a whole one.
#[derive(Drop)]
pub struct Mark {
    key: Key,
    actual: Amount,
}

impl Model for Mark {
    ghost use Rattle.node_machine.specs.Lists.{Mark};

    ghost Value = { Mark };

    ghost view = { λ j. record { key = j.key; actual = j.actual } };
}

impl Mark {
    /// A reversal of the key was accepted, which leaves this actual amount; 0 where it takes all back.
    pub fn new(key: Key, actual: Amount) -> Mark
        ensures { result ≡ record { key = key; actual = actual } }
    {
        Mark { key, actual }
    }

    /// The key that was reversed.
    pub fn key(&self) -> Key
        ensures { result ≡ self.now.key }
    {
        self.key
    }

    /// The amount that the reversal leaves, 0 where it takes all back.
    pub fn actual(&self) -> Amount
        ensures { result ≡ self.now.actual }
    {
        self.actual
    }
}

/// The marks, the oldest first, and the least actual amount of each key's.
#[derive(Drop)]
pub(crate) struct Marks {
    list: Vec<Mark>,
    least: CrowdedMap<Key, Amount>,
    room: usize,
}

impl Model for Marks {
    ghost use Rattle.std.specs.Prelude.{◌+◌, ◌≤◌, vec_len, vec_capacity};
    ghost use Rattle.crowded_map.specs.Values.{spare};
    ghost use Rattle.pending_book.specs.NodeKept.{MarksView, AreLeast};

    ghost Value = { MarksView };

    ghost view = { λ b. record { marks = b.list.items; room = b.room } };

    ghost invariant = { λ b. AreLeast b.list.items b.least.entries × (vec_len b.list + b.room ≤ vec_capacity b.list) × (b.room ≤ spare b.least) };
}

/// No more of an amount than what is kept.
fn at_most(kept: Option<Amount>, amount: Amount) -> Amount
    ensures { result ≡ at_most kept amount }
{
    match kept {
        Some(least) => {
            if least.value() < amount.value() {
                least
            } else {
                amount
            }
        }
        None => amount,
    }
}

impl Marks {
    /// No key was reversed yet.
    #[tactic(auto, using(crate::proofs::Least::no_marks))]
    pub fn new(alloc: Global) -> Marks
        ensures { result ≡ record { marks = []; room = 0 } }
    {
        Marks {
            list: Vec::new(alloc),
            least: CrowdedMap::new(alloc),
            room: 0,
        }
    }

    /// The next n marks need no memory.
    pub fn reserve(&mut self, n: usize) -> Result<(), AllocError>
        ensures marks { self.new.marks ≡ self.old.marks }
        ensures ok { OnOk result (self.new.room ≡ n) }
    {
        self.room = 0;
        self.list.reserve(n)?;
        self.least.reserve(n)?;
        self.room = n;
        Ok(())
    }

    /// A reversal was accepted. No memory is asked for.
    pub fn mark(&mut self, mark: Mark)
        requires { 0 < self.old.room }
        ensures { self.new ≡ record { marks = self.old.marks ++ mark ∷ []; room = self.old.room - 1 } }
    {
        let key = mark.key();
        let least = at_most(self.least.get(&key).copied(), mark.actual());
        let _ = self.least.insert(key, least);
        self.list.push_reserved(mark);
        self.room -= 1;
    }

    /// The marks of all accepted reversals, the oldest first.
    pub fn list(&self) -> &[Mark]
        ensures { result.now ≡ self.now.marks }
    {
        self.list.as_slice()
    }

    /// Whether a reversal of the key was accepted.
    pub fn is_marked(&self, key: Key) -> bool
        ensures { result ≡ is_marked key self.now.marks }
    {
        // Most nodes have no marks, and then no key is hashed.
        !self.list.is_empty() && self.least.contains_key(&key)
    }

    /// What the marks leave of an amount that a key took.
    pub fn left_of(&self, key: Key, amount: Amount) -> Amount
        ensures { result ≡ left_marks key self.now.marks amount }
    {
        at_most(self.least.get(&key).copied(), amount)
    }
}
