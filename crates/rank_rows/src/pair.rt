//! Pairs of a name and a prefix.
use card_digits::{Name, Prefix};
use std::hash::{Hash, Hasher};

/// What a row is found by.
#[derive(Clone, Copy, Debug, PartialOrd, Ord)]
pub(crate) struct Pair {
    pub node: Name,
    pub prefix: Prefix,
}

impl PartialEq for Pair {
    ghost use Rattle.rank_rows.specs.Apart.{is_same_pair};
    ghost use Rattle.std.proofs.Common.{rules};
    ghost use Rattle.std.specs.Cmp.Rules.{comparing};

    ghost eq = { is_same_pair };

    ghost laws = { Prim.search (comparing, rules) };

    fn eq(&self, other: &Pair) -> bool {
        self.node == other.node && self.prefix == other.prefix
    }
}

impl Eq for Pair {
    ghost use Rattle.std.proofs.Common.{rules};
    ghost use Rattle.std.specs.Cmp.Rules.{comparing};

    ghost laws = { Prim.search (comparing, rules) };
}

// The letters at once and the digits at once.
impl Hash for Pair {
    ghost use Rattle.std.specs.Prelude.{[], ◌∷◌};
    ghost use Rattle.std.proofs.Common.{rules};
    ghost use Rattle.std.specs.Cmp.Rules.{hashing};

    ghost hash_input = { λ p. p.node ∷ p.prefix ∷ [] };

    ghost respects_eq = { Prim.search (hashing, rules) };

    fn hash<H: Hasher>(&self, state: &mut H) {
        state.write(self.node.as_slice());
        state.write(self.prefix.digits());
    }
}

/// The rank that a pair has, and where its row stands.
#[derive(Clone, Copy, Debug)]
pub(crate) struct Found {
    pub rank: u16,
    pub place: usize,
}
