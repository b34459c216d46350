//! Keys of requests.
ghost use Rattle.std.specs.Prelude.{◌≡◌, ◌≤◌, length};
ghost use Rattle.card_digits.specs.Numbers.{pad11};

use crate::words::same_bytes;
use std::hash::{Hash, Hasher};

/// What a request is known by in every node: ASCII digits of its acquiring institution (ISO 8583, element 32, padded to
/// eleven digits), its trace number (element 11) and its transmission date and time (element 7).
#[derive(Clone, Copy, Debug, PartialOrd, Ord)]
pub struct Key {
    pub acquirer: [u8; 11],
    pub trace: [u8; 6],
    pub time: [u8; 10],
}

// Arrays of these lengths are compared as words.
impl PartialEq for Key {
    ghost use Rattle.std.specs.Prelude.{◌==◌, ◌&&◌};
    ghost use Rattle.std.specs.Cmp.Lexicographic.{pointwise};
    ghost use Rattle.std.proofs.Common.{rules};
    ghost use Rattle.std.specs.Cmp.Rules.{comparing};

    ghost eq = { λ a b. pointwise ◌==◌ a.acquirer b.acquirer && (pointwise ◌==◌ a.trace b.trace && pointwise ◌==◌ a.time b.time) };

    ghost laws = { Prim.search (comparing, rules) };

    fn eq(&self, other: &Key) -> bool {
        let acquirer = same_bytes(&self.acquirer, &other.acquirer);
        acquirer && same_bytes(&self.trace, &other.trace) && same_bytes(&self.time, &other.time)
    }
}

impl Eq for Key {
    ghost use Rattle.std.proofs.Common.{rules};
    ghost use Rattle.std.specs.Cmp.Rules.{comparing};

    ghost laws = { Prim.search (comparing, rules) };
}

// An array's own hash goes byte by byte.
impl Hash for Key {
    ghost use Rattle.std.specs.Prelude.{[], ◌∷◌};
    ghost use Rattle.std.proofs.Common.{rules};
    ghost use Rattle.std.specs.Cmp.Rules.{hashing};

    ghost hash_input = { λ k. k.acquirer ∷ k.trace ∷ k.time ∷ [] };

    ghost respects_eq = { Prim.search (hashing, rules) };

    fn hash<H: Hasher>(&self, state: &mut H) {
        state.write(&self.acquirer);
        state.write(&self.trace);
        state.write(&self.time);
    }
}

/// An institution's id of at most eleven ASCII digits, with zeros on the left.
pub fn pad11(text: &[u8]) -> [u8; 11]
    requires { length text.now ≤ 11 }
    ensures { result ≡ pad11 text.now }
{
    let mut padded = [b'0'; 11];
    let start = 11 - text.len();
    padded[start..].copy_from_slice(text);
    padded
}
