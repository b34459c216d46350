//! A few small numbers kept in place.
ghost use Rattle.std.specs.Prelude.{◌≡◌, ◌≤◌, ◌<◌, length, true};
ghost use Rattle.std.specs.Char.{is_ascii_digit};
ghost use Rattle.std.specs.List.{list_all};
ghost use Rattle.card_digits.specs.Digits.{digits_of};

use crate::words::{order_of_bytes, same_bytes};
use std::cmp::Ordering;
use std::hash::{Hash, Hasher};
use std::marker::Model;

/// At most `N` bytes, kept in place; `N` is at most 255, so that one more byte says how many there are.
#[derive(Clone, Copy, Debug)]
pub struct ShortBytes<const N: usize> {
    bytes: [u8; N],
    len: u8,
}

impl<const N: usize> Model for ShortBytes<N> {
    ghost use Rattle.std.specs.Prelude.{◌-◌, ℕ, List, ◌++◌, length, take, replicate};
    ghost use Rattle.card_digits.specs.Digits.{IsPadded};

    ghost Value = { List ℕ };

    ghost view = { λ a. take a.len a.bytes };

    ghost invariant = { λ a. IsPadded N a.len a.bytes };

    ghost inverse = { λ bs. record { bytes = bs ++ replicate (N - length bs) 0; len = length bs } };

    ghost use Rattle.card_digits.specs.PaddedBack.{padded_again};

    ghost inverse_ok = { λ a h. padded_again N a h };
}

impl<const N: usize> ShortBytes<N> {
    /// A copy of the bytes.
    pub fn from_slice(text: &[u8]) -> ShortBytes<N>
        requires fits { length text.now ≤ N }
        requires short { N < 256 }
        ensures { result ≡ text.now }
    {
        let mut bytes = [0; N];
        bytes[..text.len()].copy_from_slice(text);
        ShortBytes {
            bytes,
            len: text.len() as u8,
        }
    }

    /// The numbers that ASCII digits write.
    pub fn from_digits(text: &[u8]) -> ShortBytes<N>
        requires fits { length text.now ≤ N }
        requires short { N < 256 }
        requires digits { list_all is_ascii_digit text.now ≡ true }
        ensures { result ≡ digits_of text.now }
    {
        let mut bytes = [0; N];
        for (i, byte) in text.iter().enumerate() {
            bytes[i] = *byte - b'0';
        }
        ShortBytes {
            bytes,
            len: text.len() as u8,
        }
    }

    /// The bytes in order.
    pub fn as_slice(&self) -> &[u8]
        ensures { result.now ≡ self.now }
    {
        &self.bytes[..self.len as usize]
    }
}

impl<const N: usize> PartialEq for ShortBytes<N> {
    ghost use Rattle.std.specs.Prelude.{◌==◌};
    ghost use Rattle.std.specs.Cmp.Lexicographic.{pointwise};
    ghost use Rattle.std.proofs.Common.{rules};
    ghost use Rattle.std.specs.Cmp.Rules.{comparing};

    ghost eq = { pointwise ◌==◌ };

    ghost laws = { Prim.search (comparing, rules) };

    // All of the array at once: its length is known when the program is built, and what is not used is zero.
    fn eq(&self, other: &ShortBytes<N>) -> bool {
        self.len == other.len && same_bytes(&self.bytes, &other.bytes)
    }
}

impl<const N: usize> Eq for ShortBytes<N> {
    ghost use Rattle.std.proofs.Common.{rules};
    ghost use Rattle.std.specs.Cmp.Rules.{comparing};

    ghost laws = { Prim.search (comparing, rules) };
}

// The bytes at once, and not one by one.
impl<const N: usize> Hash for ShortBytes<N> {
    ghost use Rattle.std.specs.Prelude.{[], ◌∷◌};
    ghost use Rattle.std.proofs.Common.{rules};
    ghost use Rattle.std.specs.Cmp.Rules.{hashing};

    ghost hash_input = { λ bs. bs ∷ [] };

    ghost respects_eq = { Prim.search (hashing, rules) };

    fn hash<H: Hasher>(&self, state: &mut H) {
        state.write(self.as_slice());
    }
}

impl<const N: usize> Ord for ShortBytes<N> {
    ghost use Rattle.std.specs.Ordering.{nat_cmp};
    ghost use Rattle.std.specs.Cmp.Lexicographic.{slice_cmp};
    ghost use Rattle.std.proofs.Common.{rules};
    ghost use Rattle.std.specs.Cmp.Rules.{comparing};

    ghost cmp = { slice_cmp nat_cmp };

    ghost total = { Prim.search (comparing, rules) };

    ghost matches_partial_cmp = { Prim.search (comparing, rules) };

    ghost matches_eq = { Prim.search (comparing, rules) };

    // The arrays decide, as what is not used is zero, and where they are the same the number of bytes.
    fn cmp(&self, other: &ShortBytes<N>) -> Ordering {
        order_of_bytes(&self.bytes, &other.bytes).then(self.len.cmp(&other.len))
    }
}

impl<const N: usize> PartialOrd for ShortBytes<N> {
    ghost use Rattle.std.specs.Ordering.{nat_cmp, as_partial_cmp};
    ghost use Rattle.std.specs.Cmp.Lexicographic.{slice_cmp};
    ghost use Rattle.std.specs.Cmp.{partial_order_from_own_ties};
    ghost use Rattle.std.proofs.Common.{rules};
    ghost use Rattle.std.specs.Cmp.Rules.{comparing};

    ghost partial_cmp = { as_partial_cmp (slice_cmp nat_cmp) };

    ghost laws = { partial_order_from_own_ties (Prim.search (comparing, rules)) (Prim.search (comparing, rules)) };

    fn partial_cmp(&self, other: &ShortBytes<N>) -> Option<Ordering> {
        Some(self.cmp(other))
    }
}

/// Whether each byte is an ASCII digit.
pub fn all_digits(text: &[u8]) -> bool
    ensures { result ≡ list_all is_ascii_digit text.now }
{
    text.iter().all(|byte| byte.is_ascii_digit())
}
