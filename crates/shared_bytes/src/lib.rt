//! Bytes that several owners hold.
#![tactic(auto)]

ghost use Rattle.std.specs.Prelude.{◌≡◌, Some, IfOk, OnErr};

use smallvec::SmallVec;
use std::alloc::{AllocError, Global};
use std::marker::Model;
use std::sync::Arc;

/// How many bytes stand beside the count of their owners, in one piece of memory. Requests and responses without rarer elements have no more.
/// Longer bytes stand apart, and the piece of memory is as large for them.
const MOST_BESIDE: usize = 112;

/// Bytes that never change, and that several owners hold, in any threads. Contracts see the list of them.
///
/// Another owner costs a count and no memory. A message that one node puts on a link and another takes from it, and that the books of
/// both keep, so stands in memory once.
#[derive(Drop)]
pub struct SharedBytes {
    items: Arc<SmallVec<u8, MOST_BESIDE>>,
    alloc: Global,
}

impl Model for SharedBytes {
    ghost use Rattle.std.specs.Prelude.{ℕ, List};

    ghost Value = { List ℕ };

    ghost view = { λ b. b.items.value.items };
}

impl SharedBytes {
    /// A copy of these bytes, with one owner.
    pub fn from_slice(alloc: Global, bytes: &[u8]) -> Result<SharedBytes, AllocError>
        ensures { IfOk result (λ b. b ≡ bytes.now) }
    {
        let items = SmallVec::from_slice(alloc, bytes)?;
        match Arc::new(alloc, items) {
            Ok(items) => Ok(SharedBytes { items, alloc }),
            Err(_) => Err(AllocError),
        }
    }

    /// These bytes, with one owner.
    pub fn from_vec(alloc: Global, bytes: Vec<u8>) -> Result<SharedBytes, AllocError>
        ensures { IfOk result (λ b. b ≡ bytes.items) }
    {
        // Few bytes are copied beside the count of their owners, and the memory that they had is given back.
        SharedBytes::from_slice(alloc, &bytes)
    }

    /// One owner more of the same bytes. It is refused only where there are as many owners as can be counted.
    pub fn share(&self) -> Result<SharedBytes, AllocError>
        ensures { IfOk result (λ b. b ≡ self.now) }
    {
        let items = self.items.clone()?;
        Ok(SharedBytes {
            items,
            alloc: self.alloc,
        })
    }

    /// These bytes, which are at hand afterwards: with one owner more where they were at hand before, and else in memory of their own.
    /// Where that is refused, what was at hand still is.
    pub fn at_hand_or_copy(
        alloc: Global,
        at_hand: &mut Option<SharedBytes>,
        bytes: &[u8],
    ) -> Result<SharedBytes, AllocError>
        ensures bytes { IfOk result (λ b. b ≡ bytes.now) }
        ensures at_hand { IfOk result (λ b. at_hand.new ≡ Some b) }
        ensures refused { OnErr result (at_hand.new ≡ at_hand.old) }
    {
        if let Some(held) = at_hand {
            if held.as_slice() == bytes {
                return held.share();
            }
        }
        let copy = SharedBytes::from_slice(alloc, bytes)?;
        let held = copy.share()?;
        *at_hand = Some(held);
        Ok(copy)
    }

    /// The bytes.
    pub fn as_slice(&self) -> &[u8]
        ensures { result.now ≡ self.now }
    {
        self.items.as_slice()
    }

    /// What their memory comes from.
    pub fn alloc(&self) -> Global {
        self.alloc
    }
}
