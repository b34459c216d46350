//! What a session waits for, and what it was told of.

use card_digits::Key;
use net_threads::{hash_behind, hash_of};
use std::sync::atomic::{AtomicU64, Ordering};

/// What a session waits for, and what it was told of. Count and newest change under the lock of the station of its node alone.
#[derive(Drop)]
pub struct Awaited {
    /// The hash of the key of its line, which only saves looks: whoever looks compares the answer itself.
    hash: AtomicU64,
    /// How many answers it was told of.
    count: AtomicU64,
    /// The place of the entry with the newest of them.
    newest: AtomicU64,
}

impl Awaited {
    /// It waits for nothing, and was told of nothing.
    pub fn nothing() -> Awaited {
        Awaited {
            hash: AtomicU64::new(0),
            count: AtomicU64::new(0),
            newest: AtomicU64::new(0),
        }
    }

    /// It waits for an answer with this key from here on.
    pub fn begin(&self, key: &Key) {
        self.hash.store(key_hash(key), Ordering::SeqCst);
    }

    /// It is told of an answer in the entry at this place. Called with the lock of the station of its node held.
    pub(crate) fn add(&self, place: u64) {
        self.newest.store(place, Ordering::SeqCst);
        self.count.fetch_add(1, Ordering::SeqCst);
    }

    /// How many answers it was told of.
    pub fn count(&self) -> u64 {
        self.count.load(Ordering::SeqCst)
    }

    /// The place of the entry with the newest of them.
    pub fn newest(&self) -> u64 {
        self.newest.load(Ordering::SeqCst)
    }

    /// Whether an answer with this key may be the one that it waits for. One whose key can't be read may be anybody's.
    pub(crate) fn may_be(&self, hash: Option<u64>) -> bool {
        hash.is_none() || hash == Some(self.hash.load(Ordering::SeqCst))
    }
}

/// The hash of a key.
pub(crate) fn key_hash(key: &Key) -> u64 {
    let hash = hash_of(key.time.as_slice());
    let hash = hash_behind(hash, key.trace.as_slice());
    hash_behind(hash, key.acquirer.as_slice())
}
