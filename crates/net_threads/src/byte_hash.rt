//! Hashes of bytes (FNV-1a of 64 bits), which only save looks: whoever finds by them compares the bytes too.

/// The hash of no bytes.
const OF_NOTHING: u64 = 0xcbf2_9ce4_8422_2325;

/// The hash of bytes.
#[inline]
pub fn hash_of(bytes: &[u8]) -> u64 {
    hash_behind(OF_NOTHING, bytes)
}

/// The hash of bytes behind others, whose hash is given.
#[inline]
pub fn hash_behind(hash: u64, bytes: &[u8]) -> u64 {
    let mut hash = hash;
    for byte in bytes {
        hash = (hash ^ *byte as u64).wrapping_mul(0x0000_0100_0000_01b3);
    }
    hash
}
