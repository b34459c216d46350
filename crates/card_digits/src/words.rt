//! Few bytes compared by words.
ghost use Rattle.std.specs.Prelude.{◌≡◌, ◌≤◌, ◌+◌, ◌==◌, length};
ghost use Rattle.std.specs.Ordering.{nat_cmp};
ghost use Rattle.std.specs.Cmp.Lexicographic.{pointwise, slice_cmp};

use std::cmp::Ordering;

/// Whether two texts of one length are the same, of as many bytes as one word has or up to twice as many: by their first word and
/// their last one.
#[inline(always)]
fn same_ends<const W: usize>(bytes: &[u8], others: &[u8]) -> bool
    requires least { W ≤ length bytes.now }
    requires most { length bytes.now ≤ W + W }
    requires lengths { length others.now ≡ length bytes.now }
    ensures { result ≡ pointwise ◌==◌ bytes.now others.now }
{
    let (Some(first), Some(last)) = (bytes.first_chunk::<W>(), bytes.last_chunk::<W>()) else {
        return bytes == others;
    };
    let (Some(other_first), Some(other_last)) = (
        others.first_chunk::<W>(),
        others.last_chunk::<W>(),
    ) else {
        return bytes == others;
    };
    let same_front = first == other_first;
    let same_end = last == other_last;
    same_front & same_end
}

/// Whether two texts are the same. Those of four to sixteen bytes are compared as two words.
#[inline(always)]
pub fn same_bytes(bytes: &[u8], others: &[u8]) -> bool
    ensures { result ≡ pointwise ◌==◌ bytes.now others.now }
{
    let len = bytes.len();
    if len != others.len() {
        return false;
    }
    if 8 <= len && len <= 16 {
        return same_ends::<8>(bytes, others);
    }
    if 4 <= len && len <= 8 {
        return same_ends::<4>(bytes, others);
    }
    bytes == others
}

/// How two texts of eight bytes are ordered: as the numbers that they write, the first byte the highest.
#[inline(always)]
fn order_of_words(word: [u8; 8], other: [u8; 8]) -> Ordering
    ensures { result ≡ slice_cmp nat_cmp word other }
{
    u64::from_be_bytes(word).cmp(&u64::from_be_bytes(other))
}

/// How two texts of one length are ordered, of eight to sixteen bytes: by their first eight bytes, and where these are the same by their
/// last eight.
#[inline(always)]
fn order_of_ends(bytes: &[u8], others: &[u8]) -> Ordering
    requires least { 8 ≤ length bytes.now }
    requires most { length bytes.now ≤ 16 }
    requires lengths { length others.now ≡ length bytes.now }
    ensures { result ≡ slice_cmp nat_cmp bytes.now others.now }
{
    let (Some(first), Some(last)) = (bytes.first_chunk::<8>(), bytes.last_chunk::<8>()) else {
        return bytes.cmp(others);
    };
    let (Some(other_first), Some(other_last)) = (
        others.first_chunk::<8>(),
        others.last_chunk::<8>(),
    ) else {
        return bytes.cmp(others);
    };
    order_of_words(*first, *other_first).then(order_of_words(*last, *other_last))
}

/// How two texts are ordered: by the first byte that differs, and without one by their lengths. Two of one length, of eight to sixteen
/// bytes, are compared as two numbers each.
#[inline(always)]
pub fn order_of_bytes(bytes: &[u8], others: &[u8]) -> Ordering
    ensures { result ≡ slice_cmp nat_cmp bytes.now others.now }
{
    let len = bytes.len();
    if len == others.len() && 8 <= len && len <= 16 {
        return order_of_ends(bytes, others);
    }
    bytes.cmp(others)
}
