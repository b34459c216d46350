//! Few digits compared by their last word.
ghost use Rattle.std.specs.Prelude.{◌≡◌, ◌==◌, false};
ghost use Rattle.std.specs.Cmp.Lexicographic.{pointwise};

/// Whether there are as many digits and the last eight are the same, or the last four of fewer. Others than these may differ nevertheless, and prefixes that are
/// met on one walk mostly differ in their last digits.
#[inline(always)]
pub(crate) fn end_alike(digits: &[u8], others: &[u8]) -> bool
    ensures { result ≡ false → pointwise ◌==◌ digits.now others.now ≡ false }
{
    if digits.len() != others.len() {
        return false;
    }
    if let (Some(end), Some(other)) = (digits.last_chunk::<8>(), others.last_chunk::<8>()) {
        return u64::from_le_bytes(*end) == u64::from_le_bytes(*other);
    }
    if let (Some(end), Some(other)) = (digits.last_chunk::<4>(), others.last_chunk::<4>()) {
        return u32::from_le_bytes(*end) == u32::from_le_bytes(*other);
    }
    true
}
