//! Bytes cut in two.
ghost use Rattle.std.specs.Prelude.{◌≡◌, ◌==◌, false, MatchOption, All};
ghost use Rattle.card_digits.specs.Cut.{IsCut};

use memchr::memchr;

/// What stands before the first such byte, and what stands behind it.
#[inline]
pub fn cut(bytes: &[u8], end: u8) -> Option<(&[u8], &[u8])>
    ensures { MatchOption result (All (λ b. (b == end) ≡ false) bytes.now) (λ p. IsCut end bytes.now p.0.now p.1.now) }
{
    let i = memchr(end, bytes)?;
    Some((&bytes[..i], &bytes[i + 1..]))
}
