//! Whole numbers of digits alone.
ghost use Rattle.std.specs.Prelude.{◌≡◌, ℕ, ◌<◌, ◌≤◌, ◌^◌, ◌==◌, ◌||◌, not, length, take, slice_index, Some, IfSome};
ghost use Rattle.std.specs.List.{prefix_len};
ghost use Rattle.std.specs.Char.{is_ascii_digit};
ghost use Rattle.std.specs.Str.Parse.{AllDigits, digits_value};
ghost use Rattle.toml.specs.Data.{integer};
ghost use Rattle.toml.specs.Parse as spec;

use toml_parser::text::{byte_at, first, skip};

/// One more digit makes no number that is too large.
const MOST_BEFORE_LAST: u64 = 99_999_999_999_999_999;

/// The number that the digits at the front write, and how many they are. None of a number that is too large for
/// eighteen digits.
fn front_digits(bytes: &[u8]) -> Option<(u64, usize)>
    ensures len { IfSome result (λ p. p.1 ≡ prefix_len is_ascii_digit bytes.now) }
    ensures digits { IfSome result (λ p. AllDigits 10 (take p.1 bytes.now)) }
    ensures value { IfSome result (λ p. p.0 ≡ digits_value 10 (take p.1 bytes.now)) }
    ensures within { IfSome result (λ p. p.1 ≤ length bytes.now) }
    ensures small { IfSome result (λ p. p.0 < 10 ^ 18) }
{
    let mut value = 0u64;
    for at in 0..bytes.len() {
        let byte = bytes[at];
        if !byte.is_ascii_digit() {
            return Some((value, at));
        }
        if value > MOST_BEFORE_LAST {
            return None;
        }
        value = value * 10 + (byte - b'0') as u64;
    }
    Some((value, bytes.len()))
}

/// Whether no 0 stands before another of so many digits.
#[inline]
fn is_spelled(s: &str, len: usize) -> bool
    ensures { result ≡ (len == 1 || not (slice_index s.now 0 == 48)) }
{
    len == 1 || first(s) != b'0'
}

/// The number that digits write, as a value, and what follows them. None where no control character or end follows, as after a sign, a point
/// or an underscore, and where a 0 stands before another digit.
pub(crate) fn digits_alone(s: &str) -> Option<(i64, &str)>
    ensures value { IfSome result (λ p. (depth : ℕ) → spec.val depth s.now ≡ Some (integer p.0, p.1.now)) }
    ensures shorter { IfSome result (λ p. length p.1.now < length s.now) }
{
    let (number, len) = front_digits(s.as_bytes())?;
    if len == 0 || !is_spelled(s, len) || byte_at(s, len) >= b' ' {
        return None;
    }
    Some((number as i64, skip(s, len)))
}
