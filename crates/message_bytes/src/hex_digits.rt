//! Eight bytes as sixteen hexadecimal digits, all of them at once.
ghost use Rattle.std.specs.Prelude.{◌≡◌, ℕ, ◌/◌, ◌%◌, ◌<◌, length, map, slice_index, IfSome, Ok};
ghost use Rattle.std.specs.List.{AllByRecursion};
ghost use Rattle.hex.specs.Hex.{decode_sized, encode_upper, upper_digits};
ghost use Rattle.message_bytes.specs.HexDigits.{digit_value};

use std::simd::prelude::*;

/// What stands for the value of a byte that is no digit.
const NO_VALUE: u8 = 255;

/// The values of sixteen hexadecimal digits in either case.
#[inline(always)]
fn values_of_digits(digits: &[u8]) -> u8x16
    requires { length digits.now ≡ 16 }
    ensures { result ≡ map digit_value digits.now }
{
    let digits = u8x16::from_slice(digits);
    let from_zero = digits - u8x16::splat(b'0');
    let from_a = (digits | u8x16::splat(0x20)) - u8x16::splat(b'a');
    let letters = from_a
        .simd_lt(u8x16::splat(6))
        .select(from_a + u8x16::splat(10), u8x16::splat(NO_VALUE));
    from_zero
        .simd_lt(u8x16::splat(10))
        .select(from_zero, letters)
}

/// The bytes that sixteen hexadecimal digits in either case write, none where a byte is no digit.
#[inline(always)]
pub fn bytes_of_digits(digits: &[u8]) -> Option<[u8; 8]>
    requires { length digits.now ≡ 16 }
    ensures { IfSome result (λ bytes. decode_sized digits.now 8 ≡ Ok bytes) }
{
    let values = values_of_digits(digits);
    if values.simd_ge(u8x16::splat(16)).to_bitmask() != 0 {
        return None;
    }
    let high = values.swizzle([0, 2, 4, 6, 8, 10, 12, 14]);
    let low = values.swizzle([1, 3, 5, 7, 9, 11, 13, 15]);
    Some((high * u8x8::splat(16) + low).to_array())
}

/// The upper halves of eight bytes.
#[inline(always)]
fn high_halves(bytes: &[u8]) -> u8x8
    requires { length bytes.now ≡ 8 }
    ensures { result ≡ map (λ byte. byte / 16) bytes.now }
{
    u8x8::from_slice(bytes) >> 4
}

/// The lower halves of eight bytes.
#[inline(always)]
fn low_halves(bytes: &[u8]) -> u8x8
    requires { length bytes.now ≡ 8 }
    ensures { result ≡ map (λ byte. byte % 16) bytes.now }
{
    u8x8::from_slice(bytes) & u8x8::splat(15)
}

/// The digits in upper case of sixteen values.
#[inline(always)]
fn digits_of_values(values: u8x16) -> u8x16
    requires long { length values ≡ 16 }
    requires values { AllByRecursion (λ value. value < 16) values }
    ensures { result ≡ map (λ value. slice_index upper_digits value) values }
{
    let letters = values + u8x16::splat(b'A' - 10);
    values
        .simd_lt(u8x16::splat(10))
        .select(values + u8x16::splat(b'0'), letters)
}

/// The digits in upper case that write eight bytes.
#[inline(always)]
pub fn digits_of_bytes(bytes: &[u8]) -> [u8; 16]
    requires { length bytes.now ≡ 8 }
    ensures { result ≡ encode_upper bytes.now }
{
    let high = high_halves(bytes);
    let low = low_halves(bytes);
    let values = high.shuffle(low, [0, 8, 1, 9, 2, 10, 3, 11, 4, 12, 5, 13, 6, 14, 7, 15]);
    digits_of_values(values).to_array()
}
