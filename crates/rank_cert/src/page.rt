//! Bytes that are put at the front of a row of bytes that are there already.
ghost use Rattle.std.specs.Prelude.{◌≡◌, ◌+◌, ◌<◌, ◌≤◌, ◌++◌, All, length, take};
ghost use Rattle.card_digits.specs.Digits.{digits_text};

use card_digits::put;
use std::simd::prelude::*;

/// Puts the first `N` bytes, where there are so many, and returns the place behind them and the bytes that are left.
#[inline(always)]
fn put_first<'a, const N: usize>(page: &mut [u8], at: usize, bytes: &'a [u8]) -> (usize, &'a [u8])
    requires word { N ≤ 16 }
    requires room { at + length bytes.now ≤ length page.old }
    ensures text { take result.0 page.new ++ result.1.now ≡ take at page.old ++ bytes.now }
    ensures end { result.0 + length result.1.now ≡ at + length bytes.now }
    ensures left { length bytes.now < N + N → length result.1.now < N }
    ensures size { length page.new ≡ length page.old }
{
    match bytes.first_chunk::<N>() {
        Some(first) => {
            // A copy of its own, which no write to the page can change.
            let first = *first;
            (put(page, at, &first), &bytes[N..])
        }
        None => (at, bytes),
    }
}

/// Puts a few bytes, by as few words as they have.
#[inline(always)]
pub(crate) fn put_few(page: &mut [u8], at: usize, bytes: &[u8]) -> usize
    requires few { length bytes.now < 16 }
    requires room { at + length bytes.now ≤ length page.old }
    ensures text { take result page.new ≡ take at page.old ++ bytes.now }
    ensures end { result ≡ at + length bytes.now }
    ensures size { length page.new ≡ length page.old }
{
    let (at, bytes) = put_first::<8>(page, at, bytes);
    let (at, bytes) = put_first::<4>(page, at, bytes);
    let (at, bytes) = put_first::<2>(page, at, bytes);
    let (at, _none) = put_first::<1>(page, at, bytes);
    at
}

/// The ASCII digits that write numbers from 0 to 9.
#[inline(always)]
fn spelled<const N: usize>(digits: &[u8; N]) -> [u8; N]
    requires { All (λ d. d < 10) digits.now }
    ensures { result ≡ digits_text digits.now }
{
    (Simd::<u8, N>::from_array(*digits) + Simd::splat(b'0')).to_array()
}

/// Puts the ASCII digits of the first `N` numbers, where there are so many, and returns the place behind them and the numbers that are left.
#[inline(always)]
fn put_first_digits<'a, const N: usize>(
    page: &mut [u8],
    at: usize,
    digits: &'a [u8],
) -> (usize, &'a [u8])
    requires word { N ≤ 16 }
    requires digits { All (λ d. d < 10) digits.now }
    requires room { at + length digits.now ≤ length page.old }
    ensures text { take result.0 page.new ++ digits_text result.1.now ≡ take at page.old ++ digits_text digits.now }
    ensures end { result.0 + length result.1.now ≡ at + length digits.now }
    ensures left { length digits.now < N + N → length result.1.now < N }
    ensures digits { All (λ d. d < 10) result.1.now }
    ensures size { length page.new ≡ length page.old }
{
    match digits.first_chunk::<N>() {
        Some(first) => (put(page, at, &spelled(first)), &digits[N..]),
        None => (at, digits),
    }
}

/// Puts the ASCII digits of a few numbers from 0 to 9.
#[inline(always)]
pub(crate) fn put_digits(page: &mut [u8], at: usize, digits: &[u8]) -> usize
    requires few { length digits.now < 16 }
    requires digits { All (λ d. d < 10) digits.now }
    requires room { at + length digits.now ≤ length page.old }
    ensures text { take result page.new ≡ take at page.old ++ digits_text digits.now }
    ensures end { result ≡ at + length digits.now }
    ensures size { length page.new ≡ length page.old }
{
    let (at, digits) = put_first_digits::<8>(page, at, digits);
    let (at, digits) = put_first_digits::<4>(page, at, digits);
    let (at, digits) = put_first_digits::<2>(page, at, digits);
    let (at, _none) = put_first_digits::<1>(page, at, digits);
    at
}
