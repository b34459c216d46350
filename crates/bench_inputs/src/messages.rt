//! Messages of made traffic. Each is ready but for a few digits, which are put in their places.
ghost use Rattle.std.specs.Prelude.{◌≡◌, ◌+◌, ◌≤◌, length};

use crate::digits::{eight_digits, sixteen_digits};
use crate::text::Text;
use std::alloc::AllocError;

/// The digit that makes fifteen digits a card by the formula of ISO/IEC 7812-1.
fn check_digit(digits: &[u8]) -> u8 {
    let mut sum: u8 = 0;
    for (place, digit) in digits.iter().enumerate() {
        let value = digit.wrapping_sub(b'0');
        let weighed = if place % 2 == 0 {
            value.wrapping_mul(2)
        } else {
            value
        };
        let too_much = if weighed > 9 { 9 } else { 0 };
        sum = sum.wrapping_add(weighed).wrapping_sub(too_much);
    }
    b'0'.wrapping_add((10 - sum % 10) % 10)
}

/// The digits of a card that begins with 4.
fn card_digits(card: u64) -> [u8; 16] {
    let number = card.wrapping_mul(104_729) % 100_000_000_000_000 + 400_000_000_000_000;
    let mut digits = sixteen_digits(number.wrapping_mul(10));
    digits[15] = check_digit(&digits[..15]);
    digits
}

/// Puts bytes at a place of a row.
#[inline]
fn put(row: &mut [u8], at: usize, bytes: &[u8])
    requires { at + length bytes.now ≤ length row.old }
    ensures { length row.new ≡ length row.old }
{
    row[at..at + bytes.len()].copy_from_slice(bytes);
}

static REQUEST: [u8; 83] =
    *b"01007220000100008000164000000000000000000000000000000000031400000000000006000000840";

/// A request of an acquirer: 83 bytes, 7 elements.
pub(crate) fn push_request(
    text: &mut Text,
    card: u64,
    amount: u64,
    trace: u64,
    acquirer: u64,
) -> Result<(), AllocError> {
    let time = (trace / 1_000_000 % 10).wrapping_add(91_530);
    let mut row = REQUEST;
    put(&mut row, 22, &card_digits(card));
    put(&mut row, 44, &sixteen_digits(amount)[4..]);
    put(&mut row, 61, &eight_digits(time)[3..]);
    put(&mut row, 66, &eight_digits(trace)[2..]);
    put(&mut row, 74, &eight_digits(acquirer)[2..]);
    text.push(&row)
}

static LONG_ADVICE: [u8; 338] = *b"0420FA3E4481AAE180000000004000000000\
    16400000000000000000000000000000100000000000100003140915300000000915300314291203145411051000\
    6400001041001374111111111111111=2912101000000000000003140900000168TERM0001MERCHANT0000001\
    GROCER                  TOWN          NL033additional data of a private kind\
    840010000000003140915300000040000100000000000";

/// A reversal advice: 338 bytes, 24 elements, two bit maps.
pub(crate) fn push_long_advice(text: &mut Text, card: u64, trace: u64) -> Result<(), AllocError> {
    let trace_digits = eight_digits(trace);
    let mut row = LONG_ADVICE;
    put(&mut row, 38, &card_digits(card));
    put(&mut row, 94, &trace_digits[2..]);
    put(&mut row, 300, &trace_digits[2..]);
    text.push(&row)
}

static BINARY_REQUEST: [u8; 131] = *b"0100f2200001000090010000000000000000164000000000000000\
    0000000000000010000314091530000000064000018400123456789ABCDEFfedcba9800000000";

/// A request with two elements of eight bytes, and bit maps in small letters.
pub(crate) fn push_binary_request(
    text: &mut Text,
    card: u64,
    trace: u64,
) -> Result<(), AllocError> {
    let trace_digits = eight_digits(trace);
    let mut row = BINARY_REQUEST;
    put(&mut row, 38, &card_digits(card));
    put(&mut row, 82, &trace_digits[2..]);
    put(&mut row, 123, &trace_digits);
    text.push(&row)
}
