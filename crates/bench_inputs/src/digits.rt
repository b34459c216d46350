//! Decimal digits of numbers.

/// The last eight decimal digits of a number. Parts of four digits, then of two and of one, stand side by side in a word and are
/// divided together.
pub(crate) fn eight_digits(number: u64) -> [u8; 8] {
    let last = number % 100_000_000;
    let fours = last / 10_000 | (last % 10_000) << 32;
    let hundreds = fours.wrapping_mul(10_486) >> 20 & 0x0000_007F_0000_007F;
    let twos = hundreds | fours.wrapping_sub(hundreds.wrapping_mul(100)) << 16;
    let tens = twos.wrapping_mul(103) >> 10 & 0x000F_000F_000F_000F;
    let ones = tens | twos.wrapping_sub(tens.wrapping_mul(10)) << 8;
    ones.wrapping_add(0x3030_3030_3030_3030).to_le_bytes()
}

/// The last sixteen.
pub(crate) fn sixteen_digits(number: u64) -> [u8; 16] {
    let mut digits = [0; 16];
    digits[..8].copy_from_slice(&eight_digits(number / 100_000_000));
    digits[8..].copy_from_slice(&eight_digits(number));
    digits
}
