//! A line of a rank.
use crate::digits::eight_digits;
use crate::text::Text;
use std::alloc::AllocError;

/// Room for more than any line of a rank has.
const ROOM: usize = 64;

/// A line that is put together in a row of bytes. What has no room there is left out.
#[derive(Clone, Copy)]
pub(crate) struct RankLine {
    bytes: [u8; ROOM],
    len: usize,
}

impl RankLine {
    pub(crate) fn new() -> RankLine {
        RankLine {
            bytes: [0; ROOM],
            len: 0,
        }
    }

    pub(crate) fn put_byte(&mut self, byte: u8) {
        if self.len < ROOM {
            self.bytes[self.len] = byte;
            self.len += 1;
        }
    }

    /// Puts a number below a hundred as one or two digits, and any other as four.
    pub(crate) fn put_number(&mut self, number: u64) {
        if number >= 100 {
            return self.put_four(number);
        }
        if number >= 10 {
            self.put_byte(b'0'.wrapping_add((number / 10) as u8));
        }
        self.put_byte(b'0'.wrapping_add((number % 10) as u8));
    }

    /// Puts the last four digits of a number.
    pub(crate) fn put_four(&mut self, number: u64) {
        let digits = eight_digits(number);
        let at = self.len;
        if at <= ROOM - 4 {
            self.bytes[at..at + 4].copy_from_slice(&digits[4..]);
            self.len = at + 4;
        }
    }

    /// Puts the last eight digits of a number.
    pub(crate) fn put_eight(&mut self, number: u64) {
        let digits = eight_digits(number);
        let at = self.len;
        if at <= ROOM - 8 {
            self.bytes[at..at + 8].copy_from_slice(&digits);
            self.len = at + 8;
        }
    }

    pub(crate) fn push_to(&self, text: &mut Text) -> Result<(), AllocError> {
        text.line(&self.bytes[..self.len.min(ROOM)])
    }
}
