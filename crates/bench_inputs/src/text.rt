//! Text that is put together piece by piece.
use crate::digits::sixteen_digits;
use itoa::Buffer;
use std::alloc::{AllocError, Global};

/// A text with one kind of line ends.
#[derive(Drop)]
pub struct Text {
    bytes: Vec<u8>,
    line_end: &'static [u8],
}

impl Text {
    /// A text without bytes, whose lines end in a line feed.
    pub fn new(alloc: Global) -> Text {
        Text {
            bytes: Vec::new(alloc),
            line_end: b"\n",
        }
    }

    /// Its lines end in a carriage return and a line feed.
    pub fn with_carriage_returns(alloc: Global) -> Text {
        Text {
            bytes: Vec::new(alloc),
            line_end: b"\r\n",
        }
    }

    /// All of it, as one slice.
    pub fn as_bytes(&self) -> &[u8] {
        self.bytes.as_slice()
    }

    pub(crate) fn len(&self) -> usize {
        self.bytes.len()
    }

    pub(crate) fn clear(&mut self) {
        self.bytes.clear();
    }

    pub(crate) fn push(&mut self, words: &[u8]) -> Result<(), AllocError> {
        self.bytes.extend_from_slice(words)
    }

    pub(crate) fn push_byte(&mut self, byte: u8) -> Result<(), AllocError> {
        self.bytes.push(byte)?;
        Ok(())
    }

    pub(crate) fn end_line(&mut self) -> Result<(), AllocError> {
        self.bytes.extend_from_slice(self.line_end)
    }

    /// Words that are a line.
    pub fn line(&mut self, words: &[u8]) -> Result<(), AllocError> {
        self.push(words)?;
        self.end_line()
    }

    pub(crate) fn number(&mut self, number: u64) -> Result<(), AllocError> {
        let mut buffer = Buffer::new();
        self.bytes
            .extend_from_slice(buffer.format(number).as_bytes())
    }

    /// The last so many digits of a number, at most twelve of them.
    pub(crate) fn digits(&mut self, number: u64, count: usize) -> Result<(), AllocError> {
        let digits = sixteen_digits(number);
        self.push(&digits[16 - count.min(12)..])
    }
}
