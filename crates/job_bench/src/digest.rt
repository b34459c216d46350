//! A digest of all that is written, however it is cut in pieces.
use card_digits::{Sink, WriteFault};

/// Takes bytes eight at a time.
#[derive(Drop)]
pub(crate) struct Digest {
    state: u64,
    /// The bytes that wait for others, the last one lowest, and how many they are.
    word: u64,
    waiting: u8,
    bytes: u64,
}

impl Digest {
    pub(crate) fn new() -> Digest {
        Digest {
            state: 0xCBF2_9CE4_8422_2325,
            word: 0,
            waiting: 0,
            bytes: 0,
        }
    }

    /// How many bytes were written.
    pub(crate) fn bytes(&self) -> u64 {
        self.bytes
    }

    /// The digest, after a last word of the bytes that wait and one of the number of all.
    pub(crate) fn value(&self) -> u64 {
        mixed(mixed(self.state, self.word), self.bytes)
    }

    fn add_byte(&mut self, byte: u8) {
        self.word = self.word << 8 | byte as u64;
        self.waiting = self.waiting.wrapping_add(1) % 8;
        if self.waiting == 0 {
            self.state = mixed(self.state, self.word);
            self.word = 0;
        }
    }

    fn add_bytes(&mut self, bytes: &[u8]) {
        for byte in bytes {
            self.add_byte(*byte);
        }
    }

    fn add_words(&mut self, bytes: &[u8]) {
        let (words, rest) = bytes.as_chunks::<8>();
        for word in words {
            self.state = mixed(self.state, u64::from_be_bytes(*word));
        }
        self.add_bytes(rest);
    }

    /// Adds bytes one at a time up to the end of a word, and then by words.
    pub(crate) fn add(&mut self, bytes: &[u8]) {
        self.bytes = self.bytes.wrapping_add(bytes.len() as u64);
        let lacking = ((8 - self.waiting % 8) % 8) as usize;
        let (first, rest) = bytes.split_at(lacking.min(bytes.len()));
        self.add_bytes(first);
        self.add_words(rest);
    }
}

fn mixed(state: u64, word: u64) -> u64 {
    (state ^ word)
        .wrapping_mul(0x9E37_79B9_7F4A_7C15)
        .rotate_left(29)
}

impl Sink for Digest {
    ghost use Rattle.std.specs.Prelude.{None};

    ghost written = { λ _. None };

    ghost failures = { λ _. 0 };

    fn write(&mut self, bytes: &[u8]) -> Result<usize, WriteFault> {
        self.add(bytes);
        Ok(bytes.len())
    }
}
