//! A text that is written into memory.
ghost use Rattle.std.specs.Prelude.{◌≡◌, [], Some};

use bundle_text::{Answer, Status};
use card_digits::{Sink, WriteFault};
use std::alloc::Global;

/// A writer that keeps what is written. It fails where memory is refused.
#[derive(Drop)]
pub(crate) struct Gathered {
    text: Vec<u8>,
    failures: u64,
}

impl Gathered {
    pub(crate) fn new(alloc: Global) -> Gathered
        ensures { result.text.items ≡ [] }
    {
        Gathered {
            text: Vec::new(alloc),
            failures: 0,
        }
    }

    /// What was written, as an answer of this status.
    pub(crate) fn into_answer(self, status: Status) -> Answer
        ensures { result ≡ record { text = self.text.items; status = status } }
    {
        Answer::new(self.text, status)
    }
}

impl Sink for Gathered {
    ghost written = { λ s. Some s.text.items };

    ghost failures = { λ s. s.failures };

    fn write(&mut self, bytes: &[u8]) -> Result<usize, WriteFault> {
        match self.text.extend_from_slice(bytes) {
            Ok(()) => Ok(bytes.len()),
            Err(_) => {
                self.failures = self.failures.saturating_add(1);
                Err(WriteFault::Failed)
            }
        }
    }
}
