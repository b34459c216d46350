//! A text in a buffer.
ghost use Rattle.std.specs.Prelude.{◌≡◌, ℕ, Ok, Err, IfOk, OnErr, length};
ghost use Rattle.buffer_jobs.specs.Buffer.{Fills, IsTooSmall};

use buffer_front::put_front;
use bundle_text::{Answer, Status};
use std::alloc::AllocError;
use thiserror::Error;

/// What a job put at the front of a buffer.
#[derive(Clone, Copy, Debug, PartialEq, Eq)]
pub struct Filled {
    /// How many bytes the text has.
    pub len: usize,
    pub status: Status,
}

/// Why a job left a buffer as it was.
#[derive(Clone, Copy, Debug, PartialEq, Eq, Error)]
pub enum FillFault {
    /// The text has more bytes than the buffer: so many.
    #[error("the buffer is too small for a text of {0} bytes")]
    TooSmall(usize),
    #[error("no memory")]
    Memory,
}

/// Puts the text of an answer that was made at the front of a buffer, where that has room for it.
pub(crate) fn fill(made: Result<Answer, AllocError>, output: &mut [u8]) -> Result<Filled, FillFault>
    ensures ok { IfOk result (Fills (λ said. made ≡ Ok said) output.old output.new) }
    ensures err { OnErr result (output.new ≡ output.old) }
    ensures small { (wanted : ℕ) → result ≡ Err (FillFault.TooSmall wanted) → IsTooSmall (λ said. made ≡ Ok said) (length output.old) wanted }
{
    let Ok(answer) = made else {
        return Err(FillFault::Memory);
    };
    let text = answer.text();
    if !put_front(text, output) {
        return Err(FillFault::TooSmall(text.len()));
    }
    Ok(Filled {
        len: text.len(),
        status: answer.status(),
    })
}
