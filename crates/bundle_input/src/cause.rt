//! The line of the cause for which there is no input.
ghost use Rattle.std.specs.Prelude.{◌≡◌, OnErr, IfOk};
ghost use Rattle.card_digits.specs.Stream.{CountsFailure};
ghost use Rattle.bundle_text.specs.Answers.{Wrote, WroteFront};
ghost use Rattle.bundle_input.specs.Input.{input_fault};

use crate::input::InputFault;
use bundle_text::Status;
use card_digits::{Sink, write_all};
use thiserror::Error;

/// Why a job did not come to its end: a beginning of what it would have written went out.
#[derive(Clone, Copy, Debug, PartialEq, Eq, Error)]
pub enum BundleFault {
    #[error("the answer could not be written")]
    Write,
}

/// The line of a cause for which there is no input, or no memory for an answer. It needs no memory.
fn cause_line(cause: InputFault) -> &'static [u8]
    ensures { result.now ≡ (input_fault cause).text }
{
    match cause {
        InputFault::TooLong => b"fault bundle 2 too long\n",
        InputFault::Read => b"fault bundle 3 read\n",
        InputFault::Memory => b"fault bundle 4 memory\n",
    }
}

/// Writes the line of a cause.
pub fn write_cause<W: Sink>(writer: &mut W, cause: InputFault) -> Result<Status, BundleFault>
    ensures ok { IfOk result (Wrote (λ said. said ≡ input_fault cause) (W.written writer.old) (W.written writer.new)) }
    ensures err { OnErr result (WroteFront (λ said. said ≡ input_fault cause) (W.written writer.old) (W.written writer.new)) }
    ensures counts { CountsFailure (W.failures writer.old) (W.failures writer.new) result }
{
    match write_all(writer, cause_line(cause)) {
        Ok(()) => Ok(Status::Fault),
        Err(_) => Err(BundleFault::Write),
    }
}
