//! The jobs. The text that the program prints for an input is made in memory, and then put at the front of the caller's buffer.
ghost use Rattle.std.specs.Prelude.{◌≡◌, ℕ, Err, IfOk, OnErr, length};
ghost use Rattle.bundle_text.specs.Answers.{MakeAnswers, DecodeAnswers};
ghost use Rattle.buffer_jobs.specs.Buffer.{Fills, IsTooSmall, IsPrinted, CheckAnswers, ReplayedAnswers};

use crate::answers::{check_printed, decode_printed, make_printed, replay_printed};
use crate::filled::{FillFault, Filled, fill};
use std::alloc::Global;

/// Puts the verdict on tables and their ranks into a buffer.
pub fn check_into(alloc: Global, input: &[u8], output: &mut [u8]) -> Result<Filled, FillFault>
    ensures ok { IfOk result (Fills (IsPrinted CheckAnswers input.now) output.old output.new) }
    ensures err { OnErr result (output.new ≡ output.old) }
    ensures small { (wanted : ℕ) → result ≡ Err (FillFault.TooSmall wanted) → IsTooSmall (IsPrinted CheckAnswers input.now) (length output.old) wanted }
{
    fill(check_printed(alloc, input), output)
}

/// Puts ranks for tables into a buffer, or a circle.
pub fn make_into(alloc: Global, input: &[u8], output: &mut [u8]) -> Result<Filled, FillFault>
    ensures ok { IfOk result (Fills (IsPrinted MakeAnswers input.now) output.old output.new) }
    ensures err { OnErr result (output.new ≡ output.old) }
    ensures small { (wanted : ℕ) → result ≡ Err (FillFault.TooSmall wanted) → IsTooSmall (IsPrinted MakeAnswers input.now) (length output.old) wanted }
{
    fill(make_printed(alloc, input), output)
}

/// Puts what the nodes of accepted tables put out for the lines of a script into a buffer.
pub fn replay_into(alloc: Global, input: &[u8], output: &mut [u8]) -> Result<Filled, FillFault>
    ensures ok { IfOk result (Fills (IsPrinted ReplayedAnswers input.now) output.old output.new) }
    ensures err { OnErr result (output.new ≡ output.old) }
    ensures small { (wanted : ℕ) → result ≡ Err (FillFault.TooSmall wanted) → IsTooSmall (IsPrinted ReplayedAnswers input.now) (length output.old) wanted }
{
    fill(replay_printed(alloc, input), output)
}

/// Puts the elements of messages, one message a line or in frames, into a buffer.
pub fn decode_into(
    alloc: Global,
    frames: bool,
    input: &[u8],
    output: &mut [u8],
) -> Result<Filled, FillFault>
    ensures ok { IfOk result (Fills (IsPrinted (DecodeAnswers frames) input.now) output.old output.new) }
    ensures err { OnErr result (output.new ≡ output.old) }
    ensures small { (wanted : ℕ) → result ≡ Err (FillFault.TooSmall wanted) → IsTooSmall (IsPrinted (DecodeAnswers frames) input.now) (length output.old) wanted }
{
    fill(decode_printed(alloc, frames, input), output)
}
