//! The jobs.
ghost use Rattle.std.specs.Prelude.{◌≡◌};
ghost use Rattle.bundle_text.specs.Answers.{MakeAnswers, DecodeAnswers};
ghost use Rattle.buffer_jobs.specs.Buffer.{IsPrinted, CheckAnswers, ReplayedAnswers};
ghost use Rattle.card_switch_c.specs.Exports.{Leaves, told_length, told_status};

use crate::status::{NO_MEMORY, TOO_SMALL};
use buffer_jobs::{FillFault, Filled, check_into, decode_into, make_into, replay_into};
use std::alloc::Global;

/// Tells how long a text is, and returns the status of how a job ended.
fn tell(ended: Result<Filled, FillFault>, output_length: &mut usize) -> u8
    ensures length { output_length.new ≡ told_length ended }
    ensures status { result ≡ told_status ended }
{
    match ended {
        Ok(filled) => {
            *output_length = filled.len;
            filled.status.code()
        }
        Err(FillFault::TooSmall(wanted)) => {
            *output_length = wanted;
            TOO_SMALL
        }
        Err(FillFault::Memory) => {
            *output_length = 0;
            NO_MEMORY
        }
    }
}

/// The verdict on tables and their ranks.
#[unsafe(no_mangle)]
pub extern "C" fn cs_check(
    alloc: Global,
    input: &[u8],
    output: &mut [u8],
    output_length: &mut usize,
) -> u8
    ensures { Leaves (IsPrinted CheckAnswers input.now) output.old output.new output_length.new result }
{
    tell(check_into(alloc, input, output), output_length)
}

/// Ranks for tables, or a circle.
#[unsafe(no_mangle)]
pub extern "C" fn cs_make(
    alloc: Global,
    input: &[u8],
    output: &mut [u8],
    output_length: &mut usize,
) -> u8
    ensures { Leaves (IsPrinted MakeAnswers input.now) output.old output.new output_length.new result }
{
    tell(make_into(alloc, input, output), output_length)
}

/// What the nodes of accepted tables put out for the lines of a script.
#[unsafe(no_mangle)]
pub extern "C" fn cs_replay(
    alloc: Global,
    input: &[u8],
    output: &mut [u8],
    output_length: &mut usize,
) -> u8
    ensures { Leaves (IsPrinted ReplayedAnswers input.now) output.old output.new output_length.new result }
{
    tell(replay_into(alloc, input, output), output_length)
}

/// The elements of messages, one message a line or in frames.
#[unsafe(no_mangle)]
pub extern "C" fn cs_decode(
    alloc: Global,
    frames: bool,
    input: &[u8],
    output: &mut [u8],
    output_length: &mut usize,
) -> u8
    ensures { Leaves (IsPrinted (DecodeAnswers frames) input.now) output.old output.new output_length.new result }
{
    tell(decode_into(alloc, frames, input, output), output_length)
}
