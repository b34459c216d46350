//! What the program prints for an input, in memory.
ghost use Rattle.std.specs.Prelude.{◌≡◌, IfOk};
ghost use Rattle.bundle_text.specs.Answers.{MakeAnswers, DecodeAnswers};
ghost use Rattle.bundle_input.specs.Input.{input_fault};
ghost use Rattle.buffer_jobs.specs.Buffer.{IsPrinted, CheckAnswers, ReplayedAnswers};

use crate::gathered::Gathered;
use bundle_input::{InputFault, write_cause};
use bundle_text::{Answer, check_answer, make_answer, write_decoded};
use replay_text::{TraceMemory, write_replayed};
use std::alloc::{AllocError, Global};

/// The most bytes of an input.
const MOST_BYTES: usize = 16_777_216;

fn too_long_answer(alloc: Global) -> Result<Answer, AllocError>
    ensures { IfOk result (λ said. said ≡ input_fault InputFault.TooLong) }
{
    let mut gathered = Gathered::new(alloc);
    match write_cause(&mut gathered, InputFault::TooLong) {
        Ok(status) => Ok(gathered.into_answer(status)),
        Err(_) => Err(AllocError),
    }
}

fn replayed_answer(alloc: Global, input: &[u8]) -> Result<Answer, AllocError>
    ensures { IfOk result (ReplayedAnswers input.now) }
{
    let mut gathered = Gathered::new(alloc);
    match write_replayed(alloc, input, TraceMemory::Freed, &mut gathered) {
        Ok(status) => Ok(gathered.into_answer(status)),
        Err(_) => Err(AllocError),
    }
}

fn decoded_answer(alloc: Global, frames: bool, input: &[u8]) -> Result<Answer, AllocError>
    ensures { IfOk result (DecodeAnswers frames input.now) }
{
    let mut gathered = Gathered::new(alloc);
    match write_decoded(alloc, frames, input, &mut gathered) {
        Ok(status) => Ok(gathered.into_answer(status)),
        Err(_) => Err(AllocError),
    }
}

pub(crate) fn check_printed(alloc: Global, input: &[u8]) -> Result<Answer, AllocError>
    ensures { IfOk result (IsPrinted CheckAnswers input.now) }
{
    if input.len() > MOST_BYTES {
        return too_long_answer(alloc);
    }
    check_answer(alloc, input)
}

pub(crate) fn make_printed(alloc: Global, input: &[u8]) -> Result<Answer, AllocError>
    ensures { IfOk result (IsPrinted MakeAnswers input.now) }
{
    if input.len() > MOST_BYTES {
        return too_long_answer(alloc);
    }
    make_answer(alloc, input)
}

pub(crate) fn replay_printed(alloc: Global, input: &[u8]) -> Result<Answer, AllocError>
    ensures { IfOk result (IsPrinted ReplayedAnswers input.now) }
{
    if input.len() > MOST_BYTES {
        return too_long_answer(alloc);
    }
    replayed_answer(alloc, input)
}

pub(crate) fn decode_printed(
    alloc: Global,
    frames: bool,
    input: &[u8],
) -> Result<Answer, AllocError>
    ensures { IfOk result (IsPrinted (DecodeAnswers frames) input.now) }
{
    if input.len() > MOST_BYTES {
        return too_long_answer(alloc);
    }
    decoded_answer(alloc, frames, input)
}
