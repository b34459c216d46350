//! The answer of `decode`.
ghost use Rattle.std.specs.Prelude.{◌≡◌, ℕ, List, Some, Err, true, false, IfOk, map};
ghost use Rattle.card_digits.specs.Lines.{lines};
ghost use Rattle.message_text.specs.Printed.{CountsPrinted};
ghost use Rattle.bundle_text.specs.Answers.{DecodeAnswers, IsDecoded, IsDecodedParts, Wrote, WroteFront, decode_status, parts_fault};

use crate::answer::Status;
use crate::input_parts::{parts, without_carriage_returns};
use card_digits::{Sink, write_all};
use message_text::{PrintFault, decode_frames, decode_lines};
use std::alloc::Global;

fn status(good: bool) -> Status
    ensures { result ≡ decode_status good }
{
    if good { Status::Done } else { Status::Fault }
}

/// Writes the blocks of a text of one message a line.
fn write_lines<W: Sink>(alloc: Global, text: &[u8], writer: &mut W) -> Result<Status, PrintFault>
    ensures ok { IfOk result (Wrote (IsDecoded (map (λ line. Some line) (lines text.now))) (W.written writer.old) (W.written writer.new)) }
    ensures write { result ≡ Err PrintFault.Write → WroteFront (IsDecoded (map (λ line. Some line) (lines text.now))) (W.written writer.old) (W.written writer.new) }
    ensures counts { CountsPrinted (W.failures writer.old) (W.failures writer.new) result }
    ensures memory { result ≡ Err PrintFault.Memory → W.written writer.new ≡ W.written writer.old }
{
    match decode_lines(alloc, text, writer) {
        Ok(good) => Ok(status(good)),
        Err(fault) => Err(fault),
    }
}

/// Writes the blocks of frames.
fn write_frames<W: Sink>(alloc: Global, input: &[u8], writer: &mut W) -> Result<Status, PrintFault>
    ensures ok { IfOk result (Wrote (DecodeAnswers true input.now) (W.written writer.old) (W.written writer.new)) }
    ensures write { result ≡ Err PrintFault.Write → WroteFront (DecodeAnswers true input.now) (W.written writer.old) (W.written writer.new) }
    ensures counts { CountsPrinted (W.failures writer.old) (W.failures writer.new) result }
    ensures memory { result ≡ Err PrintFault.Memory → W.written writer.new ≡ W.written writer.old }
{
    match decode_frames(alloc, input, writer) {
        Ok(good) => Ok(status(good)),
        Err(fault) => Err(fault),
    }
}

/// Writes the line that there are too many parts.
fn write_parts_fault<W: Sink>(writer: &mut W) -> Result<Status, PrintFault>
    ensures ok { IfOk result (Wrote (λ said. said ≡ parts_fault) (W.written writer.old) (W.written writer.new)) }
    ensures write { result ≡ Err PrintFault.Write → WroteFront (λ said. said ≡ parts_fault) (W.written writer.old) (W.written writer.new) }
    ensures counts { CountsPrinted (W.failures writer.old) (W.failures writer.new) result }
    ensures memory { result ≡ Err PrintFault.Memory → W.written writer.new ≡ W.written writer.old }
{
    match write_all(writer, b"fault bundle 1 parts\n") {
        Ok(()) => Ok(Status::Fault),
        Err(_) => Err(PrintFault::Write),
    }
}

/// Writes the blocks of the one part.
#[tactic(auto, using(crate::proofs::Pairs::decoded_of_others, crate::proofs::Pairs::one))]
fn write_parts<W: Sink>(
    alloc: Global,
    parts: &[&[u8]],
    writer: &mut W,
) -> Result<Status, PrintFault>
    ensures ok { IfOk result (Wrote (IsDecodedParts (map (λ p. p.now) parts.now)) (W.written writer.old) (W.written writer.new)) }
    ensures write { result ≡ Err PrintFault.Write → WroteFront (IsDecodedParts (map (λ p. p.now) parts.now)) (W.written writer.old) (W.written writer.new) }
    ensures counts { CountsPrinted (W.failures writer.old) (W.failures writer.new) result }
    ensures memory { result ≡ Err PrintFault.Memory → W.written writer.new ≡ W.written writer.old }
{
    if parts.len() != 1 {
        return write_parts_fault(writer);
    }
    write_lines(alloc, parts[0], writer)
}

/// Writes the blocks of an input of one message a line.
fn write_text<W: Sink>(alloc: Global, input: &[u8], writer: &mut W) -> Result<Status, PrintFault>
    ensures ok { IfOk result (Wrote (DecodeAnswers false input.now) (W.written writer.old) (W.written writer.new)) }
    ensures write { result ≡ Err PrintFault.Write → WroteFront (DecodeAnswers false input.now) (W.written writer.old) (W.written writer.new) }
    ensures counts { CountsPrinted (W.failures writer.old) (W.failures writer.new) result }
    ensures memory { result ≡ Err PrintFault.Memory → W.written writer.new ≡ W.written writer.old }
{
    let Ok(text) = without_carriage_returns(alloc, input) else {
        return Err(PrintFault::Memory);
    };
    let Ok(parts) = parts(alloc, &text) else {
        return Err(PrintFault::Memory);
    };
    write_parts(alloc, &parts, writer)
}

/// Writes the blocks of all messages of an input as they come, one message a line, or of frames, and gives the status. The fault is
/// `Write` where the writer failed, behind a beginning of them, and `Memory` where nothing was written.
pub fn write_decoded<W: Sink>(
    alloc: Global,
    frames: bool,
    input: &[u8],
    writer: &mut W,
) -> Result<Status, PrintFault>
    ensures ok { IfOk result (Wrote (DecodeAnswers frames input.now) (W.written writer.old) (W.written writer.new)) }
    ensures write { result ≡ Err PrintFault.Write → WroteFront (DecodeAnswers frames input.now) (W.written writer.old) (W.written writer.new) }
    ensures counts { CountsPrinted (W.failures writer.old) (W.failures writer.new) result }
    ensures memory { result ≡ Err PrintFault.Memory → W.written writer.new ≡ W.written writer.old }
{
    if frames {
        write_frames(alloc, input, writer)
    } else {
        write_text(alloc, input, writer)
    }
}
