//! The answer of a decode job.
ghost use Rattle.std.specs.Prelude.{◌≡◌, ℕ, List, Some, Err, map, Option, IfOk};
ghost use Rattle.card_digits.specs.Lines.{lines};
ghost use Rattle.message_text.specs.Parts.{AreFrames};
ghost use Rattle.message_text.specs.Printed.{CountsPrinted, WritesBlocks, WritesFront};

use crate::fault::PrintFault;
use crate::parts::first_frame;
use crate::sending::{Buffers, send};
use card_digits::{Sink, first_line};
use std::alloc::Global;

/// Writes the blocks of an input of one message a line, as they come, and says whether no message has a fault. The last line may lack
/// its line feed, and an input without bytes has no line. Memory doesn't grow with the number of messages.
pub fn decode_lines<W: Sink>(
    alloc: Global,
    input: &[u8],
    writer: &mut W,
) -> Result<bool, PrintFault>
    ensures ok { IfOk result (WritesBlocks (map (λ line. Some line) (lines input.now)) (W.written writer.old) (W.written writer.new)) }
    ensures write { result ≡ Err PrintFault.Write → WritesFront (map (λ line. Some line) (lines input.now)) (W.written writer.old) (W.written writer.new) }
    ensures counts { CountsPrinted (W.failures writer.old) (W.failures writer.new) result }
    ensures memory { result ≡ Err PrintFault.Memory → W.written writer.new ≡ W.written writer.old }
{
    let Ok(mut buffers) = Buffers::new(alloc) else {
        return Err(PrintFault::Memory);
    };
    let mut good = true;
    let mut number: u64 = 0;
    let mut rest = input;
    while let Some((line, later)) = first_line(rest) {
        number += 1;
        let Ok(fine) = buffers.add(writer, number, Some(line)) else {
            return Err(PrintFault::Write);
        };
        good &= fine;
        rest = later;
    }
    match send(writer, &mut buffers.waiting) {
        Ok(()) => Ok(good),
        Err(_) => Err(PrintFault::Write),
    }
}

/// The same of an input of frames. After a frame that is cut nothing follows.
pub fn decode_frames<W: Sink>(
    alloc: Global,
    input: &[u8],
    writer: &mut W,
) -> Result<bool, PrintFault>
    ensures ok { IfOk result (λ good. (items : List (Option (List ℕ))) × AreFrames input.now items × WritesBlocks items (W.written writer.old) (W.written writer.new) good) }
    ensures write { result ≡ Err PrintFault.Write → (items : List (Option (List ℕ))) × AreFrames input.now items × WritesFront items (W.written writer.old) (W.written writer.new) }
    ensures counts { CountsPrinted (W.failures writer.old) (W.failures writer.new) result }
    ensures memory { result ≡ Err PrintFault.Memory → W.written writer.new ≡ W.written writer.old }
{
    let Ok(mut buffers) = Buffers::new(alloc) else {
        return Err(PrintFault::Memory);
    };
    let mut good = true;
    let mut number: u64 = 0;
    let mut rest = input;
    while !rest.is_empty() {
        number += 1;
        match first_frame(rest) {
            Some((bytes, later)) => {
                let Ok(fine) = buffers.add(writer, number, Some(bytes)) else {
                    return Err(PrintFault::Write);
                };
                good &= fine;
                rest = later;
            }
            None => {
                let Ok(fine) = buffers.add(writer, number, None) else {
                    return Err(PrintFault::Write);
                };
                good &= fine;
                rest = &[];
            }
        }
    }
    match send(writer, &mut buffers.waiting) {
        Ok(()) => Ok(good),
        Err(_) => Err(PrintFault::Write),
    }
}
