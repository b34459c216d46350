//! Text on its way to a writer.
ghost use Rattle.std.specs.Prelude.{◌≡◌, ◌++◌, [], OnOk, OnErr, IfOk};
ghost use Rattle.std.specs.Option.{option_copied};
ghost use Rattle.std.specs.Io.KnownBytes.{Appends};
ghost use Rattle.card_digits.specs.Stream.{AppendsFront, CountsFailure};
ghost use Rattle.message_elements.specs.declared.fault.DecodeFault.TheVariants.{Memory};
ghost use Rattle.message_text.specs.Printed.{block, Sends, SendsBlock, SendsFront};

use crate::row::put_item;
use card_digits::{Sink, WriteFault, write_all};
use std::alloc::{AllocError, Global};

/// From so many bytes on, what waits is written.
pub const MOST_WAITING: usize = 65_536;

/// So many bytes has the row in which a block is printed: more than that of any message has, as the table of elements allows no more
/// than 13,218.
const ROW: usize = 16_384;

/// What waits to be written, and the memory in which a message is printed.
#[derive(Drop)]
pub(crate) struct Buffers {
    pub waiting: Vec<u8>,
    row: [u8; ROW],
}

impl Buffers {
    pub(crate) fn new(alloc: Global) -> Result<Buffers, AllocError>
        ensures { IfOk result (λ b. b.waiting.items ≡ []) }
    {
        Ok(Buffers {
            waiting: Vec::with_capacity(alloc, MOST_WAITING)?,
            row: [0; ROW],
        })
    }

    /// Prints the block of a message, of a frame that is cut where it has no bytes, behind what waits, and says whether it has no
    /// fault. It asks for no memory but for what waits.
    pub(crate) fn add<W: Sink>(
        &mut self,
        writer: &mut W,
        number: u64,
        item: Option<&[u8]>,
    ) -> Result<bool, WriteFault>
        ensures ok { IfOk result (SendsBlock number (option_copied item.entry) (W.written writer.old) (W.written writer.new) self.old.waiting.items self.new.waiting.items) }
        ensures err { OnErr result (SendsFront number (option_copied item.entry) (W.written writer.old) (W.written writer.new) self.old.waiting.items) }
        ensures counts { CountsFailure (W.failures writer.old) (W.failures writer.new) result }
    {
        let (end, good) = put_item(&mut self.row, number, item);
        add_text(writer, &mut self.waiting, &self.row[..end])?;
        Ok(good)
    }
}

/// Writes what waits.
pub fn send<W: Sink>(writer: &mut W, waiting: &mut Vec<u8>) -> Result<(), WriteFault>
    ensures sent { OnOk result (Appends (W.written writer.old) (W.written writer.new) waiting.old.items) }
    ensures none { OnOk result (waiting.new.items ≡ []) }
    ensures err { OnErr result (AppendsFront (W.written writer.old) (W.written writer.new) waiting.old.items) }
    ensures counts { CountsFailure (W.failures writer.old) (W.failures writer.new) result }
{
    write_all(writer, waiting)?;
    waiting.clear();
    Ok(())
}

/// Writes what waits, and a text behind it.
fn send_with<W: Sink>(writer: &mut W, waiting: &mut Vec<u8>, text: &[u8]) -> Result<(), WriteFault>
    ensures sent { OnOk result (Appends (W.written writer.old) (W.written writer.new) (waiting.old.items ++ text.now)) }
    ensures none { OnOk result (waiting.new.items ≡ []) }
    ensures err { OnErr result (AppendsFront (W.written writer.old) (W.written writer.new) (waiting.old.items ++ text.now)) }
    ensures counts { CountsFailure (W.failures writer.old) (W.failures writer.new) result }
{
    send(writer, waiting)?;
    write_all(writer, text)
}

/// Adds a text to what waits, which is written where it is long, or where there is no memory for more.
pub fn add_text<W: Sink>(
    writer: &mut W,
    waiting: &mut Vec<u8>,
    text: &[u8],
) -> Result<(), WriteFault>
    ensures ok { OnOk result (Sends (W.written writer.old) (W.written writer.new) waiting.old.items text.now waiting.new.items) }
    ensures err { OnErr result (AppendsFront (W.written writer.old) (W.written writer.new) (waiting.old.items ++ text.now)) }
    ensures counts { CountsFailure (W.failures writer.old) (W.failures writer.new) result }
{
    if waiting.extend_from_slice(text).is_err() {
        return send_with(writer, waiting, text);
    }
    if waiting.len() < MOST_WAITING {
        return Ok(());
    }
    send(writer, waiting)
}
