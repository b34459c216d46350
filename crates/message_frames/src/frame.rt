//! Reading and writing of frames.
ghost use Rattle.std.specs.Prelude.{◌≡◌, ◌≤◌, ◌<◌, ◌-◌, ◌⊎◌, length, take, IfOk, OnOk, IfErr, option_map};
ghost use Rattle.std.specs.Int.{w16, to_be_bytes};
ghost use Rattle.std.specs.Io.KnownBytes.{Consumes, IsAtEnd, Appends};
ghost use Rattle.card_digits.specs.Stream.{TookTurns, one_more};
ghost use Rattle.message_frames.specs.Frames.{frame, ReadsFrame, FailsToWrite, FailsToRead, FailsInBody};
ghost use Rattle.message_frames.specs.declared.frame.FrameFault.TheVariants.{Read};

use byteorder::{BigEndian, ByteOrder};
use card_digits::{ReadFault, Sink, Source, WriteFault, write_all};
use std::alloc::{AllocError, Global};
use thiserror::Error;

/// The most turns that the reading of one frame takes: twice as many as it has bytes.
const MOST_TURNS: u32 = 131_074;

/// Why no frame was read or written.
#[derive(Clone, Copy, Debug, PartialEq, Eq, Error)]
pub enum FrameFault {
    /// The bytes end inside of a frame.
    #[error("the bytes end inside of a frame")]
    Short,
    /// The reader failed, or the turns ran out.
    #[error("no frame could be read")]
    Read,
    #[error("no memory")]
    Memory,
    /// More bytes than a frame takes.
    #[error("more bytes than a frame takes")]
    Long,
    /// The writer failed.
    #[error("the frame could not be written")]
    Write,
}

impl From<AllocError> for FrameFault {
    ghost use Rattle.std.specs.Prelude.{◌≡◌};
    ghost use Rattle.message_frames.specs.declared.frame.FrameFault.TheVariants.{Memory};

    ghost from_gives = { λ _ e. e ≡ Memory };

    fn from(_e: AllocError) -> FrameFault {
        FrameFault::Memory
    }
}

impl From<WriteFault> for FrameFault {
    ghost use Rattle.std.specs.Prelude.{◌≡◌};
    ghost use Rattle.message_frames.specs.declared.frame.FrameFault.TheVariants.{Write};

    ghost from_gives = { λ _ e. e ≡ Write };

    fn from(_e: WriteFault) -> FrameFault {
        FrameFault::Write
    }
}

/// The bytes of the next frame, none at an end before its first byte. After a fault some bytes of the frame may be gone from
/// the reader. `Read` is answered where the reader failed, or after 131,074 turns, of which an interrupted read is one.
pub fn read_frame<R: Source>(alloc: Global, reader: &mut R) -> Result<Option<Vec<u8>>, FrameFault>
    ensures ok { IfOk result (λ found. ReadsFrame (R.remaining reader.old) (R.remaining reader.new) (option_map (λ v. v.items) found)) }
    ensures fault { IfErr result (λ e. FailsToRead (R.remaining reader.old) e) }
    ensures unfailed { IfOk result (λ _. R.failures reader.new ≡ R.failures reader.old) }
    ensures cause { IfErr result (λ e. e ≡ Read → (R.failures reader.new ≡ one_more (R.failures reader.old)) ⊎ TookTurns 131_074 (R.turns reader.old) (R.turns reader.new)) }
{
    let mut turns = MOST_TURNS;
    let mut head = [0; 2];
    let found = fill(reader, &mut head, &mut turns)?;
    if found == 0 {
        return Ok(None);
    }
    if found == 1 {
        return Err(FrameFault::Short);
    }
    let bytes = body_of(alloc, reader, head, &mut turns)?;
    Ok(Some(bytes))
}

/// The bytes that come after these two of length.
fn body_of<R: Source>(
    alloc: Global,
    reader: &mut R,
    head: [u8; 2],
    turns: &mut u32,
) -> Result<Vec<u8>, FrameFault>
    ensures len { IfOk result (λ v. to_be_bytes w16 (length v.items) ≡ head) }
    ensures few { IfOk result (λ v. length v.items < 65_536) }
    ensures taken { IfOk result (λ v. Consumes (R.remaining reader.old) (R.remaining reader.new) v.items) }
    ensures fault { IfErr result (λ e. FailsInBody head (R.remaining reader.old) e) }
    ensures left { turns.new ≤ turns.old }
    ensures spent { TookTurns (turns.old - turns.new) (R.turns reader.old) (R.turns reader.new) }
    ensures unfailed { IfOk result (λ _. R.failures reader.new ≡ R.failures reader.old) }
    ensures cause { IfErr result (λ e. e ≡ Read → (R.failures reader.new ≡ one_more (R.failures reader.old)) ⊎ (turns.new ≡ 0)) }
{
    let len = BigEndian::read_u16(&head) as usize;
    let mut bytes = vec![in alloc; 0; len]?;
    let found = fill(reader, &mut bytes, turns)?;
    if found < len {
        return Err(FrameFault::Short);
    }
    Ok(bytes)
}

/// Reads until the buffer is full or the reader at its end, and says how many bytes were read.
fn fill<R: Source>(reader: &mut R, buffer: &mut [u8], turns: &mut u32) -> Result<usize, FrameFault>
    ensures bound { IfOk result (λ n. n ≤ length buffer.new) }
    ensures taken { IfOk result (λ n. Consumes (R.remaining reader.old) (R.remaining reader.new) (take n buffer.new)) }
    ensures end { IfOk result (λ n. n < length buffer.new → IsAtEnd (R.remaining reader.new)) }
    ensures fault { IfErr result (λ e. e ≡ Read) }
    ensures left { turns.new ≤ turns.old }
    ensures spent { TookTurns (turns.old - turns.new) (R.turns reader.old) (R.turns reader.new) }
    ensures unfailed { IfOk result (λ _. R.failures reader.new ≡ R.failures reader.old) }
    ensures cause { IfErr result (λ e. (R.failures reader.new ≡ one_more (R.failures reader.old)) ⊎ (turns.new ≡ 0)) }
{
    let mut done = 0;
    while done < buffer.len() {
        if *turns == 0 {
            return Err(FrameFault::Read);
        }
        *turns -= 1;
        match reader.read(&mut buffer[done..]) {
            Ok(0) => return Ok(done),
            Ok(n) => done += n,
            Err(ReadFault::Interrupted) => {}
            Err(ReadFault::Failed) => return Err(FrameFault::Read),
        }
    }
    Ok(done)
}

/// Writes the bytes as a frame. Nothing is written where they are 65,536 or more; after a failed write a beginning of the
/// frame may have gone out.
pub fn write_frame<W: Sink>(writer: &mut W, bytes: &[u8]) -> Result<(), FrameFault>
    ensures ok { OnOk result ((length bytes.now < 65_536) × Appends (W.written writer.old) (W.written writer.new) (frame bytes.now)) }
    ensures unfailed { OnOk result (W.failures writer.new ≡ W.failures writer.old) }
    ensures fault { IfErr result (λ e. FailsToWrite (W.written writer.old) (W.written writer.new) (W.failures writer.old) (W.failures writer.new) bytes.now e) }
{
    if bytes.len() > 65_535 {
        return Err(FrameFault::Long);
    }
    let mut head = [0; 2];
    BigEndian::write_u16(&mut head, bytes.len() as u16);
    write_all(writer, &head)?;
    write_all(writer, bytes)?;
    Ok(())
}
