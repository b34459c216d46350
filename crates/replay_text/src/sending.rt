//! Text in pieces, on its way to a writer.
ghost use Rattle.std.specs.Prelude.{◌≡◌, ◌++◌, [], map, OnOk, OnErr};
ghost use Rattle.std.specs.List.{concat};
ghost use Rattle.card_digits.specs.Stream.{CountsFailure};
ghost use Rattle.replay_text.specs.Fronts.{SendsText, SendsTextFront};

use bundle_text::{MOST_WAITING, add_text, send};
use card_digits::{Sink, WriteFault};
use std::alloc::AllocError;

/// Adds a piece. Some are single bytes, which need no copying of a length that isn't known.
fn push_piece(waiting: &mut Vec<u8>, piece: &[u8]) -> Result<(), AllocError>
    ensures ok { OnOk result (waiting.new.items ≡ waiting.old.items ++ piece.now) }
    ensures err { OnErr result (waiting.new.items ≡ waiting.old.items) }
{
    match piece {
        [byte] => Ok(waiting.push(*byte)?),
        _ => waiting.extend_from_slice(piece),
    }
}

/// Adds the pieces one behind the other; or none of them, where memory is refused.
fn push_pieces(waiting: &mut Vec<u8>, pieces: &[&[u8]]) -> Result<(), AllocError>
    ensures ok { OnOk result (waiting.new.items ≡ waiting.old.items ++ concat (map (λ p. p.now) pieces.now)) }
    ensures err { OnErr result (waiting.new.items ≡ waiting.old.items) }
{
    let before = waiting.len();
    for piece in pieces {
        if push_piece(waiting, piece).is_err() {
            waiting.truncate(before);
            return Err(AllocError);
        }
    }
    Ok(())
}

/// Adds the pieces one by one, where there is no memory for all of them.
fn add_each<W: Sink>(
    writer: &mut W,
    waiting: &mut Vec<u8>,
    pieces: &[&[u8]],
) -> Result<(), WriteFault>
    ensures ok { OnOk result (SendsText W.Sink writer.old writer.new waiting.old.items (concat (map (λ p. p.now) pieces.now)) waiting.new.items) }
    ensures err { OnErr result (SendsTextFront W.Sink writer.old writer.new waiting.old.items (concat (map (λ p. p.now) pieces.now))) }
    ensures counts { CountsFailure (W.failures writer.old) (W.failures writer.new) result }
{
    for piece in pieces {
        add_text(writer, waiting, piece)?;
    }
    Ok(())
}

/// Adds the pieces to what waits, one behind the other. What waits is written where it is long, or where there is no memory for more.
pub(crate) fn add_pieces<W: Sink>(
    writer: &mut W,
    waiting: &mut Vec<u8>,
    pieces: &[&[u8]],
) -> Result<(), WriteFault>
    ensures ok { OnOk result (SendsText W.Sink writer.old writer.new waiting.old.items (concat (map (λ p. p.now) pieces.now)) waiting.new.items) }
    ensures err { OnErr result (SendsTextFront W.Sink writer.old writer.new waiting.old.items (concat (map (λ p. p.now) pieces.now))) }
    ensures counts { CountsFailure (W.failures writer.old) (W.failures writer.new) result }
{
    if push_pieces(waiting, pieces).is_err() {
        return add_each(writer, waiting, pieces);
    }
    if waiting.len() < MOST_WAITING {
        return Ok(());
    }
    send(writer, waiting)
}
