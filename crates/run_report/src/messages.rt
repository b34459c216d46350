//! Messages in bytes.
ghost use Rattle.std.specs.Prelude.{◌≡◌, IfOk};
ghost use Rattle.std.specs.Result.{result_ok};
ghost use Rattle.iso_message.specs.Messages.{read};

use iso_message::{Message, decode};
use message_elements::DecodeFault;
use std::alloc::{AllocError, Global};

/// The message that the bytes spell.
pub(crate) fn read_message(alloc: Global, bytes: &[u8]) -> Result<Option<Message>, AllocError>
    ensures { IfOk result (λ o. o ≡ result_ok (read bytes.now)) }
{
    match decode(alloc, bytes) {
        Ok(message) => Ok(Some(message)),
        Err(DecodeFault::Memory) => Err(AllocError),
        Err(_) => Ok(None),
    }
}
