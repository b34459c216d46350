//! Keys of messages as bytes.
ghost use Rattle.std.specs.Prelude.{◌≡◌, IfOk, Ok, true, false};
ghost use Rattle.plan_state.specs.Keys.{key_in, IsAnswerTo};

use card_digits::Key;
use iso_message::decode;
use message_elements::DecodeFault;
use message_keys::key_of;
use std::alloc::{AllocError, Global};

/// The key of the message that the bytes spell, none where they spell none or it has no key.
pub(crate) fn key_in(alloc: Global, bytes: &[u8]) -> Result<Option<Key>, AllocError>
    ensures { IfOk result (λ k. k ≡ key_in bytes.now) }
{
    match decode(alloc, bytes) {
        Ok(message) => Ok(key_of(&message)),
        Err(DecodeFault::Memory) => Err(AllocError),
        Err(_) => Ok(None),
    }
}

/// Whether an answer has the key of a line: for a reversal, that of its original.
pub fn is_answer_to(alloc: Global, line: &[u8], answer: &[u8]) -> Result<bool, AllocError>
    ensures yes { result ≡ Ok true → IsAnswerTo line.now answer.now }
    ensures no { result ≡ Ok false → ¬ IsAnswerTo line.now answer.now }
{
    let Some(key) = key_in(alloc, line)? else {
        return Ok(false);
    };
    match key_in(alloc, answer)? {
        Some(other) => Ok(key == other),
        None => Ok(false),
    }
}
