//! Reading all there is.
ghost use Rattle.std.specs.Prelude.{◌≡◌, ◌≤◌, ◌<◌, length, IfOk, IfErr, IfSome};
ghost use Rattle.bundle_input.specs.Input.{WasCause};

use card_digits::{ReadFault, Source};
use std::alloc::Global;
use thiserror::Error;

const MOST_BYTES: usize = 16_777_216;

const MOST_TURNS: u32 = 33_554_432;

const PIECE: usize = 65_536;

/// Why there is no input.
#[derive(Clone, Copy, Debug, PartialEq, Eq, Error)]
pub enum InputFault {
    #[error("the input is too long")]
    TooLong,
    /// The reader failed, or the turns ran out.
    #[error("the input could not be read")]
    Read,
    #[error("no memory")]
    Memory,
}

/// All the bytes that a reader has, at most 16,777,216 of them, in at most 33,554,432 calls.
pub fn read_all<R: Source>(alloc: Global, reader: &mut R) -> Result<Vec<u8>, InputFault>
    ensures whole { IfOk result (λ v. IfSome (R.remaining reader.old) (λ input. v.items ≡ input)) }
    ensures short { IfOk result (λ v. length v.items ≤ 16_777_216) }
    ensures unfailed { IfOk result (λ _. R.failures reader.new ≡ R.failures reader.old) }
    ensures cause { IfErr result (WasCause R.Source reader.old reader.new) }
{
    let mut input = Vec::new(alloc);
    let mut piece = [0u8; PIECE];
    for _ in 0..MOST_TURNS {
        match reader.read(&mut piece) {
            Ok(0) => return Ok(input),
            Ok(n) => {
                if input.extend_from_slice(&piece[..n]).is_err() {
                    return Err(InputFault::Memory);
                }
                if input.len() > MOST_BYTES {
                    return Err(InputFault::TooLong);
                }
            }
            Err(ReadFault::Interrupted) => {}
            Err(ReadFault::Failed) => return Err(InputFault::Read),
        }
    }
    Err(InputFault::Read)
}
