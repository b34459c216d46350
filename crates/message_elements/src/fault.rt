//! Why bytes are no message.

ghost use Rattle.std.specs.Prelude.{◌≡◌};
ghost use Rattle.message_elements.specs.declared.fault.DecodeFault.TheVariants.{Memory};

use std::alloc::{AllocError, AllocFailed};
use thiserror::Error;

/// The first fault of bytes that are no message of ISO 8583:1987.
#[derive(Clone, Copy, Debug, PartialEq, Eq, Error)]
pub enum DecodeFault {
    /// The bytes end too early.
    #[error("the bytes end too early")]
    Short,
    /// No type stands at the front.
    #[error("no message type at the front")]
    BadType,
    /// A byte of a bit map is no hexadecimal digit.
    #[error("a byte of a bit map is no hexadecimal digit")]
    BitMap,
    /// The element is not in the table.
    #[error("element {0} is not in the table")]
    Element(u8),
    /// The length is no number, or above the most.
    #[error("element {0} has a wrong length")]
    Length(u8),
    /// A byte is not of the element's class.
    #[error("element {0} has a byte outside of its class")]
    Character(u8),
    /// Bytes stand after the last element.
    #[error("bytes stand behind the last element")]
    Trailing,
    #[error("no memory")]
    Memory,
}

impl From<AllocError> for DecodeFault {
    ghost from_gives = { λ _ e. e ≡ Memory };

    fn from(_e: AllocError) -> DecodeFault {
        DecodeFault::Memory
    }
}

impl<T: Drop> From<AllocFailed<T>> for DecodeFault {
    ghost from_gives = { λ _ e. e ≡ Memory };

    fn from(_e: AllocFailed<T>) -> DecodeFault {
        DecodeFault::Memory
    }
}
