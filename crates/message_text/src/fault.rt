//! Why not all blocks were printed.
ghost use Rattle.std.specs.Prelude.{◌≡◌};

use thiserror::Error;

/// Why not all blocks were printed.
#[derive(Clone, Copy, Debug, PartialEq, Eq, Error)]
pub enum PrintFault {
    /// The writer failed; a beginning of the text went out.
    #[error("the text could not be written")]
    Write,
    /// There was no memory to begin with; nothing went out.
    #[error("no memory")]
    Memory,
}
