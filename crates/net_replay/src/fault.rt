//! Why a script is not run to its end.

use network_law::StepFault;
use std::alloc::AllocError;
use thiserror::Error;

/// Why a script is not run to its end, with the number of its line, from 1.
#[derive(Clone, Copy, Debug, PartialEq, Eq, Error)]
pub enum ReplayFault {
    /// The line says nothing.
    #[error("line {0} is malformed")]
    Line(usize),
    /// The line takes what was not put by a line before it.
    #[error("line {0} takes a packet that was not put")]
    NoSuchPacket(usize),
    /// The node refuses what the line says.
    #[error("the step of line {0} is refused: {1}")]
    Step(usize, StepFault),
    /// No memory, for a step too.
    #[error("no memory")]
    Memory,
}

impl From<AllocError> for ReplayFault {
    ghost use Rattle.std.specs.Prelude.{◌≡◌};
    ghost use Rattle.net_replay.specs.declared.fault.ReplayFault.TheVariants.{Memory};

    ghost from_gives = { λ _ e. e ≡ Memory };

    fn from(_e: AllocError) -> ReplayFault {
        ReplayFault::Memory
    }
}
