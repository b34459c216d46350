//! Why a step is refused.
ghost use Rattle.std.specs.Prelude.{◌≡◌};
ghost use Rattle.network_law.specs.Faults.{refusal_number};

use message_elements::DecodeFault;
use std::alloc::AllocError;
use thiserror::Error;

/// Why a node refuses an input. The node and its trace stay as they were.
#[derive(Clone, Copy, Debug, PartialEq, Eq, Error)]
pub enum StepFault {
    /// The bytes are no message; taken from a link, no packet of a grant either.
    #[error(transparent)]
    Decode(DecodeFault),
    /// Entered for an acquirer that isn't attached to the node.
    #[error("the acquirer is not attached to the node")]
    ForeignAcquirer,
    /// A required element is absent; 90 also where it names no request of the message's own acquirer.
    #[error("element {0} is missing")]
    Missing(u8),
    /// A message type that isn't for this input.
    #[error("a message type that is not for this input")]
    TypeNotForGate,
    /// A host's answer to an ask that was never made.
    #[error("an answer to nothing that was asked")]
    UnknownAsk,
    /// A reversal with element 95, a partial one, whose first twelve bytes there are not all digits, or write an actual amount
    /// above the amount of its element 4.
    #[error("a partial reversal without a right actual amount")]
    Replacement,
    /// The trace has as many entries as it may.
    #[error("the history is full")]
    HistoryFull,
    #[error("no memory")]
    Memory,
    /// No place is left for an advice, or for a grant.
    #[error("no place for an advice")]
    NoPlace,
    /// An amount that may not be lent: to a node at the other end of no link; of 0; for a card without an issuer, or whose issuer
    /// doesn't name the borrower; or above the allowance less what is used of it. Or a taken grant for another node, or for a
    /// card whose issuer doesn't name this one.
    #[error("an amount that may not be lent")]
    NotLent,
}

impl StepFault {
    /// Its number, as it is printed: 1 to 10.
    pub fn number(self) -> u8
        ensures { result ≡ refusal_number self }
    {
        match self {
            StepFault::Decode(_) => 1,
            StepFault::ForeignAcquirer => 2,
            StepFault::Missing(_) => 3,
            StepFault::TypeNotForGate => 4,
            StepFault::UnknownAsk => 5,
            StepFault::Replacement => 6,
            StepFault::HistoryFull => 7,
            StepFault::Memory => 8,
            StepFault::NoPlace => 9,
            StepFault::NotLent => 10,
        }
    }
}

impl From<AllocError> for StepFault {
    ghost use Rattle.std.specs.Prelude.{◌≡◌};
    ghost use Rattle.network_law.specs.declared.fault.StepFault.TheVariants.{Memory};

    ghost from_gives = { λ _ e. e ≡ Memory };

    fn from(_e: AllocError) -> StepFault {
        StepFault::Memory
    }
}
