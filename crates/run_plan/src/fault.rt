//! Why a text is no plan.

use std::alloc::AllocError;
use thiserror::Error;

/// Why a text is no plan, with the number of its line, from 1.
#[derive(Clone, Copy, Debug, PartialEq, Eq, Error)]
pub enum PlanFault {
    /// The line is none that may stand there.
    #[error("line {0} is malformed")]
    Line(usize),
    /// A session of an acquirer that the tables don't have, or that has one already.
    #[error("line {0} names an acquirer that is unknown or has a session")]
    Acquirer(usize),
    #[error("the plan has no end")]
    NoEnd,
    #[error("no memory")]
    Memory,
}

impl From<AllocError> for PlanFault {
    ghost use Rattle.std.specs.Prelude.{◌≡◌};
    ghost use Rattle.run_plan.specs.declared.fault.PlanFault.TheVariants.{Memory};

    ghost from_gives = { λ _ e. e ≡ Memory };

    fn from(_e: AllocError) -> PlanFault {
        PlanFault::Memory
    }
}
