//! Why a station refuses an input.

use network_law::StepFault;
use thiserror::Error;

/// Why a station refuses an input. It stays as it was.
#[derive(Clone, Copy, Debug, PartialEq, Eq, Error)]
pub enum StationFault {
    /// The input names a link of which the node is no end.
    #[error("a link that is not the node's")]
    StrangeLink,
    /// The node refuses it.
    #[error(transparent)]
    Step(StepFault),
}
