//! What is kept of a host.

use crate::trace_search::{Ask, Cursor};
use plan_threads::ClockTurns;
use switch_node::Case;

/// What is kept of a host between its turns.
#[derive(Drop)]
pub struct Service {
    pub turns: ClockTurns,
    /// How far the trace was read.
    pub cursor: Cursor,
    /// A request that was found there, and was not put to the host yet.
    pub next: Option<Ask>,
    /// What the host answered, as long as the station doesn't have it. Then no request was found.
    pub answer: Option<Case>,
}
