//! What the threads of a plan share: how far each session has come, what its node has to tell it, and whose turn it is.
#![tactic(auto)]

mod awaited;
mod hearing;
mod keys;
mod node_state;
mod search;
mod service;
mod session_state;
mod state;
mod trace_search;
mod wanted;

pub use awaited::Awaited;
pub use hearing::{Hearer, who_hears};
pub use keys::is_answer_to;
pub use search::Search;
pub use service::Service;
pub use session_state::{Awaiting, SessionState};
pub use state::PlanState;
pub use trace_search::{Ask, Cursor, next_answer, next_ask};
pub use wanted::Wanted;
