//! Rows of ranks of nodes at prefixes, as a certificate keeps them.
#![tactic(auto)]

mod apart;
mod found;
mod greatest;
mod kept;
mod marks;
mod pair;
mod rank;
mod runs;

pub use kept::Kept;
pub use rank::{NEAR, Rank};
pub use runs::rows_from;
