//! A node's own approvals, and what it lent and borrowed: lists in the order of their making, with the sum of each card and settlement
//! date beside them, so that no call walks a list but a reversal of a key that approved twice, and an approval that is undone though
//! newer ones were made.
#![tactic(auto)]

mod approval;
mod lending;
mod limits;
mod standin;

pub use approval::OwnApproval;
pub use book_index::CardDay;
pub use lending::{Borrowed, LendingBook, Loan};
pub use limits::{LendFault, LimitBook, Over};
pub use standin::StandInBook;
