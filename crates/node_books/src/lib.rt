//! The books of a node: requests, own approvals, advices, lent amounts, links and asks. Each is seen as the lists of `node_machine`.
//! Memory for a growth is reserved before, and where it is refused nothing has changed.
#![tactic(auto)]

mod books;
mod effect;
mod links;
mod waits;

pub use advice_store::{KeptAdvice, KeptGrant, StoredCase, StoredItem};
pub use books::Books;
pub use effect::{Effect, NewAdvice};
pub use links::{LinkState, Links};
pub use standin_book::{Borrowed, CardDay, Loan, OwnApproval};
pub use waits::waits_in;
