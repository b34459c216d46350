//! The requests of a node, pending and answered, and the keys that were reversed. `PendingBook` has a call for each change, which may find
//! no place or no memory. `NodeRequests` has the same for a node's books, which make all changes of a step at once: memory for these is
//! asked for before.
#![tactic(auto)]

mod book;
mod marks;
mod node;
mod request;
mod row;
mod waits;

pub use book::PendingBook;
pub use marks::Mark;
pub use node::NodeRequests;
pub use request::{BookFault, Request, Source};
pub use row::Row;
pub use waits::Waits;
