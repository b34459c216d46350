//! All refusals of tables, each with the row that it speaks of.
#![tactic(auto)]

mod all;
mod at;
mod days;
mod lists;
mod ranks;
mod row;
mod twice;

pub use all::refusals;
pub use row::{RowRefusal, TableRow};
