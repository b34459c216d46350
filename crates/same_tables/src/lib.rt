//! Whether two tables are the same, row by row.
#![tactic(auto)]

mod lists;
mod rows;
mod tables;

pub use tables::same_tables;
