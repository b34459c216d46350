//! Rows of routing and stand-in tables in TOML: their fields, and what is wrong with them.
#![tactic(auto)]

mod fault;
mod field;
mod keys;
mod place;
mod shape;
mod value;

pub use fault::TableFault;
pub use field::Row;
pub use keys::{get, has_only_tables};
pub use place::{Key, Place, Table};
pub use shape::{misshapen, rows_at};
