//! Makes ranks for routing tables, or finds a circle in them.
#![tactic(auto)]

mod circle;
mod maker;
mod walk;

pub use circle::is_circle;
pub use maker::{Made, make};
