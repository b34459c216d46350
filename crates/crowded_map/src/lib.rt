//! A map whose keys strangers may choose. Keys that would crowd a few places of a hashed table lie in a tree beside it.
#![tactic(auto)]

mod crowds;
mod hashed;
mod map;
mod set;

pub use map::CrowdedMap;
pub use set::CrowdedSet;
