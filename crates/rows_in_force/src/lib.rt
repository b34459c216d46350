//! The rows in force at a class, for each node, found class by class.
#![tactic(auto)]

mod fronts;
mod in_force;
mod link_ends;
mod own;
mod placed;

pub use in_force::InForce;
pub use link_ends::LinkEnds;
pub use placed::Placed;
