//! Rows of tables known by their names, fields that name them, and the prefixes that nodes have.
#![tactic(auto)]

mod named_rows;
mod node;
mod node_masks;
mod node_prefixes;
mod several;

pub use named_rows::{Named, NamedRows};
pub use node::node_at;
pub use node_prefixes::{NodePrefixes, new_prefix_at};
pub use several::{are_own, links_at, nodes_at};
