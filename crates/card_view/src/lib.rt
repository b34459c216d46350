//! What each node of a network does with one card, and all refusals of its tables, as text and as JSON.
#![tactic(auto)]

mod answer;
mod asked;
mod class;
mod days;
mod hops;
mod in_format;
mod issuer;
mod job;
mod listed;
mod node;
mod view;
mod ways;

pub use answer::view_answer;
pub use asked::{Asked, Format};
pub use class::class_of;
pub use days::days_sum;
pub use job::run_view;
pub use node::{is_home, rank_in};
pub use view::CardView;
pub use ways::{MOST_HOPS, links_of};
