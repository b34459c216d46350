//! What a node reads in a message and in the tables, to refuse an input or to decide it, and what an order to lend has. Each call is the
//! definition of the same name in `network_law`, allocates nothing, and takes every message: what an absent element makes of an answer is
//! the definition's own.
#![tactic(auto)]

mod cards;
mod elements;
mod kinds;
mod lending;
mod limits;
mod links;
mod places;
mod required;

pub use cards::{card_of, has_good_card, label_of};
pub use elements::{acquirer_of, amount_of, is_approval, strange_actual, strange_original};
pub use kinds::{as_code, entered_kind, sent_kind, taken_kind};
pub use lending::Lending;
pub use limits::{Limits, is_due_again};
pub use links::{LinkStates, are_linked, first_up, first_up_between, is_link_of, joins, ticks_by};
pub use places::{
    card_number_of, day, has_issuer, is_at_home, is_attached, is_home, is_home_of, is_named,
    issuer_of, links_of, may_not_borrow, node_id, padded_node_id, route_links, single, stand_in_of,
};
pub use required::{missing_entered, missing_taken, required_entered, required_taken};
