//! Which inputs a node refuses by its books, and with which fault.
#![tactic(auto)]

mod lending;
mod places;
mod readings;
mod refusals;

pub use lending::{allowance, may_not_lend, used};
pub use places::PLACES;
pub use readings::{
    comes_late, is_pending, is_reversing, other_content, own_reversal, same_source,
};
pub use refusals::{refuse_entered, refuse_host_answer, refuse_lend, refuse_packet, refuse_taken};
