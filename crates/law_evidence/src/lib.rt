//! What shows that the definitions of the law say what they are meant to: their terms in plain words, and steps and runs of small
//! networks that are worked by hand. Nothing stands on this crate.
#![tactic(auto)]

mod declined;
mod places;
mod readings;
mod spelling;
mod words;
mod worked;

pub use declined::{worked_declined_cards, worked_other_contents, worked_ways};
pub use places::{worked_full_node, worked_places};
pub use readings::{worked_first_faults, worked_grants, worked_messages};
pub use spelling::{worked_bytes, worked_faults_of_bytes};
pub use words::{
    plain_words, plain_words_of_advices, plain_words_of_contents, plain_words_of_late_approvals,
    plain_words_of_lent_amounts,
};
pub use worked::{
    worked_answers, worked_full_load, worked_late_run, worked_lent_amounts, worked_limits,
    worked_partial_reversals, worked_refusals, worked_reversals, worked_run, worked_two_hops,
    wrong_traces_are_not_legal,
};
