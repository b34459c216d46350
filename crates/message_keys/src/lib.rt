//! What messages are known by: keys, identities of advices, contents, response codes and actual amounts.
#![tactic(auto)]

mod amount;
mod keys;
pub mod laws;

pub use amount::actual_amount;
pub use keys::{
    AdviceId, AdviceKind, advice_id, code_of, has_own_key, key_of, original_key, same_content,
    same_identity, same_key,
};
