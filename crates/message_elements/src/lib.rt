//! The words of messages of the form of ISO 8583:1987: their types, the table of their elements and which values these take, response
//! codes, and the faults of reading.
#![tactic(auto)]

mod code;
pub mod elements;
mod fault;
mod form;
mod kind;
pub mod response_codes;
mod values;

pub use code::Code;
pub use fault::DecodeFault;
pub use form::{Class, FixedForm, Form, fixed_form_at, form_at};
pub use kind::{Group, Kind};
pub use values::{are_of, value_fault};
