//! From the bytes of an input to those of an answer, for each job of the program.
#![tactic(auto)]

mod bundle;

pub use bundle::{run_bundle, run_text};
pub use bundle_input::{BundleFault, InputFault};
