//! The calls of a node over buffers, for programs that tell it its inputs by numbers and bytes.
#![tactic(auto)]

mod input;
mod making;
mod output;
mod stepping;

pub use input::{InputKind, NodeInput};
pub use making::{MakeFault, make_node};
pub use output::{NodeOutput, OutputFault, output_into};
pub use stepping::{CallFault, step};
