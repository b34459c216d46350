//! From the bytes of an input to the printed text: its parts, and the lines of faults and verdicts.
#![tactic(auto)]

mod answer;
mod check_text;
mod decode_text;
mod faults;
mod input_parts;
mod make_text;
mod names;
mod ranked;
mod refusals;

pub use answer::{Answer, Status, write_answer};
pub use check_text::{check_answer, parts_fault};
pub use decode_text::write_decoded;
pub use faults::{cert_fault_line, table_fault_line};
pub use input_parts::{parts, without_carriage_returns};
pub use make_text::make_answer;
pub use message_text::{MOST_WAITING, PrintFault, add_text, send};
pub use names::{NamedLink, NamedNode, NamedNodes, link_name, node_name};
pub use ranked::{
    AcceptedQuestion, TablesQuestion, accepted_answer, check_memory_answer, fault_answer,
    ranked_answer, refused_answer,
};
pub use refusals::refusal_line;
