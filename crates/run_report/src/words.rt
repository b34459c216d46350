//! The words of a report.
ghost use Rattle.std.specs.Prelude.{◌≡◌, IfOk, string_bytes};
ghost use Rattle.run_report.specs.Answers.{fault_number, code_text, end_text};
ghost use Rattle.run_report.specs.Reports.{node_name, link_name, verdict_text};

use crate::messages::read_message;
use card_digits::{LinkNo, NodeNo};
use message_elements::Code;
use message_keys::code_of;
use net_rows::Tables;
use net_threads::{LineEnd, StationFault, Verdict};
use std::alloc::{AllocError, Global};

/// The number of a fault, as the texts have it.
fn fault_number(fault: StationFault) -> u8
    ensures { result ≡ fault_number fault }
{
    match fault {
        StationFault::StrangeLink => 11,
        StationFault::Step(fault) => fault.number(),
    }
}

fn text_of_code(alloc: Global, code: &Code) -> Result<String, AllocError>
    ensures { IfOk result (λ s. string_bytes s ≡ code.now) }
{
    String::from_utf8_lossy(alloc, code.as_slice())
}

/// The code of an answer.
fn code_text(alloc: Global, bytes: &[u8]) -> Result<String, AllocError>
    ensures { IfOk result (λ s. string_bytes s ≡ code_text bytes.now) }
{
    if let Some(message) = read_message(alloc, bytes)? {
        if let Some(code) = code_of(&message) {
            return text_of_code(alloc, &code);
        }
    }
    String::from_str(alloc, "none")
}

/// What is said of a line's end.
pub(crate) fn end_text(alloc: Global, end: &LineEnd) -> Result<String, AllocError>
    ensures { IfOk result (λ s. string_bytes s ≡ end_text end.now) }
{
    match end {
        LineEnd::Answer(bytes) => code_text(alloc, bytes.as_slice()),
        LineEnd::Nothing => String::from_str(alloc, "none"),
        LineEnd::Refused(fault) => {
            let number = fault_number(*fault);
            format!(in alloc; "refused {number}")
        }
    }
}

fn node_name(alloc: Global, tables: &Tables, node: NodeNo) -> Result<String, AllocError>
    ensures { IfOk result (λ s. string_bytes s ≡ node_name tables.now node) }
{
    match tables.nodes().get(node.place()) {
        Some(row) => String::from_utf8_lossy(alloc, row.name.as_slice()),
        None => String::from_str(alloc, ""),
    }
}

fn link_name(alloc: Global, tables: &Tables, link: LinkNo) -> Result<String, AllocError>
    ensures { IfOk result (λ s. string_bytes s ≡ link_name tables.now link) }
{
    match tables.links().get(link.place()) {
        Some(row) => String::from_utf8_lossy(alloc, row.name.as_slice()),
        None => String::from_str(alloc, ""),
    }
}

/// The words of a verdict.
pub(crate) fn verdict_text(
    alloc: Global,
    tables: &Tables,
    verdict: Verdict,
) -> Result<String, AllocError>
    ensures { IfOk result (λ s. string_bytes s ≡ verdict_text tables.now verdict) }
{
    match verdict {
        Verdict::Linked => String::from_str(alloc, "yes"),
        Verdict::StationStrange(node) => {
            let name = node_name(alloc, tables, node)?;
            format!(in alloc; "station {name}")
        }
        Verdict::LinkStrange(link, serial) => {
            let name = link_name(alloc, tables, link)?;
            format!(in alloc; "link {name} {serial}")
        }
        Verdict::AnswerStrange(session, line) => format!(in alloc; "answer {session} {line}"),
    }
}
