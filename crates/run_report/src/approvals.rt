//! What nodes approved by themselves, counted in their traces.
ghost use Rattle.std.specs.Prelude.{◌≡◌, List, not, IfOk, OnOk};
ghost use Rattle.run_report.specs.declared.answered.Answered.{Answered};
ghost use Rattle.run_report.specs.Counted.{counted};
ghost use Rattle.run_report.specs.Own.{is_response, brings_answer, answer_of, answer_in, output_answer, with_answer, answers_onto, answers_given, own_of};
ghost use Rattle.run_report.specs.Reports.{own_total};
ghost use Rattle.run_report.specs.Stations.{own_approvals};
ghost use Rattle.run_report.specs.Tally.{Counts};

use crate::answered::Answered;
use crate::messages::read_message;
use crate::tally::Tally;
use iso_message::Message;
use kept_messages::Way;
use message_elements::response_codes;
use message_keys::{code_of, key_of};
use net_threads::Station;
use std::alloc::{AllocError, Global};
use switch_node::{Case, Entry, Input, Output};

/// Whether the bytes begin as those of a response to a request do.
fn is_response(bytes: &[u8]) -> bool
    ensures { result ≡ is_response bytes.now }
{
    bytes.starts_with(b"0110")
}

/// Whether an answer that is given at this input is the host's, or one that came by a link.
fn brings_answer(input: &Input) -> bool
    ensures { result ≡ brings_answer input.now }
{
    match input.case() {
        Case::HostAnswer(_, _) => true,
        Case::Take(_, _, bytes) => is_response(bytes.as_slice()),
        _ => false,
    }
}

/// The answer that a response is, where it has a key and a code. A response with code 94 answers none.
fn answer_of(message: &Message, alone: bool) -> Option<Answered>
    ensures { result ≡ answer_of alone message.now }
{
    let key = key_of(message)?;
    let code = code_of(message)?;
    if code.as_slice() == response_codes::DUPLICATE_TRANSMISSION.as_slice() {
        return None;
    }
    let approves = code.as_slice() == response_codes::APPROVED.as_slice();
    Some(Answered {
        key,
        approves,
        alone,
    })
}

fn answer_in(alloc: Global, bytes: &[u8], alone: bool) -> Result<Option<Answered>, AllocError>
    ensures { IfOk result (λ a. a ≡ answer_in alone bytes.now) }
{
    if !is_response(bytes) {
        return Ok(None);
    }
    match read_message(alloc, bytes)? {
        Some(message) => Ok(answer_of(&message, alone)),
        None => Ok(None),
    }
}

/// The answer that goes out to the acquirer or on a link.
fn output_answer(
    alloc: Global,
    output: &Output,
    alone: bool,
) -> Result<Option<Answered>, AllocError>
    ensures { IfOk result (λ a. a ≡ output_answer alone output.now) }
{
    match output.way() {
        Way::Answer => answer_in(alloc, output.bytes(), alone),
        Way::Put(_, _) => answer_in(alloc, output.bytes(), alone),
        _ => Ok(None),
    }
}

fn add_output(
    alloc: Global,
    tally: &mut Tally,
    output: &Output,
    alone: bool,
) -> Result<(), AllocError>
    ensures { OnOk result ((before : List Answered) → Counts tally.old before → Counts tally.new (with_answer (output_answer alone output.now) before)) }
{
    match output_answer(alloc, output, alone)? {
        Some(answer) => tally.add(answer),
        None => Ok(()),
    }
}

fn add_outputs(
    alloc: Global,
    tally: &mut Tally,
    outputs: &[Output],
    alone: bool,
) -> Result<(), AllocError>
    ensures { OnOk result ((before : List Answered) → Counts tally.old before → Counts tally.new (answers_onto alone outputs.now before)) }
{
    for output in outputs {
        add_output(alloc, tally, output, alone)?;
    }
    Ok(())
}

/// Adds the answers of an entry.
fn add_entry(alloc: Global, tally: &mut Tally, entry: &Entry) -> Result<(), AllocError>
    ensures { OnOk result ((before : List Answered) → Counts tally.old before → Counts tally.new (answers_onto (not (brings_answer entry.now.input)) entry.now.outputs before)) }
{
    let alone = !brings_answer(entry.input());
    add_outputs(alloc, tally, entry.outputs().as_slice(), alone)
}

/// How many keys the answers in a station's trace show as approved by its node itself.
fn own_in_trace(alloc: Global, station: &Station<'_>) -> Result<u64, AllocError>
    ensures { IfOk result (λ n. n ≡ counted (own_of station.now.trace)) }
{
    let trace = station.trace();
    let mut tally = Tally::new(alloc);
    for entry in trace {
        add_entry(alloc, &mut tally, entry)?;
    }
    Ok(tally.own)
}

/// How many keys the node of a station approved by itself.
fn own_approvals(alloc: Global, station: &Station<'_>) -> Result<u64, AllocError>
    ensures { IfOk result (λ n. n ≡ counted (own_approvals station.now)) }
{
    // The rows of a station's tables are sound and its trace is legal, so what the trace shows is what the law says.
    let _ = station.tables().nodes();
    let _ = station.trace();
    own_in_trace(alloc, station)
}

/// How many keys the nodes approved by themselves.
pub(crate) fn own_total(alloc: Global, stations: &[Station<'_>]) -> Result<u64, AllocError>
    ensures { IfOk result (λ n. n ≡ own_total stations.now) }
{
    let mut own: u64 = 0;
    for station in stations {
        own = own.saturating_add(own_approvals(alloc, station)?);
    }
    Ok(own)
}
