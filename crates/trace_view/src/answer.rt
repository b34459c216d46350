//! The answer to an input.
ghost use Rattle.std.specs.Prelude.{◌≡◌, IfOk, map, None};
ghost use Rattle.std.specs.Option.{option_copied};
ghost use Rattle.card_digits.specs.Lines.{lines};
ghost use Rattle.net_tables.specs.Reading.{tables_in};
ghost use Rattle.rank_cert.specs.Reading.{cert_in};
ghost use Rattle.bundle_text.specs.Answers.{accepted_said};
ghost use Rattle.trace_view.specs.Answers.{AnswersTrace, IsTable, table_said, trace_parts, trace_said, traced_said};
ghost use Rattle.trace_view.specs.Inputs.{lines_now};
ghost use Rattle.trace_view.specs.Rows.{heading};
ghost use Rattle.trace_view.specs.Table.{rows_onto};

use crate::fault::trace_fault_line;
use crate::inputs::lines_of;
use crate::rows::heading;
use crate::table::add_rows;
use bundle_text::{
    AcceptedQuestion, Answer, Status, accepted_answer, fault_answer, parts, parts_fault,
    without_carriage_returns,
};
use net_rows::Tables;
use std::alloc::{AllocError, Global};
use table_checker::Accepted;

/// The table of a trace, or its first fault.
#[tactic(auto, using(card_digits::proofs::Attempts::fails_either))]
fn table_of(
    alloc: Global,
    tables: &Tables,
    script: Option<&[&[u8]]>,
    trace: &[u8],
) -> Result<Answer, AllocError>
    ensures { IfOk result (λ a. AnswersTrace a (table_said (rows_onto tables.now (lines_now script.entry) heading 1 None (lines trace.now)))) }
{
    let mut text = heading(alloc)?;
    match add_rows(alloc, &mut text, tables, script, trace) {
        Ok(()) => Ok(Answer::new(text, Status::Done)),
        Err(fault) => Ok(fault_answer(trace_fault_line(alloc, fault)?)),
    }
}

/// The same, where the script is cut in lines first.
fn table(
    alloc: Global,
    tables: &Tables,
    script: Option<&[u8]>,
    trace: &[u8],
) -> Result<Answer, AllocError>
    ensures { IfOk result (λ a. AnswersTrace a (traced_said (option_copied script.entry) trace.now tables.now)) }
{
    match script {
        Some(script) => {
            let lines = lines_of(alloc, script)?;
            table_of(alloc, tables, Some(lines.as_slice()), trace)
        }
        None => table_of(alloc, tables, None, trace),
    }
}

/// The table of a trace is asked for, with its script or without.
#[derive(Clone, Copy)]
struct TraceQuestion<'a> {
    script: Option<&'a [u8]>,
    trace: &'a [u8],
}

impl AcceptedQuestion for TraceQuestion<'_> {
    ghost is_answer_to = { λ asked. IsTable (option_copied asked.script) asked.trace.now };

    fn answer_to(
        &self,
        alloc: Global,
        tables: &Tables,
        _accepted: &Accepted<'_>,
    ) -> Result<Answer, AllocError> {
        table(alloc, tables, self.script, self.trace)
    }
}

/// The first fault of tables and ranks, or the answer to the trace.
#[tactic(auto, using(crate::proofs::Tables::of_read))]
fn of_read(
    alloc: Global,
    tables: &[u8],
    ranks: &[u8],
    script: Option<&[u8]>,
    trace: &[u8],
) -> Result<Answer, AllocError>
    ensures { IfOk result (λ a. AnswersTrace a (accepted_said (traced_said (option_copied script.entry) trace.now) (tables_in tables.now) (cert_in ranks.now))) }
{
    accepted_answer(alloc, &TraceQuestion { script, trace }, tables, ranks)
}

#[tactic(auto, using(crate::proofs::Parts::others, bundle_text::proofs::Pairs::three, crate::proofs::Parts::four))]
fn of_parts(alloc: Global, parts: &[&[u8]]) -> Result<Answer, AllocError>
    ensures { IfOk result (λ a. AnswersTrace a (trace_parts (map (λ p. p.now) parts.now))) }
{
    if parts.len() == 3 {
        return of_read(alloc, parts[0], parts[1], None, parts[2]);
    }
    if parts.len() == 4 {
        return of_read(alloc, parts[0], parts[1], Some(parts[2]), parts[3]);
    }
    parts_fault(alloc)
}

/// The answer to an input of three parts, tables, ranks and what `replay` printed, or of four, with the script before what was printed: the table
/// of the trace, the first fault, or the refusal of the tables, on which no trace can be printed.
pub fn trace_answer(alloc: Global, input: &[u8]) -> Result<Answer, AllocError>
    ensures { IfOk result (λ a. AnswersTrace a (trace_said input.now)) }
{
    let text = without_carriage_returns(alloc, input)?;
    let parts = parts(alloc, &text)?;
    of_parts(alloc, &parts)
}
