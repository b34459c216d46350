//! The table of a printed trace.
ghost use Rattle.std.specs.Prelude.{None};
ghost use Rattle.card_digits.specs.Attempts.{Gives};
ghost use Rattle.card_digits.specs.Lines.{lines};
ghost use Rattle.trace_view.specs.Faults.{is_memory, names_memory};
ghost use Rattle.trace_view.specs.Inputs.{lines_now};
ghost use Rattle.trace_view.specs.Table.{line_onto, output_onto, rows_onto, sent_onto, step_onto};

use crate::fault::{LineFault, TraceFault};
use crate::inputs::add_input;
use crate::line::{Step, Way, read_output, read_step};
use crate::packet::sent_in;
use crate::rows::add_output_row;
use card_digits::first_line;
use iso_message::Message;
use message_elements::Kind;
use net_rows::Tables;
use std::alloc::Global;

/// Adds the row of an input, and keeps it as the step that the lines behind may belong to.
#[tactic(auto, using(card_digits::proofs::Attempts::fails_from, card_digits::proofs::Attempts::fails_bind))]
fn add_step(
    text: &mut Vec<u8>,
    message: &mut Message,
    tables: &Tables,
    script: Option<&[&[u8]]>,
    above: &mut Option<Step>,
    line: &[u8],
) -> Result<(), LineFault>
    ensures { Gives is_memory (λ _. (above.new, text.new.items)) result (step_onto tables.now (lines_now script.entry) text.old.items line.now) }
{
    let step = read_step(tables, line)?;
    add_input(text, message, tables, script, &step)?;
    *above = Some(step);
    Ok(())
}

/// Adds the row of bytes that went out.
#[tactic(auto, using(card_digits::proofs::Attempts::fails_from))]
fn add_sent(
    text: &mut Vec<u8>,
    message: &mut Message,
    tables: &Tables,
    step: &Step,
    way: &Way,
    bytes: &[u8],
) -> Result<(), LineFault>
    ensures { Gives is_memory (λ _. text.new.items) result (sent_onto tables.now text.old.items step.now (way.now, bytes.now)) }
{
    match sent_in(message, way, bytes) {
        Ok(Some(packet)) => Ok(add_output_row(text, tables, step, way, &packet)?),
        Ok(None) => Err(LineFault::NoMessage),
        Err(_) => Err(LineFault::Memory),
    }
}

/// Adds the row of what went out at a step.
#[tactic(auto, using(card_digits::proofs::Attempts::fails_from))]
fn add_output(
    text: &mut Vec<u8>,
    message: &mut Message,
    tables: &Tables,
    step: &Step,
    line: &[u8],
) -> Result<(), LineFault>
    ensures { Gives is_memory (λ _. text.new.items) result (output_onto tables.now text.old.items step.now line.now) }
{
    match read_output(tables, step.node, line) {
        Ok((way, bytes)) => add_sent(text, message, tables, step, &way, bytes),
        Err(fault) => Err(fault),
    }
}

/// Adds the row of a line below a step.
fn add_line(
    text: &mut Vec<u8>,
    message: &mut Message,
    tables: &Tables,
    script: Option<&[&[u8]]>,
    above: &mut Option<Step>,
    line: &[u8],
) -> Result<(), LineFault>
    ensures { Gives is_memory (λ _. (above.new, text.new.items)) result (line_onto tables.now (lines_now script.entry) text.old.items above.old line.now) }
{
    let Some(output) = line.strip_prefix(b"  ") else {
        return add_step(text, message, tables, script, above, line);
    };
    match above {
        Some(step) => add_output(text, message, tables, step, output),
        None => Err(LineFault::NoNode),
    }
}

/// Adds a row for each line of a trace, up to the first that has a fault.
pub(crate) fn add_rows(
    alloc: Global,
    text: &mut Vec<u8>,
    tables: &Tables,
    script: Option<&[&[u8]]>,
    trace: &[u8],
) -> Result<(), TraceFault>
    ensures { Gives names_memory (λ _. text.new.items) result (rows_onto tables.now (lines_now script.entry) text.old.items 1 None (lines trace.now)) }
{
    let mut message = Message::new(alloc, Kind::K0100);
    let mut above = None;
    let mut number = 1;
    let mut rest = trace;
    while let Some((line, behind)) = first_line(rest) {
        match add_line(text, &mut message, tables, script, &mut above, line) {
            Ok(()) => {}
            Err(fault) => return Err(TraceFault {
                fault,
                line: number,
            }),
        }
        number += 1;
        rest = behind;
    }
    Ok(())
}
