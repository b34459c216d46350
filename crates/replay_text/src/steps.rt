//! What the nodes put out for the lines of a script.
ghost use Rattle.std.specs.Prelude.{◌≡◌, ◌<◌, ◌^◌, List, [], length, Err, OnOk, OnErr};
ghost use Rattle.std.specs.List.{flat_map};
ghost use Rattle.card_digits.specs.Stream.{CountsFailure};
ghost use Rattle.message_text.specs.Printed.{CountsPrinted};
ghost use Rattle.net_replay.specs.Steps.{Step};
ghost use Rattle.net_replay.specs.Traces.{AreTraces};
ghost use Rattle.replay_text.specs.Fronts.{AppendsText, AppendsTextFront, SendsText, SendsTextFront};
ghost use Rattle.replay_text.specs.Lines.{heading_text, ordered_text, output_text, step_text, steps_text};

use crate::row::{ROW, put_heading, put_way};
use crate::sending::add_pieces;
use bundle_text::{MOST_WAITING, PrintFault, add_text, node_name, send};
use card_digits::{NodeNo, Sink, WriteFault};
use net_replay::{Steps, Traces};
use net_rows::Tables;
use std::alloc::Global;
use switch_node::{Entry, Output};

/// Adds the line of an output to what waits. Its way is put together in a row.
fn add_output<W: Sink>(
    writer: &mut W,
    waiting: &mut Vec<u8>,
    tables: &Tables,
    output: &Output,
) -> Result<(), WriteFault>
    ensures ok { OnOk result (SendsText W.Sink writer.old writer.new waiting.old.items (output_text tables.now output.now) waiting.new.items) }
    ensures err { OnErr result (SendsTextFront W.Sink writer.old writer.new waiting.old.items (output_text tables.now output.now)) }
    ensures counts { CountsFailure (W.failures writer.old) (W.failures writer.new) result }
{
    let mut row = [0u8; ROW];
    let end = put_way(&mut row, tables, output);
    add_pieces(writer, waiting, &[&row[..end], output.bytes(), b"\n"])
}

fn add_outputs<W: Sink>(
    writer: &mut W,
    waiting: &mut Vec<u8>,
    tables: &Tables,
    outputs: &[Output],
) -> Result<(), WriteFault>
    ensures ok { OnOk result (SendsText W.Sink writer.old writer.new waiting.old.items (flat_map (output_text tables.now) outputs.now) waiting.new.items) }
    ensures err { OnErr result (SendsTextFront W.Sink writer.old writer.new waiting.old.items (flat_map (output_text tables.now) outputs.now)) }
    ensures counts { CountsFailure (W.failures writer.old) (W.failures writer.new) result }
{
    for output in outputs {
        add_output(writer, waiting, tables, output)?;
    }
    Ok(())
}

/// Adds the line with a step's number and its node. It is put together in a row.
fn add_heading<W: Sink>(
    writer: &mut W,
    waiting: &mut Vec<u8>,
    tables: &Tables,
    number: u64,
    node: NodeNo,
) -> Result<(), WriteFault>
    ensures ok { OnOk result (SendsText W.Sink writer.old writer.new waiting.old.items (heading_text tables.now number node) waiting.new.items) }
    ensures err { OnErr result (SendsTextFront W.Sink writer.old writer.new waiting.old.items (heading_text tables.now number node)) }
    ensures counts { CountsFailure (W.failures writer.old) (W.failures writer.new) result }
{
    let mut row = [0u8; ROW];
    let end = put_heading(&mut row, number, node_name(tables, node));
    add_text(writer, waiting, &row[..end])
}

/// Adds the lines of a step: the number of its line and its node, and what went out.
fn add_step<W: Sink>(
    writer: &mut W,
    waiting: &mut Vec<u8>,
    tables: &Tables,
    number: u64,
    node: NodeNo,
    entry: &Entry,
) -> Result<(), WriteFault>
    ensures ok { OnOk result (SendsText W.Sink writer.old writer.new waiting.old.items (step_text tables.now number (record { node = node; entry = entry.now })) waiting.new.items) }
    ensures err { OnErr result (SendsTextFront W.Sink writer.old writer.new waiting.old.items (step_text tables.now number (record { node = node; entry = entry.now }))) }
    ensures counts { CountsFailure (W.failures writer.old) (W.failures writer.new) result }
{
    add_heading(writer, waiting, tables, number, node)?;
    add_outputs(writer, waiting, tables, entry.outputs().as_slice())
}

/// Writes the steps that are left, behind nothing that waits.
fn write_steps<W: Sink>(
    writer: &mut W,
    waiting: &mut Vec<u8>,
    tables: &Tables,
    steps: &mut Steps<'_>,
) -> Result<(), WriteFault>
    requires nothing { waiting.old.items ≡ [] }
    requires few { length steps.old < 2 ^ 63 }
    ensures ok { OnOk result (AppendsText W.Sink writer.old writer.new (ordered_text tables.now 1 steps.old)) }
    ensures err { OnErr result (AppendsTextFront W.Sink writer.old writer.new (ordered_text tables.now 1 steps.old)) }
    ensures counts { CountsFailure (W.failures writer.old) (W.failures writer.new) result }
{
    let mut number = 0u64;
    while let Some(step) = steps.next_step() {
        number += 1;
        add_step(writer, waiting, tables, number, step.node, step.entry)?;
    }
    send(writer, waiting)
}

/// Writes the text of what the lines of a script led to as it is made, line by line: the number of the line and the name of its node,
/// and below, behind two spaces each, what the node put out. The fault is `Memory` where nothing was written.
pub fn write_traces<W: Sink>(
    alloc: Global,
    tables: &Tables,
    traces: &Traces<'_>,
    writer: &mut W,
) -> Result<(), PrintFault>
    ensures ok { OnOk result ((steps : List Step) → AreTraces tables.now steps traces.now → AppendsText W.Sink writer.old writer.new (steps_text tables.now steps)) }
    ensures write { result ≡ Err PrintFault.Write → (steps : List Step) → AreTraces tables.now steps traces.now → AppendsTextFront W.Sink writer.old writer.new (steps_text tables.now steps) }
    ensures counts { CountsPrinted (W.failures writer.old) (W.failures writer.new) result }
    ensures memory { result ≡ Err PrintFault.Memory → W.written writer.new ≡ W.written writer.old }
{
    let Ok(mut waiting) = Vec::with_capacity(alloc, MOST_WAITING) else {
        return Err(PrintFault::Memory);
    };
    let Ok(mut steps) = traces.steps(alloc) else {
        return Err(PrintFault::Memory);
    };
    match write_steps(writer, &mut waiting, tables, &mut steps) {
        Ok(()) => Ok(()),
        Err(_) => Err(PrintFault::Write),
    }
}
