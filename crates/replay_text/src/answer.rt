//! The answer of `replay`.
ghost use Rattle.std.specs.Prelude.{◌≡◌, List, map, Ok, Err, IfOk, OnOk};
ghost use Rattle.net_tables.specs.Reading.{tables_in};
ghost use Rattle.rank_cert.specs.Reading.{cert_in};
ghost use Rattle.table_checker.specs.Rules.{first_refusal};
ghost use Rattle.net_replay.specs.Steps.{Step};
ghost use Rattle.net_replay.specs.Traces.{AreTraces};
ghost use Rattle.replay_text.specs.Fronts.{AppendsText, AppendsTextFront};
ghost use Rattle.replay_text.specs.Lines.{steps_text};
ghost use Rattle.message_text.specs.Printed.{CountsPrinted};
ghost use Rattle.bundle_text.specs.Answers.{accepted_said, checked_said, fault};
ghost use Rattle.bundle_text.specs.Lines.{table_fault_line, cert_fault_line};
ghost use Rattle.replay_text.specs.Lines.{script_fault_line};
ghost use Rattle.replay_text.specs.Answers.{WritesReplay, WroteMade, WroteMadeFront, WroteReplay, WroteReplayFront, replay_parts, replay_said, script_said};

use crate::faults::script_fault_line;
use crate::steps::write_traces;
use bundle_text::{
    Answer, PrintFault, Status, cert_fault_line, check_memory_answer, fault_answer, parts,
    parts_fault, refused_answer, table_fault_line, without_carriage_returns, write_answer,
};
use card_digits::Sink;
use net_replay::{ReplayFault, Traces, replay};
use net_rows::Tables;
use net_tables::{TableFault, read_tables};
use rank_cert::{Cert, CertFault, read_cert};
use std::alloc::{AllocError, Global};
use std::mem::ManuallyDrop;
use table_checker::{Accepted, Refusal, check};

/// What becomes of the memory of traces behind the answer.
#[derive(Clone, Copy, Debug, PartialEq, Eq)]
pub enum TraceMemory {
    /// It is given back, piece by piece.
    Freed,
    /// It is never given back. This is for a process that ends behind its answer: giving back millions of small pieces would take a third of
    /// its time.
    Kept,
}

/// The answer of a script's fault.
fn script_fault_answer(alloc: Global, e: ReplayFault) -> Result<Answer, AllocError>
    ensures { IfOk result (λ a. a ≡ fault (script_fault_line e)) }
{
    let line = script_fault_line(alloc, e)?;
    Ok(fault_answer(line))
}

fn table_fault_answer(alloc: Global, e: TableFault) -> Result<Answer, AllocError>
    ensures { IfOk result (λ a. a ≡ fault (table_fault_line e)) }
{
    let line = table_fault_line(alloc, e)?;
    Ok(fault_answer(line))
}

fn cert_fault_answer(alloc: Global, e: CertFault) -> Result<Answer, AllocError>
    ensures { IfOk result (λ a. a ≡ fault (cert_fault_line e)) }
{
    let line = cert_fault_line(alloc, e)?;
    Ok(fault_answer(line))
}

/// Writes an answer, where there was memory to make it.
fn write_made<W: Sink>(
    writer: &mut W,
    made: Result<Answer, AllocError>,
) -> Result<Status, PrintFault>
    ensures ok { IfOk result (WroteMade made (W.written writer.old) (W.written writer.new)) }
    ensures write { result ≡ Err PrintFault.Write → WroteMadeFront made (W.written writer.old) (W.written writer.new) }
    ensures counts { CountsPrinted (W.failures writer.old) (W.failures writer.new) result }
    ensures memory { result ≡ Err PrintFault.Memory → W.written writer.new ≡ W.written writer.old }
{
    match made {
        Ok(answer) => write_answer(writer, &answer),
        Err(_) => Err(PrintFault::Memory),
    }
}

/// Writes what the nodes put out.
fn write_kept<W: Sink>(
    alloc: Global,
    tables: &Tables,
    traces: Traces<'_>,
    trace_memory: TraceMemory,
    writer: &mut W,
) -> Result<(), PrintFault>
    ensures ok { OnOk result ((steps : List Step) → AreTraces tables.now steps traces.entry → AppendsText W.Sink writer.old writer.new (steps_text tables.now steps)) }
    ensures write { result ≡ Err PrintFault.Write → (steps : List Step) → AreTraces tables.now steps traces.entry → AppendsTextFront W.Sink writer.old writer.new (steps_text tables.now steps) }
    ensures counts { CountsPrinted (W.failures writer.old) (W.failures writer.new) result }
    ensures memory { result ≡ Err PrintFault.Memory → W.written writer.new ≡ W.written writer.old }
{
    match trace_memory {
        TraceMemory::Freed => write_traces(alloc, tables, &traces, writer),
        TraceMemory::Kept => {
            let kept = ManuallyDrop::new(traces);
            write_traces(alloc, tables, &kept, writer)
        }
    }
}

/// Writes the answer to a script on accepted tables.
fn write_script<W: Sink>(
    alloc: Global,
    tables: &Tables,
    accepted: &Accepted<'_>,
    script: &[u8],
    trace_memory: TraceMemory,
    writer: &mut W,
) -> Result<Status, PrintFault>
    requires { accepted.now ≡ tables.now }
    ensures ok { IfOk result (WroteReplay W.Sink writer.old writer.new (script_said script.now tables.now)) }
    ensures write { result ≡ Err PrintFault.Write → WroteReplayFront W.Sink writer.old writer.new (script_said script.now tables.now) }
    ensures counts { CountsPrinted (W.failures writer.old) (W.failures writer.new) result }
    ensures memory { result ≡ Err PrintFault.Memory → W.written writer.new ≡ W.written writer.old }
{
    match replay(alloc, accepted, script) {
        Ok(traces) => match write_kept(alloc, tables, traces, trace_memory, writer) {
            Ok(()) => Ok(Status::Done),
            Err(fault) => Err(fault),
        },
        Err(fault) => write_made(writer, script_fault_answer(alloc, fault)),
    }
}

/// Writes the answer to a script on tables with their ranks.
fn write_checked<W: Sink>(
    alloc: Global,
    tables: &Tables,
    cert: &Cert,
    script: &[u8],
    trace_memory: TraceMemory,
    writer: &mut W,
) -> Result<Status, PrintFault>
    ensures { WritesReplay W.Sink writer.old writer.new (checked_said (script_said script.now) tables.now (first_refusal tables.now cert.now)) result }
{
    match check(alloc, tables, cert) {
        Ok(accepted) => write_script(alloc, tables, &accepted, script, trace_memory, writer),
        Err(Refusal::Memory) => write_made(writer, check_memory_answer(alloc)),
        Err(refusal) => write_made(writer, refused_answer(alloc, tables, &refusal)),
    }
}

/// Writes the first fault of the ranks, or the answer to the script.
fn write_ranked<W: Sink>(
    alloc: Global,
    tables: &Tables,
    ranks: &[u8],
    script: &[u8],
    trace_memory: TraceMemory,
    writer: &mut W,
) -> Result<Status, PrintFault>
    ensures { WritesReplay W.Sink writer.old writer.new (accepted_said (script_said script.now) (Ok tables.now) (cert_in ranks.now)) result }
{
    match read_cert(alloc, ranks) {
        Ok(cert) => write_checked(alloc, tables, &cert, script, trace_memory, writer),
        Err(e) => write_made(writer, cert_fault_answer(alloc, e)),
    }
}

/// Writes the first fault of tables and ranks, or the answer to the script.
fn write_read<W: Sink>(
    alloc: Global,
    tables: &[u8],
    ranks: &[u8],
    script: &[u8],
    trace_memory: TraceMemory,
    writer: &mut W,
) -> Result<Status, PrintFault>
    ensures { WritesReplay W.Sink writer.old writer.new (accepted_said (script_said script.now) (tables_in tables.now) (cert_in ranks.now)) result }
{
    match read_tables(alloc, tables) {
        Ok(tables) => write_ranked(alloc, &tables, ranks, script, trace_memory, writer),
        Err(e) => write_made(writer, table_fault_answer(alloc, e)),
    }
}

#[tactic(auto, using(crate::proofs::Parts::not_three, bundle_text::proofs::Pairs::three))]
fn write_parts<W: Sink>(
    alloc: Global,
    parts: &[&[u8]],
    trace_memory: TraceMemory,
    writer: &mut W,
) -> Result<Status, PrintFault>
    ensures { WritesReplay W.Sink writer.old writer.new (replay_parts (map (λ p. p.now) parts.now)) result }
{
    if parts.len() != 3 {
        return write_made(writer, parts_fault(alloc));
    }
    write_read(alloc, parts[0], parts[1], parts[2], trace_memory, writer)
}

/// Writes the answer of `replay` to an input of three parts, tables, ranks and a script: what the nodes put out for each line, the first
/// fault, or the refusal of the tables. A fault anywhere in the script is written alone, so nothing is written before its last line.
/// The fault is `Write` where the writer failed, behind a beginning of the answer, and `Memory` where nothing was written.
pub fn write_replayed<W: Sink>(
    alloc: Global,
    input: &[u8],
    trace_memory: TraceMemory,
    writer: &mut W,
) -> Result<Status, PrintFault>
    ensures ok { IfOk result (WroteReplay W.Sink writer.old writer.new (replay_said input.now)) }
    ensures write { result ≡ Err PrintFault.Write → WroteReplayFront W.Sink writer.old writer.new (replay_said input.now) }
    ensures counts { CountsPrinted (W.failures writer.old) (W.failures writer.new) result }
    ensures memory { result ≡ Err PrintFault.Memory → W.written writer.new ≡ W.written writer.old }
{
    let Ok(text) = without_carriage_returns(alloc, input) else {
        return Err(PrintFault::Memory);
    };
    let Ok(parts) = parts(alloc, &text) else {
        return Err(PrintFault::Memory);
    };
    write_parts(alloc, &parts, trace_memory, writer)
}
