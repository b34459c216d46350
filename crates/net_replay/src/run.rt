//! Running a script.
ghost use Rattle.std.specs.Prelude.{◌≡◌, ◌≢◌, [], List, Ok, Err, IfOk, IfErr};
ghost use Rattle.card_digits.specs.Lines.{lines};
ghost use Rattle.network_law.specs.Claims.{Safe, Covered};
ghost use Rattle.network_law.specs.Entries.{history};
ghost use Rattle.network_law.specs.Runs.{IsRun};
ghost use Rattle.net_replay.specs.declared.fault.ReplayFault.TheVariants.{Memory};
ghost use Rattle.net_replay.specs.Steps.{Step};
ghost use Rattle.net_replay.specs.Running.{IsStanding};
ghost use Rattle.net_replay.specs.Replays.{Leads, Fails};
ghost use Rattle.net_replay.specs.Outcome.{outcome};
ghost use Rattle.net_replay.specs.Traces.{AreTraces, trace_of};

use crate::fault::ReplayFault;
use crate::running::Running;
use crate::traces::Traces;
use net_rows::Tables;
use replay_script::{MalformedLine, Script};
use std::alloc::Global;
use table_checker::Accepted;

/// Runs the lines on nodes that nothing came to yet.
fn run_lines<'a>(
    nodes: Running<'a>,
    tables: &Tables,
    script: &[u8],
) -> Result<Traces<'a>, ReplayFault>
    requires tables { nodes.tables.now ≡ tables.now }
    requires standing { IsStanding nodes [] }
    ensures steps { IfOk result (λ r. (steps : List Step) × Leads tables.now [] (lines script.now) steps × AreTraces tables.now steps r) }
    ensures run { IfOk result (λ r. IsRun tables.now (trace_of r)) }
    ensures fault { IfErr result (λ f. f ≢ Memory → Fails tables.now [] 1 (lines script.now) f) }
{
    let mut running = nodes;
    let mut unread = Script::new(script);
    let mut number = unread.number();
    while let Some(line) = unread.next_line(tables) {
        match line {
            Ok(line) => {
                if let Err(fault) = running.run_line(number, &line) {
                    return Err(fault);
                }
            }
            Err(MalformedLine(number)) => return Err(ReplayFault::Line(number)),
        }
        number = unread.number();
    }
    Ok(running.traces())
}

/// Runs the lines of a script on the nodes of accepted tables, one after another, until one has a fault. A packet may be taken any
/// number of times and in any order, but not before it was put.
pub fn replay<'a>(
    alloc: Global,
    accepted: &Accepted<'a>,
    script: &[u8],
) -> Result<Traces<'a>, ReplayFault>
    // The lines lead to steps, and the traces are those of the steps: each node's inputs are what the lines say of it, in order.
    ensures steps { IfOk result (λ r. (steps : List Step) × Leads accepted.now [] (lines script.now) steps × AreTraces accepted.now steps r) }
    // They are what the lines' outcome says.
    ensures outcome { IfOk result (λ r. (steps : List Step) × (outcome accepted.now (lines script.now) ≡ Ok steps) × AreTraces accepted.now steps r) }
    // So they are a run: all that holds of every run of the tables holds of them.
    ensures run { IfOk result (λ r. IsRun accepted.now (trace_of r)) }
    ensures safe { IfOk result (λ r. Safe accepted.now (λ n. history (trace_of r n))) }
    ensures covered { IfOk result (λ r. Covered accepted.now (λ n. history (trace_of r n))) }
    ensures fault { IfErr result (λ f. f ≢ Memory → Fails accepted.now [] 1 (lines script.now) f) }
    ensures first_fault { IfErr result (λ f. f ≢ Memory → outcome accepted.now (lines script.now) ≡ Err f) }
{
    let tables = accepted.tables();
    let nodes = Running::new(alloc, accepted)?;
    run_lines(nodes, tables, script)
}
