//! From a plan's text to its report.
ghost use Rattle.std.specs.Prelude.{◌≡◌, IfOk, map};
ghost use Rattle.card_digits.specs.Lines.{lines};
ghost use Rattle.run_report.specs.Runs.{RunsPlan, RunsText};

use crate::limit_host::LimitHost;
use crate::reporting::report;
use net_operate::{OperateFault, operate};
use net_threads::Network;
use run_plan::{Plan, PlanFault, read_plan};
use std::alloc::{AllocError, Global};
use std::sync::Wait;
use std::thread::Threads;
use table_checker::Accepted;
use thiserror::Error;

/// Why there is no report.
#[derive(Clone, Copy, Debug, PartialEq, Eq, Error)]
pub enum RunFault {
    /// The text is no plan.
    #[error(transparent)]
    Plan(PlanFault),
    /// A thread could not be started.
    #[error("a thread could not be started")]
    Threads,
    #[error("no memory")]
    Memory,
}

/// The host of each node.
fn hosts_of(alloc: Global, plan: &Plan<'_>) -> Result<Vec<LimitHost>, AllocError>
    ensures { IfOk result (λ hosts. map (λ h. h.amount) hosts.items ≡ plan.now.limits.items) }
{
    let mut hosts = Vec::new(alloc);
    for amount in plan.limits.iter() {
        hosts.push(LimitHost { amount: *amount })?;
    }
    Ok(hosts)
}

/// Runs a plan, and gives its report.
fn run<R: Threads + Wait + Sync>(
    rt: &R,
    alloc: Global,
    accepted: &Accepted<'_>,
    plan: &Plan<'_>,
) -> Result<String, RunFault>
    ensures { RunsPlan accepted.now plan.now.sessions.items result }
{
    let Ok(hosts) = hosts_of(alloc, plan) else {
        return Err(RunFault::Memory);
    };
    let Ok(network) = Network::new(alloc, accepted) else {
        return Err(RunFault::Memory);
    };
    let ended = match operate(rt, alloc, &network, plan, hosts.as_slice()) {
        Ok(ended) => ended,
        Err(OperateFault::Thread) => return Err(RunFault::Threads),
        Err(OperateFault::Memory) => return Err(RunFault::Memory),
    };
    let Ok(finished) = network.finish(&ended) else {
        return Err(RunFault::Memory);
    };
    match report(alloc, accepted, &ended, &finished) {
        Ok(text) => Ok(text),
        Err(_) => Err(RunFault::Memory),
    }
}

/// Reads a plan, runs it on a network of the accepted tables, and gives the report, without a line feed at its end.
pub fn run_plan_text<R: Threads + Wait + Sync>(
    rt: &R,
    alloc: Global,
    accepted: &Accepted<'_>,
    text: &[u8],
) -> Result<String, RunFault>
    // The fault of the plan, exactly; or a report of what sessions ended with and traces show.
    ensures { RunsText accepted.now (lines text.now) result }
{
    match read_plan(alloc, accepted, text) {
        Ok(plan) => run(rt, alloc, accepted, &plan),
        Err(fault) => Err(RunFault::Plan(fault)),
    }
}
