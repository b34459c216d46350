//! The answer of `run`.
ghost use Rattle.std.specs.Prelude.{◌≡◌, ◌⊎◌, map, Ok, IfOk};
ghost use Rattle.net_tables.specs.Reading.{tables_in};
ghost use Rattle.rank_cert.specs.Reading.{cert_in};
ghost use Rattle.table_checker.specs.Rules.{first_refusal};
ghost use Rattle.bundle_text.specs.Answers.{IsOfAccepted, IsOfChecked, NamesMemory};
ghost use Rattle.run_report.specs.Printed.{said_of, IsOfPlan, IsOfParts, RunAnswers};

use crate::fault_lines::run_fault_line;
use crate::text_run::{RunFault, run_plan_text};
use bundle_text::{
    Answer, Status, cert_fault_line, check_memory_answer, fault_answer, parts, parts_fault,
    refused_answer, table_fault_line, without_carriage_returns,
};
use net_rows::Tables;
use net_tables::read_tables;
use rank_cert::{Cert, read_cert};
use std::alloc::{AllocError, Global};
use std::sync::Wait;
use std::thread::Threads;
use table_checker::{Accepted, Refusal, check};

/// What is printed of a report, or of the fault for which there is none.
fn said_of(alloc: Global, run: Result<String, RunFault>) -> Result<Answer, AllocError>
    ensures { IfOk result (λ a. a ≡ said_of run) }
{
    match run {
        Ok(report) => {
            let line = format!(in alloc; "{report}\n")?;
            Ok(Answer::new(line.into_bytes(), Status::Done))
        }
        Err(fault) => Ok(fault_answer(run_fault_line(alloc, fault)?)),
    }
}

/// The report of a plan on accepted tables, or its fault.
fn plan_answer<R: Threads + Wait + Sync>(
    rt: &R,
    alloc: Global,
    accepted: &Accepted<'_>,
    plan: &[u8],
) -> Result<Answer, AllocError>
    ensures { IfOk result (IsOfPlan plan.now accepted.now) }
{
    said_of(alloc, run_plan_text(rt, alloc, accepted, plan))
}

/// The answer to a plan on tables with their ranks.
fn checked_answer<R: Threads + Wait + Sync>(
    rt: &R,
    alloc: Global,
    tables: &Tables,
    cert: &Cert,
    plan: &[u8],
) -> Result<Answer, AllocError>
    ensures { IfOk result (λ a. IsOfChecked (IsOfPlan plan.now) tables.now (first_refusal tables.now cert.now) a ⊎ NamesMemory a) }
{
    match check(alloc, tables, cert) {
        Ok(accepted) => plan_answer(rt, alloc, &accepted, plan),
        Err(Refusal::Memory) => check_memory_answer(alloc),
        Err(refusal) => refused_answer(alloc, tables, &refusal),
    }
}

/// The first fault of the ranks, or the answer to the plan.
fn ranked_answer<R: Threads + Wait + Sync>(
    rt: &R,
    alloc: Global,
    tables: &Tables,
    ranks: &[u8],
    plan: &[u8],
) -> Result<Answer, AllocError>
    ensures { IfOk result (λ a. IsOfAccepted (IsOfPlan plan.now) (Ok tables.now) (cert_in ranks.now) a ⊎ NamesMemory a) }
{
    match read_cert(alloc, ranks) {
        Ok(cert) => checked_answer(rt, alloc, tables, &cert, plan),
        Err(e) => Ok(fault_answer(cert_fault_line(alloc, e)?)),
    }
}

/// The first fault of tables and ranks, or the answer to the plan.
fn read_answer<R: Threads + Wait + Sync>(
    rt: &R,
    alloc: Global,
    tables: &[u8],
    ranks: &[u8],
    plan: &[u8],
) -> Result<Answer, AllocError>
    ensures { IfOk result (λ a. IsOfAccepted (IsOfPlan plan.now) (tables_in tables.now) (cert_in ranks.now) a ⊎ NamesMemory a) }
{
    match read_tables(alloc, tables) {
        Ok(tables) => ranked_answer(rt, alloc, &tables, ranks, plan),
        Err(e) => Ok(fault_answer(table_fault_line(alloc, e)?)),
    }
}

#[tactic(auto, using(crate::proofs::Parts::of_others, bundle_text::proofs::Pairs::three))]
fn answer_of<R: Threads + Wait + Sync>(
    rt: &R,
    alloc: Global,
    parts: &[&[u8]],
) -> Result<Answer, AllocError>
    ensures { IfOk result (λ a. IsOfParts (map (λ p. p.now) parts.now) a ⊎ NamesMemory a) }
{
    if parts.len() != 3 {
        return parts_fault(alloc);
    }
    read_answer(rt, alloc, parts[0], parts[1], parts[2])
}

/// The answer of `run` to an input of three parts, tables, ranks and a plan: the report of what the threads did, the first fault, or
/// the refusal of the tables. All threads have ended at the return.
pub fn run_answer<R: Threads + Wait + Sync>(
    rt: &R,
    alloc: Global,
    input: &[u8],
) -> Result<Answer, AllocError>
    ensures { IfOk result (λ a. RunAnswers input.now a) }
{
    let text = without_carriage_returns(alloc, input)?;
    let parts = parts(alloc, &text)?;
    answer_of(rt, alloc, &parts)
}
