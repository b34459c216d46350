//! The answer of `check`.
ghost use Rattle.std.specs.Prelude.{◌≡◌, IfOk, map, None};
ghost use Rattle.bundle_text.specs.Answers.{Answers, check_parts, check_read, check_said, parts_fault, verdict};
ghost use Rattle.net_tables.specs.Reading.{tables_in};
ghost use Rattle.rank_cert.specs.Reading.{cert_in};

use crate::answer::{Answer, Status};
use crate::input_parts::{parts, without_carriage_returns};
use crate::ranked::{AcceptedQuestion, accepted_answer, fault_answer};
use net_rows::Tables;
use std::alloc::{AllocError, Global};
use table_checker::Accepted;

/// The verdict on accepted tables is asked for.
#[derive(Clone, Copy)]
struct Verdict;

impl AcceptedQuestion for Verdict {
    ghost is_answer_to = { λ _ t said. said ≡ verdict t None };

    fn answer_to(
        &self,
        alloc: Global,
        _tables: &Tables,
        _accepted: &Accepted<'_>,
    ) -> Result<Answer, AllocError> {
        let line = String::from_str(alloc, "accepted\n")?;
        Ok(Answer::new(line.into_bytes(), Status::Done))
    }
}

/// Another number of parts than the job takes.
pub fn parts_fault(alloc: Global) -> Result<Answer, AllocError>
    ensures { IfOk result (λ a. a ≡ parts_fault) }
{
    let line = String::from_str(alloc, "fault bundle 1 parts\n")?;
    Ok(fault_answer(line))
}

/// The first fault of tables and ranks, or the verdict.
#[tactic(auto, using(crate::proofs::Verdicts::of_verdict))]
fn check_both(alloc: Global, tables: &[u8], ranks: &[u8]) -> Result<Answer, AllocError>
    ensures { IfOk result (λ a. Answers a (check_read (tables_in tables.now) (cert_in ranks.now))) }
{
    accepted_answer(alloc, &Verdict, tables, ranks)
}

/// The answer of `check` to an input of two parts, the tables and the ranks: a verdict or the first fault.
pub fn check_answer(alloc: Global, input: &[u8]) -> Result<Answer, AllocError>
    ensures { IfOk result (λ a. Answers a (check_said input.now)) }
{
    let text = without_carriage_returns(alloc, input)?;
    let parts = parts(alloc, &text)?;
    check_of(alloc, &parts)
}

#[tactic(auto, using(crate::proofs::Pairs::not_two, crate::proofs::Pairs::two))]
fn check_of(alloc: Global, parts: &[&[u8]]) -> Result<Answer, AllocError>
    ensures { IfOk result (λ a. Answers a (check_parts (map (λ p. p.now) parts.now))) }
{
    if parts.len() != 2 {
        return parts_fault(alloc);
    }
    check_both(alloc, parts[0], parts[1])
}
