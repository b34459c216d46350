//! The way from a text of tables and one of ranks to an answer, whatever is asked of them: the first fault of either, or what who asks makes
//! of them.
ghost use Rattle.std.specs.Prelude.{◌≡◌, ◌⊎◌, IfOk, Ok, Some, string_bytes};
ghost use Rattle.net_tables.specs.Reading.{tables_in};
ghost use Rattle.rank_cert.specs.Reading.{cert_in};
ghost use Rattle.table_checker.specs.Rules.{first_refusal};
ghost use Rattle.bundle_text.specs.Answers.{IsOfAccepted, IsOfChecked, IsOfRead, NamesMemory, check_memory, fault, verdict};

use crate::answer::{Answer, Status};
use crate::faults::{cert_fault_line, table_fault_line};
use crate::refusals::refusal_line;
use net_rows::Tables;
use net_tables::read_tables;
use rank_cert::{Cert, read_cert};
use std::alloc::{AllocError, Global};
use table_checker::{Accepted, Refusal, check};

/// What is asked of tables and ranks that were read.
pub trait TablesQuestion {
    ghost use Rattle.std.specs.Prelude.{List, ◌⊎◌, IfOk};
    ghost use Rattle.net_rows.specs.Network.{Network};
    ghost use Rattle.rank_rows.specs.declared.rank.Rank.{Rank};
    ghost use Rattle.bundle_text.specs.Answers.{Said, NamesMemory};

    /// What an answer to tables and ranks is.
    ghost is_answer_of: { Self → Network → List Rank → Said → Type 0 };

    /// The answer to tables and ranks, a line that names memory, or that memory was refused for that line too.
    fn answer_of(&self, alloc: Global, tables: &Tables, cert: &Cert) -> Result<Answer, AllocError>
        ensures { IfOk result (λ a. is_answer_of self.now tables.now cert.now a ⊎ NamesMemory a) };
}

/// What is asked of tables that the checker accepts with their ranks.
pub trait AcceptedQuestion {
    ghost use Rattle.std.specs.Prelude.{◌≡◌, ◌⊎◌, IfOk};
    ghost use Rattle.net_rows.specs.Network.{Network};
    ghost use Rattle.bundle_text.specs.Answers.{Said, NamesMemory};

    /// What an answer to accepted tables is.
    ghost is_answer_to: { Self → Network → Said → Type 0 };

    /// The answer to accepted tables, a line that names memory, or that memory was refused for that line too.
    fn answer_to(
        &self,
        alloc: Global,
        tables: &Tables,
        accepted: &Accepted<'_>,
    ) -> Result<Answer, AllocError>
        requires { accepted.now ≡ tables.now }
        ensures { IfOk result (λ a. is_answer_to self.now tables.now a ⊎ NamesMemory a) };
}

/// The answer of a fault's line.
pub fn fault_answer(line: String) -> Answer
    ensures { result ≡ fault (string_bytes line) }
{
    Answer::new(line.into_bytes(), Status::Fault)
}

/// The answer where memory was refused while tables were checked.
pub fn check_memory_answer(alloc: Global) -> Result<Answer, AllocError>
    ensures { IfOk result (λ a. a ≡ check_memory) }
{
    let line = String::from_str(alloc, "fault check 9 memory\n")?;
    Ok(fault_answer(line))
}

/// The answer of a refusal of these tables.
pub fn refused_answer(
    alloc: Global,
    tables: &Tables,
    refusal: &Refusal,
) -> Result<Answer, AllocError>
    ensures { IfOk result (λ a. a ≡ verdict tables.now (Some refusal.now)) }
{
    let line = refusal_line(alloc, tables, refusal)?;
    Ok(Answer::new(line, Status::Refused))
}

/// The first fault of the ranks, or the answer.
fn of_ranks<Q: TablesQuestion>(
    alloc: Global,
    question: &Q,
    tables: &Tables,
    ranks: &[u8],
) -> Result<Answer, AllocError>
    ensures { IfOk result (λ a. IsOfRead (Q.is_answer_of question.now) (Ok tables.now) (cert_in ranks.now) a ⊎ NamesMemory a) }
{
    match read_cert(alloc, ranks) {
        Ok(cert) => question.answer_of(alloc, tables, &cert),
        Err(e) => Ok(fault_answer(cert_fault_line(alloc, e)?)),
    }
}

/// The answer to a text of tables and one of ranks, or the first fault of these.
pub fn ranked_answer<Q: TablesQuestion>(
    alloc: Global,
    question: &Q,
    tables: &[u8],
    ranks: &[u8],
) -> Result<Answer, AllocError>
    ensures { IfOk result (λ a. IsOfRead (Q.is_answer_of question.now) (tables_in tables.now) (cert_in ranks.now) a ⊎ NamesMemory a) }
{
    match read_tables(alloc, tables) {
        Ok(tables) => of_ranks(alloc, question, &tables, ranks),
        Err(e) => Ok(fault_answer(table_fault_line(alloc, e)?)),
    }
}

/// A question to accepted tables, as one to any tables: others are refused.
#[derive(Drop)]
struct IfAccepted<'q, Q> {
    question: &'q Q,
}

impl<Q: AcceptedQuestion> TablesQuestion for IfAccepted<'_, Q> {
    ghost is_answer_of = { λ asked t cert. IsOfChecked (Q.is_answer_to asked.question.now) t (first_refusal t cert) };

    fn answer_of(&self, alloc: Global, tables: &Tables, cert: &Cert) -> Result<Answer, AllocError> {
        match check(alloc, tables, cert) {
            Ok(accepted) => self.question.answer_to(alloc, tables, &accepted),
            Err(Refusal::Memory) => check_memory_answer(alloc),
            Err(refusal) => refused_answer(alloc, tables, &refusal),
        }
    }
}

/// The answer to a text of tables and one of ranks that the checker accepts; the first fault of these, or the refusal of the tables.
pub fn accepted_answer<Q: AcceptedQuestion>(
    alloc: Global,
    question: &Q,
    tables: &[u8],
    ranks: &[u8],
) -> Result<Answer, AllocError>
    ensures { IfOk result (λ a. IsOfAccepted (Q.is_answer_to question.now) (tables_in tables.now) (cert_in ranks.now) a ⊎ NamesMemory a) }
{
    ranked_answer(alloc, &IfAccepted { question }, tables, ranks)
}
