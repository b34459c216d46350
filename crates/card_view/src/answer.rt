//! The answer to an input.
ghost use Rattle.std.specs.Prelude.{◌≡◌, ◌++◌, ◌⊎◌, IfOk, Some};
ghost use Rattle.bundle_text.specs.Answers.{Answers, NamesMemory};
ghost use Rattle.table_checker.specs.Rules.{first_refusal};
ghost use Rattle.card_view.specs.View as views;
ghost use Rattle.card_view.specs.Answers.{ViewAnswers, IsListed, IsView, view_of};

use crate::asked::{Asked, Format};
use crate::in_format::{accepted_answer, add_refusal_lines, refused_text};
use crate::view::{CardView, view_text};
use all_refusals::refusals;
use answer_input::tables_answer;
use bundle_text::{Answer, Status, TablesQuestion, check_memory_answer, refusal_line};
use net_rows::Tables;
use rank_cert::Cert;
use std::alloc::{AllocError, Global};
use table_checker::{Refusal, check};

/// A verdict's line and status, and the lines of the view behind it.
fn with_view(
    alloc: Global,
    line: Vec<u8>,
    status: Status,
    view: &CardView<'_>,
) -> Result<Answer, AllocError>
    ensures { IfOk result (λ a. a ≡ record { text = line.items ++ views.view_text view.now.tables.now view.now.cert.now view.now.card.now; status = status }) }
{
    let mut text = line;
    let lines = view_text(alloc, view)?;
    text.extend_from_slice(lines.as_bytes())?;
    Ok(Answer::new(text, status))
}

/// The verdict on tables, and what their nodes do with a card.
fn viewed(alloc: Global, view: &CardView<'_>) -> Result<Answer, AllocError>
    ensures { IfOk result (λ a. Answers a (view_of view.now.card.now view.now.tables.now view.now.cert.now)) }
{
    match check(alloc, view.tables, view.cert) {
        Ok(_) => {
            let line = String::from_str(alloc, "accepted\n")?;
            with_view(alloc, line.into_bytes(), Status::Done, view)
        }
        Err(Refusal::Memory) => check_memory_answer(alloc),
        Err(refusal) => {
            let line = refusal_line(alloc, view.tables, &refusal)?;
            with_view(alloc, line, Status::Refused, view)
        }
    }
}

/// A refusal's line, and a line for each of all refusals behind it.
fn with_refusals(
    alloc: Global,
    format: Format,
    tables: &Tables,
    cert: &Cert,
    refusal: &Refusal,
) -> Result<Answer, AllocError>
    requires { first_refusal tables.now cert.now ≡ Some refusal.now }
    ensures { IfOk result (λ a. IsListed format tables.now cert.now a) }
{
    let mut text = refused_text(alloc, format, tables, refusal)?;
    let found = refusals(alloc, tables, cert)?;
    add_refusal_lines(alloc, format, &mut text, tables, &found)?;
    Ok(Answer::new(text, Status::Refused))
}

/// The verdict on tables, and all refusals.
fn listed(alloc: Global, format: Format, tables: &Tables, cert: &Cert) -> Result<Answer, AllocError>
    ensures { IfOk result (λ a. IsListed format tables.now cert.now a ⊎ NamesMemory a) }
{
    match check(alloc, tables, cert) {
        Ok(_) => accepted_answer(alloc, format),
        Err(Refusal::Memory) => check_memory_answer(alloc),
        Err(refusal) => with_refusals(alloc, format, tables, cert, &refusal),
    }
}

impl TablesQuestion for Asked {
    ghost is_answer_of = { IsView };

    fn answer_of(&self, alloc: Global, tables: &Tables, cert: &Cert) -> Result<Answer, AllocError> {
        match self {
            Asked::Card(card) => viewed(alloc, &CardView { tables, cert, card }),
            Asked::Refusals(format) => listed(alloc, *format, tables, cert),
        }
    }
}

/// The answer to an input of two parts, the tables and the ranks: the verdict of `check` with what each node does with the card or
/// all refusals behind it, or the first fault.
pub fn view_answer(alloc: Global, asked: &Asked, input: &[u8]) -> Result<Answer, AllocError>
    ensures { IfOk result (ViewAnswers asked.now input.now) }
{
    tables_answer(alloc, asked, input)
}
