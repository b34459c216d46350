//! A verdict and all refusals, in each format.
ghost use Rattle.std.specs.Prelude.{◌≡◌, ◌++◌, IfOk};
ghost use Rattle.card_view.specs.Answers as lines;

use crate::asked::Format;
use crate::listed::add_lines;
use all_refusals::RowRefusal;
use bundle_text::{Answer, Status, refusal_line};
use net_rows::Tables;
use refusals_json::{accepted_line, add_refusals, refused_line};
use std::alloc::{AllocError, Global};
use table_checker::Refusal;

fn accepted_text(alloc: Global, format: Format) -> Result<Vec<u8>, AllocError>
    ensures { IfOk result (λ line. line.items ≡ lines.accepted_line format) }
{
    match format {
        Format::Text => {
            let line = String::from_str(alloc, "accepted\n")?;
            Ok(line.into_bytes())
        }
        Format::Json => accepted_line(alloc),
    }
}

/// The verdict that accepts tables, behind which no refusal stands.
pub(crate) fn accepted_answer(alloc: Global, format: Format) -> Result<Answer, AllocError>
    ensures { IfOk result (λ a. a ≡ record { text = lines.accepted_line format; status = Status.Done }) }
{
    let line = accepted_text(alloc, format)?;
    Ok(Answer::new(line, Status::Done))
}

/// The line of a refusal that is the verdict.
pub(crate) fn refused_text(
    alloc: Global,
    format: Format,
    tables: &Tables,
    refusal: &Refusal,
) -> Result<Vec<u8>, AllocError>
    ensures { IfOk result (λ line. line.items ≡ lines.refused_line format tables.now refusal.now) }
{
    match format {
        Format::Text => refusal_line(alloc, tables, refusal),
        Format::Json => refused_line(alloc, tables, refusal),
    }
}

/// Adds a line for each refusal.
pub(crate) fn add_refusal_lines(
    alloc: Global,
    format: Format,
    text: &mut Vec<u8>,
    tables: &Tables,
    found: &[RowRefusal],
) -> Result<(), AllocError>
    ensures { IfOk result (λ _. text.new.items ≡ text.old.items ++ lines.refusal_lines format tables.now found.now) }
{
    match format {
        Format::Text => add_lines(alloc, text, tables, found),
        Format::Json => add_refusals(alloc, text, tables, found),
    }
}
