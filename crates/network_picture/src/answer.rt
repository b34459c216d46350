//! The answer to an input.
ghost use Rattle.std.specs.Prelude.{◌≡◌, ◌⊎◌, IfOk, string_bytes, Some, None};
ghost use Rattle.bundle_text.specs.Answers.{NamesMemory};
ghost use Rattle.table_checker.specs.Rules.{first_refusal};
ghost use Rattle.network_picture.specs.Shown.{shown_class};
ghost use Rattle.network_picture.specs.Answers.{asked_picture, head_text, body_text, picture_at, picture_text, PictureAnswers, IsPictured};

use crate::asked::{Drawing, PictureJob};
use crate::class::shown_class;
use crate::made::picture_of;
use crate::refused::refusals_here;
use all_refusals::{RowRefusal, refusals};
use answer_input::tables_answer;
use bundle_text::{Answer, Status, TablesQuestion, check_memory_answer, refusal_line};
use card_digits::Prefix;
use net_rows::Tables;
use picture_text::{DotBody, DotHead, Picture, SvgBody, SvgHead};
use rank_cert::Cert;
use std::alloc::{AllocError, Global};
use table_checker::{Refusal, check};

/// What stands before the verdict.
fn head_text(alloc: Global, drawing: Drawing, picture: &Picture) -> Result<String, AllocError>
    ensures { IfOk result (λ s. string_bytes s ≡ head_text drawing picture.now) }
{
    match drawing {
        Drawing::Svg => {
            let head = SvgHead {
                size: picture.size(),
            };
            format!(in alloc; "{head}")
        }
        Drawing::Dot => {
            let head = DotHead {};
            format!(in alloc; "{head}")
        }
    }
}

/// What stands behind the verdict.
fn body_text(alloc: Global, drawing: Drawing, picture: &Picture) -> Result<String, AllocError>
    ensures { IfOk result (λ s. string_bytes s ≡ body_text drawing picture.now) }
{
    match drawing {
        Drawing::Svg => {
            let body = SvgBody { picture };
            format!(in alloc; "{body}")
        }
        Drawing::Dot => {
            let body = DotBody { picture };
            format!(in alloc; "{body}")
        }
    }
}

/// A picture as text, with the line of the verdict above it.
fn drawn(
    alloc: Global,
    drawing: Drawing,
    line: &[u8],
    picture: &Picture,
) -> Result<Vec<u8>, AllocError>
    ensures { IfOk result (λ v. v.items ≡ picture_text drawing line.now picture.now) }
{
    let head = head_text(alloc, drawing, picture)?;
    let body = body_text(alloc, drawing, picture)?;
    let mut text = head.into_bytes();
    text.extend_from_slice(line)?;
    text.extend_from_slice(body.as_bytes())?;
    Ok(text)
}

/// The picture at a class, with the refusals that belong there.
fn picture_at(
    alloc: Global,
    tables: &Tables,
    cert: &Cert,
    found: &[RowRefusal],
    class: &Option<Prefix>,
) -> Result<Picture, AllocError>
    ensures { IfOk result (λ p. p ≡ picture_at tables.now cert.now found.now class.now) }
{
    let here = refusals_here(alloc, found, class)?;
    picture_of(alloc, tables, cert, class, &here)
}

/// The text of the picture that is asked for, with the line of the verdict above it.
fn picture_text(
    alloc: Global,
    job: &PictureJob,
    tables: &Tables,
    cert: &Cert,
    verdict: &Option<Refusal>,
    found: &[RowRefusal],
    line: &[u8],
) -> Result<Vec<u8>, AllocError>
    ensures { IfOk result (λ v. v.items ≡ picture_text job.now.drawing line.now (asked_picture job.now tables.now cert.now verdict.now found.now)) }
{
    let class = shown_class(alloc, tables, verdict, &job.prefix)?;
    let picture = picture_at(alloc, tables, cert, found, &class)?;
    drawn(alloc, job.drawing, line, &picture)
}

/// The picture of tables that are accepted.
fn accepted(
    alloc: Global,
    job: &PictureJob,
    tables: &Tables,
    cert: &Cert,
) -> Result<Answer, AllocError>
    requires { first_refusal tables.now cert.now ≡ None }
    ensures { IfOk result (λ a. IsPictured job.now tables.now cert.now a) }
{
    let line = String::from_str(alloc, "accepted\n")?;
    let text = picture_text(alloc, job, tables, cert, &None, &[], line.as_bytes())?;
    Ok(Answer::new(text, Status::Done))
}

/// The picture of tables that are refused.
fn refused(
    alloc: Global,
    job: &PictureJob,
    tables: &Tables,
    cert: &Cert,
    refusal: &Refusal,
) -> Result<Answer, AllocError>
    requires { first_refusal tables.now cert.now ≡ Some refusal.now }
    ensures { IfOk result (λ a. IsPictured job.now tables.now cert.now a) }
{
    let line = refusal_line(alloc, tables, refusal)?;
    let found = refusals(alloc, tables, cert)?;
    let text = picture_text(alloc, job, tables, cert, &Some(*refusal), &found, &line)?;
    Ok(Answer::new(text, Status::Refused))
}

/// The picture of tables by their ranks, with the verdict of `check` above it.
pub fn picture_of_tables(
    alloc: Global,
    job: &PictureJob,
    tables: &Tables,
    cert: &Cert,
) -> Result<Answer, AllocError>
    ensures { IfOk result (λ a. IsPictured job.now tables.now cert.now a ⊎ NamesMemory a) }
{
    match check(alloc, tables, cert) {
        Ok(_) => accepted(alloc, job, tables, cert),
        Err(Refusal::Memory) => check_memory_answer(alloc),
        Err(refusal) => refused(alloc, job, tables, cert, &refusal),
    }
}

impl TablesQuestion for PictureJob {
    ghost is_answer_of = { IsPictured };

    fn answer_of(&self, alloc: Global, tables: &Tables, cert: &Cert) -> Result<Answer, AllocError> {
        picture_of_tables(alloc, self, tables, cert)
    }
}

/// The answer to an input of two parts, the tables and the ranks: the picture with the verdict of `check` above it, or the first fault
/// alone.
pub fn picture_answer(alloc: Global, job: &PictureJob, input: &[u8]) -> Result<Answer, AllocError>
    ensures { IfOk result (PictureAnswers job.now input.now) }
{
    tables_answer(alloc, job, input)
}
