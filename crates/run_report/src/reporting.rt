//! The report.
ghost use Rattle.std.specs.Prelude.{◌≡◌, IfOk, map, string_bytes};
ghost use Rattle.serde_json.specs.View.{view};
ghost use Rattle.serde_json.specs.Written.{compact_text};
ghost use Rattle.run_report.specs.Answers.{end_data, session_data, answers_data};
ghost use Rattle.run_report.specs.Reports.{object_of, report_data};

use crate::approvals::own_total;
use crate::posts::posts_total;
use crate::words::{end_text, verdict_text};
use net_rows::Tables;
use net_threads::{Ended, Finished, LineEnd, SessionEnd};
use serde_json::{Value, json};
use std::alloc::{AllocError, Global};
use table_checker::Accepted;

fn line_values(alloc: Global, lines: &[LineEnd]) -> Result<Vec<Value>, AllocError>
    ensures { IfOk result (λ vs. map view vs.items ≡ map end_data lines.now) }
{
    let mut values = Vec::new(alloc);
    for end in lines {
        values.push(Value::String(end_text(alloc, end)?))?;
    }
    Ok(values)
}

fn session_value(alloc: Global, session: &SessionEnd) -> Result<Value, AllocError>
    ensures { IfOk result (λ v. view v ≡ session_data session.now) }
{
    let values = line_values(alloc, session.lines.as_slice())?;
    Ok(Value::Array(values))
}

fn session_values(alloc: Global, sessions: &[SessionEnd]) -> Result<Vec<Value>, AllocError>
    ensures { IfOk result (λ vs. map view vs.items ≡ map session_data sessions.now) }
{
    let mut values = Vec::new(alloc);
    for session in sessions {
        values.push(session_value(alloc, session)?)?;
    }
    Ok(values)
}

fn answers_value(alloc: Global, ended: &Ended) -> Result<Value, AllocError>
    ensures { IfOk result (λ v. view v ≡ answers_data ended.now) }
{
    let values = session_values(alloc, ended.sessions.as_slice())?;
    Ok(Value::Array(values))
}

/// The report of these answers, verdict and numbers.
fn object_of(
    alloc: Global,
    answers: Value,
    linked: String,
    own: u64,
    posts: u64,
) -> Result<Value, AllocError>
    ensures { IfOk result (λ v. view v ≡ object_of (view answers) (string_bytes linked) own posts) }
{
    json!(in alloc; {"answers": answers, "linked": linked, "own": own, "posts": posts})
}

fn report_value(
    alloc: Global,
    tables: &Tables,
    ended: &Ended,
    finished: &Finished<'_>,
) -> Result<Value, AllocError>
    ensures { IfOk result (λ v. view v ≡ report_data tables.now ended.now finished.now) }
{
    let stations = finished.stations.as_slice();
    let own = own_total(alloc, stations)?;
    let posts = posts_total(stations);
    let answers = answers_value(alloc, ended)?;
    let linked = verdict_text(alloc, tables, finished.verdict)?;
    object_of(alloc, answers, linked, own, posts)
}

/// The report of a run, as compact JSON with its keys in byte order: `answers`, for each session a list of the codes of its answers,
/// `none` or `refused N`; `linked`, the verdict; `own`, how many keys were approved by nodes themselves; and `posts`.
pub fn report(
    alloc: Global,
    accepted: &Accepted<'_>,
    ended: &Ended,
    finished: &Finished<'_>,
) -> Result<String, AllocError>
    ensures { IfOk result (λ s. string_bytes s ≡ compact_text (report_data accepted.now ended.now finished.now)) }
{
    let value = report_value(alloc, accepted.tables(), ended, finished)?;
    value.to_string(alloc)
}
