//! What sessions ended with, held against the plan.
ghost use Rattle.std.specs.Prelude.{IfOk, ◌≡◌, ◌<◌, length, slice_index_or};
ghost use Rattle.std.specs.List.{AllZip};
ghost use Rattle.net_operate.specs.Sessions.{LineFits, SessionFits};

use net_threads::{LineEnd, SessionEnd};
use plan_state::is_answer_to;
use run_plan::Session;
use std::alloc::{AllocError, Global};

fn fitted_line(alloc: Global, line: &[u8], end: LineEnd) -> Result<LineEnd, AllocError>
    ensures { IfOk result (λ e. LineFits line.now e) }
{
    match end {
        LineEnd::Answer(bytes) => {
            if is_answer_to(alloc, line, bytes.as_slice())? {
                Ok(LineEnd::Answer(bytes))
            } else {
                Ok(LineEnd::Nothing)
            }
        }
        LineEnd::Nothing => Ok(LineEnd::Nothing),
        LineEnd::Refused(fault) => Ok(LineEnd::Refused(fault)),
    }
}

fn line_at<'p>(lines: &[&'p [u8]], k: usize) -> &'p [u8]
    requires { k < length lines.now }
    ensures { (d : _) → result.now ≡ (slice_index_or lines.now k d).now }
{
    lines[k]
}

fn fitted_lines(
    alloc: Global,
    lines: &[&[u8]],
    ends: Vec<LineEnd>,
) -> Result<Vec<LineEnd>, AllocError>
    ensures { IfOk result (λ v. AllZip (λ l. LineFits l.now) lines.now v.items) }
{
    let mut rest = ends.into_iter();
    let mut all = Vec::new(alloc);
    for k in 0..lines.len() {
        let line = line_at(lines, k);
        let end = match rest.next() {
            Some(end) => end,
            None => LineEnd::Nothing,
        };
        all.push(fitted_line(alloc, line, end)?)?;
    }
    Ok(all)
}

fn fitted_session(
    alloc: Global,
    session: &Session<'_>,
    ends: Vec<LineEnd>,
) -> Result<SessionEnd, AllocError>
    ensures { IfOk result (λ e. SessionFits session.now e) }
{
    let lines = fitted_lines(alloc, session.lines.as_slice(), ends)?;
    Ok(SessionEnd {
        node: session.node,
        lines,
    })
}

/// The ends of all sessions, each with an end for each of its lines. An end that is wanting is `Nothing`, and so is an answer that has
/// another key than its line: a thread tells nothing that is taken on trust.
pub(crate) fn fitted(
    alloc: Global,
    sessions: &[Session<'_>],
    ends: Vec<Vec<LineEnd>>,
) -> Result<Vec<SessionEnd>, AllocError>
    ensures { IfOk result (λ v. AllZip SessionFits sessions.now v.items) }
{
    let mut rest = ends.into_iter();
    let mut all = Vec::new(alloc);
    for session in sessions {
        let lines = match rest.next() {
            Some(lines) => lines,
            None => Vec::new(alloc),
        };
        all.push(fitted_session(alloc, session, lines)?)?;
    }
    Ok(all)
}
