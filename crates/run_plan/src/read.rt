//! Reading a plan.
ghost use Rattle.std.specs.Prelude.{◌≡◌, MatchResult, Err};
ghost use Rattle.card_digits.specs.Lines.{lines};
ghost use Rattle.net_rows.specs.Network.{Network};
ghost use Rattle.run_plan.specs.Plans.{DraftView, Drafts, Reads, ended, add_lines, behind_head, plan_in};

use crate::draft::Draft;
use crate::fault::PlanFault;
use crate::line::{numbered, read_line};
use crate::plan::Plan;
use card_digits::first_line;
use net_rows::Tables;
use std::alloc::Global;
use table_checker::Accepted;

/// The most turns, and the most turns of a pump from one tick to the next.
const MOST_TURNS: u64 = 4_000_000_000;

/// The first three lines, and what stands behind them.
#[derive(Clone, Copy)]
struct Head<'a> {
    turns: u64,
    tick_every: u64,
    behind: &'a [u8],
}

fn read_head(text: &[u8]) -> Result<Head<'_>, PlanFault>
    ensures { MatchResult result (λ h. (t : Network) → plan_in t (lines text.now) ≡ behind_head t h.turns h.tick_every (lines h.behind.now)) (λ f. (t : Network) → plan_in t (lines text.now) ≡ Err f) }
{
    let Some((first, behind)) = first_line(text) else {
        return Err(PlanFault::NoEnd);
    };
    if first != b"PLAN 1".as_slice() {
        return Err(PlanFault::Line(1));
    }
    let Some((second, behind)) = first_line(behind) else {
        return Err(PlanFault::NoEnd);
    };
    let Some(turns) = numbered(second, b"turns", 1, MOST_TURNS) else {
        return Err(PlanFault::Line(2));
    };
    let Some((third, behind)) = first_line(behind) else {
        return Err(PlanFault::NoEnd);
    };
    let Some(tick_every) = numbered(third, b"tick_every", 0, MOST_TURNS) else {
        return Err(PlanFault::Line(3));
    };
    Ok(Head {
        turns,
        tick_every,
        behind,
    })
}

/// Nothing stands behind the end; the next line would have this number.
fn at_end(number: usize, behind: &[u8]) -> Result<(), PlanFault>
    ensures { (d : DraftView) → Drafts (ended d number (lines behind.now)) d result }
{
    match first_line(behind) {
        Some(_) => Err(PlanFault::Line(number)),
        None => Ok(()),
    }
}

/// Adds what the lines behind the head say, up to the end.
fn add_lines<'a>(tables: &Tables, draft: &mut Draft<'a>, text: &'a [u8]) -> Result<(), PlanFault>
    ensures { Drafts (add_lines tables.now draft.old 4 (lines text.now)) draft.new result }
{
    let mut rest = text;
    let mut number: usize = 4;
    while let Some((line, behind)) = first_line(rest) {
        if line == b"END".as_slice() {
            return at_end(number + 1, behind);
        }
        let Some(said) = read_line(tables, line) else {
            return Err(PlanFault::Line(number));
        };
        draft.add(tables, number, &said)?;
        rest = behind;
        number += 1;
    }
    Err(PlanFault::NoEnd)
}

/// Reads a plan for a network of accepted tables; the first line that has a fault decides. Its messages are those of the text. Lines
/// end in a line feed, which the last may lack.
pub fn read_plan<'a>(
    alloc: Global,
    accepted: &Accepted<'_>,
    text: &'a [u8],
) -> Result<Plan<'a>, PlanFault>
    ensures { Reads accepted.now (lines text.now) result }
{
    let tables = accepted.tables();
    let head = read_head(text)?;
    let mut draft = Draft::new(alloc, tables)?;
    add_lines(tables, &mut draft, head.behind)?;
    Ok(draft.whole(head.turns, head.tick_every))
}
