//! The answer of `make`.
ghost use Rattle.std.specs.Prelude.{◌≡◌, ℕ, List, [], IfOk, map, string_bytes, codes, ◌⊎◌};
ghost use Rattle.net_tables.specs.Reading.{tables_in};
ghost use Rattle.rank_maker.specs.Circle.{IsCircle};
ghost use Rattle.bundle_text.specs.Lines.{circle_line};
ghost use Rattle.bundle_text.specs.Answers.{IsMade, IsMadeOf, IsMadeOfParts, MakeAnswers, NamesMemory};

use crate::answer::{Answer, Status};
use crate::check_text::parts_fault;
use crate::faults::table_fault_line;
use crate::input_parts::{parts, without_carriage_returns};
use crate::names::NamedNodes;
use crate::ranked::fault_answer;
use card_digits::{NodeNo, Prefix};
use net_rows::Tables;
use net_tables::read_tables;
use rank_cert::write_cert;
use rank_maker::{Made, is_circle, make};
use std::alloc::{AllocError, Global};

fn circle_line(
    alloc: Global,
    tables: &Tables,
    class: &Prefix,
    nodes: &[NodeNo],
) -> Result<String, AllocError>
    ensures { IfOk result (λ s. string_bytes s ≡ circle_line tables.now class.now nodes.now) }
{
    let names = NamedNodes { tables, nodes };
    format!(in alloc; "circle {class}{names}\n")
}

fn gave_up(alloc: Global) -> Result<Answer, AllocError>
    ensures { IfOk result (λ a. a ≡ record { text = codes "gave up\n"; status = Status.Refused }) }
{
    let line = String::from_str(alloc, "gave up\n")?;
    Ok(Answer::new(line.into_bytes(), Status::Refused))
}

/// The line of a circle, where it is one.
fn circle(
    alloc: Global,
    tables: &Tables,
    class: &Prefix,
    nodes: &[NodeNo],
) -> Result<Answer, AllocError>
    ensures { IfOk result (IsMade tables.now) }
{
    if !is_circle(tables, class, nodes) {
        return gave_up(alloc);
    }
    // The clause of `digits` says that a class is a prefix.
    prove!(!class.digits().is_empty());
    let line = circle_line(alloc, tables, class, nodes)?;
    Ok(Answer::new(line.into_bytes(), Status::Refused))
}

/// What is made of tables.
fn made(alloc: Global, tables: &Tables) -> Result<Answer, AllocError>
    ensures { IfOk result (IsMade tables.now) }
{
    match make(alloc, tables) {
        Made::Ranks(cert) => {
            let text = write_cert(alloc, &cert)?;
            Ok(Answer::new(text, Status::Done))
        }
        Made::Circle(class, nodes) => circle(alloc, tables, &class, &nodes),
        Made::GaveUp => gave_up(alloc),
    }
}

/// The first fault of the tables, or what is made of them.
fn make_one(alloc: Global, text: &[u8]) -> Result<Answer, AllocError>
    ensures { IfOk result (λ a. IsMadeOf (tables_in text.now) a ⊎ NamesMemory a) }
{
    let tables = match read_tables(alloc, text) {
        Ok(tables) => tables,
        Err(e) => return Ok(fault_answer(table_fault_line(alloc, e)?)),
    };
    made(alloc, &tables)
}

#[tactic(auto, using(crate::proofs::Pairs::made_of_others, crate::proofs::Pairs::one))]
fn make_of(alloc: Global, parts: &[&[u8]]) -> Result<Answer, AllocError>
    ensures { IfOk result (λ a. IsMadeOfParts (map (λ p. p.now) parts.now) a ⊎ NamesMemory a) }
{
    if parts.len() != 1 {
        return parts_fault(alloc);
    }
    make_one(alloc, parts[0])
}

/// An answer of `make` to an input of one part, the tables: a certificate, a circle or that none was found, or the first fault.
pub fn make_answer(alloc: Global, input: &[u8]) -> Result<Answer, AllocError>
    ensures { IfOk result (MakeAnswers input.now) }
{
    let text = without_carriage_returns(alloc, input)?;
    let parts = parts(alloc, &text)?;
    make_of(alloc, &parts)
}
