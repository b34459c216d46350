//! The lines of all refusals.
ghost use Rattle.std.specs.Prelude.{◌≡◌, ◌+◌, ◌++◌, Some, IfOk};
ghost use Rattle.card_view.specs.Listed.{row_text, found_line, refusals_text};

use all_refusals::{RowRefusal, TableRow};
use bundle_text::refusal_line;
use net_rows::Tables;
use refusals_json::words;
use std::alloc::{AllocError, Global};
use std::fmt;

/// A row by its table and its number there, counted from 1.
#[derive(Clone, Copy)]
struct NumberedRow {
    row: TableRow,
}

/// The number of the row at a place.
fn number(place: usize) -> u128
    ensures { result ≡ place + 1 }
{
    place as u128 + 1
}

impl fmt::Display for NumberedRow {
    ghost output = { λ numbered. Some (row_text numbered.row) };

    fn fmt<W: fmt::Write>(&self, f: &mut fmt::Formatter<W>) -> fmt::Result {
        match self.row {
            TableRow::Node(place) => {
                let number = number(place);
                write!(f, "[[node]] {number}")
            }
            TableRow::Link(place) => {
                let number = number(place);
                write!(f, "[[link]] {number}")
            }
            TableRow::Acquirer(place) => {
                let number = number(place);
                write!(f, "[[acquirer]] {number}")
            }
            TableRow::Issuer(place) => {
                let number = number(place);
                write!(f, "[[issuer]] {number}")
            }
            TableRow::Route(place) => {
                let number = number(place);
                write!(f, "[[route]] {number}")
            }
            TableRow::StandIn(place) => {
                let number = number(place);
                write!(f, "[[stand_in]] {number}")
            }
        }
    }
}

/// Adds the line of a refusal and its row.
fn add_line(
    alloc: Global,
    text: &mut Vec<u8>,
    tables: &Tables,
    found: &RowRefusal,
) -> Result<(), AllocError>
    ensures { IfOk result (λ _. text.new.items ≡ text.old.items ++ found_line tables.now found.now) }
{
    let line = refusal_line(alloc, tables, &found.refusal)?;
    let row = NumberedRow { row: found.row };
    let end = format!(in alloc; "; {row}\n")?;
    text.extend_from_slice(words(&line))?;
    text.extend_from_slice(end.as_bytes())?;
    Ok(())
}

/// Adds a line for each refusal.
#[tactic(auto, using(crate::proofs::Listing::refusals_more))]
pub(crate) fn add_lines(
    alloc: Global,
    text: &mut Vec<u8>,
    tables: &Tables,
    found: &[RowRefusal],
) -> Result<(), AllocError>
    ensures { IfOk result (λ _. text.new.items ≡ text.old.items ++ refusals_text tables.now found.now) }
{
    for refusal in found {
        add_line(alloc, text, tables, refusal)?;
    }
    Ok(())
}
