//! The shape of a table.
ghost use Rattle.std.specs.Prelude.{◌≡◌, IfOk, option_map};
ghost use Rattle.toml.specs.View.{table_view, items_view};
ghost use Rattle.card_digits.specs.Attempts.{Gives};
ghost use Rattle.table_fields.specs.Faults.{is_memory};
ghost use Rattle.table_fields.specs.Shapes.{tables_view, all_tables, rows_at, shape_of};

use crate::fault::TableFault;
use crate::keys::get;
use crate::place::{Key, Place, Table};
use std::alloc::{AllocError, Global};
use toml::Value;

/// A table of another shape.
pub fn misshapen(table: Table) -> TableFault
    ensures { result ≡ TableFault.BadValue (shape_of table) }
{
    TableFault::BadValue(Place {
        table,
        row: 0,
        key: Key::Other,
    })
}

/// The tables that the values are, where each is one.
fn all_tables<'a>(
    alloc: Global,
    values: &'a [Value],
) -> Result<Option<Vec<&'a toml::Table>>, AllocError>
    ensures { IfOk result (λ o. option_map (λ v. tables_view v.items) o ≡ all_tables (items_view values.now)) }
{
    let mut tables = Vec::new(alloc);
    for value in values {
        match value.as_table() {
            Some(table) => tables.push(table)?,
            None => return Ok(None),
        }
    }
    Ok(Some(tables))
}

/// The rows of an array of tables, which may be absent.
#[tactic(auto, unfolding(crate::specs::Shapes::rows_at))]
pub fn rows_at<'a>(
    alloc: Global,
    root: &'a toml::Table,
    table: Table,
) -> Result<Vec<&'a toml::Table>, TableFault>
    ensures { Gives is_memory (λ v. tables_view v.items) result (rows_at (table_view root.now) table) }
{
    let Some(value) = get(root, table.word()) else {
        return Ok(Vec::new(alloc));
    };
    let Some(values) = value.as_array() else {
        return Err(misshapen(table));
    };
    match all_tables(alloc, values)? {
        Some(tables) => Ok(tables),
        None => Err(misshapen(table)),
    }
}
