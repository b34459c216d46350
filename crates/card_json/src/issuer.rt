//! A card's class and its issuer.
ghost use Rattle.std.specs.Prelude.{◌≡◌, IfOk, map, string_bytes};
ghost use Rattle.std.specs.Option.{option_map_or};
ghost use Rattle.net_rows.specs.Network.{issuer};
ghost use Rattle.serde_json.specs.Data.{null};
ghost use Rattle.serde_json.specs.View.{view};
ghost use Rattle.card_json.specs.CardJson.{class_data, issuer_data, issuer_object};

use crate::names::name_values;
use card_digits::{Card, Prefix};
use net_rows::{Issuer, Tables};
use refusals_json::{node_text, prefix_text};
use serde_json::{Value, json};
use std::alloc::{AllocError, Global};

/// The digits of a class, or null.
pub(crate) fn class_value(alloc: Global, class: &Option<Prefix>) -> Result<Value, AllocError>
    ensures { IfOk result (λ v. view v ≡ class_data class.now) }
{
    match class {
        Some(class) => {
            let digits = prefix_text(alloc, class)?;
            Ok(Value::String(digits))
        }
        None => Ok(Value::Null),
    }
}

/// An issuer, by its parts.
fn issuer_object(
    alloc: Global,
    ceiling: u64,
    home: String,
    name: String,
    named: Vec<Value>,
    prefix: String,
) -> Result<Value, AllocError>
    ensures { IfOk result (λ v. view v ≡ issuer_object ceiling (string_bytes home) (string_bytes name) (map view named.items) (string_bytes prefix)) }
{
    json!(in alloc; {"ceiling": ceiling, "home": home, "name": name, "named": named, "prefix": prefix})
}

fn row_value(alloc: Global, tables: &Tables, row: &Issuer) -> Result<Value, AllocError>
    ensures { IfOk result (λ v. view v ≡ issuer_data tables.now row.now) }
{
    let name = row.name;
    let name = format!(in alloc; "{name}")?;
    let prefix = prefix_text(alloc, &row.prefix)?;
    let home = node_text(alloc, tables, row.home)?;
    let named = name_values(alloc, tables, row.named.as_slice())?;
    issuer_object(alloc, row.ceiling.value(), home, name, named, prefix)
}

/// The issuer of a card, or null.
pub(crate) fn issuer_value(alloc: Global, tables: &Tables, card: &Card) -> Result<Value, AllocError>
    ensures { IfOk result (λ v. view v ≡ option_map_or (issuer_data tables.now) (issuer tables.now card.now) null) }
{
    match tables.issuer(card) {
        Some(row) => row_value(alloc, tables, row),
        None => Ok(Value::Null),
    }
}
