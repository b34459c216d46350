//! Fields of JSON objects.
ghost use Rattle.std.specs.Prelude.{◌≡◌, ◌++◌, false, IfOk, OnOk, string_bytes};
ghost use Rattle.card_digits.specs.Digits.{digits_text};
ghost use Rattle.serde_json.specs.Data.{put as with_field};
ghost use Rattle.serde_json.specs.View.{members_view, view};
ghost use Rattle.serde_json.specs.Written.{has_float};
ghost use Rattle.bundle_text.specs.Lines.{link_name, node_name};
ghost use Rattle.refusals_json.specs.Json as json;

use card_digits::{LinkNo, NodeNo, Prefix};
use net_rows::Tables;
use serde_json::{Map, Value, put};
use std::alloc::{AllocError, Global};

/// The fields of an object.
pub type Fields = Map<String, Value>;

/// Adds a field with a text.
pub fn add_text(
    alloc: Global,
    fields: &mut Fields,
    key: &str,
    text: String,
) -> Result<(), AllocError>
    ensures { OnOk result (members_view fields.new.entries ≡ with_field key.now (json.text (string_bytes text)) (members_view fields.old.entries)) }
{
    put(fields, alloc, key, Value::String(text))
}

/// Adds a field with a number.
pub fn add_count(
    alloc: Global,
    fields: &mut Fields,
    key: &str,
    count: u64,
) -> Result<(), AllocError>
    ensures { OnOk result (members_view fields.new.entries ≡ with_field key.now (json.count count) (members_view fields.old.entries)) }
{
    put(fields, alloc, key, Value::from(count))
}

/// The name of a node, empty where the tables have no such node.
pub fn node_text(alloc: Global, tables: &Tables, node: NodeNo) -> Result<String, AllocError>
    ensures { IfOk result (λ s. string_bytes s ≡ node_name tables.now node) }
{
    match tables.nodes().get(node.place()) {
        Some(row) => {
            let name = row.name;
            format!(in alloc; "{name}")
        }
        None => Ok(String::new(alloc)),
    }
}

/// The name of a link, empty where the tables have no such link.
pub fn link_text(alloc: Global, tables: &Tables, link: LinkNo) -> Result<String, AllocError>
    ensures { IfOk result (λ s. string_bytes s ≡ link_name tables.now link) }
{
    match tables.links().get(link.place()) {
        Some(row) => {
            let name = row.name;
            format!(in alloc; "{name}")
        }
        None => Ok(String::new(alloc)),
    }
}

/// The digits of a prefix.
pub fn prefix_text(alloc: Global, prefix: &Prefix) -> Result<String, AllocError>
    ensures { IfOk result (λ s. string_bytes s ≡ digits_text prefix.now) }
{
    format!(in alloc; "{prefix}")
}

/// A value on a line of its own.
pub fn json_line(alloc: Global, value: &Value) -> Result<Vec<u8>, AllocError>
    requires { has_float (view value.now) ≡ false }
    ensures { IfOk result (λ line. line.items ≡ json.json_line (view value.now)) }
{
    let text = value.to_string(alloc)?;
    let mut line = text.into_bytes();
    line.push(b'\n')?;
    Ok(line)
}

/// Adds a line with a value.
pub fn add_json_line(alloc: Global, text: &mut Vec<u8>, value: &Value) -> Result<(), AllocError>
    requires { has_float (view value.now) ≡ false }
    ensures { IfOk result (λ _. text.new.items ≡ text.old.items ++ json.json_line (view value.now)) }
{
    let line = json_line(alloc, value)?;
    text.extend_from_slice(&line)?;
    Ok(())
}
