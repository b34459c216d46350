//! Nodes by their names, and links with the nodes at their other ends.
ghost use Rattle.std.specs.Prelude.{◌≡◌, IfOk, map};
ghost use Rattle.bundle_text.specs.Lines.{node_name};
ghost use Rattle.serde_json.specs.View.{view};
ghost use Rattle.refusals_json.specs.Json.{text};
ghost use Rattle.card_json.specs.CardJson.{link_data};

use card_digits::{LinkNo, NodeNo};
use net_rows::Tables;
use refusals_json::{link_text, node_text};
use serde_json::{Value, json};
use std::alloc::{AllocError, Global};

/// The names of nodes.
pub(crate) fn name_values(
    alloc: Global,
    tables: &Tables,
    nodes: &[NodeNo],
) -> Result<Vec<Value>, AllocError>
    ensures { IfOk result (λ vs. map view vs.items ≡ map (λ n. text (node_name tables.now n)) nodes.now) }
{
    let mut values = Vec::new(alloc);
    for node in nodes {
        let name = node_text(alloc, tables, *node)?;
        values.push(Value::String(name))?;
    }
    Ok(values)
}

/// A link of a node, and the node at its other end.
fn link_value(
    alloc: Global,
    tables: &Tables,
    node: NodeNo,
    link: LinkNo,
) -> Result<Value, AllocError>
    ensures { IfOk result (λ v. view v ≡ link_data tables.now node link) }
{
    let name = link_text(alloc, tables, link)?;
    let far = node_text(alloc, tables, tables.other_end(node, link))?;
    json!(in alloc; {"link": name, "to": far})
}

/// The links of a node's row, in their order.
pub(crate) fn link_values(
    alloc: Global,
    tables: &Tables,
    node: NodeNo,
    links: &[LinkNo],
) -> Result<Vec<Value>, AllocError>
    ensures { IfOk result (λ vs. map view vs.items ≡ map (link_data tables.now node) links.now) }
{
    let mut values = Vec::new(alloc);
    for link in links {
        let value = link_value(alloc, tables, node, *link)?;
        values.push(value)?;
    }
    Ok(values)
}
