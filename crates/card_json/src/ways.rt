//! The ways of a card from the acquirers' nodes to its home.
ghost use Rattle.std.specs.Prelude.{◌≡◌, ◌++◌, IfOk, OnOk, map};
ghost use Rattle.serde_json.specs.View.{view};
ghost use Rattle.card_json.specs.CardJson.{acquirer_data, hop_data, way_data, way_end, way_hops};

use crate::names::link_values;
use card_digits::{Card, LinkNo, NodeNo};
use card_view::{MOST_HOPS, is_home, links_of};
use net_rows::{Acquirer, Tables};
use refusals_json::node_text;
use serde_json::{Value, json};
use std::alloc::{AllocError, Global};

/// A node, and the links of its route row in force.
fn hop_value(
    alloc: Global,
    tables: &Tables,
    node: NodeNo,
    links: &[LinkNo],
) -> Result<Value, AllocError>
    ensures { IfOk result (λ v. view v ≡ hop_data tables.now node links.now) }
{
    let links = link_values(alloc, tables, node, links)?;
    let name = node_text(alloc, tables, node)?;
    json!(in alloc; {"links": links, "node": name})
}

/// Adds the hops of a card's way from a node, over so many nodes at most, and says how the way ends.
#[tactic(auto, using(crate::proofs::Hops::hops_home, crate::proofs::Hops::end_home, crate::proofs::Hops::hops_stop, crate::proofs::Hops::end_stops, crate::proofs::Hops::hops_go, crate::proofs::Hops::end_goes))]
fn add_hops(
    alloc: Global,
    hops: &mut Vec<Value>,
    tables: &Tables,
    card: &Card,
    left: u8,
    node: NodeNo,
) -> Result<&'static str, AllocError>
    ensures hops { OnOk result (map view hops.new.items ≡ map view hops.old.items ++ way_hops tables.now card.now left node) }
    ensures end { IfOk result (λ end. end.now ≡ way_end tables.now card.now left node) }
{
    if left == 0 {
        return Ok("and so on");
    }
    if is_home(tables, card, node) {
        return Ok("home");
    }
    let links = links_of(tables, card, node);
    let Some(first) = links.first() else {
        return Ok("no route");
    };
    let hop = hop_value(alloc, tables, node, links)?;
    hops.push(hop)?;
    add_hops(
        alloc,
        hops,
        tables,
        card,
        left - 1,
        tables.other_end(node, *first),
    )
}

/// The way of a card from a node.
fn way_value(alloc: Global, tables: &Tables, card: &Card, node: NodeNo) -> Result<Value, AllocError>
    ensures { IfOk result (λ v. view v ≡ way_data tables.now card.now node) }
{
    let mut hops = Vec::new(alloc);
    let end = add_hops(alloc, &mut hops, tables, card, MOST_HOPS, node)?;
    json!(in alloc; {"end": end, "hops": hops})
}

/// An acquirer, and the way of a card from its node.
fn acquirer_value(
    alloc: Global,
    tables: &Tables,
    card: &Card,
    row: &Acquirer,
) -> Result<Value, AllocError>
    ensures { IfOk result (λ v. view v ≡ acquirer_data tables.now card.now row.now) }
{
    let id = row.id;
    let id = format!(in alloc; "{id}")?;
    let name = node_text(alloc, tables, row.node)?;
    let way = way_value(alloc, tables, card, row.node)?;
    json!(in alloc; {"id": id, "node": name, "way": way})
}

/// All acquirers, in the order of the tables.
pub(crate) fn acquirer_values(
    alloc: Global,
    tables: &Tables,
    card: &Card,
) -> Result<Vec<Value>, AllocError>
    ensures { IfOk result (λ vs. map view vs.items ≡ map (acquirer_data tables.now card.now) tables.now.acquirers) }
{
    let mut values = Vec::new(alloc);
    for row in tables.acquirers() {
        let value = acquirer_value(alloc, tables, card, row)?;
        values.push(value)?;
    }
    Ok(values)
}
