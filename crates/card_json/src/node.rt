//! What a node does with a card.
ghost use Rattle.std.specs.Prelude.{◌≡◌, IfOk, length, map};
ghost use Rattle.std.specs.Option.{option_map_or};
ghost use Rattle.net_rows.specs.Network.{route, stand_in};
ghost use Rattle.serde_json.specs.Data.{null};
ghost use Rattle.serde_json.specs.View.{view};
ghost use Rattle.refusals_json.specs.Json.{count};
ghost use Rattle.card_json.specs.CardJson.{node_data, nodes_data, route_data, stand_in_data};

use crate::names::link_values;
use card_digits::{Card, NodeNo, Prefix};
use card_view::{CardView, is_home, rank_in};
use net_rows::{Route, StandIn, Tables};
use refusals_json::{node_text, prefix_text};
use serde_json::{Value, json};
use std::alloc::{AllocError, Global};

fn route_row(alloc: Global, tables: &Tables, node: NodeNo, row: &Route) -> Result<Value, AllocError>
    ensures { IfOk result (λ v. view v ≡ route_data tables.now node row.now) }
{
    let links = link_values(alloc, tables, node, row.links.as_slice())?;
    let prefix = prefix_text(alloc, &row.prefix)?;
    json!(in alloc; {"links": links, "prefix": prefix})
}

/// The node's route row in force, or null.
fn route_value(
    alloc: Global,
    tables: &Tables,
    card: &Card,
    node: NodeNo,
) -> Result<Value, AllocError>
    ensures { IfOk result (λ v. view v ≡ option_map_or (route_data tables.now node) (route tables.now node card.now) null) }
{
    match tables.route(node, card) {
        Some(row) => route_row(alloc, tables, node, row),
        None => Ok(Value::Null),
    }
}

fn stand_in_row(alloc: Global, row: &StandIn) -> Result<Value, AllocError>
    ensures { IfOk result (λ v. view v ≡ stand_in_data row.now) }
{
    let prefix = prefix_text(alloc, &row.prefix)?;
    let (day, single) = (row.day.value(), row.single.value());
    json!(in alloc; {"day": day, "prefix": prefix, "single": single})
}

/// The node's stand-in row in force, or null.
fn stand_in_value(
    alloc: Global,
    tables: &Tables,
    card: &Card,
    node: NodeNo,
) -> Result<Value, AllocError>
    ensures { IfOk result (λ v. view v ≡ option_map_or stand_in_data (stand_in tables.now node card.now) null) }
{
    match tables.stand_in(node, card) {
        Some(row) => stand_in_row(alloc, row),
        None => Ok(Value::Null),
    }
}

fn rank_value(rank: Option<u16>) -> Value
    ensures { view result ≡ option_map_or count rank null }
{
    match rank {
        Some(rank) => Value::from(rank),
        None => Value::Null,
    }
}

/// A node's rank at a class, and its rows in force for a card of the class.
fn node_value(
    alloc: Global,
    asked: &CardView<'_>,
    class: &Option<Prefix>,
    node: NodeNo,
) -> Result<Value, AllocError>
    ensures { IfOk result (λ v. view v ≡ node_data asked.now.tables.now asked.now.cert.now asked.now.card.now class.now node) }
{
    let (tables, card) = (asked.tables, asked.card);
    let name = node_text(alloc, tables, node)?;
    let route = route_value(alloc, tables, card, node)?;
    let stand_in = stand_in_value(alloc, tables, card, node)?;
    let rank = rank_value(rank_in(tables, asked.cert, *class, node));
    let home = is_home(tables, card, node);
    json!(in alloc; {"home": home, "name": name, "rank": rank, "route": route, "stand_in": stand_in})
}

/// All nodes, in the order of the tables.
pub(crate) fn node_values(
    alloc: Global,
    asked: &CardView<'_>,
    class: &Option<Prefix>,
) -> Result<Vec<Value>, AllocError>
    ensures { IfOk result (λ vs. map view vs.items ≡ nodes_data asked.now.tables.now asked.now.cert.now asked.now.card.now class.now (length asked.now.tables.now.nodes)) }
{
    let mut values = Vec::new(alloc);
    for place in 0..asked.tables.nodes().len() {
        let value = node_value(alloc, asked, class, NodeNo::new(place))?;
        values.push(value)?;
    }
    Ok(values)
}
