//! All refusals as JSON, an object on each line.
ghost use Rattle.std.specs.Prelude.{◌≡◌, ◌++◌, IfOk, OnOk, string_bytes};
ghost use Rattle.serde_json.specs.View.{members_view, view};
ghost use Rattle.refusals_json.specs.Json.{json_line};
ghost use Rattle.refusals_json.specs.ListedJson as json;

use crate::fields::{
    Fields, add_count, add_json_line, add_text, json_line, link_text, node_text, prefix_text,
};
use crate::line_words::words;
use all_refusals::{RowRefusal, TableRow};
use bundle_text::refusal_line;
use card_digits::{LinkNo, NodeNo, Prefix};
use net_rows::Tables;
use serde_json::{Map, Value, put};
use std::alloc::{AllocError, Global};
use table_checker::Refusal;

/// The number of a refusal's kind, as `check` prints it.
fn number_of(refusal: &Refusal) -> u64
    ensures { result ≡ json.number_of refusal.now }
{
    match refusal {
        Refusal::NoRank(_, _) => 1,
        Refusal::NotLess(_, _, _) => 2,
        Refusal::NotNamed(_, _) => 3,
        Refusal::OverCeiling(_, _, _) => 4,
        Refusal::NoIssuer(_, _) => 5,
        Refusal::AcquirerTwice(_) => 6,
        Refusal::NodeIdTwice(_) => 7,
        Refusal::TimerTooLong(_) => 8,
        Refusal::Memory => 9,
    }
}

/// The words of a refusal, as `check` prints them.
fn words_of(alloc: Global, tables: &Tables, refusal: &Refusal) -> Result<String, AllocError>
    ensures { IfOk result (λ s. string_bytes s ≡ json.words_of tables.now refusal.now) }
{
    let line = refusal_line(alloc, tables, refusal)?;
    String::from_utf8_lossy(alloc, words(&line))
}

fn table_name(row: TableRow) -> &'static str
    ensures { result.now ≡ json.table_name row }
{
    match row {
        TableRow::Node(_) => "node",
        TableRow::Link(_) => "link",
        TableRow::Acquirer(_) => "acquirer",
        TableRow::Issuer(_) => "issuer",
        TableRow::Route(_) => "route",
        TableRow::StandIn(_) => "stand_in",
    }
}

fn place_of(row: TableRow) -> usize
    ensures { result ≡ json.place_of row }
{
    match row {
        TableRow::Node(place) => place,
        TableRow::Link(place) => place,
        TableRow::Acquirer(place) => place,
        TableRow::Issuer(place) => place,
        TableRow::Route(place) => place,
        TableRow::StandIn(place) => place,
    }
}

/// A row by its table and its number there, counted from 1.
fn row_value(alloc: Global, row: TableRow) -> Result<Value, AllocError>
    ensures { IfOk result (λ v. view v ≡ json.row_data row) }
{
    let number = place_of(row).saturating_add(1);
    let table = String::from_str(alloc, table_name(row))?;
    let mut fields = Map::new(alloc);
    add_count(alloc, &mut fields, "number", number as u64)?;
    add_text(alloc, &mut fields, "table", table)?;
    Ok(Value::Object(fields))
}

/// Adds a node and a PAN prefix.
fn add_node(
    alloc: Global,
    fields: &mut Fields,
    tables: &Tables,
    node: NodeNo,
    class: &Prefix,
) -> Result<(), AllocError>
    ensures { OnOk result (members_view fields.new.entries ≡ json.with_node tables.now node class.now (members_view fields.old.entries)) }
{
    let name = node_text(alloc, tables, node)?;
    let prefix = prefix_text(alloc, class)?;
    add_text(alloc, fields, "node", name)?;
    add_text(alloc, fields, "prefix", prefix)
}

fn add_link(
    alloc: Global,
    fields: &mut Fields,
    tables: &Tables,
    link: LinkNo,
) -> Result<(), AllocError>
    ensures { OnOk result (members_view fields.new.entries ≡ json.with_link tables.now link (members_view fields.old.entries)) }
{
    let name = link_text(alloc, tables, link)?;
    add_text(alloc, fields, "link", name)
}

/// Adds a PAN prefix, and the sum that is above a ceiling.
fn add_sum(
    alloc: Global,
    fields: &mut Fields,
    class: &Prefix,
    sum: u64,
    ceiling: u64,
) -> Result<(), AllocError>
    ensures { OnOk result (members_view fields.new.entries ≡ json.with_sum class.now sum ceiling (members_view fields.old.entries)) }
{
    let prefix = prefix_text(alloc, class)?;
    add_text(alloc, fields, "prefix", prefix)?;
    add_count(alloc, fields, "sum", sum)?;
    add_count(alloc, fields, "ceiling", ceiling)
}

/// Adds what a refusal speaks of.
fn add_subject(
    alloc: Global,
    fields: &mut Fields,
    tables: &Tables,
    refusal: &Refusal,
) -> Result<(), AllocError>
    ensures { OnOk result (members_view fields.new.entries ≡ json.with_subject tables.now refusal.now (members_view fields.old.entries)) }
{
    match refusal {
        Refusal::NoRank(node, class) => add_node(alloc, fields, tables, *node, class),
        Refusal::NotLess(node, class, link) => {
            add_node(alloc, fields, tables, *node, class)?;
            add_link(alloc, fields, tables, *link)
        }
        Refusal::NotNamed(node, class) => add_node(alloc, fields, tables, *node, class),
        Refusal::OverCeiling(class, sum, ceiling) => add_sum(alloc, fields, class, *sum, *ceiling),
        Refusal::NoIssuer(node, class) => add_node(alloc, fields, tables, *node, class),
        Refusal::AcquirerTwice(id) => {
            let id = format!(in alloc; "{id}")?;
            add_text(alloc, fields, "acquirer", id)
        }
        Refusal::NodeIdTwice(id) => {
            let id = format!(in alloc; "{id}")?;
            add_text(alloc, fields, "node_id", id)
        }
        Refusal::TimerTooLong(link) => add_link(alloc, fields, tables, *link),
        Refusal::Memory => Ok(()),
    }
}

/// The fields of a refusal: its number and words, and what it speaks of.
pub fn told(alloc: Global, tables: &Tables, refusal: &Refusal) -> Result<Fields, AllocError>
    ensures { IfOk result (λ fields. members_view fields.entries ≡ json.told tables.now refusal.now) }
{
    let words = words_of(alloc, tables, refusal)?;
    let mut fields = Map::new(alloc);
    add_count(alloc, &mut fields, "number", number_of(refusal))?;
    add_text(alloc, &mut fields, "words", words)?;
    add_subject(alloc, &mut fields, tables, refusal)?;
    Ok(fields)
}

/// The same with its row.
fn found_value(alloc: Global, tables: &Tables, found: &RowRefusal) -> Result<Value, AllocError>
    ensures { IfOk result (λ v. view v ≡ json.found_data tables.now found.now) }
{
    let row = row_value(alloc, found.row)?;
    let mut fields = told(alloc, tables, &found.refusal)?;
    put(&mut fields, alloc, "row", row)?;
    Ok(Value::Object(fields))
}

/// Adds an object for each refusal.
#[tactic(auto, using(crate::proofs::JsonLines::json_more, crate::proofs::JsonLines::found_plain))]
pub fn add_refusals(
    alloc: Global,
    text: &mut Vec<u8>,
    tables: &Tables,
    found: &[RowRefusal],
) -> Result<(), AllocError>
    ensures { IfOk result (λ _. text.new.items ≡ text.old.items ++ json.refusals_json tables.now found.now) }
{
    for refusal in found {
        let value = found_value(alloc, tables, refusal)?;
        add_json_line(alloc, text, &value)?;
    }
    Ok(())
}

/// The line that accepts tables.
pub fn accepted_line(alloc: Global) -> Result<Vec<u8>, AllocError>
    ensures { IfOk result (λ line. line.items ≡ json_line json.accepted_data) }
{
    let value = accepted_value(alloc)?;
    json_line(alloc, &value)
}

fn accepted_value(alloc: Global) -> Result<Value, AllocError>
    ensures { IfOk result (λ v. view v ≡ json.accepted_data) }
{
    let verdict = String::from_str(alloc, "accepted")?;
    let mut fields = Map::new(alloc);
    add_text(alloc, &mut fields, "verdict", verdict)?;
    Ok(Value::Object(fields))
}

/// The line that refuses them.
pub fn refused_line(
    alloc: Global,
    tables: &Tables,
    refusal: &Refusal,
) -> Result<Vec<u8>, AllocError>
    ensures { IfOk result (λ line. line.items ≡ json_line (json.refused_data tables.now refusal.now)) }
{
    let value = refused_value(alloc, tables, refusal)?;
    json_line(alloc, &value)
}

fn refused_value(alloc: Global, tables: &Tables, refusal: &Refusal) -> Result<Value, AllocError>
    ensures { IfOk result (λ v. view v ≡ json.refused_data tables.now refusal.now) }
{
    let verdict = String::from_str(alloc, "refused")?;
    let mut fields = told(alloc, tables, refusal)?;
    add_text(alloc, &mut fields, "verdict", verdict)?;
    Ok(Value::Object(fields))
}
