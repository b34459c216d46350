//! What is said of a card.
ghost use Rattle.std.specs.Prelude.{◌≡◌, IfOk};
ghost use Rattle.std.specs.Option.{option_copied};
ghost use Rattle.serde_json.specs.View.{view};
ghost use Rattle.card_json.specs.CardJson.{card_data, object_of, refusal_data, verdict_word};

use crate::issuer::{class_value, issuer_value};
use crate::node::node_values;
use crate::ways::acquirer_values;
use card_view::{CardView, class_of, days_sum};
use net_rows::Tables;
use refusals_json::told;
use serde_json::{Value, json};
use std::alloc::{AllocError, Global};
use table_checker::Refusal;

fn verdict_word(refusal: Option<&Refusal>) -> &'static str
    ensures { result.now ≡ verdict_word (option_copied refusal.entry) }
{
    match refusal {
        Some(_) => "refused",
        None => "accepted",
    }
}

/// The refusal that is the verdict, or null.
fn refusal_value(
    alloc: Global,
    tables: &Tables,
    refusal: Option<&Refusal>,
) -> Result<Value, AllocError>
    ensures { IfOk result (λ v. view v ≡ refusal_data tables.now (option_copied refusal.entry)) }
{
    match refusal {
        Some(refusal) => {
            let fields = told(alloc, tables, refusal)?;
            Ok(Value::Object(fields))
        }
        None => Ok(Value::Null),
    }
}

/// The parts of what is said.
#[derive(Drop)]
struct Parts {
    acquirers: Value,
    class: Value,
    issuer: Value,
    nodes: Value,
    refusal: Value,
    days: u64,
    verdict: &'static str,
}

/// One object of these parts.
fn object_of(alloc: Global, parts: Parts) -> Result<Value, AllocError>
    ensures { IfOk result (λ v. view v ≡ object_of (view parts.acquirers) (view parts.class) (view parts.issuer) (view parts.nodes) (view parts.refusal) parts.days parts.verdict.now) }
{
    let Parts {
        acquirers,
        class,
        issuer,
        nodes,
        refusal,
        days,
        verdict,
    } = parts;
    json!(in alloc; {
        "acquirers": acquirers,
        "class": class,
        "issuer": issuer,
        "nodes": nodes,
        "refusal": refusal,
        "sum_of_days": days,
        "verdict": verdict
    })
}

/// The verdict, and what the nodes of tables do with a card.
pub(crate) fn card_value(
    alloc: Global,
    asked: &CardView<'_>,
    refusal: Option<&Refusal>,
) -> Result<Value, AllocError>
    ensures { IfOk result (λ v. view v ≡ card_data asked.now.tables.now asked.now.cert.now asked.now.card.now (option_copied refusal.entry)) }
{
    let (tables, card) = (asked.tables, asked.card);
    let verdict = verdict_word(refusal);
    let class = class_of(tables, card);
    let acquirers = acquirer_values(alloc, tables, card)?;
    let nodes = node_values(alloc, asked, &class)?;
    let class = class_value(alloc, &class)?;
    let issuer = issuer_value(alloc, tables, card)?;
    let refusal = refusal_value(alloc, tables, refusal)?;
    let parts = Parts {
        acquirers: Value::Array(acquirers),
        class,
        issuer,
        nodes: Value::Array(nodes),
        refusal,
        days: days_sum(tables, card),
        verdict,
    };
    object_of(alloc, parts)
}
