//! Tables whose rows stand in the order in which they are read. Each row is read as it comes, and no tree is made.
ghost use Rattle.std.specs.Prelude.{◌≤◌, length, IfSome};
ghost use Rattle.std.specs.List.{AllByRecursion};
ghost use Rattle.card_digits.specs.Digits.{IsDateLabel, IsId};
ghost use Rattle.net_rows.specs.Sound.{AreEnds, AreAtNodes, AreOwnLinks};
ghost use Rattle.net_tables.specs.InOrder.{AreBase, AreParties, AreRules, AreInOrder};

use crate::acquirer::next_acquirers;
use crate::base::{Base, Parties, Rules, tables_of_rows};
use crate::issuer::next_issuers;
use crate::link::next_links;
use crate::network::next_network;
use crate::node::next_nodes;
use crate::route::next_routes;
use crate::stand_in::next_stand_ins;
use named_rows::NamedRows;
use net_rows::{Link, Node, Tables};
use std::alloc::Global;
use toml_rows::{is_over, start};

/// What rows point to, where it comes next.
fn next_base(alloc: Global, text: &str) -> Option<(Base, &str)>
    ensures base { IfSome result (λ p. AreBase p.0.settings p.0.nodes p.0.links text.now p.1.now) }
    ensures date { IfSome result (λ p. IsDateLabel p.0.settings.date) }
    ensures few_nodes { IfSome result (λ p. length p.0.nodes ≤ 64) }
    ensures few_links { IfSome result (λ p. length p.0.links ≤ 256) }
    ensures ids { IfSome result (λ p. AllByRecursion (λ n. IsId n.id) p.0.nodes) }
    ensures ends { IfSome result (λ p. AreEnds (length p.0.nodes) p.0.links) }
{
    let Some((settings, rest)) = next_network(alloc, text) else {
        return None;
    };
    let (nodes, rest) = next_nodes(alloc, rest)?;
    let (links, rest) = next_links(alloc, rest, &nodes)?;
    let base = Base {
        settings,
        nodes,
        links,
    };
    Some((base, rest))
}

/// Acquirers and then issuers, where they come next.
fn next_parties<'a>(
    alloc: Global,
    text: &'a str,
    nodes: &NamedRows<Node>,
) -> Option<(Parties, &'a str)>
    ensures parties { IfSome result (λ p. AreParties nodes.now p.0.acquirers.items p.0.issuers.items text.now p.1.now) }
    ensures gates { IfSome result (λ p. AreAtNodes (length nodes.now) p.0.acquirers.items) }
{
    let (acquirers, rest) = next_acquirers(alloc, text, nodes)?;
    let (issuers, rest) = next_issuers(alloc, rest, nodes)?;
    Some((Parties { acquirers, issuers }, rest))
}

/// Routes and then stand-in rows, where they come next and nothing else is left.
fn last_rules(
    alloc: Global,
    text: &str,
    nodes: &NamedRows<Node>,
    links: &NamedRows<Link>,
) -> Option<Rules>
    ensures rules { IfSome result (λ r. AreRules nodes.now links.now r.routes.items r.stand_ins.items text.now) }
    ensures own { IfSome result (λ r. AreOwnLinks links.now r.routes.items) }
{
    let (routes, rest) = next_routes(alloc, text, nodes, links)?;
    let (stand_ins, rest) = next_stand_ins(alloc, rest, nodes)?;
    if !is_over(rest) {
        return None;
    }
    Some(Rules { routes, stand_ins })
}

/// All tables of a text whose rows stand in order. None for any other text, and where a row has a fault or memory was refused.
pub(crate) fn tables_in_order(alloc: Global, text: &str) -> Option<Tables>
    ensures { IfSome result (λ t. AreInOrder t text.now) }
{
    let (base, rest) = next_base(alloc, start(text))?;
    let (parties, rest) = next_parties(alloc, rest, &base.nodes)?;
    let rules = last_rules(alloc, rest, &base.nodes, &base.links)?;
    match tables_of_rows(alloc, base, parties, rules) {
        Ok(tables) => Some(tables),
        Err(_) => None,
    }
}
