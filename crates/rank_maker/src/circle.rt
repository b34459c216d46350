//! Circles of routes.
ghost use Rattle.std.specs.Prelude.{◌≡◌, ◌≤◌, ◌<◌, ◌↔◌, IsTrue, length};
ghost use Rattle.rank_maker.specs.Circle.{route_links, LeadsTo, IsAway, GoesOn, IsCircle};

use card_digits::{LinkNo, NodeNo, Prefix};
use net_rows::Tables;

/// Whether the routes for the class lead round along the nodes: each but the last isn't the home of the class's issuer and
/// has a route link to the next, and the last is the first.
pub fn is_circle(tables: &Tables, class: &Prefix, nodes: &[NodeNo]) -> bool
    ensures { IsTrue result ↔ IsCircle tables.now class.now nodes.now }
{
    if nodes.len() < 2 || nodes[0] != nodes[nodes.len() - 1] {
        return false;
    }
    for i in 1..nodes.len() {
        if !goes_on(tables, class, nodes[i - 1], nodes[i]) {
            return false;
        }
    }
    true
}

/// Whether the node isn't the home of the class's issuer and has a route link to the next.
fn goes_on(tables: &Tables, class: &Prefix, node: NodeNo, next: NodeNo) -> bool
    ensures { IsTrue result ↔ GoesOn tables.now class.now node next }
{
    is_away(tables, class, node) && leads_to(tables, class, node, next)
}

/// Whether the node isn't the home of the class's issuer.
fn is_away(tables: &Tables, class: &Prefix, node: NodeNo) -> bool
    ensures { IsTrue result ↔ IsAway tables.now class.now node }
{
    match tables.issuer_at(class) {
        Some(issuer) => issuer.home != node,
        None => true,
    }
}

fn leads_to(tables: &Tables, class: &Prefix, node: NodeNo, next: NodeNo) -> bool
    ensures { IsTrue result ↔ LeadsTo tables.now class.now node next }
{
    route_links(tables, class, node)
        .iter()
        .any(|link| tables.other_end(node, *link) == next)
}

/// The links of the node's route row for the class.
fn route_links<'t>(tables: &'t Tables, class: &Prefix, node: NodeNo) -> &'t [LinkNo]
    ensures { result.now ≡ route_links tables.now class.now node }
{
    match tables.route_at(node, class) {
        Some(row) => row.links.as_slice(),
        None => &[],
    }
}
