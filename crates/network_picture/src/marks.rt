//! Which rows are refused.
ghost use Rattle.std.specs.Prelude.{◌≡◌};
ghost use Rattle.network_picture.specs.Refused.{speaks_of, is_route, is_stand_in, is_node, is_link};

use all_refusals::{RowRefusal, TableRow};
use net_rows::{Route, StandIn, Tables};

/// Whether it is the place of the route row.
fn is_route(tables: &Tables, route: &Route, row: TableRow) -> bool
    ensures { result ≡ is_route tables.now route.now row }
{
    let TableRow::Route(place) = row else {
        return false;
    };
    match tables.routes().get(place) {
        Some(row) => row.node == route.node && row.prefix == route.prefix,
        None => false,
    }
}

/// Whether it is the place of the stand-in row.
fn is_stand_in(tables: &Tables, stand_in: &StandIn, row: TableRow) -> bool
    ensures { result ≡ is_stand_in tables.now stand_in.now row }
{
    let TableRow::StandIn(place) = row else {
        return false;
    };
    match tables.stand_ins().get(place) {
        Some(row) => row.node == stand_in.node && row.prefix == stand_in.prefix,
        None => false,
    }
}

/// Whether it is the node at a place.
fn is_node(node: usize, row: TableRow) -> bool
    ensures { result ≡ is_node node row }
{
    match row {
        TableRow::Node(place) => place == node,
        _ => false,
    }
}

/// Whether it is the link at a place.
fn is_link(link: usize, row: TableRow) -> bool
    ensures { result ≡ is_link link row }
{
    match row {
        TableRow::Link(place) => place == link,
        _ => false,
    }
}

/// Whether a refusal speaks of the route row.
pub(crate) fn has_route(tables: &Tables, found: &[RowRefusal], route: &Route) -> bool
    ensures { result ≡ speaks_of (is_route tables.now route.now) found.now }
{
    found.iter().any(|f| is_route(tables, route, f.row))
}

/// Whether a refusal speaks of the stand-in row.
pub(crate) fn has_stand_in(tables: &Tables, found: &[RowRefusal], stand_in: &StandIn) -> bool
    ensures { result ≡ speaks_of (is_stand_in tables.now stand_in.now) found.now }
{
    found.iter().any(|f| is_stand_in(tables, stand_in, f.row))
}

/// Whether a refusal speaks of the node at a place.
pub(crate) fn has_node(found: &[RowRefusal], node: usize) -> bool
    ensures { result ≡ speaks_of (is_node node) found.now }
{
    found.iter().any(|f| is_node(node, f.row))
}

/// Whether a refusal speaks of the link at a place.
pub(crate) fn has_link(found: &[RowRefusal], link: usize) -> bool
    ensures { result ≡ speaks_of (is_link link) found.now }
{
    found.iter().any(|f| is_link(link, f.row))
}
