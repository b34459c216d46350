//! Fields that name several rows.
ghost use Rattle.std.specs.Prelude.{◌≡◌, ◌==◌, ◌≤◌, ◌&&◌, [], map, not, IfOk, true};
ghost use Rattle.std.specs.List.{list_all};
ghost use Rattle.card_digits.specs.Attempts.{Gives};
ghost use Rattle.table_fields.specs.Faults.{is_memory};
ghost use Rattle.table_fields.specs.Fields.{row_view};
ghost use Rattle.named_rows.specs.Rows.{node_names, link_names};
ghost use Rattle.named_rows.specs.Reading.{all_named, nodes_at, links_at, is_twice};
ghost use Rattle.net_rows.specs.Sound.{is_end};

use crate::named_rows::{Named, NamedRows};
use card_digits::{LinkNo, Name, NodeNo};
use net_rows::{Link, Links, MOST_ROUTE_LINKS, Node, Nodes};
use std::alloc::{AllocError, Global};
use table_fields::{Key, Place, Row, TableFault};

/// A list of rows, by their places.
trait Places: Drop {
    ghost use Rattle.std.specs.Prelude.{ℕ, List, [], ◌∷◌, ◌++◌, ◌≡◌, ◌<◌, OnOk};

    ghost places: { Self → List ℕ };

    // each is less than this
    ghost most: { ℕ };

    fn none(alloc: Global) -> Self
        ensures { places result ≡ [] };

    fn add(&mut self, place: usize) -> Result<(), AllocError>
        requires { place < most }
        ensures { OnOk result (places self.new ≡ places self.old ++ place ∷ []) };
}

impl Places for Nodes {
    ghost places = { λ nodes. nodes };

    ghost most = { 64 };

    fn none(alloc: Global) -> Nodes {
        Nodes::new(alloc)
    }

    fn add(&mut self, place: usize) -> Result<(), AllocError> {
        self.push(NodeNo::new(place))
    }
}

impl Places for Links {
    ghost places = { λ links. links };

    ghost most = { 256 };

    fn none(alloc: Global) -> Links {
        Links::new(alloc)
    }

    fn add(&mut self, place: usize) -> Result<(), AllocError> {
        self.push(LinkNo::new(place))
    }
}

/// The rows of these names.
fn all_named<R: Named, P: Places>(
    alloc: Global,
    rows: &NamedRows<R>,
    names: &[Name],
    at: Place,
) -> Result<P, TableFault>
    requires { R.most ≤ P.most }
    ensures { Gives is_memory P.places result (all_named (map R.name_of rows.now) at names.now) }
{
    let mut found = P::none(alloc);
    for name in names {
        found.add(rows.named(name, at)?)?;
    }
    Ok(found)
}

fn is_twice<T: PartialEq>(items: &[T]) -> bool
    ensures { result ≡ is_twice T.eq items.now }
{
    match items {
        [] => false,
        [first, rest @ ..] => rest.contains(first) || is_twice(rest),
    }
}

/// The nodes that a field names, none twice.
#[tactic(auto, unfolding(crate::specs::Reading::nodes_at), using(card_digits::proofs::Attempts::fails_bind))]
pub fn nodes_at(
    alloc: Global,
    row: &Row,
    key: Key,
    nodes: &NamedRows<Node>,
) -> Result<Nodes, TableFault>
    ensures { Gives is_memory (λ v. v) result (nodes_at (node_names nodes.now) (row_view row.now) key) }
{
    let names = row.names(alloc, key)?;
    let found: Nodes = all_named(alloc, nodes, &names, row.place(key))?;
    if is_twice(found.as_slice()) {
        return Err(TableFault::Twice(row.place(key)));
    }
    Ok(found)
}

fn is_end(links: &[Link], node: NodeNo, link: LinkNo) -> bool
    ensures { result ≡ is_end links.now node link }
{
    match links.get(link.place()) {
        Some(row) => row.from == node || row.to == node,
        None => false,
    }
}

fn all_at(links: &[Link], node: NodeNo, found: &[LinkNo]) -> bool
    ensures { result ≡ list_all (is_end links.now node) found.now }
{
    found.iter().all(|link| is_end(links, node, *link))
}

/// One to eight links of the node that a field names, none twice.
#[tactic(auto, unfolding(crate::specs::Reading::links_at), using(card_digits::proofs::Attempts::fails_bind))]
pub fn links_at(
    alloc: Global,
    row: &Row,
    key: Key,
    node: NodeNo,
    links: &NamedRows<Link>,
) -> Result<Links, TableFault>
    ensures value { Gives is_memory (λ v. v) result (links_at links.now node (row_view row.now) key) }
    ensures own { IfOk result (λ v. list_all (is_end links.now node) v ≡ true) }
{
    let names = row.names(alloc, key)?;
    let count = names.as_slice().len();
    if count == 0 || count > MOST_ROUTE_LINKS {
        return Err(row.bad(key));
    }
    let found: Links = all_named(alloc, links, &names, row.place(key))?;
    if !all_at(links.as_slice(), node, found.as_slice()) {
        return Err(TableFault::NotAtLink(row.place(key)));
    }
    if is_twice(found.as_slice()) {
        return Err(TableFault::Twice(row.place(key)));
    }
    Ok(found)
}

/// Whether each of the links has the node as an end, and none stands twice.
pub fn are_own(links: &NamedRows<Link>, node: NodeNo, found: &Links) -> bool
    ensures { result ≡ (list_all (is_end links.now node) found.now && not (is_twice ◌==◌ found.now)) }
{
    let found = found.as_slice();
    all_at(links.as_slice(), node, found) && !is_twice(found)
}
