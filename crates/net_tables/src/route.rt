//! The table `[[route]]`.
ghost use Rattle.std.specs.Prelude.{IfOk, IfSome};
ghost use Rattle.net_rows.specs.Sound.{AreOwnLinks};
ghost use Rattle.toml.specs.View.{table_view};
ghost use Rattle.card_digits.specs.Attempts.{Gives};
ghost use Rattle.table_fields.specs.Faults.{is_memory};
ghost use Rattle.named_rows.specs.Rows.{node_names};
ghost use Rattle.net_tables.specs.AllRows.{all_rows};
ghost use Rattle.net_tables.specs.Reading.{route_of};
ghost use Rattle.net_tables.specs.InOrder.{AreNext};
ghost use Rattle.table_fields.specs.declared.place.Table.TheVariants as table;

#[cfg(test)]
mod tests;

use crate::plain::{node_named, plain_links, prefix_of};
use crate::rows::{RowReader, next_rows, read_rows};
use named_rows::{NamedRows, NodePrefixes, links_at, new_prefix_at};
use net_rows::{Link, Node, Route};
use std::alloc::Global;
use table_fields::{Key, Row, Table, TableFault};
use toml_rows::{bare_row_header, text_pair};

#[derive(Clone, Copy)]
struct RouteReader<'a> {
    alloc: Global,
    nodes: &'a NamedRows<Node>,
    links: &'a NamedRows<Link>,
}

impl<'a> RowReader for RouteReader<'a> {
    ghost use Rattle.std.specs.Prelude.{◌≡◌, true, length};
    ghost use Rattle.std.specs.List.{list_all};
    ghost use Rattle.net_rows.specs.Sound.{is_end};
    ghost use Rattle.named_rows.specs.Rows.{ArePrefixed, node_names};
    ghost use Rattle.net_tables.specs.Rows.{route_prefixes};
    ghost use Rattle.net_tables.specs.Reading.{route_of};

    type Read = Route;

    type Taken = NodePrefixes;

    ghost reads = { λ s. route_of (node_names s.nodes.now) s.links.now };

    ghost knows = { λ s taken done. ArePrefixed (length s.nodes.now) taken (route_prefixes done) };

    ghost fits = { λ s r. list_all (is_end s.links.now r.node) r.links ≡ true };

    #[tactic(auto, unfolding(crate::specs::Reading::route_of), using(card_digits::proofs::Attempts::fails_bind))]
    fn read(
        &self,
        taken: &mut NodePrefixes,
        _done: &[Route],
        row: &Row,
    ) -> Result<Route, TableFault> {
        let (node, prefix) = new_prefix_at(row, self.nodes, taken)?;
        let links = links_at(self.alloc, row, Key::Links, node, self.links)?;
        row.no_other(&[Key::Node, Key::Prefix, Key::Links])?;
        Ok(Route {
            node,
            prefix,
            links,
        })
    }

    fn plain<'t>(
        &self,
        taken: &mut NodePrefixes,
        _done: &[Route],
        table: Table,
        text: &'t str,
    ) -> Option<(Route, &'t str)> {
        let Some((route, rest)) = self.untaken(table, text) else {
            return None;
        };
        if !taken.take(route.node, route.prefix) {
            return None;
        }
        Some((route, rest))
    }
}

impl<'a> RouteReader<'a> {
    ghost use Rattle.std.specs.Prelude.{◌≡◌, ◌<◌, true, length, IfSome};
    ghost use Rattle.std.specs.List.{list_all};
    ghost use Rattle.net_rows.specs.Sound.{is_end};
    ghost use Rattle.named_rows.specs.Rows.{node_names};
    ghost use Rattle.net_tables.specs.Rows.{route_prefixes};
    ghost use Rattle.net_tables.specs.Reading.{route_of};
    ghost use Rattle.net_tables.specs.Plain.{IsRowIfNew};

    /// The route that comes next, where its keys stand in the order of the documents. Of its prefix nothing is asked yet.
    fn untaken<'t>(&self, table: Table, text: &'t str) -> Option<(Route, &'t str)>
        ensures value { IfSome result (λ p. IsRowIfNew table (route_of (node_names self.now.nodes.now) self.now.links.now) route_prefixes p.0.node p.0.prefix p.0 text.now p.1.now) }
        ensures within { IfSome result (λ p. p.0.node < length self.now.nodes.now) }
        ensures own { IfSome result (λ p. list_all (is_end self.now.links.now p.0.node) p.0.links ≡ true) }
        ensures shorter { IfSome result (λ p. length p.1.now < length text.now) }
    {
        let rest = bare_row_header(self.alloc, text, table.word())?;
        let (name, rest) = text_pair(rest, Key::Node.word())?;
        let node = node_named(self.nodes, name)?;
        let (digits, rest) = text_pair(rest, Key::Prefix.word())?;
        let prefix = prefix_of(digits)?;
        let (links, rest) = plain_links(self.alloc, rest, node, self.links)?;
        let route = Route {
            node,
            prefix,
            links,
        };
        Some((route, rest))
    }
}

/// All routes, at most 4,096 at a node, in the order of the text.
pub(crate) fn routes(
    alloc: Global,
    root: &toml::Table,
    nodes: &NamedRows<Node>,
    links: &NamedRows<Link>,
) -> Result<Vec<Route>, TableFault>
    ensures value { Gives is_memory (λ v. v.items) result (all_rows (table_view root.now) table.Route (route_of (node_names nodes.now) links.now)) }
    ensures own { IfOk result (λ v. AreOwnLinks links.now v.items) }
{
    let taken = NodePrefixes::new(alloc, nodes.as_slice().len())?;
    let reader = RouteReader {
        alloc,
        nodes,
        links,
    };
    let (rows, _taken) = read_rows(alloc, root, Table::Route, &reader, taken)?;
    Ok(rows)
}

/// The routes where they come next in a text, and what follows them.
pub(crate) fn next_routes<'a>(
    alloc: Global,
    text: &'a str,
    nodes: &NamedRows<Node>,
    links: &NamedRows<Link>,
) -> Option<(Vec<Route>, &'a str)>
    ensures value { IfSome result (λ p. AreNext table.Route (route_of (node_names nodes.now) links.now) p.0.items text.now p.1.now) }
    ensures own { IfSome result (λ p. AreOwnLinks links.now p.0.items) }
{
    let Ok(taken) = NodePrefixes::new(alloc, nodes.as_slice().len()) else {
        return None;
    };
    let reader = RouteReader {
        alloc,
        nodes,
        links,
    };
    let ((rows, _taken), rest) = next_rows(alloc, text, Table::Route, &reader, taken)?;
    Some((rows, rest))
}
