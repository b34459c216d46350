//! The table `[[stand_in]]`.
ghost use Rattle.std.specs.Prelude.{IfSome};
ghost use Rattle.toml.specs.View.{table_view};
ghost use Rattle.card_digits.specs.Attempts.{Gives};
ghost use Rattle.table_fields.specs.Faults.{is_memory};
ghost use Rattle.named_rows.specs.Rows.{node_names};
ghost use Rattle.net_tables.specs.AllRows.{all_rows};
ghost use Rattle.net_tables.specs.Reading.{stand_in_of};
ghost use Rattle.net_tables.specs.InOrder.{AreNext};
ghost use Rattle.table_fields.specs.declared.place.Table.TheVariants as table;

#[cfg(test)]
mod tests;

use crate::plain::{amount_of, node_named, prefix_of};
use crate::rows::{RowReader, next_rows, read_rows};
use named_rows::{NamedRows, NodePrefixes, new_prefix_at};
use net_rows::{Node, StandIn};
use std::alloc::Global;
use table_fields::{Key, Row, Table, TableFault};
use toml_rows::{bare_row_header, number_pair, text_pair};

#[derive(Clone, Copy)]
struct StandInReader<'a> {
    alloc: Global,
    nodes: &'a NamedRows<Node>,
}

impl<'a> RowReader for StandInReader<'a> {
    ghost use Rattle.std.specs.Prelude.{length};
    ghost use Rattle.named_rows.specs.Rows.{ArePrefixed, node_names};
    ghost use Rattle.net_tables.specs.Rows.{stand_in_prefixes};
    ghost use Rattle.net_tables.specs.Reading.{stand_in_of};

    type Read = StandIn;

    type Taken = NodePrefixes;

    ghost reads = { λ s. stand_in_of (node_names s.nodes.now) };

    ghost knows = { λ s taken done. ArePrefixed (length s.nodes.now) taken (stand_in_prefixes done) };

    ghost fits = { λ _ _. Unit {0} };

    #[tactic(auto, unfolding(crate::specs::Reading::stand_in_of), using(card_digits::proofs::Attempts::fails_bind))]
    fn read(
        &self,
        taken: &mut NodePrefixes,
        _done: &[StandIn],
        row: &Row,
    ) -> Result<StandIn, TableFault> {
        let (node, prefix) = new_prefix_at(row, self.nodes, taken)?;
        let day = row.amount(Key::Day)?;
        let single = row.amount(Key::Single)?;
        row.no_other(&[Key::Node, Key::Prefix, Key::Day, Key::Single])?;
        Ok(StandIn {
            node,
            prefix,
            day,
            single,
        })
    }

    fn plain<'t>(
        &self,
        taken: &mut NodePrefixes,
        _done: &[StandIn],
        table: Table,
        text: &'t str,
    ) -> Option<(StandIn, &'t str)> {
        let Some((stand_in, rest)) = self.untaken(table, text) else {
            return None;
        };
        if !taken.take(stand_in.node, stand_in.prefix) {
            return None;
        }
        Some((stand_in, rest))
    }
}

impl<'a> StandInReader<'a> {
    ghost use Rattle.std.specs.Prelude.{◌<◌, length, IfSome};
    ghost use Rattle.named_rows.specs.Rows.{node_names};
    ghost use Rattle.net_tables.specs.Rows.{stand_in_prefixes};
    ghost use Rattle.net_tables.specs.Reading.{stand_in_of};
    ghost use Rattle.net_tables.specs.Plain.{IsRowIfNew};

    /// The stand-in row that comes next, where its keys stand in the order of the documents. Of its prefix nothing is asked yet.
    fn untaken<'t>(&self, table: Table, text: &'t str) -> Option<(StandIn, &'t str)>
        ensures value { IfSome result (λ p. IsRowIfNew table (stand_in_of (node_names self.now.nodes.now)) stand_in_prefixes p.0.node p.0.prefix p.0 text.now p.1.now) }
        ensures within { IfSome result (λ p. p.0.node < length self.now.nodes.now) }
        ensures shorter { IfSome result (λ p. length p.1.now < length text.now) }
    {
        let rest = bare_row_header(self.alloc, text, table.word())?;
        let (name, rest) = text_pair(rest, Key::Node.word())?;
        let node = node_named(self.nodes, name)?;
        let (digits, rest) = text_pair(rest, Key::Prefix.word())?;
        let prefix = prefix_of(digits)?;
        let (number, rest) = number_pair(self.alloc, rest, Key::Day.word())?;
        let day = amount_of(number)?;
        let (number, rest) = number_pair(self.alloc, rest, Key::Single.word())?;
        let single = amount_of(number)?;
        let stand_in = StandIn {
            node,
            prefix,
            day,
            single,
        };
        Some((stand_in, rest))
    }
}

/// All stand-in rows, at most 4,096 at a node, in the order of the text.
pub(crate) fn stand_ins(
    alloc: Global,
    root: &toml::Table,
    nodes: &NamedRows<Node>,
) -> Result<Vec<StandIn>, TableFault>
    ensures { Gives is_memory (λ v. v.items) result (all_rows (table_view root.now) table.StandIn (stand_in_of (node_names nodes.now))) }
{
    let taken = NodePrefixes::new(alloc, nodes.as_slice().len())?;
    let reader = StandInReader { alloc, nodes };
    let (rows, _taken) = read_rows(alloc, root, Table::StandIn, &reader, taken)?;
    Ok(rows)
}

/// The stand-in rows where they come next in a text, and what follows them.
pub(crate) fn next_stand_ins<'a>(
    alloc: Global,
    text: &'a str,
    nodes: &NamedRows<Node>,
) -> Option<(Vec<StandIn>, &'a str)>
    ensures { IfSome result (λ p. AreNext table.StandIn (stand_in_of (node_names nodes.now)) p.0.items text.now p.1.now) }
{
    let Ok(taken) = NodePrefixes::new(alloc, nodes.as_slice().len()) else {
        return None;
    };
    let reader = StandInReader { alloc, nodes };
    let ((rows, _taken), rest) = next_rows(alloc, text, Table::StandIn, &reader, taken)?;
    Some((rows, rest))
}
