//! Rows at a node, with a prefix that is new there.
ghost use Rattle.std.specs.Prelude.{◌≡◌, ◌<◌, [], true, false, not, length, nat_le, replicate, slice_set, OnOk, OnErr, IfOk};
ghost use Rattle.std.specs.FinSet as set;
ghost use Rattle.card_digits.specs.Attempts.{Gives};
ghost use Rattle.table_fields.specs.Faults.{is_memory};
ghost use Rattle.table_fields.specs.Fields.{row_view};
ghost use Rattle.named_rows.specs.Rows.{node_names, prefixes_at, taken_in, ArePrefixed, IsTaken};
ghost use Rattle.named_rows.specs.Reading.{new_prefix_at};
ghost use Rattle.named_rows.specs.Plain.{IsNewPrefix};

use crate::named_rows::NamedRows;
use crate::node::node_at;
use crate::node_masks::add_node;
use card_digits::{NodeNo, Prefix};
use net_rows::Node;
use prefix_map::PrefixMap;
use std::alloc::{AllocError, Global};
use std::marker::Model;
use table_fields::{Key, Row, TableFault};

const MOST_ROWS: usize = 4_096;

/// The prefixes of each node, by its place.
#[derive(Drop)]
pub struct NodePrefixes {
    /// The nodes that have a prefix, each by a bit.
    masks: PrefixMap<u64>,
    /// How many prefixes each node has.
    counts: Vec<usize>,
}

impl Model for NodePrefixes {
    ghost use Rattle.std.specs.Prelude.{List};
    ghost use Rattle.std.specs.Coded.{coded_ℕ, coded_list};
    ghost use Rattle.std.specs.FinSet as set;
    ghost use Rattle.named_rows.specs.Rows.{PrefixSet};
    ghost use Rattle.named_rows.specs.Masks.{sets_from, AreCounted};

    ghost Value = { List PrefixSet };

    ghost coded = { coded_list (set.code (coded_list coded_ℕ)) };

    ghost view = { λ a. sets_from a.masks.entries 0 a.counts.items };

    ghost invariant = { λ a. AreCounted a.masks.entries 0 a.counts.items };
}

/// So many counts of nothing.
fn zeros(alloc: Global, count: usize) -> Result<Vec<usize>, AllocError>
    ensures { IfOk result (λ v. v.items ≡ replicate count 0) }
{
    vec![in alloc; 0; count]
}

impl NodePrefixes {
    /// No prefixes for each of so many nodes.
    pub fn new(alloc: Global, nodes: usize) -> Result<NodePrefixes, AllocError>
        ensures { IfOk result (λ v. ArePrefixed nodes v (λ _. [])) }
    {
        Ok(NodePrefixes {
            masks: PrefixMap::new(alloc),
            counts: zeros(alloc, nodes)?,
        })
    }

    /// Whether the node has as many rows as it may have.
    #[tactic(auto, unfolding(crate::specs::Rows::taken_in))]
    fn is_full(&self, node: NodeNo) -> bool
        requires { node < length self.now }
        ensures { result ≡ nat_le 4_096 (taken_in self.now node).count }
    {
        self.counts[node.place()] >= MOST_ROWS
    }

    /// Puts one prefix more at a node that has room, and says whether it is new there.
    fn insert(&mut self, node: NodeNo, prefix: Prefix) -> Result<bool, AllocError>
        requires within { node < length self.old }
        requires room { nat_le 4_096 (taken_in self.old node).count ≡ false }
        ensures new { IfOk result (λ is_new. is_new ≡ not ((taken_in self.old node).has prefix)) }
        ensures set { OnOk result (self.new ≡ slice_set self.old node (set.insert (prefixes_at self.old node) prefix)) }
        ensures stays { OnErr result (self.new ≡ self.old) }
    {
        let is_new = add_node(&mut self.masks, node, prefix)?;
        if is_new {
            self.counts[node.place()] += 1;
        }
        Ok(is_new)
    }

    /// Takes a prefix for one row more of a node. Nothing is taken, and the answer is false, where the node has 4,096 rows, where the
    /// prefix isn't new there, and where memory is refused.
    pub fn take(&mut self, node: NodeNo, prefix: Prefix) -> bool
        requires { node < length self.old }
        ensures taken { result ≡ true → IsNewPrefix node prefix self.old self.new }
        ensures stays { result ≡ false → self.new ≡ self.old }
    {
        if self.is_full(node) {
            return false;
        }
        match self.insert(node, prefix) {
            Ok(is_new) => is_new,
            Err(_) => false,
        }
    }
}

/// The row's node and its prefix, which is new at the node.
#[tactic(auto, unfolding(crate::specs::Reading::new_prefix_at))]
pub fn new_prefix_at(
    row: &Row,
    nodes: &NamedRows<Node>,
    taken: &mut NodePrefixes,
) -> Result<(NodeNo, Prefix), TableFault>
    requires { length taken.old ≡ length nodes.now }
    ensures value { Gives is_memory (λ p. p) result (new_prefix_at (node_names nodes.now) (taken_in taken.old) (row_view row.now)) }
    ensures taken { IfOk result (λ p. IsTaken p.0 p.1 taken.old taken.new) }
    ensures stays { OnErr result (taken.new ≡ taken.old) }
{
    let node = node_at(row, Key::Node, nodes)?;
    if taken.is_full(node) {
        return Err(TableFault::TooMany(row.table));
    }
    let prefix = row.prefix(Key::Prefix)?;
    if !taken.insert(node, prefix)? {
        return Err(TableFault::Twice(row.place(Key::Prefix)));
    }
    Ok((node, prefix))
}
