//! A field that names a node.
ghost use Rattle.std.specs.Prelude.{◌≡◌, ◌<◌, length, IfOk};
ghost use Rattle.table_fields.specs.Fields.{row_view};
ghost use Rattle.named_rows.specs.Rows.{node_names};
ghost use Rattle.named_rows.specs.Reading.{node_at};

use crate::named_rows::NamedRows;
use card_digits::NodeNo;
use net_rows::Node;
use table_fields::{Key, Row, TableFault};

/// The node that a field names.
#[tactic(auto, unfolding(crate::specs::Reading::node_at))]
pub fn node_at(row: &Row, key: Key, nodes: &NamedRows<Node>) -> Result<NodeNo, TableFault>
    // A fault of the name's form, or that no node has it.
    ensures value { result ≡ node_at (node_names nodes.now) (row_view row.now) key }
    ensures within { IfOk result (λ n. n < length nodes.now) }
{
    let name = row.name(key)?;
    let node = nodes.named(&name, row.place(key))?;
    Ok(NodeNo::new(node))
}
