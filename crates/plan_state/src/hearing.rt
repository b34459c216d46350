//! Which threads of a plan have to hear of what.
ghost use Rattle.std.specs.Prelude.{◌≡◌};
ghost use Rattle.plan_state.specs.Hearing.{who_hears};

use card_digits::NodeNo;
use kept_messages::Way;
use net_rows::Tables;

/// Who has to hear of an output.
#[derive(Clone, Copy, Debug, PartialEq, Eq)]
pub enum Hearer {
    /// That of the node at the other end of the link.
    PumpOf(NodeNo),
    /// That of the node itself.
    Host,
    /// Those at the node itself.
    Sessions,
    Nobody,
}

/// Who has to hear of an output of a node.
pub fn who_hears(tables: &Tables, node: NodeNo, way: Way) -> Hearer
    ensures { result ≡ who_hears tables.now node way }
{
    match way {
        Way::Put(link, _) => Hearer::PumpOf(tables.other_end(node, link)),
        Way::Ask(_) => Hearer::Host,
        Way::Answer => Hearer::Sessions,
        Way::Post => Hearer::Nobody,
    }
}
