//! Whether inputs are for a node.
ghost use Rattle.network_law.specs.Runs.{NamesOwnLink};
ghost use Rattle.switch_node.specs.Inputs.{input_of};
ghost use Rattle.net_threads.specs.Verdicts.{Decides};

use switch_node::{Case, Input, Node};

fn is_own_case(node: &Node<'_>, case: &Case) -> bool
    ensures { Decides result (NamesOwnLink node.now.t node.now.n (input_of case.now)) }
{
    match case {
        Case::Take(link, _, _) => node.has_link(*link),
        Case::LinkUp(link) => node.has_link(*link),
        Case::LinkDown(link) => node.has_link(*link),
        _ => true,
    }
}

/// Whether a link that an input names is one of the node's.
pub(crate) fn is_own(node: &Node<'_>, input: &Input) -> bool
    ensures { Decides result (NamesOwnLink node.now.t node.now.n input.now) }
{
    is_own_case(node, input.case())
}
