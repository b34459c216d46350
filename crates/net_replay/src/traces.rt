//! What comes of a script.
ghost use Rattle.std.specs.Prelude.{◌≡◌, ◌<◌, ◌^◌, List, IfOk, length, reverse};
ghost use Rattle.net_rows.specs.Network.{Network};
ghost use Rattle.net_replay.specs.Steps.{Step};
ghost use Rattle.net_replay.specs.Traces.{AreTraces};

use crate::steps::Steps;
use card_digits::NodeNo;
use std::alloc::{AllocError, Global};
use std::marker::Model;
use switch_node::Node;

/// The nodes with their traces, in the order of the tables, and for each line of the script its node. The entries of a node stand in its
/// trace in the order of its lines.
#[derive(Drop)]
pub struct Traces<'a> {
    nodes: Vec<Node<'a>>,
    line_nodes: Vec<NodeNo>,
}

impl<'a> Model for Traces<'a> {
    ghost use Rattle.net_replay.specs.Traces.{TracesView};

    ghost Value = { TracesView };

    ghost view = { λ r. record { nodes = r.nodes.items; line_nodes = r.line_nodes.items } };
}

impl<'a> Traces<'a> {
    pub(crate) fn new(nodes: Vec<Node<'a>>, line_nodes: Vec<NodeNo>) -> Traces<'a>
        ensures { result ≡ record { nodes = nodes.entry.items; line_nodes = line_nodes.items } }
    {
        Traces { nodes, line_nodes }
    }

    /// The nodes, in the order of the tables.
    pub fn nodes(&self) -> &[Node<'a>]
        ensures { result.now ≡ self.now.nodes }
    {
        self.nodes.as_slice()
    }

    /// The node of each line, in the order of the lines.
    pub fn line_nodes(&self) -> &[NodeNo]
        ensures { result.now ≡ self.now.line_nodes }
    {
        self.line_nodes.as_slice()
    }

    /// The steps of the lines. Memory is taken for one slice of each node, and none while they are gone through.
    pub fn steps(&self, alloc: Global) -> Result<Steps<'_>, AllocError>
        // Those of the script, the oldest first.
        ensures steps { IfOk result (λ s. (t : Network) (steps : List Step) → AreTraces t steps self.now → s ≡ reverse steps) }
        ensures few { IfOk result (λ s. length s < 2 ^ 63) }
    {
        Steps::new(alloc, self.nodes.as_slice(), self.line_nodes.as_slice())
    }
}
