//! The steps of a script, in the order of its lines.
ghost use Rattle.std.specs.Prelude.{◌≡◌, [], ◌∷◌, ◌≤◌, IfOk, MatchOption, map, reverse};
ghost use Rattle.net_replay.specs.Merged.{merged};

use card_digits::NodeNo;
use std::alloc::{AllocError, Global};
use std::marker::Model;
use switch_node::{Entry, Node};

/// The step of a line: the node that made it, and what that node was given and put out.
#[derive(Clone, Copy)]
pub struct LineStep<'t> {
    pub node: NodeNo,
    pub entry: &'t Entry,
}

/// The steps of a script that weren't taken yet, in the order of its lines.
#[derive(Drop)]
pub struct Steps<'t> {
    /// The nodes of the lines that are left.
    line_nodes: &'t [NodeNo],
    /// For each node what is left of its trace.
    rests: Vec<&'t [Entry]>,
}

impl<'t> Model for Steps<'t> {
    ghost use Rattle.std.specs.Prelude.{List, map};
    ghost use Rattle.net_replay.specs.Merged.{merged};
    ghost use Rattle.net_replay.specs.Steps.{Step};

    ghost Value = { List Step };

    ghost view = { λ s. merged (map (λ r. r.now) s.rests.items) s.line_nodes.now };
}

impl<'t> Steps<'t> {
    /// All the steps of lines at these nodes.
    pub(crate) fn new(
        alloc: Global,
        nodes: &'t [Node<'_>],
        line_nodes: &'t [NodeNo],
    ) -> Result<Steps<'t>, AllocError>
        ensures steps { IfOk result (λ s. s ≡ merged (map (λ a. reverse a.trace) nodes.now) line_nodes.now) }
    {
        let mut rests = Vec::with_capacity(alloc, nodes.len())?;
        for node in nodes {
            rests.push(node.trace())?;
        }
        Ok(Steps { line_nodes, rests })
    }

    /// The step of the next line, which is then taken; none where no line is left.
    pub fn next_step(&mut self) -> Option<LineStep<'t>>
        ensures { MatchOption result ((self.old ≡ []) × (self.new ≡ [])) (λ s. self.old ≡ record { node = s.node; entry = s.entry.now } ∷ self.new) }
    {
        let (node, lines) = self.line_nodes.split_first()?;
        let place = node.place();
        let rest = *self.rests.get(place)?;
        let (entry, later) = rest.split_first()?;
        self.rests[place] = later;
        self.line_nodes = lines;
        Some(LineStep { node: *node, entry })
    }
}
