//! Entries.
ghost use Rattle.std.specs.Prelude.{◌≡◌};

use crate::input::Input;
use std::marker::Model;
use step_draft::{Outputs, SharedOutputs};

/// An input and what the node put out for it.
#[derive(Drop)]
pub struct Entry {
    input: Input,
    outputs: SharedOutputs,
}

impl Model for Entry {
    ghost use Rattle.network_law.specs.Entries.{Entry};

    ghost Value = { Entry };

    ghost view = { λ e. record { input = e.input; outputs = e.outputs } };
}

impl Entry {
    /// An entry of an input and of what the node put out for it.
    pub fn new(input: Input, outputs: SharedOutputs) -> Entry
        ensures { result ≡ record { input = input; outputs = outputs } }
    {
        Entry { input, outputs }
    }

    /// What came to the node.
    pub fn input(&self) -> &Input
        ensures { result.now ≡ self.now.input }
    {
        &self.input
    }

    /// What was put out for it, in order.
    pub fn outputs(&self) -> &Outputs
        ensures { result.now ≡ self.now.outputs }
    {
        self.outputs.outputs()
    }
}
