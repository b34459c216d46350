//! What the program prints of a network.
use card_digits::{Card, Prefix};

/// How an answer is written.
#[derive(Clone, Copy, Debug, PartialEq, Eq)]
pub enum Format {
    /// Lines to read.
    Text,
    /// JSON, an object on each line.
    Json,
}

/// What a picture is written in.
#[derive(Clone, Copy, Debug, PartialEq, Eq)]
pub enum Drawing {
    Svg,
    /// The input of Graphviz.
    Dot,
}

/// What to print of a network.
#[derive(Clone, Copy, Debug, PartialEq, Eq)]
pub enum Job {
    /// What each node does with a card.
    Card(Card, Format),
    /// All refusals, each with its row.
    Refusals(Format),
    /// The nodes, and the links between them, with the routes of a PAN prefix where one is given.
    Picture(Option<Prefix>, Drawing),
    /// A trace that `card_switch replay` printed, as a table.
    Trace,
}
