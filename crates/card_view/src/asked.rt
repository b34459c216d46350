//! What is asked of a network.
use card_digits::Card;

/// How refusals are written.
#[derive(Clone, Copy, Debug, PartialEq, Eq)]
pub enum Format {
    /// Lines to read.
    Text,
    /// A JSON object on each line.
    Json,
}

/// What is to be told of a network.
#[derive(Clone, Copy, Debug, PartialEq, Eq)]
pub enum Asked {
    /// What each node does with a card.
    Card(Card),
    /// All refusals, each with its row.
    Refusals(Format),
}
