//! Orders to lend.

use card_digits::{Amount, Card, DateLabel, NodeNo};

/// To lend another node a part of the limit for a card and date.
#[derive(Clone, Copy, Debug, PartialEq, Eq)]
pub struct Lending {
    pub borrower: NodeNo,
    pub card: Card,
    pub date: DateLabel,
    pub amount: Amount,
}
