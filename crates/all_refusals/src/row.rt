//! Rows of the tables, and the refusals that speak of them.
use table_checker::Refusal;

/// A row of a table, by its place there: the first row is at 0.
#[derive(Clone, Copy, Debug, PartialEq, Eq)]
pub enum TableRow {
    Node(usize),
    Link(usize),
    Acquirer(usize),
    Issuer(usize),
    Route(usize),
    StandIn(usize),
}

/// A refusal, and the row that it speaks of.
#[derive(Clone, Copy, Debug, PartialEq, Eq)]
pub struct RowRefusal {
    pub refusal: Refusal,
    pub row: TableRow,
}
