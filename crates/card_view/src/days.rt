//! What all nodes together may approve by themselves.
ghost use Rattle.std.specs.Prelude.{◌≡◌, Some};
ghost use Rattle.net_rows.specs.Network.{issuer, day};
ghost use Rattle.card_view.specs.View.{days_line, days_sum};

use card_digits::{Amount, Card, NodeNo};
use net_rows::Tables;
use std::fmt;

/// How much a node may approve by itself for a card and a day.
fn day(tables: &Tables, card: &Card, node: NodeNo) -> Amount
    ensures { result ≡ day tables.now node card.now }
{
    match tables.stand_in(node, card) {
        Some(row) => row.day,
        None => Amount::new(0),
    }
}

/// How much all nodes together may approve by themselves for a card and a day.
pub fn days_sum(tables: &Tables, card: &Card) -> u64
    ensures { result ≡ days_sum tables.now card.now }
{
    let mut sum = 0;
    for place in 0..tables.nodes().len() {
        sum += day(tables, card, NodeNo::new(place)).value();
    }
    sum
}

/// The sum of stand-in days, beside the ceiling.
#[derive(Clone, Copy)]
pub(crate) struct DaysLine<'t> {
    pub(crate) tables: &'t Tables,
    pub(crate) card: &'t Card,
}

impl fmt::Display for DaysLine<'_> {
    ghost output = { λ line. Some (days_line (days_sum line.tables.now line.card.now) (issuer line.tables.now line.card.now)) };

    fn fmt<W: fmt::Write>(&self, f: &mut fmt::Formatter<W>) -> fmt::Result {
        let sum = days_sum(self.tables, self.card);
        match self.tables.issuer(self.card) {
            Some(issuer) => {
                let ceiling = issuer.ceiling.value();
                write!(f, "sum of stand-in days {sum}; ceiling {ceiling}\n")
            }
            None => write!(f, "sum of stand-in days {sum}; no ceiling\n"),
        }
    }
}
