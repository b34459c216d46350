//! What a node may lend.
ghost use Rattle.std.specs.Prelude.{◌≡◌, ◌<◌, ◌^◌};
ghost use Rattle.node_machine.specs.Lists as lists;
ghost use Rattle.node_machine.specs.Lists.{view, LeftAsMarked};
ghost use Rattle.node_machine.specs.Machine.{allowance, may_not_lend};

use card_digits::{Amount, Card, DateLabel, NodeNo};
use net_rows::Tables;
use node_books::{Books, CardDay};
use step_rules::{are_linked, day, is_named};

/// What the node's own approvals use for a card and a settlement date.
pub fn used(books: &Books, card: &Card, date: &DateLabel) -> u128
    ensures used { result ≡ lists.used books.now.lists.takes card.now date.now }
    ensures bound { result < 2 ^ 104 }
{
    books.used(&CardDay::of(card, date))
}

/// The node's allowance of a card and a settlement date: its day limit and what it borrowed, less what it lent.
pub fn allowance(
    books: &Books,
    tables: &Tables,
    node: NodeNo,
    card: &Card,
    date: &DateLabel,
) -> u128
    ensures { result ≡ allowance tables.now node (view tables.now node books.now.lists) card.now date.now }
{
    books.allowance(day(tables, node, card), &CardDay::of(card, date))
}

/// Whether the node may not lend so much of a card and a settlement date to another: no link joins the two, the amount is 0, the
/// card's issuer does not name the borrower, or less is left.
pub fn may_not_lend(
    books: &Books,
    tables: &Tables,
    node: NodeNo,
    borrower: NodeNo,
    card: &Card,
    date: &DateLabel,
    amount: Amount,
) -> bool
    // What own approvals count for is what accepted reversals leave of them.
    requires { LeftAsMarked books.now.lists.marks books.now.lists.takes }
    ensures { result ≡ may_not_lend tables.now node (view tables.now node books.now.lists) borrower card.now date.now amount }
{
    if !are_linked(tables, node, borrower) || amount.value() == 0 {
        return true;
    }
    let left = allowance(books, tables, node, card, date).saturating_sub(used(books, card, date));
    !is_named(tables, borrower, card) || left < amount.value() as u128
}
