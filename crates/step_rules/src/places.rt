//! What a node looks up in the tables, for a message or for a card.
ghost use Rattle.std.specs.Prelude.{◌≡◌, ◌≤◌, length, true, None, is_some};
ghost use Rattle.std.specs.Char.{is_ascii_digit};
ghost use Rattle.std.specs.List.{list_all};
ghost use Rattle.std.specs.Option.{option_copied};
ghost use Rattle.card_digits.specs.Digits.{digits_of};
ghost use Rattle.card_digits.specs.Numbers.{pad11};
ghost use Rattle.message_elements.specs.Values.{set_fault};
ghost use Rattle.message_elements.specs.Table.{form_of};
ghost use Rattle.net_rows.specs.Network.{issuer, stand_in, day};
ghost use Rattle.network_law.specs.Cards.{card_of};
ghost use Rattle.network_law.specs.Refusals.{may_not_borrow};
ghost use Rattle.network_law.specs.Tables.{is_attached, is_home, is_named, node_id, route_links, single};
ghost use Rattle.network_law.specs.Traces.{home_is, is_at_home};

use card_digits::{Amount, Card, LinkNo, NodeNo, pad11};
use iso_message::{Message, bytes_of};
use message_elements::elements;
use net_rows::{Issuer, StandIn, Tables};
use network_law::Grant;

/// The card number of a message (element 2), nothing where it is absent.
#[tactic(auto, unfolding(network_law::specs::Cards::card_of))]
pub fn card_number_of(message: &Message) -> &[u8]
    ensures card { digits_of result.now ≡ card_of message.now }
    ensures digits { list_all is_ascii_digit result.now ≡ true }
{
    // Every message can be written, so element 2 has digits alone.
    let _ = message.kind();
    bytes_of(message, elements::CARD_NUMBER)
}

/// The issuer of a message's card.
pub fn issuer_of<'t>(tables: &'t Tables, message: &Message) -> Option<&'t Issuer>
    ensures { option_copied result ≡ issuer tables.now (card_of message.now) }
{
    tables.issuer_of_number(card_number_of(message))
}

/// Whether a message's card has an issuer.
pub fn has_issuer(tables: &Tables, message: &Message) -> bool
    ensures { result ≡ is_some (issuer tables.now (card_of message.now)) }
{
    match issuer_of(tables, message) {
        Some(_) => true,
        None => false,
    }
}

/// The node's stand-in row for a message's card.
pub fn stand_in_of<'t>(tables: &'t Tables, node: NodeNo, message: &Message) -> Option<&'t StandIn>
    ensures { option_copied result ≡ stand_in tables.now node (card_of message.now) }
{
    tables.stand_in_of_number(node, card_number_of(message))
}

/// The links of the node's route row for the card of this number, in the row's order, and none without a row.
#[tactic(auto, unfolding(network_law::specs::Tables::route_links))]
pub fn links_of<'t>(tables: &'t Tables, node: NodeNo, number: &[u8]) -> &'t [LinkNo]
    requires { list_all is_ascii_digit number.now ≡ true }
    ensures { result.now ≡ route_links tables.now node (digits_of number.now) }
{
    match tables.route_of_number(node, number) {
        Some(row) => row.links.as_slice(),
        None => &[],
    }
}

/// The same for a message's card.
pub fn route_links<'t>(tables: &'t Tables, node: NodeNo, message: &Message) -> &'t [LinkNo]
    ensures { result.now ≡ route_links tables.now node (card_of message.now) }
{
    links_of(tables, node, card_number_of(message))
}

/// The most that the node may approve by itself in one amount for a message's card.
pub fn single(tables: &Tables, node: NodeNo, message: &Message) -> Amount
    ensures { result ≡ single tables.now node (card_of message.now) }
{
    match stand_in_of(tables, node, message) {
        Some(row) => row.single,
        None => Amount::new(0),
    }
}

/// What the node's stand-in row allows it for a card and a settlement date, 0 without a row.
pub fn day(tables: &Tables, node: NodeNo, card: &Card) -> Amount
    ensures { result ≡ day tables.now node card.now }
{
    match tables.stand_in(node, card) {
        Some(row) => row.day,
        None => Amount::new(0),
    }
}

/// Whether the node is the issuer's home.
pub fn is_home(issuer: &Issuer, node: NodeNo) -> bool
    ensures { result ≡ is_home issuer.now node }
{
    issuer.home == node
}

/// Whether the node is the home of the card of this number.
pub fn is_home_of(tables: &Tables, node: NodeNo, number: &[u8]) -> bool
    requires { list_all is_ascii_digit number.now ≡ true }
    ensures { result ≡ home_is node (issuer tables.now (digits_of number.now)) }
{
    match tables.issuer_of_number(number) {
        Some(issuer) => is_home(issuer, node),
        None => false,
    }
}

/// Whether the node is the home of a message's card.
pub fn is_at_home(tables: &Tables, node: NodeNo, message: &Message) -> bool
    ensures { result ≡ is_at_home tables.now node message.now }
{
    is_home_of(tables, node, card_number_of(message))
}

/// Whether a card's issuer lets the node approve by itself.
pub fn is_named(tables: &Tables, node: NodeNo, card: &Card) -> bool
    ensures { result ≡ is_named (issuer tables.now card.now) node }
{
    match tables.issuer(card) {
        Some(issuer) => issuer.named.as_slice().contains(&node),
        None => false,
    }
}

/// Whether an acquirer with this padded id is attached to the node.
pub fn is_attached(tables: &Tables, node: NodeNo, acquirer: &[u8; 11]) -> bool
    ensures { result ≡ is_attached tables.now node acquirer.now }
{
    for row in tables.acquirers() {
        if row.node == node && pad11(row.id.as_slice()) == *acquirer {
            return true;
        }
    }
    false
}

/// The node's id, as it stands in the tables. Element 33 takes it.
pub fn node_id(tables: &Tables, node: NodeNo) -> &[u8]
    ensures id { result.now ≡ node_id tables.now node }
    ensures short { length result.now ≤ 11 }
    ensures fits { set_fault (form_of 33) 33 result.now ≡ None }
{
    match tables.nodes().get(node.place()) {
        Some(row) => row.id.as_slice(),
        None => &[],
    }
}

/// The node's id, padded.
pub fn padded_node_id(tables: &Tables, node: NodeNo) -> [u8; 11]
    ensures { result ≡ pad11 (node_id tables.now node) }
{
    pad11(node_id(tables, node))
}

/// Whether a grant is not the node's to take: it is for another node, or for one that the card's issuer does not name.
pub fn may_not_borrow(tables: &Tables, node: NodeNo, grant: &Grant) -> bool
    ensures { result ≡ may_not_borrow tables.now node grant.now }
{
    grant.borrower != padded_node_id(tables, node) || !is_named(tables, node, &grant.card)
}
