//! Places for advices.
ghost use Rattle.std.specs.Prelude.{◌≡◌, ◌<◌, ◌&&◌, ℕ, true, None, IfOk};
ghost use Rattle.net_rows.specs.Network.{Network};
ghost use Rattle.message_elements.specs.Groups.{group, is_reversal};
ghost use Rattle.iso_message.specs.Made.{without_forwarder};
ghost use Rattle.network_law.specs.Refusals.{entered_kind, required_entered, required_taken, missing};
ghost use Rattle.network_law.specs.Traces.{dated};
ghost use Rattle.node_machine.specs.Lists.{view};
ghost use Rattle.node_machine.specs.Machine.{load, other_content, finds_no_place, late_finds_no_place, home_of_key};
ghost use Rattle.step_refusals.specs.Keyed.{is_pending_at, request_at};
ghost use Rattle.step_refusals.specs.Places.{is_late, late_has_no_place, finds_no_place_as, has_no_place, is_accepted, given_up};

use crate::readings::{comes_late, is_pending, other_content};
use card_digits::{Key, LinkNo, NodeNo};
use iso_message::Message;
use message_keys::{AdviceId, advice_id, key_of};
use net_rows::Tables;
use node_books::Books;
use std::alloc::AllocError;
use step_rules::{has_good_card, has_issuer, is_approval, is_at_home, is_home_of};

/// How many places a node has, for stored advices and grants and for open requests.
pub const PLACES: u128 = 65536;

/// Whether the message takes back a request that is pending.
fn reverses_pending(books: &Books, message: &Message, key: Key) -> bool
    ensures { result ≡ (is_reversal message.now.kind && is_pending_at books.now.lists key) }
{
    message.kind().is_reversal() && is_pending(books, key)
}

/// The places that a pending request gives up where the message takes it back.
fn given_up(books: &Books, message: &Message, key: Key) -> u128
    ensures { result ≡ given_up books.now.lists message.now key }
{
    if reverses_pending(books, message, key) {
        2
    } else {
        0
    }
}

/// Whether this advice would be stored, and has no place.
fn has_no_place(books: &Books, tables: &Tables, node: NodeNo, message: &Message, key: Key) -> bool
    ensures { result ≡ has_no_place tables.now node books.now.lists message.now key }
{
    let load = books.load().saturating_sub(given_up(books, message, key));
    !is_at_home(tables, node, message) && load >= PLACES
}

/// Whether the message takes back a request of other content.
fn reverses_other(books: &Books, message: &Message, key: Key) -> Result<bool, AllocError>
    ensures { IfOk result (λ other. other ≡ (is_reversal message.now.kind && other_content (request_at books.now.lists key) message.now)) }
{
    if !message.kind().is_reversal() {
        return Ok(false);
    }
    other_content(books, key, message)
}

/// Whether the message is an advice that is not declined.
fn is_accepted(
    books: &Books,
    tables: &Tables,
    message: &Message,
    key: Key,
) -> Result<bool, AllocError>
    ensures { IfOk result (λ accepted. accepted ≡ is_accepted tables.now books.now.lists message.now key) }
{
    if !message.kind().group().is_advice()
        || !has_good_card(message)
        || !has_issuer(tables, message)
    {
        return Ok(false);
    }
    let other = reverses_other(books, message, key)?;
    Ok(!other)
}

/// Whether an advice that the node would accept and know by this identity finds no place.
fn finds_no_place_as(
    books: &Books,
    tables: &Tables,
    node: NodeNo,
    message: &Message,
    id: AdviceId,
) -> Result<bool, AllocError>
    ensures { IfOk result (λ full. full ≡ finds_no_place_as tables.now node books.now.lists message.now id) }
{
    // Where there is a place no request is read.
    if books.is_known(id) || !has_no_place(books, tables, node, message, id.key) {
        return Ok(false);
    }
    is_accepted(books, tables, message, id.key)
}

/// Whether there is a place for one advice more.
fn has_place(books: &Books) -> bool
    ensures { result ≡ true → (t : Network) (n : ℕ) → load (view t n books.now.lists) < 65536 }
{
    PLACES > books.load()
}

/// Whether an advice that an acquirer enters finds no place. It loses its forwarder there.
pub(crate) fn entered_finds_no_place(
    books: &Books,
    tables: &Tables,
    node: NodeNo,
    message: &Message,
) -> Result<bool, AllocError>
    requires kind { entered_kind message.now.kind ≡ true }
    requires whole { missing message.now (required_entered (group message.now.kind)) ≡ None }
    ensures { IfOk result (λ full. full ≡ finds_no_place tables.now node (view tables.now node books.now.lists) (dated books.now.lists.date (without_forwarder message.now))) }
{
    // Nearly always there are places, and then no identity is read.
    if has_place(books) {
        return Ok(false);
    }
    match advice_id(message) {
        Some(id) => {
            let forwarder = [b'0'; 11];
            finds_no_place_as(books, tables, node, message, AdviceId { forwarder, ..id })
        }
        None => Ok(false),
    }
}

/// Whether an advice that comes by a link finds no place.
pub(crate) fn taken_finds_no_place(
    books: &Books,
    tables: &Tables,
    node: NodeNo,
    message: &Message,
) -> Result<bool, AllocError>
    requires { missing message.now (required_taken (group message.now.kind) message.now.kind) ≡ None }
    ensures { IfOk result (λ full. full ≡ finds_no_place tables.now node (view tables.now node books.now.lists) message.now) }
{
    // Nearly always there are places, and then no identity is read.
    if has_place(books) {
        return Ok(false);
    }
    match advice_id(message) {
        Some(id) => finds_no_place_as(books, tables, node, message, id),
        None => Ok(false),
    }
}

/// Whether the node is the home of the card of the key's request.
fn is_home_of_key(books: &Books, tables: &Tables, node: NodeNo, key: Key) -> bool
    ensures { result ≡ home_of_key tables.now node (request_at books.now.lists key) }
{
    match books.of_key(key) {
        Some(row) => is_home_of(tables, node, row.message().card_number()),
        None => false,
    }
}

/// Whether an approval of this key by this link comes late, of a card whose home is elsewhere.
fn is_late(books: &Books, tables: &Tables, node: NodeNo, link: LinkNo, key: Key) -> bool
    ensures { result ≡ is_late tables.now node books.now.lists link key }
{
    books.was_put_on(key, link)
        && comes_late(books, tables, node, key)
        && !is_home_of_key(books, tables, node, key)
}

/// Whether the reversal of such an approval would be stored in one place too many.
fn late_has_no_place(books: &Books, tables: &Tables, node: NodeNo, link: LinkNo, key: Key) -> bool
    ensures { result ≡ late_has_no_place tables.now node books.now.lists link key }
{
    // Where there is a place no book is searched.
    if books.load() < PLACES {
        return false;
    }
    is_late(books, tables, node, link, key)
}

/// Whether the reversal of an approval that comes late by this link finds no place.
pub(crate) fn late_finds_no_place(
    books: &Books,
    tables: &Tables,
    node: NodeNo,
    link: LinkNo,
    message: &Message,
) -> bool
    requires { missing message.now (required_taken (group message.now.kind) message.now.kind) ≡ None }
    ensures { result ≡ late_finds_no_place tables.now node (view tables.now node books.now.lists) link message.now }
{
    // Nearly always there are places, and then no key is read.
    if has_place(books) {
        return false;
    }
    if !message.kind().is_answer() || !is_approval(message) {
        return false;
    }
    match key_of(message) {
        Some(key) => late_has_no_place(books, tables, node, link, key),
        None => false,
    }
}
