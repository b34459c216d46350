//! What the books say of a key, and where messages come from.
ghost use Rattle.std.specs.Prelude.{◌≡◌, IfOk};
ghost use Rattle.network_law.specs.Decision.{same_source};
ghost use Rattle.network_law.specs.Traces.{code_is_not_00};
ghost use Rattle.pending_book.specs.Rows.{source_of};
ghost use Rattle.node_machine.specs.Lists.{own_reversal, view};
ghost use Rattle.node_machine.specs.Machine.{comes_late, other_content};
ghost use Rattle.step_refusals.specs.Keyed.{is_pending_at, request_at};

use card_digits::{Key, LinkNo, NodeNo};
use iso_message::Message;
use message_elements::response_codes;
use message_keys::{AdviceId, AdviceKind, same_content};
use net_rows::Tables;
use node_books::Books;
use pending_book::Row;
use std::alloc::AllocError;
use step_rules::padded_node_id;

/// Whether two messages came by the same way: both by the gate, or by one link.
pub fn same_source(first: Option<LinkNo>, second: Option<LinkNo>) -> bool
    ensures { result ≡ same_source (source_of first) (source_of second) }
{
    first == second
}

/// Whether the key has a request that is not answered.
pub fn is_pending(books: &Books, key: Key) -> bool
    ensures { result ≡ is_pending_at books.now.lists key }
{
    match books.of_key(key) {
        Some(row) => row.is_open(),
        None => false,
    }
}

/// Whether the key has a request of other content.
pub fn other_content(books: &Books, key: Key, message: &Message) -> Result<bool, AllocError>
    ensures { IfOk result (λ other. other ≡ other_content (request_at books.now.lists key) message.now) }
{
    match books.of_key(key) {
        Some(row) => {
            let request = row.message().decode()?;
            Ok(!same_content(&request, message))
        }
        None => Ok(false),
    }
}

/// The identity of a reversal of this key that the node makes.
pub fn own_reversal(tables: &Tables, node: NodeNo, key: Key) -> AdviceId
    ensures { result ≡ own_reversal tables.now node key }
{
    AdviceId {
        kind: AdviceKind::Reversal,
        key,
        forwarder: padded_node_id(tables, node),
    }
}

/// Whether a reversal of the key was accepted, or made here.
pub fn is_reversing(books: &Books, tables: &Tables, node: NodeNo, key: Key) -> bool
    ensures { result ≡ (view tables.now node books.now.lists).advices.reversing key }
{
    books.is_marked(key) || books.is_known(own_reversal(tables, node, key))
}

/// Whether the request is answered, and not by an approval.
fn is_declined(row: &Row) -> bool
    ensures { result ≡ code_is_not_00 row.now.answer }
{
    match row.answer() {
        Some(answer) => !answer.has_code(&response_codes::APPROVED),
        None => false,
    }
}

/// Whether an approval of the key would come late: its request is answered otherwise, and not reversed.
pub fn comes_late(books: &Books, tables: &Tables, node: NodeNo, key: Key) -> bool
    ensures { result ≡ comes_late (view tables.now node books.now.lists) key }
{
    match books.of_key(key) {
        Some(row) => is_declined(row) && !is_reversing(books, tables, node, key),
        None => false,
    }
}
