//! Answers to what the node forwarded or asked.
ghost use Rattle.std.specs.Prelude.{◌≡◌, true, false, OnOk};
ghost use Rattle.node_machine.specs.Steps.{on_host};
ghost use Rattle.pending_book.specs.Rows.{IsKeyOf};
ghost use Rattle.message_steps.specs.Coming.{counts_by, for_duplicate, on_code_by, take_back};
ghost use Rattle.step_draft.specs.Acting.{Does};

use card_digits::{Key, LinkNo, NodeNo};
use iso_message::Message;
use message_elements::{Code, response_codes};
use net_rows::Tables;
use pending_book::Row;
use std::alloc::AllocError;
use step_draft::Draft;
use step_refusals::comes_late;
use step_rules::as_code;

/// A request whose approval came too late is taken back.
fn take_back(
    draft: &mut Draft,
    tables: &Tables,
    node: NodeNo,
    key: Key,
    request: &Message,
) -> Result<(), AllocError>
    requires { IsKeyOf key request.now }
    ensures base { draft.new.base ≡ draft.old.base }
    ensures ok { OnOk result (Does tables.now node draft.old draft.new (λ b. take_back tables.now node b request.now)) }
{
    let reversal = draft.reversal(tables, node, key, request)?;
    let count = draft.books().count();
    draft.store_made(tables, node, &reversal, count, false)?;
    draft.keep(tables, node, &reversal)
}

/// Whether a code counts for a request: the host's does, and one that came by the link on which the request was put.
fn counts(row: &Row, by: &Option<LinkNo>) -> bool
    ensures { result ≡ counts_by by.now row.now.link }
{
    match by {
        Some(link) => match row.link() {
            Some(own) => own == *link,
            None => false,
        },
        None => true,
    }
}

/// What a code becomes that tells of a duplicate.
fn for_duplicate(by: &Option<LinkNo>) -> Code
    ensures { result ≡ for_duplicate by.now }
{
    match by {
        Some(_) => Code::new(response_codes::SYSTEM_MALFUNCTION),
        None => Code::new(response_codes::DO_NOT_HONOR),
    }
}

/// A code for a key, that came by a link or, where there is none, of the host, closes the key's request, or takes back what is approved too
/// late. A request that is taken back is read into the room.
#[tactic(auto, using(step_draft::proofs::Messages::response_key, step_draft::proofs::Messages::response_plain, crate::proofs::Parts::none_coded, crate::proofs::Parts::strange_coded, crate::proofs::Parts::pending_coded, crate::proofs::Parts::late_coded, crate::proofs::Parts::other_coded))]
pub(crate) fn on_code(
    draft: &mut Draft,
    tables: &Tables,
    node: NodeNo,
    key: Key,
    by: Option<LinkNo>,
    code: Code,
    room: &mut Message,
) -> Result<(), AllocError>
    ensures base { draft.new.base ≡ draft.old.base }
    ensures ok { OnOk result (Does tables.now node draft.old draft.new (λ b. on_code_by tables.now node b key code by)) }
{
    let Some(row) = draft.books().of_key(key) else {
        return Ok(());
    };
    if !counts(row, &by) {
        return Ok(());
    }
    let own = row.key();
    if row.is_open() {
        let source = row.source();
        let request = row.message().share()?;
        let other = for_duplicate(&by);
        return draft.respond_kept(source, own, &request, as_code(other, code));
    }
    let late = code.as_slice() == response_codes::APPROVED.as_slice()
        && comes_late(draft.books(), tables, node, key);
    if !late {
        return Ok(());
    }
    row.message().decode_into(room)?;
    take_back(draft, tables, node, own, room)
}

/// The host's code for an ask. A request that is taken back is read into the room.
pub fn on_host(
    draft: &mut Draft,
    tables: &Tables,
    node: NodeNo,
    ask: u64,
    code: Code,
    room: &mut Message,
) -> Result<(), AllocError>
    ensures base { draft.new.base ≡ draft.old.base }
    ensures ok { OnOk result (Does tables.now node draft.old draft.new (λ b. on_host tables.now node b code (b.ask_key ask))) }
{
    match draft.books().ask(ask) {
        Some(key) => on_code(draft, tables, node, key, None, code, room),
        None => Ok(()),
    }
}
