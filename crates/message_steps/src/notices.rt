//! Reversals and stand-in advices.
ghost use Rattle.std.specs.Prelude.{◌≡◌, true, OnOk};
ghost use Rattle.message_elements.specs.Codes.{code_68};
ghost use Rattle.message_elements.specs.Groups.{group, is_advice_group};
ghost use Rattle.message_keys.specs.Keys.{identity_of};
ghost use Rattle.node_machine.specs.Lists.{leaves};
ghost use Rattle.node_machine.specs.Machine.{is_pending};
ghost use Rattle.node_machine.specs.Steps.{accept, answer_pending, on_advice, on_reversal};
ghost use Rattle.pending_book.specs.Rows.{source_of};
ghost use Rattle.message_steps.specs.Coming.{refusal_code};
ghost use Rattle.step_draft.specs.Acting.{Does};

use card_digits::{Amount, Key, LinkNo, NodeNo};
use iso_message::Message;
use message_elements::{Code, response_codes};
use message_keys::{AdviceId, actual_amount};
use net_rows::Tables;
use std::alloc::AllocError;
use step_draft::Draft;
use step_refusals::other_content;
use step_rules::{has_good_card, has_issuer};

/// What a reversal leaves of what it reverses.
fn left_by(m: &Message) -> Amount
    ensures { result ≡ leaves m.now }
{
    match actual_amount(m) {
        Some(actual) => actual,
        None => Amount::new(0),
    }
}

/// An advice is acknowledged, stored and handed on.
#[tactic(auto, using(step_draft::proofs::Messages::advice_key, crate::proofs::Messages::kept_leaves))]
fn accept(
    draft: &mut Draft,
    tables: &Tables,
    node: NodeNo,
    id: AdviceId,
    m: &Message,
    source: Option<LinkNo>,
) -> Result<(), AllocError>
    requires id { id ≡ identity_of m.now }
    requires advice { is_advice_group (group m.now.kind) ≡ true }
    ensures base { draft.new.base ≡ draft.old.base }
    ensures ok { OnOk result (Does tables.now node draft.old draft.new (λ b. accept tables.now node b m.now (source_of source))) }
{
    let kept = draft.kept(m)?;
    let approved = Code::new(response_codes::APPROVED);
    draft.respond_to(source, id.key, m, &kept, approved)?;
    let count = draft.count_now();
    let advice = draft.kept_advice(id, m, &kept)?;
    draft.store_accepted(tables, node, &advice, left_by(m), count)?;
    draft.keep(tables, node, &advice)
}

/// A pending request that is taken back is answered at once.
#[tactic(auto, using(step_draft::proofs::Messages::response_key, step_draft::proofs::Messages::response_plain, crate::proofs::Parts::pending_answered, crate::proofs::Parts::pending_closed))]
fn answer_pending(
    draft: &mut Draft,
    tables: &Tables,
    node: NodeNo,
    key: Key,
) -> Result<(), AllocError>
    ensures base { draft.new.base ≡ draft.old.base }
    ensures ok { OnOk result (Does tables.now node draft.old draft.new (λ b. answer_pending tables.now node (is_pending b key) (b.opening key) code_68)) }
{
    let Some(row) = draft.books().of_key(key) else {
        return Ok(());
    };
    if !row.is_open() {
        return Ok(());
    }
    let own = row.key();
    let source = row.source();
    let request = row.message().share()?;
    draft.respond_kept(
        source,
        own,
        &request,
        Code::new(response_codes::RESPONSE_RECEIVED_TOO_LATE),
    )
}

/// The code of the response to a reversal or an advice that is not kept: 14 of a bad card, 92 without an issuer, 94 of other content,
/// and 00 where it is known. None where it is to be kept.
fn refusal(tables: &Tables, m: &Message, other: bool, known: bool) -> Option<Code>
    ensures { result ≡ refusal_code tables.now m.now other known }
{
    if !has_good_card(m) {
        return Some(Code::new(response_codes::INVALID_CARD_NUMBER));
    }
    if !has_issuer(tables, m) {
        return Some(Code::new(response_codes::NO_INSTITUTION_FOUND_FOR_ROUTING));
    }
    if other {
        return Some(Code::new(response_codes::DUPLICATE_TRANSMISSION));
    }
    if known {
        return Some(Code::new(response_codes::APPROVED));
    }
    None
}

/// A reversal.
#[tactic(auto, using(step_draft::proofs::Messages::advice_key))]
pub(crate) fn on_reversal(
    draft: &mut Draft,
    tables: &Tables,
    node: NodeNo,
    id: AdviceId,
    m: &Message,
    source: Option<LinkNo>,
) -> Result<(), AllocError>
    requires id { id ≡ identity_of m.now }
    requires advice { is_advice_group (group m.now.kind) ≡ true }
    ensures base { draft.new.base ≡ draft.old.base }
    ensures ok { OnOk result (Does tables.now node draft.old draft.new (λ b. on_reversal tables.now node b m.now (source_of source))) }
{
    let other = other_content(draft.books(), id.key, m)?;
    let known = draft.books().is_known(id);
    if let Some(code) = refusal(tables, m, other, known) {
        return draft.respond(source, id.key, m, code);
    }
    answer_pending(draft, tables, node, id.key)?;
    accept(draft, tables, node, id, m, source)
}

/// A stand-in advice.
#[tactic(auto, using(step_draft::proofs::Messages::advice_key))]
pub(crate) fn on_advice(
    draft: &mut Draft,
    tables: &Tables,
    node: NodeNo,
    id: AdviceId,
    m: &Message,
    source: Option<LinkNo>,
) -> Result<(), AllocError>
    requires id { id ≡ identity_of m.now }
    requires advice { is_advice_group (group m.now.kind) ≡ true }
    ensures base { draft.new.base ≡ draft.old.base }
    ensures ok { OnOk result (Does tables.now node draft.old draft.new (λ b. on_advice tables.now node b m.now (source_of source))) }
{
    let known = draft.books().is_known(id);
    if let Some(code) = refusal(tables, m, false, known) {
        return draft.respond(source, id.key, m, code);
    }
    accept(draft, tables, node, id, m, source)
}
