//! Messages that come to a node.
ghost use Rattle.std.specs.Prelude.{◌≡◌, ◌&&◌, ℕ, bytes_eq, [], IfOk, IfSome, OnOk, true, false};
ghost use Rattle.card_digits.specs.Digits.{IsDateLabel};
ghost use Rattle.iso_message.specs.Fields.{has};
ghost use Rattle.message_elements.specs.Groups.{group, is_request, is_advice_group};
ghost use Rattle.message_keys.specs.Keys.{key_of, identity_of, has_identity, has_key, code_of};
ghost use Rattle.message_elements.specs.Codes.{code_00};
ghost use Rattle.iso_message.specs.Made.{without_forwarder};
ghost use Rattle.net_rows.specs.Network.{Network};
ghost use Rattle.network_law.specs.Cards.{text_of};
ghost use Rattle.network_law.specs.Traces.{ByLink, Enter, Take, is_ack, dated};
ghost use Rattle.node_machine.specs.Lists.{LeftAsMarked};
ghost use Rattle.node_machine.specs.Steps.{on_advice, on_answer, on_group, on_request, on_reversal, step};
ghost use Rattle.node_books.specs.Effects.{progress};
ghost use Rattle.pending_book.specs.Rows.{IsKeyOf, source_of};
ghost use Rattle.step_draft.specs.Acting.{Does};
ghost use Rattle.step_draft.specs.Used.{IsQuiet};
ghost use Rattle.message_steps.specs.Coming.{opened_start, is_complete};

use crate::answers::on_code;
use crate::notices::{on_advice, on_reversal};
use crate::requests::on_request;
use card_digits::{DateLabel, Key, LinkNo, NodeNo};
use iso_message::Message;
use kept_messages::KeptMessage;
use message_elements::{DecodeFault, Group, elements};
use message_keys::{AdviceId, advice_id, code_of, key_of};
use net_rows::Tables;
use node_books::Effect;
use pending_book::Row;
use std::alloc::AllocError;
use step_draft::Draft;
use step_rules::{card_of, is_approval};

/// The key of a request.
#[tactic(auto, using(crate::proofs::Messages::request_key))]
fn request_key(m: &Message) -> Key
    requires request { is_request m.now.kind ≡ true }
    requires key { has_key m.now ≡ true }
    ensures { IsKeyOf result m.now }
{
    match key_of(m) {
        Some(key) => key,
        None => unreachable!(),
    }
}

/// A settlement date in ASCII.
fn date_text(date: &DateLabel) -> [u8; 4]
    ensures text { result ≡ text_of date.now }
    ensures form { IsDateLabel date.now }
{
    let digits = date.digits();
    [
        digits[0] + b'0',
        digits[1] + b'0',
        digits[2] + b'0',
        digits[3] + b'0',
    ]
}

/// Whether a message acknowledges an advice.
fn is_acknowledgement(m: &Message) -> bool
    ensures { result ≡ (is_ack (group m.now.kind) && bytes_eq (code_of m.now) code_00) }
{
    let ack = match m.kind().group() {
        Group::AdviceResponse => true,
        _ => false,
    };
    ack && is_approval(m)
}

/// What an advice, or what acknowledges one, is known by.
#[tactic(auto, using(crate::proofs::Messages::known_identity))]
fn identity(m: &Message) -> AdviceId
    requires { has_identity m.now ≡ true }
    ensures { result ≡ identity_of m.now }
{
    match advice_id(m) {
        Some(id) => id,
        None => unreachable!(),
    }
}

/// Makes of a message what its gate handles: without the forwarding institution, and a request with the settlement date.
fn prepare(draft: &Draft, m: &mut Message) -> Result<(), AllocError>
    ensures { OnOk result (m.new ≡ dated draft.now.base.date (without_forwarder m.old)) }
{
    m.remove(elements::FORWARDING_INSTITUTION);
    if !m.kind().is_request() {
        return Ok(());
    }
    let text = date_text(&draft.books().date());
    match m.set(elements::SETTLEMENT_DATE, &text) {
        Ok(()) => Ok(()),
        Err(fault) => match fault {
            DecodeFault::Memory => Err(AllocError),
            // Element 15 takes the four digits of a date.
            _ => unreachable!(),
        },
    }
}

/// A request that came, with its key.
#[derive(Drop)]
struct Opened {
    key: Key,
    kept: KeptMessage,
}

/// A request opens its key, where that has none yet; another message does nothing as it comes. Answers with what is kept of a request.
#[tactic(auto, using(crate::proofs::Coming::opens, crate::proofs::Coming::opens_none))]
fn open(
    draft: &mut Draft,
    m: &Message,
    source: Option<LinkNo>,
) -> Result<Option<Opened>, AllocError>
    requires empty { draft.old.effects ≡ [] }
    requires complete { is_complete (group m.now.kind) m.now ≡ true }
    ensures base { draft.new.base ≡ draft.old.base }
    ensures ok { OnOk result (progress draft.new ≡ opened_start draft.old.base (record { message = m.now; source = source_of source })) }
    ensures kept { IfOk result (λ opened. IfSome opened (λ o. o.kept ≡ m.now)) }
    ensures key { IfOk result (λ opened. IfSome opened (λ o. IsKeyOf o.key m.now)) }
{
    if !m.kind().is_request() {
        return Ok(None);
    }
    let key = request_key(m);
    let request = draft.kept(m)?;
    let kept = request.share()?;
    let row = Row::new(key, card_of(m), request, source, draft.books().count());
    draft.change(Effect::Opened(row))?;
    Ok(Some(Opened { key, kept }))
}

/// An answer counts on the link on which its request was put.
fn on_answer(
    draft: &mut Draft,
    tables: &Tables,
    node: NodeNo,
    m: &mut Message,
    link: LinkNo,
) -> Result<(), AllocError>
    requires key { has_key m.old ≡ true }
    requires code { has m.old 39 ≡ true }
    ensures base { draft.new.base ≡ draft.old.base }
    ensures ok { OnOk result (Does tables.now node draft.old draft.new (λ b. on_answer tables.now node b m.old (ByLink link))) }
{
    let Some(key) = key_of(m) else {
        unreachable!();
    };
    let Some(code) = code_of(m) else {
        unreachable!();
    };
    on_code(draft, tables, node, key, Some(link), code, m)
}

fn on_keyed_request(
    draft: &mut Draft,
    tables: &Tables,
    node: NodeNo,
    m: &Message,
    opened: Option<Opened>,
    source: Option<LinkNo>,
) -> Result<(), AllocError>
    requires request { is_request m.now.kind ≡ true }
    requires key { has_key m.now ≡ true }
    requires kept { IfSome opened (λ o. o.kept ≡ m.now) }
    requires own { IfSome opened (λ o. IsKeyOf o.key m.now) }
    requires quiet { IsQuiet draft.old.base (progress draft.old).lists }
    requires left { LeftAsMarked draft.old.base.marks draft.old.base.takes }
    ensures base { draft.new.base ≡ draft.old.base }
    ensures ok { OnOk result (Does tables.now node draft.old draft.new (λ b. on_request tables.now node b m.now (source_of source) (b.opening (key_of m.now)))) }
{
    match opened {
        Some(Opened { key, kept }) => on_request(draft, tables, node, key, m, Some(kept), source),
        None => on_request(draft, tables, node, request_key(m), m, None, source),
    }
}

fn on_identified(
    draft: &mut Draft,
    tables: &Tables,
    node: NodeNo,
    m: &Message,
    source: Option<LinkNo>,
    reverses: bool,
) -> Result<(), AllocError>
    requires advice { is_advice_group (group m.now.kind) ≡ true }
    requires identity { has_identity m.now ≡ true }
    ensures base { draft.new.base ≡ draft.old.base }
    ensures reversal { OnOk result (reverses ≡ true → Does tables.now node draft.old draft.new (λ b. on_reversal tables.now node b m.now (source_of source))) }
    ensures stand_in { OnOk result (reverses ≡ false → Does tables.now node draft.old draft.new (λ b. on_advice tables.now node b m.now (source_of source))) }
{
    let id = identity(m);
    if reverses {
        on_reversal(draft, tables, node, id, m, source)
    } else {
        on_advice(draft, tables, node, id, m, source)
    }
}

/// A message, as it is handled, with what was opened for a request. An answer's request is read into the message's place.
#[tactic(auto, using(crate::proofs::Messages::request_group))]
fn on_message(
    draft: &mut Draft,
    tables: &Tables,
    node: NodeNo,
    m: &mut Message,
    opened: Option<Opened>,
    source: Option<LinkNo>,
) -> Result<(), AllocError>
    requires complete { is_complete (group m.old.kind) m.old ≡ true }
    requires kept { IfSome opened (λ o. o.kept ≡ m.old) }
    requires own { IfSome opened (λ o. IsKeyOf o.key m.old) }
    requires quiet { IsQuiet draft.old.base (progress draft.old).lists }
    requires left { LeftAsMarked draft.old.base.marks draft.old.base.takes }
    ensures base { draft.new.base ≡ draft.old.base }
    ensures ok { OnOk result (Does tables.now node draft.old draft.new (λ b. on_group tables.now node b m.old (source_of source) (group m.old.kind))) }
{
    match m.kind().group() {
        Group::AuthorizationRequest => on_keyed_request(draft, tables, node, m, opened, source),
        Group::AuthorizationResponse => match source {
            Some(link) => on_answer(draft, tables, node, m, link),
            None => Ok(()),
        },
        Group::Advice => on_identified(draft, tables, node, m, source, false),
        Group::Reversal => on_identified(draft, tables, node, m, source, true),
        Group::AdviceResponse => Ok(()),
        Group::ReversalResponse => Ok(()),
    }
}

/// A message that an acquirer enters.
pub fn enter(
    draft: &mut Draft,
    tables: &Tables,
    node: NodeNo,
    m: &mut Message,
) -> Result<(), AllocError>
    requires empty { draft.old.effects ≡ [] }
    requires complete { is_complete (group m.old.kind) m.old ≡ true }
    requires left { LeftAsMarked draft.old.base.marks draft.old.base.takes }
    ensures base { draft.new.base ≡ draft.old.base }
    ensures ok { OnOk result (progress draft.new ≡ step tables.now node draft.old.base (Enter m.old)) }
{
    prepare(draft, m)?;
    let opened = open(draft, m, None)?;
    on_message(draft, tables, node, m, opened, None)
}

/// What a message acknowledges leaves the store.
fn acknowledge(draft: &mut Draft, m: &Message) -> Result<(), AllocError>
    requires empty { draft.old.effects ≡ [] }
    requires ack { (is_ack (group m.now.kind) && bytes_eq (code_of m.now) code_00) ≡ true }
    requires identity { has_identity m.now ≡ true }
    ensures base { draft.new.base ≡ draft.old.base }
    ensures ok { OnOk result ((t : Network) (n : ℕ) (link : ℕ) (serial : ℕ) → progress draft.new ≡ step t n draft.old.base (Take link serial m.now)) }
{
    let id = identity(m);
    draft.change(Effect::Acknowledged(id))
}

/// A message that comes by a link, with any serial.
pub fn take_message(
    draft: &mut Draft,
    tables: &Tables,
    node: NodeNo,
    link: LinkNo,
    m: &mut Message,
) -> Result<(), AllocError>
    requires empty { draft.old.effects ≡ [] }
    requires complete { is_complete (group m.old.kind) m.old ≡ true }
    requires left { LeftAsMarked draft.old.base.marks draft.old.base.takes }
    ensures base { draft.new.base ≡ draft.old.base }
    ensures ok { OnOk result ((serial : ℕ) → progress draft.new ≡ step tables.now node draft.old.base (Take link serial m.old)) }
{
    if is_acknowledgement(m) {
        return acknowledge(draft, m);
    }
    let opened = open(draft, m, Some(link))?;
    on_message(draft, tables, node, m, opened, Some(link))
}
