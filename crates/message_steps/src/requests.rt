//! Requests.
ghost use Rattle.std.specs.Prelude.{◌≡◌, ◌+◌, ℕ, suc, IfOk, IfSome, OnOk, None, find, is_some, nat_lt, true, ◌&&◌, false};
ghost use Rattle.iso_message.specs.Fields.{as_kind};
ghost use Rattle.message_elements.specs.declared.kind.Kind.TheVariants.{K0100};
ghost use Rattle.message_keys.specs.Keys.{key_of, content, content_eq};
ghost use Rattle.net_rows.specs.Network.{Network, issuer};
ghost use Rattle.network_law.specs.Cards.{card_of};
ghost use Rattle.network_law.specs.Traces.{Ask};
ghost use Rattle.network_law.specs.Tables.{route_links};
ghost use Rattle.node_machine.specs.Lists.{LeftAsMarked, of_key, row_key, view};
ghost use Rattle.node_machine.specs.Machine.{load};
ghost use Rattle.node_machine.specs.Steps.{emit, on_forward, on_issuer, on_repeat, on_request, reply};
ghost use Rattle.message_elements.specs.Codes.{code_94};
ghost use Rattle.network_law.specs.Decision.{same_source};
ghost use Rattle.iso_message.specs.Made.{response};
ghost use Rattle.node_books.specs.Effects.{progress};
ghost use Rattle.pending_book.specs.Rows.{IsAnswerOf, IsKeyOf, source_of};
ghost use Rattle.step_draft.specs.Acting.{Does};
ghost use Rattle.step_draft.specs.Used.{IsQuiet};

use card_digits::{Key, LinkNo, NodeNo};
use iso_message::Message;
use kept_messages::{KeptMessage, PreparedOutput, Way};
use message_elements::{Code, Kind, response_codes};
use message_keys::same_content;
use net_rows::Tables;
use pending_book::Row;
use std::alloc::AllocError;
use step_draft::Draft;
use step_refusals::{PLACES, same_source};
use step_rules::{first_up, has_good_card, is_home, issuer_of, route_links};

/// A request as it is put on a link, or asked of the host: with the type 0100, which what is kept of it may have already.
#[tactic(auto, using(crate::proofs::Messages::forward_key, crate::proofs::Messages::forward_same))]
fn forwarded(
    draft: &mut Draft,
    key: Key,
    m: &Message,
    kept: Option<KeptMessage>,
) -> Result<KeptMessage, AllocError>
    requires key { IsKeyOf key m.now }
    requires kept { IfSome kept (λ k. k ≡ m.now) }
    ensures same { draft.new ≡ draft.old }
    ensures message { IfOk result (λ f. f ≡ as_kind K0100 m.now) }
    ensures key { IfOk result (λ f. key ≡ key_of f) }
{
    match kept {
        Some(same) if same.kind() == Kind::K0100 => Ok(same),
        _ => {
            let mut forward = m.copy()?;
            forward.set_kind(Kind::K0100);
            draft.kept(&forward)
        }
    }
}

/// Whether a request came by this way, with the content of this message.
fn is_same(row: &Row, source: &Option<LinkNo>, m: &Message) -> Result<bool, AllocError>
    ensures { IfOk result (λ same. same ≡ (same_source row.now.source (source_of source.now) && content_eq (content row.now.message) (content m.now))) }
{
    if !same_source(row.source(), *source) {
        return Ok(false);
    }
    let request = row.message().decode()?;
    Ok(same_content(&request, m))
}

/// What a request was answered with.
fn answer_again(row: &Row) -> Result<Option<KeptMessage>, AllocError>
    ensures answer { IfOk result (λ a. a ≡ row.now.answer) }
    ensures own { IfOk result (λ a. IsAnswerOf (row_key row.now) a) }
{
    match row.answer() {
        Some(answer) => {
            let again = answer.share()?;
            Ok(Some(again))
        }
        None => Ok(None),
    }
}

/// A request goes to the host.
fn ask(
    draft: &mut Draft,
    key: Key,
    m: &Message,
    kept: Option<KeptMessage>,
) -> Result<(), AllocError>
    requires key { IsKeyOf key m.now }
    requires kept { IfSome kept (λ k. k ≡ m.now) }
    ensures base { draft.new.base ≡ draft.old.base }
    ensures ok { OnOk result ((t : Network) (n : ℕ) → progress draft.new ≡ emit (Ask (suc (view t n draft.old.base).ask_count) (as_kind K0100 m.now)) (progress draft.old)) }
{
    let ask = draft.books().ask_count() as u64 + 1;
    let forward = forwarded(draft, key, m, kept)?;
    draft.emit(PreparedOutput::of_message(Way::Ask(ask), key, forward))
}

/// The first link of a card's route that was up before the entry.
fn way_of(draft: &Draft, tables: &Tables, node: NodeNo, m: &Message) -> Option<LinkNo>
    ensures { result ≡ find (view tables.now node draft.now.base).is_up (route_links tables.now node (card_of m.now)) }
{
    first_up(draft.books(), route_links(tables, node, m))
}

/// Whether there are no places for one more request.
fn is_full(draft: &Draft) -> bool
    ensures { (t : Network) (n : ℕ) → result ≡ nat_lt 65536 (load (view t n draft.now.base) + 2) }
{
    draft.books().load() > PLACES - 2
}

/// A request of a card whose home is elsewhere is put on the first link of its route that is up. Where none is, the node answers it
/// by its own limits.
fn forward(
    draft: &mut Draft,
    tables: &Tables,
    node: NodeNo,
    key: Key,
    m: &Message,
    kept: Option<KeptMessage>,
    source: Option<LinkNo>,
) -> Result<(), AllocError>
    requires key { IsKeyOf key m.now }
    requires kept { IfSome kept (λ k. k ≡ m.now) }
    requires quiet { IsQuiet draft.old.base (progress draft.old).lists }
    requires left { LeftAsMarked draft.old.base.marks draft.old.base.takes }
    ensures base { draft.new.base ≡ draft.old.base }
    ensures ok { OnOk result (Does tables.now node draft.old draft.new (λ b. on_forward tables.now node b m.now (source_of source) (find b.is_up (route_links tables.now node (card_of m.now))))) }
{
    match way_of(draft, tables, node, m) {
        Some(link) => {
            let forward = forwarded(draft, key, m, kept)?;
            draft.put_kept(link, key, forward)
        }
        None => draft.stand_in(tables, node, key, m, source),
    }
}

/// A request of a card with an issuer, of a key that has none yet.
fn take_request(
    draft: &mut Draft,
    tables: &Tables,
    node: NodeNo,
    key: Key,
    m: &Message,
    kept: Option<KeptMessage>,
    source: Option<LinkNo>,
) -> Result<(), AllocError>
    requires key { IsKeyOf key m.now }
    requires kept { IfSome kept (λ k. k ≡ m.now) }
    requires quiet { IsQuiet draft.old.base (progress draft.old).lists }
    requires left { LeftAsMarked draft.old.base.marks draft.old.base.takes }
    ensures base { draft.new.base ≡ draft.old.base }
    ensures ok { OnOk result (Does tables.now node draft.old draft.new (λ b. on_issuer tables.now node b m.now (source_of source) (issuer tables.now (card_of m.now)))) }
{
    let Some(issuer) = issuer_of(tables, m) else {
        return draft.respond(
            source,
            key,
            m,
            Code::new(response_codes::NO_INSTITUTION_FOUND_FOR_ROUTING),
        );
    };
    let home = is_home(issuer, node);
    if is_full(draft) {
        return draft.respond(
            source,
            key,
            m,
            Code::new(response_codes::SYSTEM_MALFUNCTION),
        );
    }
    if home {
        return ask(draft, key, m, kept);
    }
    forward(draft, tables, node, key, m, kept, source)
}

/// A request of a key that has none yet.
fn on_new_request(
    draft: &mut Draft,
    tables: &Tables,
    node: NodeNo,
    key: Key,
    m: &Message,
    kept: Option<KeptMessage>,
    source: Option<LinkNo>,
) -> Result<(), AllocError>
    requires key { IsKeyOf key m.now }
    requires kept { IfSome kept (λ k. k ≡ m.now) }
    requires quiet { IsQuiet draft.old.base (progress draft.old).lists }
    requires left { LeftAsMarked draft.old.base.marks draft.old.base.takes }
    ensures base { draft.new.base ≡ draft.old.base }
    ensures ok { OnOk result (Does tables.now node draft.old draft.new (λ b. on_request tables.now node b m.now (source_of source) None)) }
{
    if draft.books().is_marked(key) {
        return draft.respond(
            source,
            key,
            m,
            Code::new(response_codes::RESPONSE_RECEIVED_TOO_LATE),
        );
    }
    if !has_good_card(m) {
        return draft.respond(
            source,
            key,
            m,
            Code::new(response_codes::INVALID_CARD_NUMBER),
        );
    }
    take_request(draft, tables, node, key, m, kept, source)
}

/// A request of a key that has one: the same is answered again, where it was answered, and another is a duplicate.
fn on_repeat(
    draft: &mut Draft,
    tables: &Tables,
    node: NodeNo,
    key: Key,
    m: &Message,
    source: Option<LinkNo>,
) -> Result<(), AllocError>
    requires key { IsKeyOf key m.now }
    requires there { is_some (of_key key draft.old.base.rows) ≡ true }
    ensures base { draft.new.base ≡ draft.old.base }
    ensures ok { OnOk result (Does tables.now node draft.old draft.new (λ b. on_request tables.now node b m.now (source_of source) (b.opening (key_of m.now)))) }
{
    let Some(row) = draft.books().of_key(key) else {
        return Ok(());
    };
    let same = is_same(row, &source, m)?;
    let own = row.key();
    let answer = answer_again(row)?;
    repeat(draft, same, own, m, source, answer)
}

/// The same request is answered again, where it was answered, and another is a duplicate.
#[tactic(auto, using(crate::proofs::Requested::plain_answer))]
fn repeat(
    draft: &mut Draft,
    same: bool,
    key: Key,
    m: &Message,
    source: Option<LinkNo>,
    answer: Option<KeptMessage>,
) -> Result<(), AllocError>
    requires key { key ≡ key_of m.now }
    requires answer { IsAnswerOf key answer }
    ensures base { draft.new.base ≡ draft.old.base }
    ensures same { OnOk result ((t : Network) (n : ℕ) → same ≡ true → progress draft.new ≡ on_repeat t n (source_of source) answer (progress draft.old)) }
    ensures other { OnOk result ((t : Network) (n : ℕ) → same ≡ false → progress draft.new ≡ reply t n (source_of source) (response m.now code_94) (progress draft.old)) }
{
    if !same {
        return draft.respond(
            source,
            key,
            m,
            Code::new(response_codes::DUPLICATE_TRANSMISSION),
        );
    }
    match answer {
        Some(again) => draft.reply_kept(source, key, again),
        None => Ok(()),
    }
}

/// A request.
pub(crate) fn on_request(
    draft: &mut Draft,
    tables: &Tables,
    node: NodeNo,
    key: Key,
    m: &Message,
    kept: Option<KeptMessage>,
    source: Option<LinkNo>,
) -> Result<(), AllocError>
    requires key { IsKeyOf key m.now }
    requires kept { IfSome kept (λ k. k ≡ m.now) }
    requires quiet { IsQuiet draft.old.base (progress draft.old).lists }
    requires left { LeftAsMarked draft.old.base.marks draft.old.base.takes }
    ensures base { draft.new.base ≡ draft.old.base }
    ensures ok { OnOk result (Does tables.now node draft.old draft.new (λ b. on_request tables.now node b m.now (source_of source) (b.opening (key_of m.now)))) }
{
    if draft.books().has_key(key) {
        on_repeat(draft, tables, node, key, m, source)
    } else {
        on_new_request(draft, tables, node, key, m, kept, source)
    }
}
