//! What a node does for an input.
ghost use Rattle.std.specs.Prelude.{◌≡◌, ◌⊎◌, ℕ, [], Some, None, OnOk, IfErr, length, suc};
ghost use Rattle.net_rows.specs.Network.{Network};
ghost use Rattle.network_law.specs.Entries as entries;
ghost use Rattle.network_law.specs.Entries.{read_input};
ghost use Rattle.network_law.specs.Traces.{Lend, LinkUp, LinkDown, NewDate, TakePacket, Tick};
ghost use Rattle.network_law.specs.Grants.{read_packet};
ghost use Rattle.network_law.specs.declared.fault.StepFault.TheVariants.{Memory};
ghost use Rattle.node_machine.specs.Lists.{LeftAsMarked};
ghost use Rattle.node_machine.specs.Machine.{new_grant};
ghost use Rattle.node_machine.specs.Steps.{on_packet, step};
ghost use Rattle.node_books.specs.Effects.{progress};
ghost use Rattle.switch_node.specs.Node.{Does, fault_in, unread};

use crate::input::{Case, Input};
use card_digits::{Amount, Card, DateLabel, LinkNo, NodeNo};
use iso_message::Message;
use message_elements::{Code, DecodeFault};
use message_steps::{enter, on_host, take_message};
use net_rows::Tables;
use network_law::{Grant, GrantPacket, StepFault, read_packet};
use node_books::{Effect, KeptGrant};
use shared_bytes::SharedBytes;
use std::alloc::AllocError;
use step_draft::{Cause, Draft};
use step_refusals::{refuse_entered, refuse_host_answer, refuse_lend, refuse_packet, refuse_taken};
use step_rules::padded_node_id;

/// The fault of bytes that are no message.
fn unread(fault: DecodeFault) -> StepFault
    ensures { result ≡ unread fault }
{
    match fault {
        DecodeFault::Memory => StepFault::Memory,
        other => StepFault::Decode(other),
    }
}

/// A link is up again: all that the node does.
#[tactic(auto, using(crate::proofs::Starts::starts_up))]
fn link_up(draft: &mut Draft, l: LinkNo) -> Result<(), AllocError>
    requires { draft.old.effects ≡ [] }
    ensures base { draft.new.base ≡ draft.old.base }
    ensures ok { OnOk result ((t : Network) (n : ℕ) → progress draft.new ≡ step t n draft.old.base (LinkUp l)) }
{
    draft.change(Effect::LinkIs(l, true))
}

/// A link goes down: the requests that were put on it fail.
fn link_down(draft: &mut Draft, tables: &Tables, node: NodeNo, l: LinkNo) -> Result<(), AllocError>
    requires empty { draft.old.effects ≡ [] }
    requires left { LeftAsMarked draft.old.base.marks draft.old.base.takes }
    ensures base { draft.new.base ≡ draft.old.base }
    ensures ok { OnOk result (progress draft.new ≡ step tables.now node draft.old.base (LinkDown l)) }
{
    draft.change(Effect::LinkIs(l, false))?;
    draft.fail_all(tables, node, &Cause::LinkDown(l))
}

/// A tick: what is due is sent again, and then the requests whose time is over fail.
fn tick(draft: &mut Draft, tables: &Tables, node: NodeNo) -> Result<(), AllocError>
    requires empty { draft.old.effects ≡ [] }
    requires left { LeftAsMarked draft.old.base.marks draft.old.base.takes }
    ensures base { draft.new.base ≡ draft.old.base }
    ensures ok { OnOk result (progress draft.new ≡ step tables.now node draft.old.base Tick) }
{
    draft.change(Effect::Ticked)?;
    draft.send_all(tables, node)?;
    draft.fail_all(tables, node, &Cause::Tick)
}

/// A new date: all that the node does.
#[tactic(auto, using(crate::proofs::Starts::starts_dated))]
fn new_date(draft: &mut Draft, date: DateLabel) -> Result<(), AllocError>
    requires { draft.old.effects ≡ [] }
    ensures base { draft.new.base ≡ draft.old.base }
    ensures ok { OnOk result ((t : Network) (n : ℕ) → progress draft.new ≡ step t n draft.old.base (NewDate date)) }
{
    draft.change(Effect::Dated(date))
}

/// The host's code for an ask.
#[tactic(auto, using(crate::proofs::Starts::does_host, crate::proofs::Starts::faults_host))]
fn host_answer(
    draft: &mut Draft,
    room: &mut Message,
    tables: &Tables,
    node: NodeNo,
    ask: u64,
    code: Code,
) -> Result<(), StepFault>
    requires { draft.old.effects ≡ [] }
    ensures base { draft.new.base ≡ draft.old.base }
    ensures ok { OnOk result (Does tables.now node (entries.HostAnswer ask code) draft.old draft.new) }
    ensures fault { IfErr result (λ f. (f ≡ Memory) ⊎ (fault_in tables.now node draft.old.base (read_input (entries.HostAnswer ask code)) ≡ Some f)) }
{
    if let Some(fault) = refuse_host_answer(draft.books(), ask) {
        return Err(fault);
    }
    Ok(on_host(draft, tables, node, ask, code, room)?)
}

/// Bytes that an acquirer enters.
#[tactic(auto, using(crate::proofs::Reading::does_enter, crate::proofs::Reading::faults_enter, crate::proofs::Reading::unread_enter))]
fn enter_bytes(
    draft: &mut Draft,
    room: &mut Message,
    tables: &Tables,
    node: NodeNo,
    bytes: &SharedBytes,
) -> Result<(), StepFault>
    requires empty { draft.old.effects ≡ [] }
    requires left { LeftAsMarked draft.old.base.marks draft.old.base.takes }
    ensures base { draft.new.base ≡ draft.old.base }
    ensures ok { OnOk result (Does tables.now node (entries.Enter bytes.now) draft.old draft.new) }
    ensures fault { IfErr result (λ f. (f ≡ Memory) ⊎ (fault_in tables.now node draft.old.base (read_input (entries.Enter bytes.now)) ≡ Some f)) }
{
    if let Err(fault) = room.read_again(bytes.as_slice()) {
        return Err(unread(fault));
    }
    let refused = refuse_entered(draft.books(), tables, node, room)?;
    if let Some(fault) = refused {
        return Err(fault);
    }
    draft.hold(bytes)?;
    Ok(enter(draft, tables, node, room)?)
}

/// A taken grant is acknowledged on the link that it came by.
fn answer_packet(draft: &mut Draft, link: LinkNo, packet: &GrantPacket) -> Result<(), AllocError>
    ensures base { draft.new.base ≡ draft.old.base }
    ensures ok { OnOk result ((t : Network) (n : ℕ) → progress draft.new ≡ on_packet t n link packet.now (progress draft.old)) }
{
    match packet {
        GrantPacket::Grant(grant) => {
            let serial = draft.next_serial(link);
            let lender = grant.lender;
            let number = grant.number;
            draft.emit_packet(link, serial, GrantPacket::Ack { lender, number })
        }
        GrantPacket::Ack { .. } => Ok(()),
    }
}

/// A grant, or what acknowledges one, comes by a link, with any serial.
fn take_packet(draft: &mut Draft, link: LinkNo, packet: &GrantPacket) -> Result<(), AllocError>
    requires { draft.old.effects ≡ [] }
    ensures base { draft.new.base ≡ draft.old.base }
    ensures ok { OnOk result ((t : Network) (n : ℕ) (serial : ℕ) → progress draft.new ≡ step t n draft.old.base (TakePacket link serial packet.now)) }
{
    draft.change(Effect::PacketTaken(*packet))?;
    answer_packet(draft, link, packet)
}

/// The same, where it is not refused.
#[tactic(auto, using(crate::proofs::Reading::does_packet, crate::proofs::Reading::faults_packet))]
fn take_read_packet(
    draft: &mut Draft,
    tables: &Tables,
    node: NodeNo,
    link: LinkNo,
    serial: u64,
    bytes: &[u8],
    packet: &GrantPacket,
) -> Result<(), StepFault>
    requires empty { draft.old.effects ≡ [] }
    requires read { Some packet.now ≡ read_packet bytes.now }
    ensures base { draft.new.base ≡ draft.old.base }
    ensures ok { OnOk result (Does tables.now node (entries.Take link serial bytes.now) draft.old draft.new) }
    ensures fault { IfErr result (λ f. (f ≡ Memory) ⊎ (fault_in tables.now node draft.old.base (read_input (entries.Take link serial bytes.now)) ≡ Some f)) }
{
    if let Some(fault) = refuse_packet(tables, node, link, packet) {
        return Err(fault);
    }
    Ok(take_packet(draft, link, packet)?)
}

/// Bytes that come by a link, with their serial.
fn take_bytes(
    draft: &mut Draft,
    room: &mut Message,
    tables: &Tables,
    node: NodeNo,
    link: LinkNo,
    serial: u64,
    bytes: &SharedBytes,
) -> Result<(), StepFault>
    requires empty { draft.old.effects ≡ [] }
    requires left { LeftAsMarked draft.old.base.marks draft.old.base.takes }
    ensures base { draft.new.base ≡ draft.old.base }
    ensures ok { OnOk result (Does tables.now node (entries.Take link serial bytes.now) draft.old draft.new) }
    ensures fault { IfErr result (λ f. (f ≡ Memory) ⊎ (fault_in tables.now node draft.old.base (read_input (entries.Take link serial bytes.now)) ≡ Some f)) }
{
    let text = bytes.as_slice();
    match read_packet(text) {
        Some(packet) => take_read_packet(draft, tables, node, link, serial, text, &packet),
        None => {
            draft.hold(bytes)?;
            take_text(draft, room, tables, node, link, serial, text)
        }
    }
}

/// The same, where they are no packet.
#[tactic(auto, using(crate::proofs::Reading::does_take, crate::proofs::Reading::faults_take, crate::proofs::Reading::unread_take))]
fn take_text(
    draft: &mut Draft,
    room: &mut Message,
    tables: &Tables,
    node: NodeNo,
    link: LinkNo,
    serial: u64,
    bytes: &[u8],
) -> Result<(), StepFault>
    requires empty { draft.old.effects ≡ [] }
    requires packet { None ≡ read_packet bytes.now }
    requires left { LeftAsMarked draft.old.base.marks draft.old.base.takes }
    ensures base { draft.new.base ≡ draft.old.base }
    ensures ok { OnOk result (Does tables.now node (entries.Take link serial bytes.now) draft.old draft.new) }
    ensures fault { IfErr result (λ f. (f ≡ Memory) ⊎ (fault_in tables.now node draft.old.base (read_input (entries.Take link serial bytes.now)) ≡ Some f)) }
{
    if let Err(fault) = room.read_again(bytes) {
        return Err(unread(fault));
    }
    let refused = refuse_taken(draft.books(), tables, node, link, room)?;
    if let Some(fault) = refused {
        return Err(fault);
    }
    Ok(take_message(draft, tables, node, link, room)?)
}

/// The node's next grant.
fn new_grant(
    draft: &Draft,
    tables: &Tables,
    node: NodeNo,
    borrower: NodeNo,
    card: &Card,
    date: &DateLabel,
    amount: Amount,
) -> Grant
    ensures { result ≡ new_grant tables.now node (suc (length draft.now.base.loans)) borrower card.now date.now amount }
{
    Grant {
        lender: padded_node_id(tables, node),
        number: draft.books().loans().len() as u64 + 1,
        borrower: padded_node_id(tables, borrower),
        card: *card,
        date: *date,
        amount,
    }
}

/// The node lends to another: the grant is stored and sent.
fn lend(
    draft: &mut Draft,
    tables: &Tables,
    node: NodeNo,
    borrower: NodeNo,
    card: &Card,
    date: &DateLabel,
    amount: Amount,
) -> Result<(), AllocError>
    requires { draft.old.effects ≡ [] }
    ensures base { draft.new.base ≡ draft.old.base }
    ensures ok { OnOk result (progress draft.new ≡ step tables.now node draft.old.base (Lend borrower card.now date.now amount)) }
{
    let grant = new_grant(draft, tables, node, borrower, card, date, amount);
    let kept = KeptGrant::new(grant, borrower, draft.books().count());
    let again = new_grant(draft, tables, node, borrower, card, date, amount);
    draft.change(Effect::Lent(kept))?;
    draft.send_grant(tables, node, borrower, again)
}

/// The same, where it is not refused.
#[tactic(auto, using(crate::proofs::Starts::does_lend, crate::proofs::Starts::faults_lend))]
fn lend_input(
    draft: &mut Draft,
    tables: &Tables,
    node: NodeNo,
    borrower: NodeNo,
    card: &Card,
    date: &DateLabel,
    amount: Amount,
) -> Result<(), StepFault>
    requires empty { draft.old.effects ≡ [] }
    requires left { LeftAsMarked draft.old.base.marks draft.old.base.takes }
    ensures base { draft.new.base ≡ draft.old.base }
    ensures ok { OnOk result (Does tables.now node (entries.Lend borrower card.now date.now amount) draft.old draft.new) }
    ensures fault { IfErr result (λ f. (f ≡ Memory) ⊎ (fault_in tables.now node draft.old.base (read_input (entries.Lend borrower card.now date.now amount)) ≡ Some f)) }
{
    if let Some(fault) = refuse_lend(draft.books(), tables, node, borrower, card, date, amount) {
        return Err(fault);
    }
    Ok(lend(draft, tables, node, borrower, card, date, amount)?)
}

/// What the node does for an input; or part of it, and a fault. Messages are read into the room, whose memory serves again.
#[tactic(auto, using(crate::proofs::Starts::does_up, crate::proofs::Starts::does_down, crate::proofs::Starts::does_tick, crate::proofs::Starts::does_dated))]
pub(crate) fn step(
    draft: &mut Draft,
    room: &mut Message,
    tables: &Tables,
    node: NodeNo,
    input: &Input,
) -> Result<(), StepFault>
    requires empty { draft.old.effects ≡ [] }
    requires left { LeftAsMarked draft.old.base.marks draft.old.base.takes }
    ensures base { draft.new.base ≡ draft.old.base }
    ensures ok { OnOk result (Does tables.now node input.now draft.old draft.new) }
    ensures fault { IfErr result (λ f. (f ≡ Memory) ⊎ (fault_in tables.now node draft.old.base (read_input input.now) ≡ Some f)) }
{
    match input.case() {
        Case::LinkUp(l) => Ok(link_up(draft, *l)?),
        Case::LinkDown(l) => Ok(link_down(draft, tables, node, *l)?),
        Case::Tick => Ok(tick(draft, tables, node)?),
        Case::NewDate(date) => Ok(new_date(draft, *date)?),
        Case::Enter(bytes) => enter_bytes(draft, room, tables, node, bytes),
        Case::Take(link, serial, bytes) => {
            take_bytes(draft, room, tables, node, *link, *serial, bytes)
        }
        Case::HostAnswer(ask, code) => host_answer(draft, room, tables, node, *ask, *code),
        Case::Lend(boxed) => {
            let order = boxed.order();
            lend_input(
                draft,
                tables,
                node,
                order.borrower,
                &order.card,
                &order.date,
                order.amount,
            )
        }
    }
}
