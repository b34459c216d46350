//! The first fault of an input.
ghost use Rattle.std.specs.Prelude.{◌≡◌, ℕ, IfOk};
ghost use Rattle.net_rows.specs.Network.{Network};
ghost use Rattle.network_law.specs.Traces.{Enter, Take, HostAnswer, TakePacket, Lend};
ghost use Rattle.node_machine.specs.Lists.{view, LeftAsMarked};
ghost use Rattle.node_machine.specs.Books as machine;
ghost use Rattle.node_machine.specs.Machine.{refuse};

use crate::lending::may_not_lend;
use crate::places::{PLACES, entered_finds_no_place, late_finds_no_place, taken_finds_no_place};
use card_digits::{Amount, Card, DateLabel, LinkNo, NodeNo};
use iso_message::Message;
use net_rows::Tables;
use network_law::{GrantPacket, StepFault};
use node_books::Books;
use std::alloc::AllocError;
use step_rules::{
    acquirer_of, entered_kind, is_attached, may_not_borrow, missing_entered, missing_taken,
    strange_actual, taken_kind,
};

/// The fault of a message that an acquirer enters. Memory is asked for where the message is held against the request of its key.
#[tactic(auto, unfolding(node_machine::specs::Machine::refuse))]
pub fn refuse_entered(
    books: &Books,
    tables: &Tables,
    node: NodeNo,
    message: &Message,
) -> Result<Option<StepFault>, AllocError>
    ensures { IfOk result (λ fault. fault ≡ refuse tables.now node (view tables.now node books.now.lists) (Enter message.now)) }
{
    if !entered_kind(message.kind()) {
        return Ok(Some(StepFault::TypeNotForGate));
    }
    if let Some(number) = missing_entered(message) {
        return Ok(Some(StepFault::Missing(number)));
    }
    if !is_attached(tables, node, &acquirer_of(message)) {
        return Ok(Some(StepFault::ForeignAcquirer));
    }
    if message.kind().is_reversal() && strange_actual(message) {
        return Ok(Some(StepFault::Replacement));
    }
    if entered_finds_no_place(books, tables, node, message)? {
        return Ok(Some(StepFault::NoPlace));
    }
    Ok(None)
}

/// The fault of a message that comes by a link, with any serial. Memory is asked for where the request of its key is read.
#[tactic(auto, unfolding(node_machine::specs::Machine::refuse))]
pub fn refuse_taken(
    books: &Books,
    tables: &Tables,
    node: NodeNo,
    link: LinkNo,
    message: &Message,
) -> Result<Option<StepFault>, AllocError>
    ensures { IfOk result (λ fault. (serial : ℕ) → fault ≡ refuse tables.now node (view tables.now node books.now.lists) (Take link serial message.now)) }
{
    if !taken_kind(message.kind()) {
        return Ok(Some(StepFault::TypeNotForGate));
    }
    if let Some(number) = missing_taken(message) {
        return Ok(Some(StepFault::Missing(number)));
    }
    if message.kind().is_reversal() && strange_actual(message) {
        return Ok(Some(StepFault::Replacement));
    }
    if taken_finds_no_place(books, tables, node, message)? {
        return Ok(Some(StepFault::NoPlace));
    }
    if late_finds_no_place(books, tables, node, link, message) {
        return Ok(Some(StepFault::NoPlace));
    }
    Ok(None)
}

/// The fault of a host's answer to an ask, with any code: there is none that the node made of this number.
#[tactic(auto, unfolding(node_machine::specs::Machine::refuse))]
pub fn refuse_host_answer(books: &Books, ask: u64) -> Option<StepFault>
    ensures { (t : Network) (n : ℕ) (code : _) → result ≡ refuse t n (view t n books.now.lists) (HostAnswer ask code) }
{
    match books.ask(ask) {
        Some(_) => None,
        None => Some(StepFault::UnknownAsk),
    }
}

/// The fault of a packet that comes by a link, with any serial.
#[tactic(auto, unfolding(node_machine::specs::Machine::refuse))]
pub fn refuse_packet(
    tables: &Tables,
    node: NodeNo,
    link: LinkNo,
    packet: &GrantPacket,
) -> Option<StepFault>
    ensures { (b : machine.Books) (serial : ℕ) → result ≡ refuse tables.now node b (TakePacket link serial packet.now) }
{
    match packet {
        GrantPacket::Grant(grant) => {
            if may_not_borrow(tables, node, grant) {
                Some(StepFault::NotLent)
            } else {
                None
            }
        }
        GrantPacket::Ack { .. } => None,
    }
}

/// The fault of an amount that the node is to lend to another.
#[tactic(auto, unfolding(node_machine::specs::Machine::refuse))]
pub fn refuse_lend(
    books: &Books,
    tables: &Tables,
    node: NodeNo,
    borrower: NodeNo,
    card: &Card,
    date: &DateLabel,
    amount: Amount,
) -> Option<StepFault>
    // What own approvals count for is what accepted reversals leave of them.
    requires { LeftAsMarked books.now.lists.marks books.now.lists.takes }
    ensures { result ≡ refuse tables.now node (view tables.now node books.now.lists) (Lend borrower card.now date.now amount) }
{
    if may_not_lend(books, tables, node, borrower, card, date, amount) {
        return Some(StepFault::NotLent);
    }
    if books.load() >= PLACES {
        return Some(StepFault::NoPlace);
    }
    None
}
