//! The books before an entry, and what the entry did so far.
ghost use Rattle.std.specs.Prelude.{◌≡◌, ◌≤◌, ◌<◌, List, [], ◌∷◌, OnOk, OnErr, IfOk, length, false};
ghost use Rattle.node_machine.specs.Lists.{Mark};
ghost use Rattle.node_books.specs.declared.effect.Effect.{Effect};
ghost use Rattle.step_draft.specs.Used.{AreLateUses};
ghost use Rattle.iso_message.specs.Fields.{as_kind};
ghost use Rattle.iso_message.specs.Made.{response};
ghost use Rattle.iso_message.specs.Spelling.{spelling};
ghost use Rattle.network_law.specs.Entries.{spelled};
ghost use Rattle.network_law.specs.Traces.{PutPacket};
ghost use Rattle.node_machine.specs.Steps.{emit};
ghost use Rattle.node_books.specs.Effects.{progress, with_effect, sent_in};
ghost use Rattle.node_books.specs.Values.{AreFew};
ghost use Rattle.node_books.specs.declared.effect.Effect.TheVariants.{Approved, Sent};
ghost use Rattle.entry_changes.specs.Late.{few};
ghost use Rattle.step_draft.specs.Outputs.{spelled_in};
ghost use Rattle.step_draft.specs.SoFar.{approved_in};

use crate::output::Output;
use crate::outputs::{NoOutputs, Outputs, SharedOutputs};
use book_index::Sums;
use card_digits::LinkNo;
use entry_changes::Changes;
use iso_message::{Message, encode_into};
use kept_messages::{KeptMessage, PreparedOutput, Way};
use message_elements::{Code, Kind};
use network_law::{GrantPacket, packet_bytes};
use node_books::{Books, Effect, OwnApproval};
use shared_bytes::SharedBytes;
use std::alloc::{AllocError, Global};
use std::marker::Model;

/// The books as they were before the entry, which nothing changes until the entry is whole; and its changes, with its outputs.
#[derive(Drop)]
pub struct Draft {
    pub(crate) alloc: Global,
    pub(crate) books: Books,
    pub(crate) effects: Changes,
    /// What the own approvals among the later changes count for.
    pub(crate) late_uses: Sums,
    pub(crate) outs: Vec<Output>,
    /// Room in which messages are spelled, used again for each.
    spelling: Vec<u8>,
    /// The bytes that were taken or spelled last. What comes is often put out or kept with the same bytes.
    at_hand: Option<SharedBytes>,
    no_outputs: NoOutputs,
}

impl Model for Draft {
    ghost use Rattle.std.specs.Prelude.{◌≡◌};
    ghost use Rattle.node_books.specs.Effects.{Drafted};
    ghost use Rattle.step_draft.specs.Outputs.{spelled_in};
    ghost use Rattle.step_draft.specs.Used.{AreLateUses};

    ghost Value = { Drafted };

    ghost view = { λ d. record { base = d.books.lists; effects = d.effects } };

    ghost invariant = { λ d. (d.outs.items ≡ spelled_in d.effects) × AreLateUses d.books.lists.marks d.effects d.late_uses.amounts.entries };
}

/// The bytes that spell a message: those at hand, where they are the same, and else a copy, which is at hand then. The message is spelled
/// in a buffer whose memory serves again.
fn spelled(
    alloc: Global,
    room: &mut Vec<u8>,
    at_hand: &mut Option<SharedBytes>,
    message: &Message,
) -> Result<SharedBytes, AllocError>
    ensures { IfOk result (λ bytes. bytes ≡ spelling message.now) }
{
    room.clear();
    encode_into(room, message)?;
    SharedBytes::at_hand_or_copy(alloc, at_hand, room)
}

/// The same of the bytes that spell the response to a kept message with a code.
fn spelled_response(
    alloc: Global,
    room: &mut Vec<u8>,
    at_hand: &mut Option<SharedBytes>,
    message: &KeptMessage,
    code: Code,
) -> Result<SharedBytes, AllocError>
    ensures { IfOk result (λ bytes. bytes ≡ spelling (response message.now code)) }
{
    room.clear();
    message.push_response(code, room)?;
    SharedBytes::at_hand_or_copy(alloc, at_hand, room)
}

/// The same of the bytes that spell a kept message under another type.
fn spelled_as(
    alloc: Global,
    room: &mut Vec<u8>,
    at_hand: &mut Option<SharedBytes>,
    message: &KeptMessage,
    kind: Kind,
) -> Result<SharedBytes, AllocError>
    ensures { IfOk result (λ bytes. bytes ≡ spelling (as_kind kind message.now)) }
{
    room.clear();
    message.push_as(kind, room)?;
    SharedBytes::at_hand_or_copy(alloc, at_hand, room)
}

/// An output with the bytes of its message.
#[tactic(auto, using(crate::proofs::Drafts::way_spelled))]
fn put_out(output: &PreparedOutput) -> Result<Output, AllocError>
    ensures { IfOk result (λ o. o ≡ spelled output.now) }
{
    let bytes = output.message().bytes().share()?;
    Ok(Output::new(output.way(), bytes))
}

#[tactic(auto, using(crate::proofs::Drafts::packet_spelled))]
fn spelled_packet(
    alloc: Global,
    link: LinkNo,
    serial: u64,
    packet: &GrantPacket,
) -> Result<Output, AllocError>
    ensures { IfOk result (λ o. o ≡ spelled (PutPacket link serial packet.now)) }
{
    let bytes = packet_bytes(alloc, packet)?;
    let shared = SharedBytes::from_vec(alloc, bytes)?;
    Ok(Output::new(Way::Put(link, serial), shared))
}

/// Forgets what own approvals among later changes count for, where there may be some.
#[tactic(auto, using(crate::proofs::LateUses::no_uses, crate::proofs::LateUses::uses_gone))]
fn forget_uses(alloc: Global, late: bool, uses: &mut Sums)
    ensures { (marks others : List Mark) (es : List Effect) → (late ≡ false → length es < few) → AreLateUses marks es uses.old.amounts.entries → AreLateUses others [] uses.new.amounts.entries }
{
    if late {
        *uses = Sums::new(alloc);
    }
}

impl Draft {
    /// Nothing was done to these books.
    pub fn new(alloc: Global, books: Books) -> Result<Draft, AllocError>
        ensures { IfOk result (λ d. d ≡ record { base = books.lists; effects = [] }) }
    {
        let no_outputs = NoOutputs::new(alloc)?;
        Ok(Draft {
            alloc,
            books,
            effects: Changes::new(alloc),
            late_uses: Sums::new(alloc),
            outs: Vec::new(alloc),
            spelling: Vec::new(alloc),
            at_hand: None,
            no_outputs,
        })
    }

    /// The books as they were before the entry.
    pub fn books(&self) -> &Books
        ensures { result.now.lists ≡ self.now.base }
    {
        &self.books
    }

    /// What the entry's memory comes from.
    pub fn alloc(&self) -> Global {
        self.alloc
    }

    /// These bytes came: a message that is spelled so shares them.
    pub fn hold(&mut self, bytes: &SharedBytes) -> Result<(), AllocError>
        ensures { self.new ≡ self.old }
    {
        let held = bytes.share()?;
        self.at_hand = Some(held);
        Ok(())
    }

    /// A message as the books and outputs keep it.
    pub fn kept(&mut self, message: &Message) -> Result<KeptMessage, AllocError>
        ensures same { self.new ≡ self.old }
        ensures kept { IfOk result (λ k. k ≡ message.now) }
    {
        let bytes = spelled(self.alloc, &mut self.spelling, &mut self.at_hand, message)?;
        Ok(KeptMessage::new(message, bytes))
    }

    /// A kept message under another type. Its bytes differ in the type alone, and are the same ones where it has that type.
    pub(crate) fn kept_as(
        &mut self,
        message: &KeptMessage,
        kind: Kind,
    ) -> Result<KeptMessage, AllocError>
        ensures same { self.new ≡ self.old }
        ensures kept { IfOk result (λ k. k ≡ as_kind kind message.now) }
    {
        if message.kind() == kind {
            return message.share();
        }
        let room = &mut self.spelling;
        let bytes = spelled_as(self.alloc, room, &mut self.at_hand, message, kind)?;
        Ok(message.as_kind(kind, bytes))
    }

    /// The response to a kept message with a code, as the books and outputs keep it.
    pub(crate) fn kept_response(
        &mut self,
        message: &KeptMessage,
        code: Code,
    ) -> Result<KeptMessage, AllocError>
        ensures same { self.new ≡ self.old }
        ensures kept { IfOk result (λ k. k ≡ response message.now code) }
    {
        let room = &mut self.spelling;
        let bytes = spelled_response(self.alloc, room, &mut self.at_hand, message, code)?;
        Ok(message.response(code, bytes))
    }

    /// An output goes out.
    #[tactic(auto, using(crate::proofs::Drafts::spelled_more, crate::proofs::Drafts::emitted, crate::proofs::LateUses::uses_same))]
    pub fn emit(&mut self, output: PreparedOutput) -> Result<(), AllocError>
        ensures base { self.new.base ≡ self.old.base }
        ensures ok { OnOk result (self.new ≡ with_effect (Sent output) self.old) }
        ensures emitted { OnOk result (progress self.new ≡ emit output (progress self.old)) }
        ensures err { OnErr result (self.new ≡ self.old) }
    {
        let out = put_out(&output)?;
        self.outs.reserve(1)?;
        self.effects.push(Effect::Sent(output))?;
        self.outs.push_reserved(out);
        Ok(())
    }

    /// A packet goes out on a link, with this serial.
    #[tactic(auto, using(crate::proofs::Drafts::packet_spelled_more, crate::proofs::Drafts::packet_emitted, crate::proofs::LateUses::uses_same))]
    pub fn emit_packet(
        &mut self,
        link: LinkNo,
        serial: u64,
        packet: GrantPacket,
    ) -> Result<(), AllocError>
        ensures base { self.new.base ≡ self.old.base }
        ensures emitted { OnOk result (progress self.new ≡ emit (PutPacket link serial packet) (progress self.old)) }
    {
        let out = spelled_packet(self.alloc, link, serial, &packet)?;
        self.outs.reserve(1)?;
        self.effects.push(Effect::PacketSent(link, serial, packet))?;
        self.outs.push_reserved(out);
        Ok(())
    }

    /// The node approved by itself, in one of the first few changes.
    #[tactic(auto, using(crate::proofs::Drafts::quiet_more, crate::proofs::LateUses::uses_early))]
    fn approve_early(&mut self, approval: OwnApproval) -> Result<(), AllocError>
        requires { length self.old.effects < few }
        ensures ok { OnOk result (self.new ≡ with_effect (Approved approval) self.old) }
        ensures err { OnErr result (self.new ≡ self.old) }
    {
        self.effects.push(Effect::Approved(approval))?;
        Ok(())
    }

    /// The node approved by itself, in a later change.
    #[tactic(auto, using(crate::proofs::Drafts::quiet_more))]
    fn approve_late(&mut self, approval: OwnApproval) -> Result<(), AllocError>
        requires { few ≤ length self.old.effects }
        ensures ok { OnOk result (self.new ≡ with_effect (Approved approval) self.old) }
        ensures err { OnErr result (self.new ≡ self.old) }
    {
        let day = approval.day();
        let left = self.books.left_of(approval.key(), approval.amount());
        // So many changes fit a `usize`, which bounds the sum.
        let _ = self.effects.len();
        self.late_uses.reserve(1)?;
        self.effects.push(Effect::Approved(approval))?;
        self.late_uses.add(day, left.value());
        Ok(())
    }

    /// The node approved by itself.
    pub(crate) fn approve(&mut self, approval: OwnApproval) -> Result<(), AllocError>
        ensures ok { OnOk result (self.new ≡ with_effect (Approved approval) self.old) }
        ensures err { OnErr result (self.new ≡ self.old) }
    {
        if self.effects.is_next_late() {
            self.approve_late(approval)
        } else {
            self.approve_early(approval)
        }
    }

    /// Another change.
    #[tactic(auto, using(crate::proofs::Drafts::quiet_more, crate::proofs::LateUses::uses_same))]
    pub fn change(&mut self, effect: Effect) -> Result<(), AllocError>
        requires sent { sent_in (effect ∷ []) ≡ [] }
        requires approved { approved_in (effect ∷ []) ≡ [] }
        ensures ok { OnOk result (self.new ≡ with_effect effect self.old) }
        ensures err { OnErr result (self.new ≡ self.old) }
    {
        self.effects.push(effect)
    }

    /// Lends the entry's outputs, with the same bytes.
    pub fn lend(&self, lent: &mut Outputs) -> Result<(), AllocError>
        ensures ok { OnOk result (lent.new ≡ spelled_in self.now.effects) }
        ensures err { OnErr result (lent.new ≡ lent.old) }
    {
        *lent = Outputs::shared(self.alloc, self.outs.as_slice())?;
        Ok(())
    }

    /// All that was done is done to the books, and its outputs are handed out; or, where memory is refused, nothing was done.
    pub fn commit(&mut self) -> Result<SharedOutputs, AllocError>
        requires few { AreFew (progress self.old).lists }
        ensures outs { IfOk result (λ outs. outs ≡ spelled_in self.old.effects) }
        ensures done { OnOk result (self.new ≡ record { base = (progress self.old).lists; effects = [] }) }
        ensures err { OnErr result (self.new ≡ record { base = self.old.base; effects = [] }) }
    {
        let Ok(()) = self.books.reserve(self.effects.len()) else {
            self.rollback();
            return Err(AllocError);
        };
        let Ok(outputs) = self.no_outputs.entry_outputs(self.alloc, &mut self.outs) else {
            self.effects.clear();
            self.late_uses = Sums::new(self.alloc);
            return Err(AllocError);
        };
        let late = self.effects.is_next_late();
        self.effects.apply_to(&mut self.books);
        forget_uses(self.alloc, late, &mut self.late_uses);
        Ok(outputs)
    }

    /// Nothing was done.
    pub fn rollback(&mut self)
        ensures { self.new ≡ record { base = self.old.base; effects = [] } }
    {
        self.effects.clear();
        self.late_uses = Sums::new(self.alloc);
        self.outs.clear();
    }
}
