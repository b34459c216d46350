//! What the bytes are that a node puts out.
ghost use Rattle.std.specs.Prelude.{◌≡◌, IfOk};
ghost use Rattle.trace_view.specs.Packets.{known_of, message_in, packet_in, sent_in};

use crate::line::Way;
use card_digits::Key;
use iso_message::Message;
use message_elements::{Code, DecodeFault, Kind};
use message_keys::{code_of, key_of};
use network_law::{GrantPacket, read_packet};
use std::alloc::AllocError;

/// What is shown of a message: its type, the key of its request, and its response code.
#[derive(Clone, Copy)]
pub struct Known {
    pub kind: Kind,
    pub key: Option<Key>,
    pub code: Option<Code>,
}

/// What goes out of a node.
#[derive(Clone, Copy)]
pub enum Packet {
    Message(Known),
    /// A part of the lender's limit is lent.
    Grant,
    /// The borrower has taken a grant.
    GrantTaken,
}

/// What is shown of a message.
#[tactic(auto, unfolding(crate::specs::Packets::known_of))]
fn known_of(message: &Message) -> Known
    ensures { result ≡ known_of message.now }
{
    Known {
        kind: message.kind(),
        key: key_of(message),
        code: code_of(message),
    }
}

/// The message that the bytes spell, which is read in the place of another; none where they spell none.
pub(crate) fn message_in(message: &mut Message, bytes: &[u8]) -> Result<Option<Packet>, AllocError>
    ensures { IfOk result (λ packet. packet ≡ message_in bytes.now) }
{
    match message.read_again(bytes) {
        Ok(()) => Ok(Some(Packet::Message(known_of(message)))),
        Err(DecodeFault::Memory) => Err(AllocError),
        Err(_) => Ok(None),
    }
}

/// The grant, what acknowledges one, or the message that the bytes are.
fn packet_in(message: &mut Message, bytes: &[u8]) -> Result<Option<Packet>, AllocError>
    ensures { IfOk result (λ packet. packet ≡ packet_in bytes.now) }
{
    match read_packet(bytes) {
        Some(GrantPacket::Grant(_)) => Ok(Some(Packet::Grant)),
        Some(GrantPacket::Ack { .. }) => Ok(Some(Packet::GrantTaken)),
        None => message_in(message, bytes),
    }
}

/// What the bytes are that go a way: a grant goes over links alone.
pub(crate) fn sent_in(
    message: &mut Message,
    way: &Way,
    bytes: &[u8],
) -> Result<Option<Packet>, AllocError>
    ensures { IfOk result (λ packet. packet ≡ sent_in way.now bytes.now) }
{
    match way {
        Way::Put { .. } => packet_in(message, bytes),
        Way::Answer | Way::Ask(_) | Way::Post => message_in(message, bytes),
    }
}
