//! Messages as the books keep them.
ghost use Rattle.std.specs.Prelude.{◌≡◌, ◌++◌, bytes_eq, [], IfOk, OnOk, OnErr, true};
ghost use Rattle.std.specs.Char.{is_ascii_digit};
ghost use Rattle.std.specs.List.{list_all};
ghost use Rattle.card_digits.specs.Digits.{digits_of};
ghost use Rattle.message_keys.specs.Keys.{code_of};
ghost use Rattle.iso_message.specs.Fields.{as_kind};
ghost use Rattle.iso_message.specs.Made.{response};
ghost use Rattle.iso_message.specs.Spelling.{spelling};
ghost use Rattle.network_law.specs.Cards.{card_of};

use crate::first_element::{behind_type, card_number};
use iso_message::{Message, decode, encode};
use message_elements::{Code, Kind};
use message_keys::code_of;
use response_bytes::push_response;
use shared_bytes::SharedBytes;
use std::alloc::AllocError;
use std::marker::Model;

/// A message as the bytes that spell it, with its type and its response code. A packet, an output and the books of two nodes may hold the
/// same bytes. Contracts see the message.
#[derive(Drop)]
pub struct KeptMessage {
    bytes: SharedBytes,
    kind: Kind,
    code: Option<Code>,
}

impl Model for KeptMessage {
    ghost use Rattle.iso_message.specs.Fields.{Fields};
    ghost use Rattle.kept_messages.specs.Spelled.{message_in, IsSpelled};

    ghost Value = { Fields };

    ghost view = { λ k. message_in k.bytes };

    ghost invariant = { λ k. IsSpelled k.bytes k.kind k.code };
}

impl KeptMessage {
    /// A message, and the bytes that spell it.
    #[tactic(auto, using(crate::proofs::Spelled::kept_is, crate::proofs::Spelled::is_spelled))]
    pub fn new(message: &Message, bytes: SharedBytes) -> KeptMessage
        requires { bytes ≡ spelling message.now }
        ensures { result ≡ message.now }
    {
        KeptMessage {
            bytes,
            kind: message.kind(),
            code: code_of(message),
        }
    }

    /// The same for another that keeps it, with no copy of its bytes.
    pub fn share(&self) -> Result<KeptMessage, AllocError>
        ensures { IfOk result (λ k. k ≡ self.now) }
    {
        let bytes = self.bytes.share()?;
        Ok(KeptMessage {
            bytes,
            kind: self.kind,
            code: self.code,
        })
    }

    /// The bytes that spell it.
    pub fn bytes(&self) -> &SharedBytes
        ensures { result.now ≡ spelling self.now }
    {
        &self.bytes
    }

    /// The message, which is read again of its bytes.
    pub fn decode(&self) -> Result<Message, AllocError>
        ensures { IfOk result (λ m. m ≡ self.now) }
    {
        match decode(self.bytes.alloc(), self.bytes.as_slice()) {
            Ok(message) => Ok(message),
            // The bytes spell a message, so nothing but memory can be wanting.
            Err(_) => Err(AllocError),
        }
    }

    /// Reads the message again of its bytes, in the place and the memory of another, which is left without elements where memory is
    /// refused.
    pub fn decode_into(&self, message: &mut Message) -> Result<(), AllocError>
        ensures read { OnOk result (message.new ≡ self.now) }
        ensures refused { OnErr result (message.new ≡ record { kind = message.old.kind; elements = [] }) }
    {
        match message.read_again(self.bytes.as_slice()) {
            Ok(()) => Ok(()),
            // The bytes spell a message, so nothing but memory can be wanting.
            Err(_) => Err(AllocError),
        }
    }

    /// Appends the bytes that spell the response with a code. Nothing is appended where memory is refused.
    pub fn push_response(&self, code: Code, out: &mut Vec<u8>) -> Result<(), AllocError>
        ensures made { OnOk result (out.new.items ≡ out.old.items ++ spelling (response self.now code)) }
        ensures refused { OnErr result (out.new.items ≡ out.old.items) }
    {
        let made = push_response(self.bytes.as_slice(), code, out)?;
        if made {
            return Ok(());
        }
        // The response to a message with an element above 64 is made of the message.
        let response = self.decode()?.response(code)?;
        let spelled = encode(self.bytes.alloc(), &response)?;
        out.extend_from_slice(&spelled)
    }

    /// Appends the bytes that spell the same elements under another type. Nothing is appended where memory is refused.
    pub fn push_as(&self, kind: Kind, out: &mut Vec<u8>) -> Result<(), AllocError>
        ensures made { OnOk result (out.new.items ≡ out.old.items ++ spelling (as_kind kind self.now)) }
        ensures refused { OnErr result (out.new.items ≡ out.old.items) }
    {
        let start = out.len();
        out.extend_from_slice(kind.as_slice())?;
        match out.extend_from_slice(behind_type(self.bytes.as_slice())) {
            Ok(()) => Ok(()),
            Err(refused) => {
                out.truncate(start);
                Err(refused)
            }
        }
    }

    /// The same elements under another type, and the bytes that spell them.
    #[tactic(auto, using(crate::proofs::Spelled::typed_kept))]
    pub fn as_kind(&self, kind: Kind, bytes: SharedBytes) -> KeptMessage
        requires { bytes ≡ spelling (as_kind kind self.now) }
        ensures { result ≡ as_kind kind self.now }
    {
        KeptMessage {
            bytes,
            kind,
            code: self.code,
        }
    }

    /// The digits of the card number (element 2), none where it is absent. They are read of the bytes.
    pub fn card_number(&self) -> &[u8]
        ensures card { digits_of result.now ≡ card_of self.now }
        ensures digits { list_all is_ascii_digit result.now ≡ true }
    {
        card_number(self.bytes.as_slice())
    }

    /// The response with a code, and the bytes that spell it.
    pub fn response(&self, code: Code, bytes: SharedBytes) -> KeptMessage
        requires { bytes ≡ spelling (response self.now code) }
        ensures { result ≡ response self.now code }
    {
        // A code is two characters, so the response to a message is a message.
        let _ = code.as_slice();
        KeptMessage {
            bytes,
            kind: self.kind.response(),
            code: Some(code),
        }
    }

    /// The type of the message.
    pub fn kind(&self) -> Kind
        ensures { result ≡ self.now.kind }
    {
        self.kind
    }

    /// Whether its response code is this one; without one, whether this is empty.
    #[tactic(auto, using(crate::proofs::Codes::found_code, crate::proofs::Codes::no_code))]
    pub fn has_code(&self, code: &[u8]) -> bool
        ensures { result ≡ bytes_eq (code_of self.now) code.now }
    {
        match self.code {
            Some(own) => own.as_slice() == code,
            None => code.is_empty(),
        }
    }
}
