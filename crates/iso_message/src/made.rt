//! Responses, and the advices that a node makes of a request.
ghost use Rattle.std.specs.Prelude.{◌≡◌, ◌++◌, true, None, IfOk, OnOk};
ghost use Rattle.message_elements.specs.Table.{form_of};
ghost use Rattle.message_elements.specs.Values.{set_fault};
ghost use Rattle.iso_message.specs.Made.{has_own_key, response, made_stand_in, made_reversal, made_from, kept, original_data};
ghost use Rattle.iso_message.specs.Carried.{carried_numbers};

use crate::carried::Carried;
use crate::message::{Message, bytes_of};
use card_digits::pad11;
use message_elements::{Code, Kind, elements, response_codes};
use std::alloc::AllocError;

impl Message {
    /// The response to the message with a code: card number, amounts, times, trace number, institutions, terminal and element
    /// 90 of it, where they are there, and element 39.
    #[tactic(auto, unfolding(crate::specs::Made::response), using(crate::proofs::MessageLemmas::code_fits))]
    pub fn response(&self, code: Code) -> Result<Message, AllocError>
        ensures { IfOk result (λ m. m ≡ response self.now code) }
    {
        let mut response = Message::new(self.allocator(), self.kind().response());
        response.keep(self, Carried::Response)?;
        response.put(elements::RESPONSE_CODE, code.as_slice())?;
        Ok(response)
    }

    /// The advice (0120) of a request that the node with this id approved itself. The id is one that element 33 takes.
    #[tactic(auto, unfolding(crate::specs::Made::made_stand_in))]
    pub fn made_stand_in(&self, id: &[u8]) -> Result<Message, AllocError>
        requires { set_fault (form_of 33) 33 id.now ≡ None }
        ensures { IfOk result (λ m. m ≡ made_stand_in self.now id.now) }
    {
        self.made_from(Kind::K0120, id, Code::new(response_codes::APPROVED))
    }

    /// The reversal (0420) of a request by the node with this id, with code 68 and the request's key in element 90. The id is
    /// one that element 33 takes.
    #[tactic(auto, unfolding(crate::specs::Made::made_reversal))]
    pub fn made_reversal(&self, id: &[u8]) -> Result<Message, AllocError>
        requires id { set_fault (form_of 33) 33 id.now ≡ None }
        requires key { has_own_key self.now ≡ true }
        ensures { IfOk result (λ m. m ≡ made_reversal self.now id.now) }
    {
        // Every message can be written, so the elements of the key are digits, and as many as element 90 takes.
        let _ = self.kind();
        let original = original_data(self)?;
        let mut reversal = self.made_from(
            Kind::K0420,
            id,
            Code::new(response_codes::RESPONSE_RECEIVED_TOO_LATE),
        )?;
        reversal.put(elements::ORIGINAL_DATA, &original)?;
        Ok(reversal)
    }

    /// What an advice carries of a request, with the maker's id and a code.
    #[tactic(auto, unfolding(crate::specs::Made::made_from), using(crate::proofs::MessageLemmas::code_fits))]
    fn made_from(&self, kind: Kind, id: &[u8], code: Code) -> Result<Message, AllocError>
        requires { set_fault (form_of 33) 33 id.now ≡ None }
        ensures { IfOk result (λ m. m ≡ made_from kind self.now id.now code) }
    {
        let mut advice = Message::new(self.allocator(), kind);
        advice.keep(self, Carried::Advice)?;
        advice.put(elements::FORWARDING_INSTITUTION, id)?;
        advice.put(elements::RESPONSE_CODE, code.as_slice())?;
        Ok(advice)
    }

    /// Takes over those elements of a message that are carried on.
    #[inline(always)]
    fn keep(&mut self, message: &Message, carried: Carried) -> Result<(), AllocError>
        ensures { OnOk result (self.new ≡ record { kind = self.old.kind; elements = kept (carried_numbers carried) message.now.elements }) }
    {
        self.elements.keep(&message.elements, carried)
    }
}

/// The type, trace number, time and acquirer of a request, and eleven zeros for its forwarder.
fn original_data(message: &Message) -> Result<Vec<u8>, AllocError>
    ensures { IfOk result (λ v. v.items ≡ original_data message.now) }
{
    // Every message can be written, so element 32 has at most 11 bytes.
    let _ = message.kind();
    let mut data = Vec::with_capacity(message.allocator(), 42)?;
    data.extend_from_slice(b"0100")?;
    data.extend_from_slice(bytes_of(message, elements::TRACE_AUDIT_NUMBER))?;
    data.extend_from_slice(bytes_of(message, elements::TRANSMISSION_TIME))?;
    data.extend_from_slice(&pad11(bytes_of(message, elements::ACQUIRING_INSTITUTION)))?;
    data.extend_from_slice(&[b'0'; 11])?;
    Ok(data)
}
