//! An output that is made ready.
ghost use Rattle.std.specs.Prelude.{◌≡◌, true, false};
ghost use Rattle.message_keys.specs.Keys.{key_of, identity_of};
ghost use Rattle.message_elements.specs.Groups.{group, is_advice_group};
ghost use Rattle.network_law.specs.Traces.{is_put_of, forwards};
ghost use Rattle.kept_messages.specs.Ways.{message_of, output_key};

use crate::kept_message::KeptMessage;
use card_digits::{Key, LinkNo};
use message_keys::{AdviceId, same_identity, same_key};
use std::marker::Model;

/// Where an output goes.
#[derive(Clone, Copy, Debug)]
pub enum Way {
    /// On a link, with a serial.
    Put(LinkNo, u64),
    /// To the acquirer.
    Answer,
    /// To the host, with the number of the ask.
    Ask(u64),
    /// To the host's books.
    Post,
}

/// An output with its message, and the message's key.
#[derive(Drop)]
pub struct PreparedOutput {
    way: Way,
    key: Key,
    advice: Option<AdviceId>,
    message: KeptMessage,
}

impl Model for PreparedOutput {
    ghost use Rattle.std.specs.Prelude.{◌≡◌};
    ghost use Rattle.message_keys.specs.Keys.{key_of};
    ghost use Rattle.network_law.specs.Traces.{ReadOutput};
    ghost use Rattle.kept_messages.specs.Ways.{output_of, advice_of};

    ghost Value = { ReadOutput };

    ghost view = { λ s. output_of s.way s.message };

    ghost invariant = { λ s. (s.key ≡ key_of s.message) × (s.advice ≡ advice_of s.message) };
}

impl PreparedOutput {
    ghost use Rattle.kept_messages.specs.Ways.{output_of, advice_of, is_put};

    /// An output of a message that is no advice.
    #[tactic(auto, using(crate::proofs::Codes::no_advice))]
    pub fn of_message(way: Way, key: Key, message: KeptMessage) -> PreparedOutput
        requires key { key ≡ key_of message }
        requires plain { is_advice_group (group message.kind) ≡ false }
        ensures { result ≡ output_of way message }
    {
        PreparedOutput {
            way,
            key,
            advice: None,
            message,
        }
    }

    /// An output of an advice.
    #[tactic(auto, using(crate::proofs::Codes::advice_is, crate::proofs::Codes::id_key))]
    pub fn of_advice(way: Way, id: AdviceId, message: KeptMessage) -> PreparedOutput
        requires id { id ≡ identity_of message }
        requires advice { is_advice_group (group message.kind) ≡ true }
        ensures { result ≡ output_of way message }
    {
        PreparedOutput {
            way,
            key: id.key,
            advice: Some(id),
            message,
        }
    }

    /// Where the output goes.
    pub fn way(&self) -> Way
        ensures { output_of result (message_of self.now) ≡ self.now }
    {
        self.way
    }

    /// Whether it is put on this link.
    pub fn is_put_on(&self, l: LinkNo) -> bool
        ensures { result ≡ is_put l self.now }
    {
        match self.way {
            Way::Put(k, _) => k == l,
            _ => false,
        }
    }

    /// Its identity, if it is an advice.
    pub fn advice(&self) -> Option<AdviceId>
        ensures { result ≡ advice_of (message_of self.now) }
    {
        self.advice
    }

    /// The key of its message.
    pub fn key(&self) -> Key
        ensures { result ≡ output_key self.now }
    {
        self.key
    }

    /// The message that goes out.
    pub fn message(&self) -> &KeptMessage
        ensures { result.now ≡ message_of self.now }
    {
        &self.message
    }

    /// The same message, without its output.
    pub fn into_message(self) -> KeptMessage
        ensures { result ≡ message_of self }
    {
        self.message
    }

    /// The link on which it puts a request of this key.
    pub fn forwards(&self, key: Key) -> Option<LinkNo>
        ensures { result ≡ forwards key self.now }
    {
        match self.way {
            Way::Put(link, _) => {
                if self.message.kind().is_request() && same_key(self.key, key) {
                    Some(link)
                } else {
                    None
                }
            }
            _ => None,
        }
    }

    /// Whether it puts the advice of this identity.
    #[tactic(auto, using(crate::proofs::Codes::puts_it, crate::proofs::Codes::puts_none))]
    pub fn puts_advice(&self, id: AdviceId) -> bool
        ensures { result ≡ is_put_of id self.now }
    {
        match self.way {
            Way::Put(_, _) => match self.advice {
                Some(own) => same_identity(own, id),
                None => false,
            },
            _ => false,
        }
    }
}
