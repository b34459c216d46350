//! Advices with their identities.
ghost use Rattle.std.specs.Prelude.{◌≡◌, IfOk, true, if◌then◌else◌};
ghost use Rattle.std.specs.Char.{is_ascii_digit};
ghost use Rattle.std.specs.List.{list_all};
ghost use Rattle.card_digits.specs.Digits.{digits_of};
ghost use Rattle.message_elements.specs.Groups.{group, is_04xx, is_advice_group};
ghost use Rattle.message_elements.specs.declared.kind.Kind.TheVariants.{K0420, K0120};
ghost use Rattle.message_keys.specs.Keys.{identity_of};
ghost use Rattle.iso_message.specs.Made.{made_reversal, made_stand_in};
ghost use Rattle.network_law.specs.Cards.{card_of};
ghost use Rattle.network_law.specs.Tables.{node_id};
ghost use Rattle.network_law.specs.Traces.{as_kept};
ghost use Rattle.pending_book.specs.Rows.{IsKeyOf};

use crate::draft::Draft;
use card_digits::{Key, NodeNo};
use iso_message::Message;
use kept_messages::KeptMessage;
use message_elements::Kind;
use message_keys::{AdviceId, AdviceKind};
use net_rows::Tables;
use std::alloc::AllocError;
use step_rules::{card_number_of, node_id, padded_node_id};

/// A stand-in advice or a reversal, what it is known by, and the digits of its card number, as the message that it is made of has them.
#[derive(Drop)]
pub struct Advice<'m> {
    pub(crate) id: AdviceId,
    pub(crate) card: &'m [u8],
    pub(crate) message: KeptMessage,
    ghost identified: { id ≡ identity_of message },
    ghost carded: { digits_of card.now ≡ card_of message },
    ghost digits: { list_all is_ascii_digit card.now ≡ true },
    ghost advice: { is_advice_group (group message.kind) ≡ true },
}

/// The type under which an advice of this type is kept.
fn kept_kind(kind: Kind) -> Kind
    ensures { result ≡ (if is_04xx kind then K0420 else K0120) }
{
    if kind.is_04xx() {
        Kind::K0420
    } else {
        Kind::K0120
    }
}

impl Draft {
    /// The reversal by which a node takes a request back.
    #[tactic(auto, using(crate::proofs::Messages::reversal_identity, crate::proofs::Messages::reversal_card, crate::proofs::Messages::reversal_is_advice))]
    pub fn reversal<'m>(
        &mut self,
        tables: &Tables,
        node: NodeNo,
        key: Key,
        request: &'m Message,
    ) -> Result<Advice<'m>, AllocError>
        requires { IsKeyOf key request.now }
        ensures same { self.new ≡ self.old }
        ensures made { IfOk result (λ a. a.message ≡ made_reversal request.now (node_id tables.now node)) }
    {
        let _ = request.kind();
        let reversal = request.made_reversal(node_id(tables, node))?;
        let message = self.kept(&reversal)?;
        let id = AdviceId {
            kind: AdviceKind::Reversal,
            key,
            forwarder: padded_node_id(tables, node),
        };
        Ok(Advice {
            id,
            card: card_number_of(request),
            message,
        })
    }

    /// The stand-in advice of a request that a node approved itself.
    #[tactic(auto, using(crate::proofs::Messages::stand_in_identity, crate::proofs::Messages::stand_in_card, crate::proofs::Messages::stand_in_is_advice))]
    pub(crate) fn stand_in_advice<'m>(
        &mut self,
        tables: &Tables,
        node: NodeNo,
        key: Key,
        request: &'m Message,
    ) -> Result<Advice<'m>, AllocError>
        requires { IsKeyOf key request.now }
        ensures same { self.new ≡ self.old }
        ensures made { IfOk result (λ a. a.message ≡ made_stand_in request.now (node_id tables.now node)) }
    {
        let advice = request.made_stand_in(node_id(tables, node))?;
        let message = self.kept(&advice)?;
        let id = AdviceId {
            kind: AdviceKind::StandIn,
            key,
            forwarder: padded_node_id(tables, node),
        };
        Ok(Advice {
            id,
            card: card_number_of(request),
            message,
        })
    }

    /// An advice that came, as the node keeps it.
    #[tactic(auto, using(crate::proofs::Messages::kept_identity, crate::proofs::Messages::kept_card, crate::proofs::Messages::kept_is_advice))]
    pub fn kept_advice<'m>(
        &mut self,
        id: AdviceId,
        advice: &'m Message,
        kept: &KeptMessage,
    ) -> Result<Advice<'m>, AllocError>
        requires id { id ≡ identity_of advice.now }
        requires advice { is_advice_group (group advice.now.kind) ≡ true }
        requires kept { kept.now ≡ advice.now }
        ensures same { self.new ≡ self.old }
        ensures kept { IfOk result (λ a. a.message ≡ as_kept advice.now) }
    {
        let message = self.kept_as(kept, kept_kind(kept.kind()))?;
        Ok(Advice {
            id,
            card: card_number_of(advice),
            message,
        })
    }
}
