//! What goes out.
ghost use Rattle.std.specs.Prelude.{◌≡◌, ℕ, false, true, OnOk, Some};
ghost use Rattle.message_elements.specs.Groups.{group, is_advice_group};
ghost use Rattle.message_keys.specs.Keys.{key_of, identity_of};
ghost use Rattle.iso_message.specs.Made.{response};
ghost use Rattle.net_rows.specs.Network.{Network};
ghost use Rattle.network_law.specs.Traces.{Post};
ghost use Rattle.node_machine.specs.Lists.{view, leaves};
ghost use Rattle.node_machine.specs.Machine.{own_way};
ghost use Rattle.node_machine.specs.Steps.{emit, keep, is_sent, put_on, reply, send, store};
ghost use Rattle.node_books.specs.Effects.{progress};
ghost use Rattle.pending_book.specs.Rows.{source_of};
ghost use Rattle.step_draft.specs.Acting.{Does};

use crate::advice::Advice;
use crate::draft::Draft;
use card_digits::{Amount, Key, LinkNo, NodeNo};
use iso_message::Message;
use kept_messages::{KeptMessage, PreparedOutput, Way};
use message_elements::Code;
use message_keys::AdviceId;
use net_rows::Tables;
use node_books::{Effect, NewAdvice};
use std::alloc::AllocError;
use step_rules::{is_home_of, sent_kind};

impl Draft {
    /// A message that is no advice, and is kept already, goes out on a link.
    pub fn put_kept(&mut self, link: LinkNo, key: Key, m: KeptMessage) -> Result<(), AllocError>
        requires key { key ≡ key_of m }
        requires plain { is_advice_group (group m.kind) ≡ false }
        ensures base { self.new.base ≡ self.old.base }
        ensures ok { OnOk result ((t : Network) (n : ℕ) → progress self.new ≡ put_on t n link m (progress self.old)) }
    {
        let serial = self.next_serial(link);
        self.emit(PreparedOutput::of_message(Way::Put(link, serial), key, m))
    }

    /// An advice goes out on a link.
    fn put_advice(&mut self, link: LinkNo, id: AdviceId, m: KeptMessage) -> Result<(), AllocError>
        requires id { id ≡ identity_of m }
        requires advice { is_advice_group (group m.kind) ≡ true }
        ensures base { self.new.base ≡ self.old.base }
        ensures ok { OnOk result ((t : Network) (n : ℕ) → progress self.new ≡ put_on t n link m (progress self.old)) }
    {
        let serial = self.next_serial(link);
        self.emit(PreparedOutput::of_advice(Way::Put(link, serial), id, m))
    }

    /// A message that is kept already goes out to where a request came from.
    pub fn reply_kept(
        &mut self,
        source: Option<LinkNo>,
        key: Key,
        m: KeptMessage,
    ) -> Result<(), AllocError>
        requires key { key ≡ key_of m }
        requires plain { is_advice_group (group m.kind) ≡ false }
        ensures base { self.new.base ≡ self.old.base }
        ensures ok { OnOk result ((t : Network) (n : ℕ) → progress self.new ≡ reply t n (source_of source) m (progress self.old)) }
    {
        match source {
            Some(link) => self.put_kept(link, key, m),
            None => self.emit(PreparedOutput::of_message(Way::Answer, key, m)),
        }
    }

    /// A message goes out to where a request came from.
    pub fn reply(&mut self, source: Option<LinkNo>, key: Key, m: &Message) -> Result<(), AllocError>
        requires key { key ≡ key_of m.now }
        requires plain { is_advice_group (group m.now.kind) ≡ false }
        ensures base { self.new.base ≡ self.old.base }
        ensures ok { OnOk result ((t : Network) (n : ℕ) → progress self.new ≡ reply t n (source_of source) m.now (progress self.old)) }
    {
        let kept = self.kept(m)?;
        self.reply_kept(source, key, kept)
    }

    /// The response to a message with a code goes out to where that came from.
    #[tactic(auto, using(crate::proofs::Messages::response_key, crate::proofs::Messages::response_plain))]
    pub fn respond(
        &mut self,
        source: Option<LinkNo>,
        key: Key,
        m: &Message,
        code: Code,
    ) -> Result<(), AllocError>
        requires { key ≡ key_of m.now }
        ensures base { self.new.base ≡ self.old.base }
        ensures ok { OnOk result ((t : Network) (n : ℕ) → progress self.new ≡ reply t n (source_of source) (response m.now code) (progress self.old)) }
    {
        let response = m.response(code)?;
        self.reply(source, key, &response)
    }

    /// The response to a kept message with a code goes out to where that came from. It is made of the bytes that are kept.
    #[tactic(auto, using(crate::proofs::Messages::response_key, crate::proofs::Messages::response_plain))]
    pub fn respond_kept(
        &mut self,
        source: Option<LinkNo>,
        key: Key,
        m: &KeptMessage,
        code: Code,
    ) -> Result<(), AllocError>
        requires { key ≡ key_of m.now }
        ensures base { self.new.base ≡ self.old.base }
        ensures ok { OnOk result ((t : Network) (n : ℕ) → progress self.new ≡ reply t n (source_of source) (response m.now code) (progress self.old)) }
    {
        let response = self.kept_response(m, code)?;
        self.reply_kept(source, key, response)
    }

    /// The response to a message that is kept too. It is made of the bytes that are kept, but to a reversal, whose response carries an
    /// element above 64, of the message.
    pub fn respond_to(
        &mut self,
        source: Option<LinkNo>,
        key: Key,
        m: &Message,
        kept: &KeptMessage,
        code: Code,
    ) -> Result<(), AllocError>
        requires key { key ≡ key_of m.now }
        requires kept { kept.now ≡ m.now }
        ensures base { self.new.base ≡ self.old.base }
        ensures ok { OnOk result ((t : Network) (n : ℕ) → progress self.new ≡ reply t n (source_of source) (response m.now code) (progress self.old)) }
    {
        if m.kind().is_04xx() {
            self.respond(source, key, m, code)
        } else {
            self.respond_kept(source, key, kept, code)
        }
    }

    /// An advice goes out, where a link is up.
    #[tactic(auto, using(crate::proofs::Messages::advice_key))]
    fn send(&mut self, tables: &Tables, node: NodeNo, advice: &Advice<'_>) -> Result<(), AllocError>
        ensures base { self.new.base ≡ self.old.base }
        ensures ok { OnOk result (progress self.new ≡ send tables.now node advice.now.message (progress self.old)) }
    {
        let id = advice.id;
        let message = &advice.message;
        let Some(link) = self.own_way(tables, node, id.key, message, advice.card) else {
            return Ok(());
        };
        self.send_by(tables, node, link, id, message)
    }

    /// The advice of this identity goes out, where a link is up.
    #[tactic(auto, using(crate::proofs::Messages::advice_key))]
    pub(crate) fn send_message(
        &mut self,
        tables: &Tables,
        node: NodeNo,
        id: AdviceId,
        message: &KeptMessage,
    ) -> Result<(), AllocError>
        requires { id ≡ identity_of message.now }
        ensures base { self.new.base ≡ self.old.base }
        ensures ok { OnOk result (progress self.new ≡ send tables.now node message.now (progress self.old)) }
    {
        let card = message.card_number();
        let Some(link) = self.own_way(tables, node, id.key, message, card) else {
            return Ok(());
        };
        self.send_by(tables, node, link, id, message)
    }

    /// The advice of this identity goes out on its own way.
    #[tactic(auto, using(crate::proofs::Messages::sent_identity, crate::proofs::Messages::sent_is_advice))]
    fn send_by(
        &mut self,
        tables: &Tables,
        node: NodeNo,
        link: LinkNo,
        id: AdviceId,
        message: &KeptMessage,
    ) -> Result<(), AllocError>
        requires id { id ≡ identity_of message.now }
        requires way { Some link ≡ own_way tables.now node (view tables.now node (progress self.old).lists) message.now ((view tables.now node (progress self.old).lists).link (key_of message.now)) }
        ensures base { self.new.base ≡ self.old.base }
        ensures ok { OnOk result (progress self.new ≡ send tables.now node message.now (progress self.old)) }
    {
        let kind = sent_kind(message.kind().is_04xx(), self.was_put(id));
        let sent = self.kept_as(message, kind)?;
        self.put_advice(link, id, sent)
    }

    /// An advice that wasn't known before the entry is posted at the home of its card, and elsewhere sent.
    #[tactic(auto, using(crate::proofs::Parts::home_at))]
    pub fn keep(
        &mut self,
        tables: &Tables,
        node: NodeNo,
        advice: &Advice<'_>,
    ) -> Result<(), AllocError>
        ensures base { self.new.base ≡ self.old.base }
        ensures ok { OnOk result (Does tables.now node self.old self.new (λ b. keep tables.now node b advice.now.message)) }
    {
        if self.books.is_known(advice.id) {
            return Ok(());
        }
        if is_home_of(tables, node, advice.card) {
            return self.post(advice);
        }
        self.send(tables, node, advice)
    }

    /// An advice goes to the host's books.
    fn post(&mut self, advice: &Advice<'_>) -> Result<(), AllocError>
        ensures base { self.new.base ≡ self.old.base }
        ensures ok { OnOk result (progress self.new ≡ emit (Post advice.now.message) (progress self.old)) }
    {
        let message = advice.message.share()?;
        self.emit(PreparedOutput::of_advice(Way::Post, advice.id, message))
    }

    /// Whether `keep` puts the advice on a link.
    #[tactic(auto, using(crate::proofs::Messages::advice_key, crate::proofs::Parts::home_at))]
    pub(crate) fn is_sent(&self, tables: &Tables, node: NodeNo, advice: &Advice<'_>) -> bool
        ensures { result ≡ is_sent tables.now node (view tables.now node self.now.base) advice.now.message (progress self.now) }
    {
        !self.books.is_known(advice.id)
            && !is_home_of(tables, node, advice.card)
            && self
                .own_way(tables, node, advice.id.key, &advice.message, advice.card)
                .is_some()
    }

    /// An advice that the node made is stored.
    #[tactic(auto, using(crate::proofs::Drafts::kept_is))]
    pub fn store_made(
        &mut self,
        tables: &Tables,
        node: NodeNo,
        advice: &Advice<'_>,
        count: u64,
        put: bool,
    ) -> Result<(), AllocError>
        ensures base { self.new.base ≡ self.old.base }
        ensures ok { OnOk result (progress self.new ≡ store tables.now node true advice.now.message count put (progress self.old)) }
    {
        let home = is_home_of(tables, node, advice.card);
        let message = advice.message.share()?;
        self.change(Effect::Kept(NewAdvice::made(advice.id, message, count, home, put)))
    }

    /// An advice that the node accepted is stored.
    #[tactic(auto, using(crate::proofs::Drafts::kept_is))]
    pub fn store_accepted(
        &mut self,
        tables: &Tables,
        node: NodeNo,
        advice: &Advice<'_>,
        actual: Amount,
        count: u64,
    ) -> Result<(), AllocError>
        requires { actual ≡ leaves advice.now.message }
        ensures base { self.new.base ≡ self.old.base }
        ensures ok { OnOk result (progress self.new ≡ store tables.now node false advice.now.message count false (progress self.old)) }
    {
        let home = is_home_of(tables, node, advice.card);
        let message = advice.message.share()?;
        self.change(Effect::Kept(NewAdvice::accepted(advice.id, message, actual, count, home)))
    }
}
