//! What the books are after the changes so far.
ghost use Rattle.std.specs.Prelude.{◌≡◌, ◌<◌, ◌+◌, ◌^◌, ℕ, suc, true};
ghost use Rattle.std.specs.Char.{is_ascii_digit};
ghost use Rattle.std.specs.List.{list_all};
ghost use Rattle.std.specs.Option.{option_and_then};
ghost use Rattle.card_digits.specs.Digits.{digits_of};
ghost use Rattle.message_keys.specs.Keys.{key_of};
ghost use Rattle.net_rows.specs.Network.{Network};
ghost use Rattle.network_law.specs.Cards.{card_of};
ghost use Rattle.node_machine.specs.Lists.{link_at, of_key, row_link, view};
ghost use Rattle.node_machine.specs.Machine.{put_before, own_way};
ghost use Rattle.node_books.specs.Effects.{progress};
ghost use Rattle.entry_changes.specs.SoFar.{forward_from};

use crate::draft::Draft;
use card_digits::{Key, LinkNo, NodeNo};
use entry_changes::{AdviceState, Forwarding, LinkAfter};
use kept_messages::KeptMessage;
use message_keys::AdviceId;
use net_rows::Tables;
use step_rules::{LinkStates, first_up, links_of};

impl Draft {
    /// A link as it is now: whether it is up, and its last serial.
    #[tactic(auto, using(crate::proofs::Drafts::link_none))]
    fn link_now(&self, link: LinkNo) -> LinkAfter
        ensures state { record { up = result.up; serial = result.serial } ≡ link_at (progress self.now).lists.links link }
        ensures few { result.serial + 1 < 2 ^ 64 }
    {
        let links = self.books.links();
        let place = link.place();
        if place >= links.len() {
            return LinkAfter {
                up: true,
                serial: 0,
            };
        }
        let state = &links[place];
        let before = LinkAfter {
            up: state.is_up(),
            serial: state.serial(),
        };
        self.effects.link_after(link, before)
    }

    /// The serial of the next put.
    pub fn next_serial(&self, link: LinkNo) -> u64
        ensures { result ≡ suc (link_at (progress self.now).lists.links link).serial }
    {
        self.link_now(link).serial + 1
    }

    /// The link on which a key's request was put, from what it was before the changes.
    fn forwarded_since(&self, key: Key, there: bool, link: Option<LinkNo>) -> Option<LinkNo>
        ensures { result ≡ (forward_from key self.now.effects (record { there = there; link = link })).link }
    {
        self.effects
            .forwarded_after(key, Forwarding { there, link })
            .link
    }

    /// The link on which a key's request was put.
    #[tactic(auto, using(crate::proofs::SoFar::forwarded_some, crate::proofs::SoFar::forwarded_none))]
    fn forwarded(&self, key: Key) -> Option<LinkNo>
        ensures { result ≡ option_and_then row_link (of_key key (progress self.now).lists.rows) }
    {
        match self.books.of_key(key) {
            Some(row) => self.forwarded_since(key, true, row.link()),
            None => self.forwarded_since(key, false, None),
        }
    }

    /// The number of ticks.
    #[tactic(auto, using(crate::proofs::SoFar::count_is))]
    pub fn count_now(&self) -> u64
        ensures { result ≡ (progress self.now).lists.count }
    {
        self.effects.count_after(self.books.count())
    }

    /// Whether an advice was put, if it is stored.
    pub(crate) fn was_put(&self, id: AdviceId) -> bool
        ensures { (t : Network) (n : ℕ) → result ≡ put_before (view t n (progress self.now).lists) id }
    {
        if !self.effects.speaks_of(id) {
            return self.books.was_put(id);
        }
        let before = AdviceState {
            known: self.books.is_known(id),
            stored: self.books.is_stored(id),
            put: self.books.was_put(id),
        };
        self.effects.advice_after(id, before).put
    }

    /// The way of an advice of a card with these digits: a reversal goes where its request went, if that link is up; else the first link of the route that is up is
    /// taken.
    pub(crate) fn own_way(
        &self,
        tables: &Tables,
        node: NodeNo,
        key: Key,
        advice: &KeptMessage,
        card: &[u8],
    ) -> Option<LinkNo>
        requires key { key ≡ key_of advice.now }
        requires card { digits_of card.now ≡ card_of advice.now }
        requires digits { list_all is_ascii_digit card.now ≡ true }
        ensures { result ≡ own_way tables.now node (view tables.now node (progress self.now).lists) advice.now ((view tables.now node (progress self.now).lists).link (key_of advice.now)) }
    {
        if let Some(link) = self.forwarded(key) {
            if advice.kind().is_reversal() && self.is_up(link) {
                return Some(link);
            }
        }
        first_up(self, links_of(tables, node, card))
    }
}

impl LinkStates for Draft {
    ghost use Rattle.node_machine.specs.Lists.{link_at};
    ghost use Rattle.node_books.specs.Effects.{progress};

    ghost up = { λ d l. (link_at (progress d).lists.links l).up };

    fn is_up(&self, link: LinkNo) -> bool {
        self.link_now(link).up
    }
}
