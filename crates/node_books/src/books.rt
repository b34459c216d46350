//! All books of a node.
ghost use Rattle.std.specs.Prelude.{◌≡◌, ◌+◌, ◌-◌, ◌<◌, ◌≤◌, ◌^◌, [], ◌∷◌, ◌++◌, filter, OnOk, IfOk, length, replicate, ℕ, is_some, vec_len, vec_capacity};
ghost use Rattle.node_machine.specs.Lists.{row_link, after_output, ask_at, of_key, is_marked, left_marks, is_among, fresh, view};
ghost use Rattle.std.specs.Option.{option_and_then, option_copied};
ghost use Rattle.node_books.specs.Effects.{applied_one, keep_in};
ghost use Rattle.node_books.specs.Values.{AreFew, waits_in};
ghost use Rattle.node_machine.specs.Counts.{PutsAreWithin};
ghost use Rattle.kept_messages.specs.Ways.{message_of, advice_of};
ghost use Rattle.pending_book.specs.Rows.{IsUnique, places_where, waits_of, waits_on};
ghost use Rattle.pending_book.specs.Waits.{is_over};
ghost use Rattle.net_rows.specs.Network.{Network};
ghost use Rattle.node_machine.specs.Machine.{borrowed_for, is_due, lent_for, load, was_put};
ghost use Rattle.node_machine.specs.Lists as lists;
ghost use Rattle.network_law.specs.Traces.{added, is_link, PutPacket};
ghost use Rattle.node_books.specs.declared.effect.Effect.TheVariants.{Lent};
ghost use Rattle.std.specs.List.{list_any};
ghost use Rattle.advice_store.specs.Advices.{has_id};
ghost use Rattle.standin_book.specs.Lending.{allowance};
ghost use Rattle.node_books.specs.Ways.{asks_by, store_by};

use crate::effect::{Effect, NewAdvice};
use crate::links::{LinkState, Links};
use crate::waits::{are_waits_in, waits_in};
use advice_store::{KeptAdvice, KeptGrant, NodeAdvices, StoredItem};
use card_digits::{Amount, Card, DateLabel, Key, LinkNo};
use kept_messages::{PreparedOutput, Way};
use message_keys::AdviceId;
use net_rows::Link;
use network_law::GrantPacket;
use pending_book::{Mark, NodeRequests, Row, Waits};
use standin_book::{Borrowed, CardDay, LendingBook, Loan, OwnApproval, StandInBook};
use std::alloc::{AllocError, Global};
use std::marker::Model;
use step_rules::LinkStates;

/// For how many changes room is made at once.
const ROOM: usize = 64;

/// The books, and how many changes more need no memory.
#[derive(Drop)]
pub struct Books {
    pub(crate) pending: NodeRequests,
    pub(crate) standin: StandInBook,
    pub(crate) advices: NodeAdvices,
    pub(crate) lending: LendingBook,
    pub(crate) links: Links,
    pub(crate) asks: Vec<Key>,
    pub(crate) date: DateLabel,
    pub(crate) room: usize,
    pub(crate) alloc: Global,
}

impl Model for Books {
    ghost use Rattle.std.specs.Prelude.{vec_len, vec_capacity, ◌≤◌, ◌^◌};
    ghost use Rattle.node_books.specs.Values.{Roomy, HasRooms};

    ghost Value = { Roomy };

    ghost view = { λ b. record { lists = record { rows = b.pending.rows; marks = b.pending.marks; takes = b.standin.takes; store = b.advices.store; known = b.advices.known; loans = b.lending.loans; borrowed = b.lending.borrowed; links = b.links; asks = b.asks.items; date = b.date; count = b.pending.count }; room = b.room } };

    ghost invariant = { λ b. HasRooms b.room b.pending.room b.standin.room b.advices.room b.lending.room (vec_len b.asks) (vec_capacity b.asks) × (b.pending.count ≤ 2 ^ 62) };
}

fn ask_in(asks: &mut Vec<Key>, way: Way, key: Key)
    requires { vec_len asks.old < vec_capacity asks.old }
    ensures items { asks.new.items ≡ asks_by way key asks.old.items }
    ensures len { vec_len asks.new ≤ vec_len asks.old + 1 }
    ensures capacity { vec_capacity asks.new ≡ vec_capacity asks.old }
{
    if let Way::Ask(_) = way {
        asks.push_reserved(key);
    }
}

/// What an output that goes this way does to the store.
fn mark_in(advices: &mut NodeAdvices, way: Way, output: &PreparedOutput)
    ensures { advices.new ≡ record advices.old { store = store_by way (advice_of (message_of output.now)) advices.old.store } }
{
    if let Way::Put(_, _) = way {
        if let Some(id) = output.advice() {
            advices.mark_put(id);
        }
    }
}

impl Books {
    /// The books of a new node with so many links, in a network in which advices are sent again after so many ticks and requests wait so
    /// long.
    pub fn new(
        alloc: Global,
        date: DateLabel,
        links: usize,
        ticks: u16,
        waits: Waits,
    ) -> Result<Books, AllocError>
        ensures { IfOk result (λ b. b.lists ≡ record { rows = []; marks = []; takes = []; store = []; known = []; loans = []; borrowed = []; links = replicate links fresh; asks = []; date = date; count = 0 }) }
    {
        let links = Links::new(alloc, links)?;
        Ok(Books {
            pending: NodeRequests::new(alloc, waits)?,
            standin: StandInBook::new(alloc),
            advices: NodeAdvices::new(alloc, ticks)?,
            lending: LendingBook::new(alloc),
            links,
            asks: Vec::new(alloc),
            date,
            room: 0,
            alloc,
        })
    }

    /// The next n changes need no memory.
    fn make_room(&mut self, n: usize) -> Result<(), AllocError>
        ensures lists { self.new.lists ≡ self.old.lists }
        ensures ok { OnOk result (self.new.room ≡ n) }
    {
        self.room = 0;
        self.pending.reserve(n)?;
        self.standin.reserve(n)?;
        self.advices.room(n)?;
        self.lending.reserve(n)?;
        self.asks.reserve(n)?;
        self.room = n;
        Ok(())
    }

    /// The next n changes need no memory. It is asked for in advance, so that most entries, which make a few changes, ask for none.
    pub fn reserve(&mut self, n: usize) -> Result<(), AllocError>
        ensures lists { self.new.lists ≡ self.old.lists }
        ensures ok { OnOk result (n ≤ self.new.room) }
    {
        if n <= self.room {
            return Ok(());
        }
        if n <= ROOM {
            return self.make_room(ROOM);
        }
        self.make_room(n)
    }

    /// The key of an ask.
    pub fn ask(&self, ask: u64) -> Option<Key>
        ensures { result ≡ ask_at self.now.lists.asks ask }
    {
        if ask < 1 {
            return None;
        }
        let asks = self.asks.as_slice();
        let place = (ask - 1) as usize;
        if place < asks.len() {
            Some(asks[place])
        } else {
            None
        }
    }

    /// The request of a key.
    pub fn of_key(&self, key: Key) -> Option<&Row>
        ensures { option_copied result ≡ of_key key self.now.lists.rows }
    {
        self.pending.of_key(key)
    }

    /// The links by their numbers, on none of which was put more than 2^62 times.
    pub fn links(&self) -> &[LinkState]
        ensures links { result.now ≡ self.now.lists.links }
        ensures few { PutsAreWithin (2 ^ 62) result.now }
    {
        self.links.states()
    }

    /// Whether the key has a request.
    pub fn has_key(&self, key: Key) -> bool
        ensures { result ≡ is_some (of_key key self.now.lists.rows) }
    {
        match self.pending.of_key(key) {
            Some(_) => true,
            None => false,
        }
    }

    /// Whether the key's request was put on this link first.
    pub fn was_put_on(&self, key: Key, link: LinkNo) -> bool
        ensures { result ≡ is_link link (option_and_then row_link (of_key key self.now.lists.rows)) }
    {
        match self.of_key(key) {
            Some(row) => match row.link() {
                Some(own) => own == link,
                None => false,
            },
            None => false,
        }
    }

    /// The requests in opening order, each key once.
    pub fn rows(&self) -> &[Row]
        ensures rows { result.now ≡ self.now.lists.rows }
        ensures unique { IsUnique self.now.lists.rows }
    {
        self.pending.rows()
    }

    /// The places of the pending requests that were put on a link, in opening order.
    pub fn put_on(&self, link: LinkNo) -> Result<Vec<usize>, AllocError>
        ensures exact { IfOk result (λ places. places.items ≡ places_where (waits_on link) self.now.lists.rows) }
    {
        self.pending.put_on(link)
    }

    /// The places of the pending requests of a card that were put on a link or asked of the host, in opening order.
    pub fn of_card(&self, card: &Card) -> Result<Vec<usize>, AllocError>
        ensures exact { IfOk result (λ places. places.items ≡ places_where (waits_of card.now) self.now.lists.rows) }
    {
        self.pending.of_card(card)
    }

    /// The places of the requests whose time is over at the next tick, in opening order, in a network with these links, in which requests wait
    /// so long for the host. Where that is not the network that the books were made for, it looks at all requests.
    pub fn over(&self, links: &[Link], host: u16) -> Result<Vec<usize>, AllocError>
        ensures exact { IfOk result (λ places. places.items ≡ places_where (is_over (waits_in links.now host) (self.now.lists.count + 1)) self.now.lists.rows) }
    {
        if are_waits_in(self.pending.waits(), links, host) {
            return self.pending.due();
        }
        let waits = waits_in(self.alloc, links, host)?;
        self.pending.over(&waits)
    }

    /// How many slots and ends of lists the last tick looked at among the requests.
    pub fn visits(&self) -> u64 {
        self.pending.visits()
    }

    /// The places taken: one by each stored advice and grant, two by each pending request.
    pub fn load(&self) -> u128
        ensures { (t : Network) (n : ℕ) → result ≡ load (view t n self.now.lists) }
    {
        // Each key is there once.
        let _ = self.pending.rows();
        self.advices.len() as u128 + 2 * self.pending.open_count() as u128
    }

    /// The keys of which a reversal was accepted, the oldest first.
    pub fn marks(&self) -> &[Mark]
        ensures { result.now ≡ self.now.lists.marks }
    {
        self.pending.marks()
    }

    /// Whether a reversal of the key was accepted.
    pub fn is_marked(&self, key: Key) -> bool
        ensures { result ≡ is_marked key self.now.lists.marks }
    {
        self.pending.is_marked(key)
    }

    /// What the accepted reversals leave of an amount that a key took.
    pub fn left_of(&self, key: Key, amount: Amount) -> Amount
        ensures { result ≡ left_marks key self.now.lists.marks amount }
    {
        self.pending.left_of(key, amount)
    }

    /// Whether an advice of this identity was made or accepted.
    pub fn is_known(&self, id: AdviceId) -> bool
        ensures { result ≡ is_among id self.now.lists.known }
    {
        self.advices.is_known(id)
    }

    /// Whether an advice of this identity is stored.
    pub fn is_stored(&self, id: AdviceId) -> bool
        ensures { result ≡ list_any (has_id id) self.now.lists.store }
    {
        self.advices.is_stored(id)
    }

    /// Whether an advice of this identity is stored, and was put.
    pub fn was_put(&self, id: AdviceId) -> bool
        ensures { result ≡ list_any (was_put id) self.now.lists.store }
    {
        self.advices.was_put(id)
    }

    /// Copies of what is sent again at a count of ticks, the oldest first. It looks at that alone, and at what was acknowledged since
    /// its last turn.
    pub fn due(&self, ticks: u16, now: u64) -> Result<Vec<StoredItem>, AllocError>
        ensures { IfOk result (λ v. v.items ≡ filter (is_due ticks now) self.now.lists.store) }
    {
        self.advices.due_at(ticks, now)
    }

    /// What the node approved by itself, the oldest first.
    pub fn takes(&self) -> &[OwnApproval]
        ensures { result.now ≡ self.now.lists.takes }
    {
        self.standin.takes()
    }

    /// What own approvals of a card and a settlement date count for. One look-up.
    pub fn used(&self, day: &CardDay) -> u128
        ensures used { result ≡ lists.used self.now.lists.takes day.now.card day.now.date }
        ensures bound { result < 2 ^ 104 }
    {
        self.standin.used(day)
    }

    /// What was lent of a card and a settlement date. One look-up.
    pub fn lent_sum(&self, day: &CardDay) -> u128
        ensures lent { result ≡ added (lent_for day.now.card day.now.date) self.now.lists.loans }
        ensures bound { result < 2 ^ 104 }
    {
        self.lending.lent(day)
    }

    /// What was borrowed of a card and a settlement date. One look-up.
    pub fn borrowed_sum(&self, day: &CardDay) -> u128
        ensures borrowed { result ≡ added (borrowed_for day.now.card day.now.date) self.now.lists.borrowed }
        ensures bound { result < 2 ^ 104 }
    {
        self.lending.borrowed_sum(day)
    }

    /// What a day's limit allows of a card and a settlement date, with what was borrowed and less what was lent. Two look-ups.
    pub fn allowance(&self, limit: Amount, day: &CardDay) -> u128
        ensures { result ≡ allowance limit self.now.lists.borrowed self.now.lists.loans day.now.card day.now.date }
    {
        self.lending.allowance(limit, day)
    }

    /// What the node lent, the oldest grant first.
    pub fn loans(&self) -> &[Loan]
        ensures { result.now ≡ self.now.lists.loans }
    {
        self.lending.loans()
    }

    /// What the node borrowed, the oldest grant first.
    pub fn borrowed(&self) -> &[Borrowed]
        ensures { result.now ≡ self.now.lists.borrowed }
    {
        self.lending.borrowed()
    }

    /// How often the host was asked.
    pub fn ask_count(&self) -> usize
        ensures count { result ≡ length self.now.lists.asks }
        ensures few { result + 1 < 2 ^ 64 }
    {
        self.asks.len()
    }

    /// The settlement date that the node gives to requests.
    pub fn date(&self) -> DateLabel
        ensures { result ≡ self.now.lists.date }
    {
        self.date
    }

    /// The number of ticks.
    pub fn count(&self) -> u64
        ensures count { result ≡ self.now.lists.count }
        ensures few { result ≤ 2 ^ 62 }
    {
        self.pending.count()
    }

    /// An output went out.
    #[inline(never)]
    #[tactic(auto, using(crate::proofs::Codes::after_is, crate::proofs::Few::sent_few))]
    fn send(&mut self, output: PreparedOutput)
        requires room { 0 < self.old.room }
        requires few { AreFew (after_output output self.old.lists) }
        ensures { self.new ≡ record { lists = after_output output self.old.lists; room = self.old.room - 1 } }
    {
        let key = output.key();
        self.links.after(output.way());
        mark_in(&mut self.advices, output.way(), &output);
        ask_in(&mut self.asks, output.way(), key);
        self.pending.after(output);
        self.room -= 1;
    }

    /// An advice was made or accepted.
    #[inline(never)]
    #[tactic(auto, using(kept_messages::proofs::Codes::id_key))]
    fn keep(&mut self, advice: NewAdvice)
        requires { 0 < self.old.room }
        ensures { self.new ≡ record { lists = keep_in advice self.old.lists; room = self.old.room - 1 } }
    {
        self.room -= 1;
        let NewAdvice {
            id,
            message,
            actual,
            count,
            own,
            home,
            put,
        } = advice;
        if self.advices.is_known(id) {
            return;
        }
        if !own && message.kind().is_04xx() {
            self.pending.mark(Mark::new(id.key, actual));
            self.standin.give_back(id.key, actual);
        }
        if home {
            self.advices.know(id);
        } else {
            self.advices.keep(KeptAdvice::new(id, message, count, put));
        }
    }

    /// The node lent to another.
    #[inline(never)]
    fn lend(&mut self, grant: KeptGrant)
        requires { 0 < self.old.room }
        ensures { self.new ≡ record { lists = applied_one (Lent grant) self.old.lists; room = self.old.room - 1 } }
    {
        let lent = grant.grant();
        self.lending
            .lend(Loan::new(lent.card, lent.date, lent.amount));
        self.advices.keep_grant(grant);
        self.room -= 1;
    }

    /// A packet was put on a link, with this serial.
    #[inline(never)]
    #[tactic(auto, using(crate::proofs::Packets::packet_quiet))]
    fn send_packet(&mut self, link: LinkNo, serial: u64, packet: GrantPacket)
        requires room { 0 < self.old.room }
        requires few { AreFew (after_output (PutPacket link serial packet) self.old.lists) }
        ensures { self.new ≡ record { lists = after_output (PutPacket link serial packet) self.old.lists; room = self.old.room - 1 } }
    {
        self.links.put(link);
        self.room -= 1;
    }

    /// A change is made. What each kind does is called, and not written here, or all kinds would be taken apart for each change.
    pub fn apply(&mut self, effect: Effect)
        requires room { 0 < self.old.room }
        requires few { AreFew (applied_one effect self.old.lists) }
        ensures { self.new ≡ record { lists = applied_one effect self.old.lists; room = self.old.room - 1 } }
    {
        match effect {
            Effect::Sent(output) => self.send(output),
            Effect::Kept(advice) => self.keep(advice),
            Effect::Approved(approval) => {
                self.standin.take(approval);
                self.room -= 1;
            }
            Effect::Opened(row) => {
                self.pending.open(row);
                self.room -= 1;
            }
            Effect::Acknowledged(id) => {
                self.advices.ack(id);
                self.room -= 1;
            }
            Effect::LinkIs(link, up) => {
                self.links.set_up(link, up);
                self.room -= 1;
            }
            Effect::Dated(date) => {
                self.date = date;
                self.room -= 1;
            }
            Effect::Ticked => {
                self.pending.tick();
                self.advices.tick();
                self.room -= 1;
            }
            Effect::PacketSent(link, serial, packet) => self.send_packet(link, serial, packet),
            Effect::Lent(grant) => self.lend(grant),
            Effect::PacketTaken(packet) => {
                self.advices.take_packet(&packet);
                self.lending.take_packet(&packet);
                self.room -= 1;
            }
        }
    }
}

impl LinkStates for Books {
    ghost use Rattle.node_machine.specs.Lists.{link_at};

    ghost up = { λ b l. (link_at b.lists.links l).up };

    fn is_up(&self, link: LinkNo) -> bool {
        match self.links().get(link.place()) {
            Some(state) => state.is_up(),
            None => true,
        }
    }
}
