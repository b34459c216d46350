//! The book of requests as a node's books use it, which make all changes of a step at once.
ghost use Rattle.std.specs.Prelude.{◌≡◌, ◌+◌, ◌-◌, ◌<◌, ◌≤◌, ◌^◌, [], ◌∷◌, ◌++◌, map, Some, IfOk, IfSome, OnOk, length, count_by, vec_len, vec_capacity, true, false, cond, is_some};
ghost use Rattle.crowded_map.specs.Values.{spare};
ghost use Rattle.std.specs.Map.{lookup};
ghost use Rattle.std.specs.Option.{option_copied};
ghost use Rattle.card_digits.specs.declared.key.Key.{Key};
ghost use Rattle.message_keys.specs.Keys.{key_eq};
ghost use Rattle.node_machine.specs.Lists.{row_after, of_key, row_pending, is_marked, left_marks};
ghost use Rattle.std.specs.Prelude.{◌≢◌, ◌&&◌, ℕ};
ghost use Rattle.node_machine.specs.Lists.{Row};
ghost use Rattle.request_slots.specs.Waits.{wait_at};
ghost use Rattle.kept_messages.specs.Ways.{output_key};
ghost use Rattle.pending_book.specs.Rows.{IsUnique, opened, places_where, waits_of, waits_on};
ghost use Rattle.pending_book.specs.Waits.{is_over};
ghost use Rattle.pending_book.specs.NodeKept.{bit, is_waiting, place_of, standing_of, HasWait, WaitsAnew};

use crate::marks::{Mark, Marks};
use crate::row::Row;
use crate::waits::Waits;
use card_digits::{Amount, Card, Key, LinkNo};
use crowded_map::CrowdedMap;
use kept_messages::PreparedOutput;
use message_keys::same_key;
use request_slots::{RequestSlots, Wait};
use std::alloc::{AllocError, Global};
use std::marker::Model;

/// How many ticks ahead a slot may be due.
const MOST_TICKS: u64 = 4_000;

/// The requests in opening order, each key once, and the keys of which a reversal was accepted. A key's request and its marks are found
/// without a search, and so are the requests that a tick, a link or a card concerns.
#[derive(Drop)]
pub struct NodeRequests {
    rows: Vec<Row>,
    places: CrowdedMap<Key, usize>,
    pending: usize,
    waits: Waits,
    // The requests that were put on a link, or asked of the host, and have no answer.
    waiting: RequestSlots,
    // Whether the slots know of each such request when it is due: never more than 4,000 ticks ahead.
    is_timely: bool,
    marks: Marks,
    alloc: Global,
    room: usize,
}

impl Model for NodeRequests {
    ghost use Rattle.std.specs.Prelude.{vec_len, vec_capacity};
    ghost use Rattle.crowded_map.specs.Values.{spare};
    ghost use Rattle.pending_book.specs.Rows.{Pending};
    ghost use Rattle.pending_book.specs.NodeKept.{AreKept, HasRoom};

    ghost Value = { Pending };

    ghost view = { λ b. record { rows = b.rows.items; marks = b.marks.marks; waits = b.waits; count = b.waiting.count; visits = b.waiting.visits; room = b.room } };

    ghost invariant = { λ b. AreKept b.rows.items b.places.entries b.pending b.waits b.waiting b.is_timely × HasRoom b.room (vec_len b.rows) (vec_capacity b.rows) (spare b.places) b.marks.room b.waiting.room };
}

/// What an output does to the request of its key, and whether that was pending and no longer is.
#[tactic(auto, using(crate::proofs::NodePlaces::place_within, crate::proofs::NodePlaces::has_key_at))]
fn change(rows: &mut [Row], place: usize, output: PreparedOutput) -> bool
    requires unique { IsUnique rows.old }
    requires place { place_of (output_key output) rows.old ≡ Some place }
    ensures rows { rows.new ≡ map (row_after output) rows.old }
    ensures closed { count_by row_pending rows.new + bit result ≡ count_by row_pending rows.old }
{
    let row = &mut rows[place];
    let was = row.is_open();
    row.after(output);
    was && !row.is_open()
}

/// The same of all requests.
fn change_in(rows: &mut Vec<Row>, place: usize, output: PreparedOutput) -> bool
    requires unique { IsUnique rows.old.items }
    requires place { place_of (output_key output) rows.old.items ≡ Some place }
    ensures rows { rows.new.items ≡ map (row_after output) rows.old.items }
    ensures closed { count_by row_pending rows.new.items + bit result ≡ count_by row_pending rows.old.items }
    ensures len { vec_len rows.new ≡ vec_len rows.old }
    ensures capacity { vec_capacity rows.new ≡ vec_capacity rows.old }
{
    change(rows.as_mut_slice(), place, output)
}

/// Gives a key a place where it has none yet, and says whether it had one. A key is hashed once where it is new, as nearly all are.
fn put_new(places: &mut CrowdedMap<Key, usize>, key: Key, place: usize) -> bool
    requires { 1 ≤ spare places.old }
    ensures had { result ≡ is_some (lookup (key_eq key) places.old.entries) }
    ensures there { result ≡ true → (k : Key) → lookup (key_eq k) places.new.entries ≡ lookup (key_eq k) places.old.entries }
    ensures new { result ≡ false → (k : Key) → lookup (key_eq k) places.new.entries ≡ cond (key_eq key k) (Some place) (lookup (key_eq k) places.old.entries) }
    ensures room { spare places.old ≤ spare places.new + 1 }
{
    let Some(earlier) = places.insert(key, place) else {
        return false;
    };
    // The key keeps the place that it had.
    let _ = places.replace(&key, earlier);
    true
}

/// One less, where the test holds.
fn less(count: usize, closed: bool) -> usize
    requires { bit closed ≤ count }
    ensures { result + bit closed ≡ count }
{
    if closed { count - 1 } else { count }
}

/// One more, if the request is pending.
fn more(count: usize, row: &Row) -> usize
    requires { count < 2 ^ 63 }
    ensures { result ≡ count + bit (row_pending row.now) }
{
    if row.is_open() { count + 1 } else { count }
}

/// What a request waits for, as far as its row says it.
#[derive(Clone, Copy, Debug, PartialEq, Eq)]
struct Standing {
    link: Option<LinkNo>,
    asked: bool,
    is_open: bool,
}

fn standing_of(row: &Row) -> Standing
    ensures { result ≡ standing_of row.now }
{
    Standing {
        link: row.link(),
        asked: row.asked(),
        is_open: row.is_open(),
    }
}

/// Whether a request has no answer, and was put on a link or asked of the host.
fn is_waiting(row: &Row) -> bool
    ensures { result ≡ is_waiting row.now }
{
    row.is_open() && (row.link().is_some() || row.asked())
}

/// The tick at which a request is due, if it is to come.
#[derive(Clone, Copy, Debug)]
struct Due {
    tick: Option<u64>,
    /// Whether that is known: no slot is due more than 4,000 ticks ahead.
    is_known: bool,
}

/// The tick at which a request is due that was opened at one count and waits for so many ticks, looked at at another count.
fn due_at(opened: u64, ticks: Option<u16>, now: u64) -> Due
    ensures time { IfSome result.tick (λ tick. (t : ℕ) × (ticks ≡ Some t) × (opened + t ≡ tick)) }
    ensures known { result.is_known ≡ true → (t : ℕ) → ticks ≡ Some t → now < opened + t → result.tick ≡ Some (opened + t) }
    ensures soon { IfSome result.tick (λ tick. (now < tick) × (tick ≤ now + 4000)) }
{
    let Some(ticks) = ticks else {
        return Due {
            tick: None,
            is_known: true,
        };
    };
    let Some(due) = opened.checked_add(ticks as u64) else {
        return Due {
            tick: None,
            is_known: false,
        };
    };
    if due <= now {
        Due {
            tick: None,
            is_known: true,
        }
    } else if due - now <= MOST_TICKS {
        Due {
            tick: Some(due),
            is_known: true,
        }
    } else {
        Due {
            tick: None,
            is_known: false,
        }
    }
}

/// The request at a place waits, or doesn't, as its row says. Answers whether the slots know the tick at which it is due.
fn settle(waiting: &mut RequestSlots, waits: &Waits, row: &Row, place: usize) -> bool
    requires room { 0 < waiting.old.room }
    requires place { place < length waiting.old.waits }
    ensures here { HasWait waits.now waiting.old.count result row.now (wait_at waiting.new.waits place) }
    ensures others { (k : ℕ) → k ≢ place → wait_at waiting.new.waits k ≡ wait_at waiting.old.waits k }
    ensures places { length waiting.new.waits ≡ length waiting.old.waits }
    ensures count { waiting.new.count ≡ waiting.old.count }
    ensures visits { waiting.new.visits ≡ waiting.old.visits }
    ensures room { waiting.old.room ≤ waiting.new.room + 1 }
{
    waiting.leave(place);
    if !is_waiting(row) {
        return true;
    }
    let ticks = waits.of(row.link(), row.asked());
    let due = due_at(row.count(), ticks, waiting.count());
    waiting.enter(Wait {
        place,
        card: row.card(),
        link: row.link(),
        due: due.tick,
    });
    due.is_known
}

/// The same for a request that stood so before. Where it stands as it stood, its place stays as it is.
fn settle_anew(
    waiting: &mut RequestSlots,
    waits: &Waits,
    row: &Row,
    place: usize,
    before: Standing,
) -> bool
    requires room { 0 < waiting.old.room }
    requires place { place < length waiting.old.waits }
    ensures here { WaitsAnew waits.now waiting.old.count before row.now result (wait_at waiting.old.waits place) (wait_at waiting.new.waits place) }
    ensures others { (k : ℕ) → k ≢ place → wait_at waiting.new.waits k ≡ wait_at waiting.old.waits k }
    ensures places { length waiting.new.waits ≡ length waiting.old.waits }
    ensures count { waiting.new.count ≡ waiting.old.count }
    ensures visits { waiting.new.visits ≡ waiting.old.visits }
    ensures room { waiting.old.room ≤ waiting.new.room + 1 }
{
    if standing_of(row) == before {
        true
    } else {
        settle(waiting, waits, row, place)
    }
}

impl NodeRequests {
    /// A book without requests and marks, in a network in which requests wait so long.
    #[tactic(auto, using(crate::proofs::NodeWaiting::no_rows))]
    pub fn new(alloc: Global, waits: Waits) -> Result<NodeRequests, AllocError>
        ensures { IfOk result (λ b. b ≡ record { rows = []; marks = []; waits = waits; count = 0; visits = 0; room = 0 }) }
    {
        Ok(NodeRequests {
            rows: Vec::new(alloc),
            places: CrowdedMap::new(alloc),
            pending: 0,
            waits,
            waiting: RequestSlots::new(alloc)?,
            is_timely: true,
            marks: Marks::new(alloc),
            alloc,
            room: 0,
        })
    }

    /// The next n changes need no memory.
    pub fn reserve(&mut self, n: usize) -> Result<(), AllocError>
        ensures same { self.new ≡ record self.old { room = self.new.room } }
        ensures ok { OnOk result (self.new.room ≡ n) }
    {
        self.room = 0;
        // A request that is opened takes a place, and a slot once it waits.
        let twice = n.checked_mul(2).ok_or(AllocError)?;
        self.rows.reserve(n)?;
        self.places.reserve(n)?;
        self.waiting.reserve(twice)?;
        self.marks.reserve(n)?;
        self.room = n;
        Ok(())
    }

    /// Opens a request, where its key has none.
    #[inline(never)]
    pub fn open(&mut self, row: Row)
        requires { 0 < self.old.room }
        ensures { self.new ≡ record self.old { rows = opened row self.old.rows; room = self.old.room - 1 } }
    {
        self.room -= 1;
        let place = self.rows.len();
        if put_new(&mut self.places, row.key(), place) {
            return;
        }
        self.pending = more(self.pending, &row);
        self.waiting.add_place();
        let is_known = settle(&mut self.waiting, &self.waits, &row, place);
        self.is_timely = self.is_timely && is_known;
        self.rows.push_reserved(row);
    }

    /// A reversal was accepted.
    pub fn mark(&mut self, mark: Mark)
        requires { 0 < self.old.room }
        ensures { self.new ≡ record self.old { marks = self.old.marks ++ mark ∷ []; room = self.old.room - 1 } }
    {
        self.marks.mark(mark);
        self.room -= 1;
    }

    /// The place of the request of a key. An entry that opens a request nearly always says next what becomes of it, so the newest is looked
    /// at before the key is hashed.
    fn place(&self, key: Key) -> Option<usize>
        ensures { result ≡ place_of key self.now.rows }
    {
        let count = self.rows.len();
        if count > 0 && same_key(self.rows[count - 1].key(), key) {
            return Some(count - 1);
        }
        self.places.get(&key).copied()
    }

    /// What an output does to the requests.
    pub fn after(&mut self, output: PreparedOutput)
        requires { 0 < self.old.room }
        ensures { self.new ≡ record self.old { rows = map (row_after output) self.old.rows; room = self.old.room - 1 } }
    {
        let found = self.place(output.key());
        self.room -= 1;
        if let Some(place) = found {
            let before = standing_of(&self.rows[place]);
            let closed = change_in(&mut self.rows, place, output);
            self.pending = less(self.pending, closed);
            let row = &self.rows[place];
            let is_known = settle_anew(&mut self.waiting, &self.waits, row, place, before);
            self.is_timely = self.is_timely && is_known;
        }
    }

    /// One tick more. The requests that are due at it stay pending until they are answered.
    pub fn tick(&mut self)
        requires { self.old.count < 2 ^ 63 }
        ensures book { self.new ≡ record self.old { count = self.old.count + 1; visits = self.new.visits } }
        ensures visits { self.new.visits ≤ count_by (is_over self.old.waits (self.old.count + 1)) self.old.rows + 1 }
    {
        self.waiting.tick();
    }

    /// How many ticks went by.
    pub fn count(&self) -> u64
        ensures { result ≡ self.now.count }
    {
        self.waiting.count()
    }

    /// For how many ticks requests wait.
    pub fn waits(&self) -> &Waits
        ensures { result.now ≡ self.now.waits }
    {
        &self.waits
    }

    /// The places of the requests whose time is over at the next tick, in opening order. Where some request waits for a tick that lies more
    /// than 4,000 ahead, it looks at all requests.
    pub fn due(&self) -> Result<Vec<usize>, AllocError>
        ensures exact { IfOk result (λ places. places.items ≡ places_where (is_over self.now.waits (self.now.count + 1)) self.now.rows) }
    {
        if self.is_timely {
            self.waiting.due()
        } else {
            self.over(&self.waits)
        }
    }

    /// The same where requests wait for other numbers of ticks. It looks at all requests.
    pub fn over(&self, waits: &Waits) -> Result<Vec<usize>, AllocError>
        ensures exact { IfOk result (λ places. places.items ≡ places_where (is_over waits.now (self.now.count + 1)) self.now.rows) }
    {
        let count = self.waiting.count();
        let mut places = Vec::new(self.alloc);
        for place in 0..self.rows.len() {
            if waits.is_over(&self.rows[place], count) {
                places.push(place)?;
            }
        }
        Ok(places)
    }

    /// The places of the pending requests that were put on a link, in opening order.
    pub fn put_on(&self, link: LinkNo) -> Result<Vec<usize>, AllocError>
        ensures exact { IfOk result (λ places. places.items ≡ places_where (waits_on link) self.now.rows) }
    {
        self.waiting.on_link(link)
    }

    /// The places of the pending requests of a card that were put on a link or asked of the host, in opening order.
    pub fn of_card(&self, card: &Card) -> Result<Vec<usize>, AllocError>
        ensures exact { IfOk result (λ places. places.items ≡ places_where (waits_of card.now) self.now.rows) }
    {
        self.waiting.of_card(card)
    }

    /// How many slots and ends of lists the last tick looked at.
    pub fn visits(&self) -> u64
        ensures { result ≡ self.now.visits }
    {
        self.waiting.visits()
    }

    /// The request of a key.
    #[tactic(auto, using(crate::proofs::NodePlaces::place_within))]
    pub fn of_key(&self, key: Key) -> Option<&Row>
        ensures { option_copied result ≡ of_key key self.now.rows }
    {
        let place = self.place(key)?;
        Some(&self.rows[place])
    }

    /// The requests in opening order, each key once.
    pub fn rows(&self) -> &[Row]
        ensures rows { result.now ≡ self.now.rows }
        ensures unique { IsUnique self.now.rows }
    {
        self.rows.as_slice()
    }

    /// How many requests are pending.
    pub fn open_count(&self) -> usize
        ensures { result ≡ count_by row_pending self.now.rows }
    {
        self.pending
    }

    /// The keys of which a reversal was accepted, the oldest first.
    pub fn marks(&self) -> &[Mark]
        ensures { result.now ≡ self.now.marks }
    {
        self.marks.list()
    }

    /// Whether a reversal of the key was accepted.
    pub fn is_marked(&self, key: Key) -> bool
        ensures { result ≡ is_marked key self.now.marks }
    {
        self.marks.is_marked(key)
    }

    /// What the accepted reversals leave of an amount that a key took.
    pub fn left_of(&self, key: Key, amount: Amount) -> Amount
        ensures { result ≡ left_marks key self.now.marks amount }
    {
        self.marks.left_of(key, amount)
    }
}
