//! The changes of an entry.
ghost use Rattle.std.specs.Prelude.{◌≡◌, ◌≤◌, ◌<◌, ◌^◌, ◌+◌, ◌++◌, ◌∷◌, [], ℕ, true, false, OnOk, OnErr, length, take, drop};
ghost use Rattle.card_digits.specs.declared.key.Key.{Key};
ghost use Rattle.entry_changes.specs.SoFar.{link_from, forward_from, advice_from, count_from};
ghost use Rattle.entry_changes.specs.Late.{few};
ghost use Rattle.node_books.specs.Effects.{applied};
ghost use Rattle.node_books.specs.Values.{AreFew};
ghost use Rattle.entry_changes.specs.declared.so_far.Forwarding.{Forwarding};

use crate::late::{FEW, LateChanges, speak_of};
use crate::so_far::{
    AdviceState, Forwarding, LinkAfter, advice_after, advice_at, count_after, forwarded_after,
    link_after,
};
use book_index::Place;
use card_digits::{Key, LinkNo};
use message_keys::AdviceId;
use node_books::{Books, Effect};
use std::alloc::{AllocError, Global};
use std::marker::Model;

/// The changes of an entry, in their order. What a look costs doesn't grow with their number, except where two of the later ones speak of
/// the same advice, or one of them opens or forwards a request or is a tick: then all are gone through.
#[derive(Drop)]
pub struct Changes {
    alloc: Global,
    effects: Vec<Effect>,
    late: LateChanges,
}

impl Model for Changes {
    ghost use Rattle.std.specs.Prelude.{List, drop};
    ghost use Rattle.node_books.specs.declared.effect.Effect.{Effect};
    ghost use Rattle.entry_changes.specs.Late.{AreLate, few};

    ghost Value = { List Effect };

    ghost view = { λ c. c.effects.items };

    ghost invariant = { λ c. AreLate (drop few c.effects.items) c.late };
}

/// Does the changes to the books, in their order.
#[tactic(auto, using(node_books::proofs::Few::few_before))]
fn apply_each(effects: &mut Vec<Effect>, books: &mut Books)
    requires room { length effects.old.items ≤ books.old.room }
    requires few { AreFew (applied effects.old.items books.old.lists) }
    ensures books { books.new.lists ≡ applied effects.old.items books.old.lists }
    ensures none { effects.new.items ≡ [] }
{
    for effect in effects.drain(..) {
        books.apply(effect);
    }
}

impl Changes {
    /// Nothing was changed.
    pub fn new(alloc: Global) -> Changes
        ensures { result ≡ [] }
    {
        Changes {
            alloc,
            effects: Vec::new(alloc),
            late: LateChanges::new(alloc),
        }
    }

    /// How many changes there are.
    pub fn len(&self) -> usize
        ensures { result ≡ length self.now }
    {
        self.effects.len()
    }

    /// The first few and those after them.
    fn parts(&self) -> (&[Effect], &[Effect])
        ensures first { result.0.now ≡ take few self.now }
        ensures late { result.1.now ≡ drop few self.now }
    {
        let effects = self.effects.as_slice();
        if effects.len() < FEW {
            (effects, &[])
        } else {
            effects.split_at(FEW)
        }
    }

    /// Whether there are none after the first few.
    #[tactic(auto, using(std::proofs::lemmas::List::drop_all))]
    fn are_few(&self) -> bool
        ensures { result ≡ true → drop few self.now ≡ [] }
    {
        self.effects.len() <= FEW
    }

    /// Whether the next change is none of the first few.
    pub fn is_next_late(&self) -> bool
        ensures late { result ≡ true → few ≤ length self.now }
        ensures early { result ≡ false → length self.now < few }
    {
        FEW <= self.effects.len()
    }

    /// The first few.
    pub fn first(&self) -> &[Effect]
        ensures { result.now ≡ take few self.now }
    {
        let (first, _) = self.parts();
        first
    }

    /// One change more.
    #[inline]
    pub fn push(&mut self, effect: Effect) -> Result<(), AllocError>
        ensures ok { OnOk result (self.new ≡ self.old ++ effect ∷ []) }
        ensures err { OnErr result (self.new ≡ self.old) }
    {
        self.effects.reserve(1)?;
        self.late.note_behind(&effect, self.effects.len())?;
        self.effects.push_reserved(effect);
        Ok(())
    }

    /// Does the changes to the books, in their order, and none are left. The memory of a short list is kept for the next entry.
    pub fn apply_to(&mut self, books: &mut Books)
        requires room { length self.old ≤ books.old.room }
        requires few { AreFew (applied self.old books.old.lists) }
        ensures books { books.new.lists ≡ applied self.old books.old.lists }
        ensures none { self.new ≡ [] }
    {
        let none_late = self.are_few();
        apply_each(&mut self.effects, books);
        if !none_late {
            self.effects = Vec::new(self.alloc);
            self.late = LateChanges::new(self.alloc);
        }
    }

    /// None are left.
    pub fn clear(&mut self)
        ensures { self.new ≡ [] }
    {
        self.effects.clear();
        self.late = LateChanges::new(self.alloc);
    }

    /// A link after the changes.
    pub fn link_after(&self, link: LinkNo, before: LinkAfter) -> LinkAfter
        requires { before.serial ≤ 2 ^ 62 }
        ensures state { record { up = result.up; serial = result.serial } ≡ link_from link self.now (record { up = before.up; serial = before.serial }) }
        ensures few { result.serial + 1 < 2 ^ 64 }
    {
        let first = link_after(self.first(), link, before);
        let later = self.late.moves.of(link);
        LinkAfter {
            up: later.up.unwrap_or(first.up),
            serial: first.serial + later.puts,
        }
    }

    /// The changes among which are all that say something of requests or ticks.
    fn plain(&self) -> &[Effect]
        ensures forwards { (k : Key) (s : Forwarding) → forward_from k result.now s ≡ forward_from k self.now s }
        ensures counts { (n : ℕ) → count_from result.now n ≡ count_from self.now n }
    {
        if self.late.plain {
            self.first()
        } else {
            self.effects.as_slice()
        }
    }

    /// A key's request after the changes.
    pub fn forwarded_after(&self, key: Key, before: Forwarding) -> Forwarding
        ensures { result ≡ forward_from key self.now before }
    {
        forwarded_after(self.plain(), key, before)
    }

    /// An advice after the changes.
    pub fn advice_after(&self, id: AdviceId, before: AdviceState) -> AdviceState
        ensures { result ≡ advice_from id self.now before }
    {
        let (first, late) = self.parts();
        let state = advice_after(first, id, before);
        match self.late.advices.find(id) {
            Place::Nowhere => state,
            Place::At(place) => advice_at(late, place, id, state),
            Place::Several => advice_after(late, id, state),
        }
    }

    /// Whether a change says something of an advice. It goes over none but the first few.
    pub fn speaks_of(&self, id: AdviceId) -> bool
        ensures { result ≡ false → (before : AdviceState) → advice_from id self.now before ≡ before }
    {
        let (first, _) = self.parts();
        speak_of(first, id) || self.late.speak_of(id)
    }

    /// The number of ticks after the changes.
    pub fn count_after(&self, count: u64) -> u64
        requires { count ≤ 2 ^ 62 }
        ensures { result ≡ count_from self.now count }
    {
        count_after(self.plain(), count)
    }
}
