//! What is kept of the changes after the first few, so that a look goes over none of them.
ghost use Rattle.std.specs.Prelude.{◌≡◌, ◌≤◌, ◌<◌, ◌^◌, ◌++◌, ◌∷◌, [], ℕ, List, true, false, OnOk, OnErr, length, drop};
ghost use Rattle.std.specs.List.{list_any};
ghost use Rattle.crowded_map.specs.Values.{spare};
ghost use Rattle.message_keys.specs.declared.keys.AdviceId.{AdviceId};
ghost use Rattle.node_books.specs.declared.effect.Effect.{Effect};
ghost use Rattle.node_books.specs.declared.effect.Effect.TheVariants.{Sent};
ghost use Rattle.entry_changes.specs.SoFar.{advice_from};
ghost use Rattle.entry_changes.specs.declared.so_far.AdviceState.{AdviceState};
ghost use Rattle.entry_changes.specs.Late.{ArePlain, AreLate, AreTold, few, move_at, touches, touched};

use crate::advice_places::AdvicePlaces;
use crate::link_moves::LinkMoves;
use book_index::Place;
use kept_messages::{PreparedOutput, Way};
use message_keys::{AdviceId, same_identity};
use node_books::Effect;
use std::alloc::{AllocError, Global};

/// So many changes are gone through one by one; what those after them did is kept beside them.
pub(crate) const FEW: usize = 8;

/// What is kept of the later changes.
#[derive(Drop)]
pub(crate) struct LateChanges {
    /// What they did to links.
    pub moves: LinkMoves,
    /// The places of those that say something of an advice.
    pub advices: AdvicePlaces,
    /// No request came or was put on a link, and no tick went by.
    pub plain: bool,
}

/// The advice that an output puts on a link.
fn put_advice(output: &PreparedOutput) -> Option<AdviceId>
    ensures { (id : AdviceId) → touches id (Sent output.now) ≡ touched id result }
{
    match output.way() {
        Way::Put(_, _) => output.advice(),
        _ => None,
    }
}

/// The advice of which a change says something.
fn advice_of(effect: &Effect) -> Option<AdviceId>
    ensures { (id : AdviceId) → touches id effect.now ≡ touched id result }
{
    match effect {
        Effect::Sent(output) => put_advice(output),
        Effect::Kept(advice) => Some(advice.id()),
        Effect::Acknowledged(id) => Some(*id),
        _ => None,
    }
}

/// Whether a change says something of an advice.
fn speaks_of(effect: &Effect, id: AdviceId) -> bool
    ensures { result ≡ touches id effect.now }
{
    match advice_of(effect) {
        Some(own) => same_identity(own, id),
        None => false,
    }
}

/// Whether one of these changes says something of an advice.
pub(crate) fn speak_of(effects: &[Effect], id: AdviceId) -> bool
    ensures { result ≡ list_any (touches id) effects.now }
{
    for effect in effects {
        if speaks_of(effect, id) {
            return true;
        }
    }
    false
}

/// Whether no request comes or is put on a link, and no tick goes by.
fn is_plain(effect: &Effect) -> bool
    ensures { result ≡ true → ArePlain (effect.now ∷ []) }
{
    match effect {
        Effect::Sent(output) => !output.message().kind().is_request(),
        Effect::Opened(_) | Effect::Ticked => false,
        _ => true,
    }
}

/// Whether all are plain, with one change more.
fn still_plain(before: bool, effect: &Effect) -> bool
    ensures { result ≡ true → (before ≡ true) × ArePlain (effect.now ∷ []) }
{
    before && is_plain(effect)
}

impl LateChanges {
    /// There were none.
    pub fn new(alloc: Global) -> LateChanges
        ensures { AreLate [] result }
    {
        LateChanges {
            moves: LinkMoves::new(alloc),
            advices: AdvicePlaces::new(alloc),
            plain: true,
        }
    }

    /// Whether one says something of an advice.
    pub fn speak_of(&self, id: AdviceId) -> bool
        ensures { (es : List Effect) → AreTold es self.now.advices → result ≡ false → (before : AdviceState) → advice_from id es before ≡ before }
    {
        match self.advices.find(id) {
            Place::Nowhere => false,
            Place::At(_) | Place::Several => true,
        }
    }

    /// One change more says this of an advice.
    fn note_advice(&mut self, effect: &Effect, place: usize)
        requires { 1 ≤ spare self.old.advices.index.places }
        ensures moves { self.new.moves ≡ self.old.moves }
        ensures plain { self.new.plain ≡ self.old.plain }
        ensures advices { (es : List Effect) → length es ≡ place → AreTold es self.old.advices → AreTold (es ++ effect.now ∷ []) self.new.advices }
    {
        if let Some(id) = advice_of(effect) {
            self.advices.add(id, place);
        }
    }

    /// One change more, behind as many as `place`. It is called where it stands, so that a change of the first few is moved once.
    #[inline(never)]
    fn note(&mut self, effect: &Effect, place: usize) -> Result<(), AllocError>
        requires { (l : ℕ) → (move_at l self.old.moves.moves.entries).puts < 2 ^ 63 }
        ensures ok { OnOk result ((es : List Effect) → length es ≡ place → AreLate es self.old → AreLate (es ++ effect.now ∷ []) self.new) }
        ensures err { OnErr result ((es : List Effect) → AreLate es self.old → AreLate es self.new) }
    {
        self.moves.reserve()?;
        self.advices.reserve()?;
        self.moves.note(effect);
        self.note_advice(effect, place);
        self.plain = still_plain(self.plain, effect);
        Ok(())
    }

    /// One change more, behind as many of the entry as `place`, the first few among them.
    #[inline]
    pub fn note_behind(&mut self, effect: &Effect, place: usize) -> Result<(), AllocError>
        requires { (l : ℕ) → (move_at l self.old.moves.moves.entries).puts < 2 ^ 63 }
        ensures ok { OnOk result ((es : List Effect) → length es ≡ place → AreLate (drop few es) self.old → AreLate (drop few (es ++ effect.now ∷ [])) self.new) }
        ensures err { OnErr result ((es : List Effect) → AreLate es self.old → AreLate es self.new) }
    {
        if place < FEW {
            return Ok(());
        }
        self.note(effect, place - FEW)
    }
}
