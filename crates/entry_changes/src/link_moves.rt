//! What changes did to links.
ghost use Rattle.std.specs.Prelude.{◌≡◌, ◌≤◌, ◌<◌, ◌==◌, ◌^◌, ℕ, OnOk, if◌then◌else◌};
ghost use Rattle.std.specs.HashMap.{spare};
ghost use Rattle.entry_changes.specs.Late.{move_at, move_step, put_once, set_up, unmoved};

use card_digits::LinkNo;
use kept_messages::Way;
use node_books::Effect;
use std::alloc::{AllocError, Global};
use std::collections::HashMap;

/// What changes did to one link: whether it is up since, if they said so, and the number of puts.
#[derive(Clone, Copy, Debug)]
pub(crate) struct LinkMove {
    pub up: Option<bool>,
    pub puts: u64,
}

/// What changes did to each link, by its number.
#[derive(Drop)]
pub(crate) struct LinkMoves {
    pub moves: HashMap<usize, LinkMove>,
}

impl LinkMoves {
    /// Nothing was done to any link.
    pub fn new(alloc: Global) -> LinkMoves
        ensures { (l : ℕ) → move_at l result.moves.entries ≡ unmoved }
    {
        LinkMoves {
            moves: HashMap::new(alloc),
        }
    }

    /// The next change needs no memory.
    pub fn reserve(&mut self) -> Result<(), AllocError>
        ensures moves { (l : ℕ) → move_at l self.new.moves.entries ≡ move_at l self.old.moves.entries }
        ensures room { OnOk result (1 ≤ spare self.new.moves) }
    {
        self.moves.reserve(1)
    }

    /// What was done to a link.
    pub fn of(&self, link: LinkNo) -> LinkMove
        ensures { result ≡ move_at link self.now.moves.entries }
    {
        match self.moves.get(&link.place()) {
            Some(step) => *step,
            None => LinkMove { up: None, puts: 0 },
        }
    }

    /// What was done to a link is this.
    fn set(&mut self, link: LinkNo, step: LinkMove)
        requires { 1 ≤ spare self.old.moves }
        ensures { (l : ℕ) → move_at l self.new.moves.entries ≡ if link == l then step else move_at l self.old.moves.entries }
    {
        let _ = self.moves.insert(link.place(), step);
    }

    /// Something was put on a link.
    fn put(&mut self, link: LinkNo)
        requires room { 1 ≤ spare self.old.moves }
        requires few { (move_at link self.old.moves.entries).puts < 2 ^ 63 }
        ensures { (l : ℕ) → move_at l self.new.moves.entries ≡ if link == l then put_once (move_at l self.old.moves.entries) else move_at l self.old.moves.entries }
    {
        let mut step = self.of(link);
        step.puts += 1;
        self.set(link, step);
    }

    /// A link is up from here, or down.
    fn set_up(&mut self, link: LinkNo, up: bool)
        requires { 1 ≤ spare self.old.moves }
        ensures { (l : ℕ) → move_at l self.new.moves.entries ≡ if link == l then set_up up (move_at l self.old.moves.entries) else move_at l self.old.moves.entries }
    {
        let mut step = self.of(link);
        step.up = Some(up);
        self.set(link, step);
    }

    /// One change more.
    pub fn note(&mut self, effect: &Effect)
        requires room { 1 ≤ spare self.old.moves }
        requires few { (l : ℕ) → (move_at l self.old.moves.entries).puts < 2 ^ 63 }
        ensures { (l : ℕ) → move_at l self.new.moves.entries ≡ move_step l effect.now (move_at l self.old.moves.entries) }
    {
        match effect {
            Effect::Sent(output) => {
                if let Way::Put(link, _) = output.way() {
                    self.put(link);
                }
            }
            Effect::PacketSent(link, _, _) => self.put(*link),
            Effect::LinkIs(link, up) => self.set_up(*link, *up),
            _ => {}
        }
    }
}
