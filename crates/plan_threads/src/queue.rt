//! Whose turn it is among sessions.
ghost use Rattle.std.specs.Prelude.{◌≡◌, ◌==◌, replicate, slice_set, Some, None, IfOk, if◌then◌else◌};
ghost use Rattle.std.specs.List.{position};
ghost use Rattle.std.specs.Option.{is_none};
ghost use Rattle.plan_threads.specs.Queues.{is_queued, whose_turn, next_queued, out, standing_after};
ghost use Rattle.plan_threads.specs.declared.queue.Standing.TheVariants.{Out, Queued};

use std::alloc::{AllocError, Global};
use std::marker::Model;

/// How a session stands.
#[derive(Clone, Copy, Debug, PartialEq, Eq)]
pub enum Standing {
    /// There is nothing to do for it, as far as anybody knows, or somebody does it.
    Out,
    /// There may be something to do for it, and it waits for its turn.
    Queued,
}

/// Sessions that take turns, by their places among them. One goes on at a time, so that none waits for a step of another.
#[derive(Drop)]
pub struct Queue {
    /// Whose turn it is.
    turn: Option<usize>,
    standings: Vec<Standing>,
}

impl Model for Queue {
    ghost use Rattle.plan_threads.specs.Queues.{QueueView};

    ghost Value = { QueueView };

    ghost view = { λ q. record { turn = q.turn; standings = q.standings.items } };
}

/// The place of one that waits for its turn.
fn place_queued(standings: &[Standing]) -> Option<usize>
    ensures { result ≡ position is_queued standings.now }
{
    standings
        .iter()
        .position(|standing| *standing == Standing::Queued)
}

impl Queue {
    /// So many sessions, none of which waits.
    pub fn new(alloc: Global, sessions: usize) -> Result<Queue, AllocError>
        ensures { IfOk result (λ q. q ≡ record { turn = None; standings = replicate sessions Out }) }
    {
        let mut standings = Vec::with_capacity(alloc, sessions)?;
        for _ in 0..sessions {
            standings.push(Standing::Out)?;
        }
        Ok(Queue {
            turn: None,
            standings,
        })
    }

    fn stand(&mut self, session: usize, standing: Standing)
        ensures turn { self.new.turn ≡ self.old.turn }
        ensures standings { self.new.standings ≡ slice_set self.old.standings session standing }
    {
        if let Some(place) = self.standings.get_mut(session) {
            *place = standing;
        }
    }

    /// The session goes on, where it is its turn or nobody's. Otherwise it waits for it.
    pub fn take(&mut self, session: usize) -> bool
        ensures taken { result ≡ (whose_turn session self.old == session) }
        ensures turn { self.new.turn ≡ Some (whose_turn session self.old) }
        ensures standings { self.new.standings ≡ slice_set self.old.standings session (if result then Out else Queued) }
    {
        let turn = self.turn.unwrap_or(session);
        self.turn = Some(turn);
        let taken = turn == session;
        self.stand(
            session,
            if taken {
                Standing::Out
            } else {
                Standing::Queued
            },
        );
        taken
    }

    /// There is something to do for the session: it waits for its turn.
    pub fn call(&mut self, session: usize)
        ensures turn { self.new.turn ≡ self.old.turn }
        ensures standings { self.new.standings ≡ slice_set self.old.standings session Queued }
    {
        self.stand(session, Standing::Queued);
    }

    /// Where it is nobody's turn, it is that of the first that waits, which is the result.
    pub fn begin(&mut self) -> Option<usize>
        ensures next { result ≡ (if is_none self.old.turn then position is_queued self.old.standings else None) }
        ensures turn { self.new.turn ≡ (if is_none self.old.turn then result else self.old.turn) }
        ensures standings { self.new.standings ≡ out result self.old.standings }
    {
        if self.turn.is_some() {
            return None;
        }
        let first = place_queued(self.standings.as_slice());
        self.give(first);
        first
    }

    /// The one whose turn it is next: one behind the session, where one waits there.
    fn next(&self, session: usize) -> Option<usize>
        ensures { result ≡ next_queued session self.now.standings }
    {
        let behind = session.saturating_add(1);
        if behind < self.standings.len() {
            if let Some(place) = place_queued(&self.standings[behind..]) {
                return Some(behind + place);
            }
        }
        place_queued(self.standings.as_slice())
    }

    /// From here on it is this one's turn, who waits no more.
    fn give(&mut self, next: Option<usize>)
        ensures turn { self.new.turn ≡ next }
        ensures standings { self.new.standings ≡ out next self.old.standings }
    {
        if let Some(place) = next {
            self.stand(place, Standing::Out);
        }
        self.turn = next;
    }

    /// The session goes on no more. It waits for its turn again where there is more to do for it, or it was called meanwhile. Unless it is the
    /// turn of another, it is that of one that waits, which is the result.
    pub fn leave(&mut self, session: usize, more: bool) -> Option<usize>
        ensures next { result ≡ (if whose_turn session self.old == session then next_queued session (standing_after more session self.old.standings) else None) }
        ensures turn { self.new.turn ≡ (if whose_turn session self.old == session then result else self.old.turn) }
        ensures standings { self.new.standings ≡ out result (standing_after more session self.old.standings) }
    {
        if more {
            self.stand(session, Standing::Queued);
        }
        if self.turn.unwrap_or(session) != session {
            return None;
        }
        let next = self.next(session);
        self.give(next);
        next
    }
}
