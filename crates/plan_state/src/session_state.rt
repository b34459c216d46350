//! How far a session has come.
ghost use Rattle.std.specs.Prelude.{◌≡◌, ◌++◌, ◌∷◌, [], true, false, None, not, max, IfOk, OnErr, length, slice_get};
ghost use Rattle.link_rings.specs.Held.{later};

use crate::search::Search;
use crate::wanted::Wanted;
use net_threads::LineEnd;
use plan_threads::ClockTurns;
use std::alloc::{AllocError, Global};

/// The answer to a line that was entered.
#[derive(Drop)]
pub struct Awaiting {
    pub wanted: Wanted,
    /// The session is told of answers that have the line's key, where that has one.
    pub is_told: bool,
    pub search: Search,
    /// Those that the session waits for it.
    pub turns: ClockTurns,
}

/// How far a session has come, for whoever goes on with it.
#[derive(Drop)]
pub struct SessionState {
    /// What its lines ended with, each behind the one before.
    ends: Vec<LineEnd>,
    /// The answer to the line behind these, once that was entered.
    pub awaiting: Option<Awaiting>,
    /// There was no memory to go on.
    pub has_failed: bool,
    /// The turn up to which its turns are counted: it enters a line in each, and may be ahead of the clock.
    pub counted: u64,
    /// It was said that the session has ended.
    is_over: bool,
}

impl SessionState {
    /// Before the first line.
    pub fn new(alloc: Global) -> SessionState
        ensures ends { result.ends.items ≡ [] }
        ensures awaiting { result.awaiting ≡ None }
        ensures failed { result.has_failed ≡ false }
        ensures counted { result.counted ≡ 0 }
        ensures over { result.is_over ≡ false }
    {
        SessionState {
            ends: Vec::new(alloc),
            awaiting: None,
            has_failed: false,
            counted: 0,
            is_over: false,
        }
    }

    /// The line that comes next, or whose answer is awaited: none where all have ended, or there was no memory.
    pub fn next_line<'l>(&self, lines: &[&'l [u8]]) -> Option<&'l [u8]>
        ensures failed { self.now.has_failed ≡ true → result ≡ None }
        ensures next { self.now.has_failed ≡ false → result ≡ slice_get lines.now (length self.now.ends.items) }
    {
        if self.has_failed {
            return None;
        }
        let line = lines.get(self.ends.len())?;
        Some(*line)
    }

    /// The turn in which it enters its next line, where so many have passed on the clock: the one behind its last, or that of the clock.
    pub fn next_counted(&self, now: u64) -> u64
        ensures { result ≡ max now (later self.now.counted 1) }
    {
        now.max(self.counted.saturating_add(1))
    }

    /// The line has ended so. Where memory was or is wanting for it, the session fails, and ends with this line.
    pub fn end_line(&mut self, end: Result<LineEnd, AllocError>)
        ensures ended { IfOk end (λ e. self.new.has_failed ≡ self.old.has_failed → self.old.has_failed ≡ false → self.new.ends.items ≡ self.old.ends.items ++ e ∷ []) }
        ensures failed { OnErr end (self.new.has_failed ≡ true) }
        ensures kept { self.old.has_failed ≡ false → self.new.has_failed ≡ true → self.new.ends.items ≡ self.old.ends.items }
        ensures awaiting { self.new.awaiting ≡ self.old.awaiting }
        ensures counted { self.new.counted ≡ self.old.counted }
        ensures over { self.new.is_over ≡ self.old.is_over }
    {
        match end {
            Ok(end) => {
                if self.ends.push(end).is_err() {
                    self.has_failed = true;
                }
            }
            Err(_) => self.has_failed = true,
        }
    }

    /// The session has ended; says whether nobody has said so before.
    pub fn end(&mut self) -> bool
        ensures first { result ≡ not self.old.is_over }
        ensures over { self.new.is_over ≡ true }
    {
        let is_first = !self.is_over;
        self.is_over = true;
        is_first
    }

    /// What the lines ended with, unless there was no memory to go on.
    pub fn into_ends(self) -> Result<Vec<LineEnd>, AllocError>
        ensures ends { IfOk result (λ v. v.items ≡ self.ends.items) }
        ensures failed { OnErr result (self.has_failed ≡ true) }
    {
        let SessionState {
            ends,
            awaiting: _,
            has_failed,
            counted: _,
            is_over: _,
        } = self;
        if has_failed {
            Err(AllocError)
        } else {
            Ok(ends)
        }
    }
}
