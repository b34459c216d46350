//! Where a session has come that looks for an answer.
ghost use Rattle.std.specs.Prelude.{◌≡◌, ◌==◌, ◌+◌, not, nat_le, if◌then◌else◌};
ghost use Rattle.plan_state.specs.Cursors.{skipped};

use crate::trace_search::Cursor;

/// Where a session has come that looks for an answer.
#[derive(Clone, Copy)]
pub struct Search {
    pub cursor: Cursor,
    /// How many of those that may be it were told of before.
    seen: u64,
}

impl Search {
    /// From an entry on, where so many that may be it were told of before.
    pub fn from(entry: usize, told: u64) -> Search
        ensures { result ≡ record { cursor = record { entry = entry; output = 0 }; seen = told } }
    {
        Search {
            cursor: Cursor::at(entry),
            seen: told,
        }
    }

    /// Whether others were told of than before, where there are so many by now.
    pub fn is_told(&self, told: u64) -> bool
        ensures { result ≡ not (told == self.now.seen) }
    {
        told != self.seen
    }

    /// Goes on to the entry of the newest, where it is the only one that was told of since: the entries before it have none.
    pub fn skip(&mut self, told: u64, newest: usize)
        ensures cursor { self.new.cursor ≡ (if told == self.old.seen + 1 then skipped newest self.old.cursor else self.old.cursor) }
        ensures seen { self.new.seen ≡ self.old.seen }
    {
        if told.saturating_sub(self.seen) == 1 {
            self.cursor.skip_to(newest);
        }
    }

    /// After a look at a trace with so many entries: all that were told of by now are seen once the search has come to its end.
    pub fn end_look(&mut self, told: u64, entries: usize)
        ensures cursor { self.new.cursor ≡ self.old.cursor }
        ensures seen { self.new.seen ≡ (if nat_le entries self.old.cursor.entry then told else self.old.seen) }
    {
        if self.cursor.entry >= entries {
            self.seen = told;
        }
    }
}
