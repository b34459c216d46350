//! A count of what a node approved by itself.
ghost use Rattle.std.specs.Prelude.{◌≡◌, ◌+◌, ◌&&◌};
ghost use Rattle.run_report.specs.Counted.{counted};
ghost use Rattle.run_report.specs.Own.{one_if};

use crate::answered::Answered;
use card_digits::Key;
use std::alloc::{AllocError, Global};
use std::collections::HashSet;

/// The keys that a node answered, and how many of them it approved by itself.
#[derive(Drop)]
pub(crate) struct Tally {
    pub keys: HashSet<Key>,
    pub own: u64,
}

/// Whether an answer, which is the first to its key or not, is an approval of the node itself.
fn is_own(first: bool, answer: &Answered) -> bool
    ensures { result ≡ (first && (answer.now.approves && answer.now.alone)) }
{
    first && (answer.approves && answer.alone)
}

fn with_one_if(count: u64, more: bool) -> u64
    ensures { result ≡ counted (one_if more + count) }
{
    if more { count.saturating_add(1) } else { count }
}

impl Tally {
    ghost use Rattle.std.specs.Prelude.{List, [], ◌∷◌, OnOk};
    ghost use Rattle.run_report.specs.declared.answered.Answered.{Answered};
    ghost use Rattle.run_report.specs.Tally.{Counts};

    /// No answer was counted yet.
    pub fn new(alloc: Global) -> Tally
        ensures { Counts result [] }
    {
        Tally {
            keys: HashSet::new(alloc),
            own: 0,
        }
    }

    /// One answer more. Only the first to its key counts.
    pub fn add(&mut self, answer: Answered) -> Result<(), AllocError>
        ensures { OnOk result ((before : List Answered) → Counts self.old before → Counts self.new (answer ∷ before)) }
    {
        let first = self.keys.insert(answer.key)?;
        self.own = with_one_if(self.own, is_own(first, &answer));
        Ok(())
    }
}
