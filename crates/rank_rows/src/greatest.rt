//! The greatest name of a run.
ghost use Rattle.std.specs.Prelude.{◌≡◌, ◌+◌, ◌-◌, ◌^◌, ◌&&◌, min, nat_le, true, false, None};
ghost use Rattle.rank_rows.specs.Runs.{has_name};
ghost use Rattle.rank_rows.specs.Greatest.{greater, is_behind, greatest_of, IsOf};

use crate::rank::Rank;
use crate::runs::rows_from;
use card_digits::Name;

/// How often it is asked for before it is looked for. To look for it takes as long as to compare a few names with all of the run.
const ASKED_BEFORE: u64 = 16;

/// The greatest of the names that were looked at: those of a run's first rows. The others are looked at once it is asked for again and
/// again.
#[derive(Debug, Drop)]
pub(crate) struct Greatest {
    name: Option<Name>,
    rows: usize,
    /// How often it was asked for.
    asked: u64,
}

impl Greatest {
    /// That of no row.
    pub fn none() -> Greatest
        ensures { result ≡ record { name = None; rows = 0; asked = 0 } }
    {
        Greatest {
            name: None,
            rows: 0,
            asked: 0,
        }
    }

    /// Whether a name comes behind those of all rows of the run, so that it is none of them; no also where that wasn't asked for often yet.
    pub fn is_before(&mut self, run: &[Rank], node: &Name) -> bool
        requires { IsOf self.old run.now }
        ensures before { result ≡ (nat_le 16 self.old.asked && is_behind (greatest_of run.now) node.now) }
        ensures asked { self.new.asked ≡ min (self.old.asked + 1) (2 ^ 64 - 1) }
        ensures new { result ≡ true → has_name run.now node.now ≡ false }
        ensures greatest { IsOf self.new run.now }
    {
        let asked = self.asked;
        self.asked = asked.saturating_add(1);
        if asked < ASKED_BEFORE {
            return false;
        }
        let mut name = self.name;
        for row in rows_from(run, self.rows) {
            name = greater(name, row.node);
        }
        self.name = name;
        self.rows = run.len();
        is_behind(&name, node)
    }
}

/// The greater of two names, of which the first may be lacking.
fn greater(greatest: Option<Name>, node: Name) -> Option<Name>
    ensures { result ≡ greater greatest node }
{
    if is_behind(&greatest, &node) {
        Some(node)
    } else {
        greatest.or(Some(node))
    }
}

/// Whether a name comes behind another, where there is one.
fn is_behind(greatest: &Option<Name>, node: &Name) -> bool
    ensures { result ≡ is_behind greatest.now node.now }
{
    match greatest {
        Some(name) => name.cmp(node).is_lt(),
        None => false,
    }
}
