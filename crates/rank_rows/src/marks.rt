//! Marks of the names that a run has.
ghost use Rattle.std.specs.Prelude.{◌≡◌, true};
ghost use Rattle.rank_rows.specs.Marks.{place_of, is_marked, Keeps};

use std::marker::Model;

/// As many places as a byte has values.
const PLACES: usize = 256;

/// A mark for each place that a name may have. A name whose place has no mark is none of those that were marked; one whose place has a
/// mark may be another of the same place.
#[derive(Debug, Drop)]
pub(crate) struct Marks {
    marked: [bool; PLACES],
}

impl Model for Marks {
    ghost use Rattle.std.specs.Prelude.{Bool, List};

    ghost Value = { List Bool };

    ghost view = { λ a. a.marked };
}

impl Marks {
    /// No place has a mark.
    pub fn none() -> Marks {
        Marks {
            marked: [false; PLACES],
        }
    }

    /// Whether a place has a mark.
    pub fn has(&self, place: u8) -> bool
        ensures { result ≡ is_marked self.now place }
    {
        self.marked[place as usize]
    }

    /// A place has a mark from now on.
    #[tactic(auto, using(crate::proofs::Marked::stays))]
    pub fn mark(&mut self, place: u8)
        ensures marked { is_marked self.new place ≡ true }
        ensures others { Keeps self.old self.new }
    {
        self.marked[place as usize] = true;
    }
}

/// The place of a name: its bytes as the digits of a number to the base 31, and of that the last byte. So names that are alike but for
/// the number at their end, of two digits and below 80, have places of their own.
#[inline]
pub(crate) fn place_of(name: &[u8]) -> u8
    ensures { result ≡ place_of name.now }
{
    let mut place = 0u8;
    for byte in name {
        place = place.wrapping_mul(31).wrapping_add(*byte);
    }
    place
}
