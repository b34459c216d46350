//! The elements that a made message carries of another.
ghost use Rattle.std.specs.Prelude.{◌≡◌};
ghost use Rattle.iso_message.specs.Made.{is_one_of, response_numbers, advice_numbers};

/// Which elements are carried on.
#[derive(Clone, Copy, Debug)]
pub(crate) enum Carried {
    /// Those that a response has of its message.
    Response,
    /// Those that an advice has of its request.
    Advice,
}

/// Whether a response carries the element of its message.
#[inline(always)]
pub fn is_in_response(number: u8) -> bool
    ensures { result ≡ is_one_of response_numbers number }
{
    matches!(
        number,
        2 | 3 | 4 | 7 | 11 | 15 | 32 | 33 | 37 | 41 | 49 | 90
    )
}

/// Whether an advice carries the element of its request.
#[inline(always)]
fn is_in_advice(number: u8) -> bool
    ensures { result ≡ is_one_of advice_numbers number }
{
    matches!(number, 2 | 3 | 4 | 7 | 11 | 15 | 32 | 37 | 41 | 49)
}

impl Carried {
    ghost use Rattle.iso_message.specs.Carried.{carried_numbers};

    /// Whether an element of the number is carried on.
    #[inline(always)]
    pub(crate) fn has(self, number: u8) -> bool
        ensures { result ≡ is_one_of (carried_numbers self) number }
    {
        match self {
            Carried::Response => is_in_response(number),
            Carried::Advice => is_in_advice(number),
        }
    }

    /// How many elements are added to them: 39, and of an advice 33 and 90 too.
    pub(crate) fn more_elements(self) -> usize {
        match self {
            Carried::Response => 1,
            Carried::Advice => 3,
        }
    }

    /// The bytes of the pieces that are added.
    pub(crate) fn more_bytes(self) -> usize {
        match self {
            Carried::Response => 2,
            Carried::Advice => 2 + 13 + 42,
        }
    }
}
