//! The span of an element.
ghost use Rattle.std.specs.Prelude.{◌≡◌};
ghost use Rattle.std.specs.Option.{option_copied};
ghost use Rattle.element_spans.specs.Spans.{span_of};

/// Where the value of an element stands in the bytes of its message, behind the digits of its length. The value of a binary element (52, 64
/// and 128) is spelled as sixteen hexadecimal digits.
#[repr(C)]
#[derive(Clone, Copy, Debug, PartialEq, Eq)]
pub struct ElementSpan {
    pub start: usize,
    pub length: usize,
    pub number: u8,
}

/// The first span of a number.
pub fn span_of(spans: &[ElementSpan], number: u8) -> Option<ElementSpan>
    ensures { result ≡ span_of number spans.now }
{
    for span in spans {
        if span.number == number {
            return Some(*span);
        }
    }
    None
}
