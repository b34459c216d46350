//! Which values elements take.
ghost use Rattle.std.specs.Prelude.{◌≡◌};
ghost use Rattle.std.specs.List.{list_all};
ghost use Rattle.message_elements.specs.Table.{form_of};
ghost use Rattle.message_elements.specs.Values.{fits, set_fault};

use crate::fault::DecodeFault;
use crate::form::{Class, Form, form_at};

/// Whether all bytes are of a class.
#[inline]
pub fn are_of(class: Class, content: &[u8]) -> bool
    ensures { result ≡ list_all (fits class) content.now }
{
    match class {
        Class::Digits => content.iter().all(|b| b.is_ascii_digit()),
        Class::Text => content.iter().all(|b| 0x20 <= *b && *b <= 0x7E),
    }
}

/// What is wrong with a value for an element, none where the element takes it: an element that isn't in the table, then a wrong
/// length, then a byte of another class.
#[inline]
pub fn value_fault(number: u8, value: &[u8]) -> Option<DecodeFault>
    ensures { result ≡ set_fault (form_of number) number value.now }
{
    let (class, long) = match form_at(number) {
        None => return Some(DecodeFault::Element(number)),
        Some(Form::Binary) => {
            if value.len() == 8 {
                return None;
            }
            return Some(DecodeFault::Length(number));
        }
        Some(Form::Fixed(class, size)) => (class, value.len() == size),
        Some(Form::Llvar(class, most)) => (class, value.len() <= most),
        Some(Form::Lllvar(class, most)) => (class, value.len() <= most),
    };
    if !long {
        return Some(DecodeFault::Length(number));
    }
    if !are_of(class, value) {
        return Some(DecodeFault::Character(number));
    }
    None
}
