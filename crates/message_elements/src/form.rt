//! The table of elements (ISO 8583:1987, the elements that this profile takes).
ghost use Rattle.std.specs.Prelude.{◌≡◌, ℕ, ◌<◌, None, slice_index_or};
ghost use Rattle.message_elements.specs.Table.{form_of};
ghost use Rattle.message_elements.specs.Fixed.{fixed_of};

/// Which bytes an element takes.
#[derive(Clone, Copy, Debug, PartialEq, Eq)]
pub enum Class {
    /// Digits only.
    Digits,
    /// Bytes 0x20 to 0x7E.
    Text,
}

/// How an element is written.
#[derive(Clone, Copy, Debug, PartialEq, Eq)]
pub enum Form {
    /// So many bytes.
    Fixed(Class, usize),
    /// A length of two digits, at most this, and so many bytes.
    Llvar(Class, usize),
    /// A length of three digits, at most this, and so many bytes.
    Lllvar(Class, usize),
    /// 8 bytes, as 16 hexadecimal digits.
    Binary,
}

/// The form of each element, at the place of its number; with its name in ISO 8583:1987.
static FORMS: [Option<Form>; 129] = [
    None, // 0 and 1: no elements
    None,
    Some(Form::Llvar(Class::Digits, 19)), // 2: primary account number
    Some(Form::Fixed(Class::Digits, 6)), // 3: processing code
    Some(Form::Fixed(Class::Digits, 12)), // 4: amount, transaction
    Some(Form::Fixed(Class::Digits, 12)), // 5: amount, settlement
    Some(Form::Fixed(Class::Digits, 12)), // 6: amount, cardholder billing
    Some(Form::Fixed(Class::Digits, 10)), // 7: transmission date and time
    Some(Form::Fixed(Class::Digits, 8)), // 8: amount, cardholder billing fee
    Some(Form::Fixed(Class::Digits, 8)), // 9: conversion rate, settlement
    Some(Form::Fixed(Class::Digits, 8)), // 10: conversion rate, cardholder billing
    Some(Form::Fixed(Class::Digits, 6)), // 11: systems trace audit number
    Some(Form::Fixed(Class::Digits, 6)), // 12: time, local transaction
    Some(Form::Fixed(Class::Digits, 4)), // 13: date, local transaction
    Some(Form::Fixed(Class::Digits, 4)), // 14: date, expiration
    Some(Form::Fixed(Class::Digits, 4)), // 15: date, settlement
    Some(Form::Fixed(Class::Digits, 4)), // 16: date, conversion
    Some(Form::Fixed(Class::Digits, 4)), // 17: date, capture
    Some(Form::Fixed(Class::Digits, 4)), // 18: merchant type
    Some(Form::Fixed(Class::Digits, 3)), // 19: acquiring institution country code
    Some(Form::Fixed(Class::Digits, 3)), // 20: primary account number country code
    Some(Form::Fixed(Class::Digits, 3)), // 21: forwarding institution country code
    Some(Form::Fixed(Class::Digits, 3)), // 22: point of service entry mode
    Some(Form::Fixed(Class::Digits, 3)), // 23: card sequence number
    Some(Form::Fixed(Class::Digits, 3)), // 24: network international identifier
    Some(Form::Fixed(Class::Digits, 2)), // 25: point of service condition code
    Some(Form::Fixed(Class::Digits, 2)), // 26: point of service PIN capture code
    Some(Form::Fixed(Class::Digits, 1)), // 27: authorization identification response length
    Some(Form::Fixed(Class::Text, 9)), // 28: amount, transaction fee
    Some(Form::Fixed(Class::Text, 9)), // 29: amount, settlement fee
    Some(Form::Fixed(Class::Text, 9)), // 30: amount, transaction processing fee
    Some(Form::Fixed(Class::Text, 9)), // 31: amount, settlement processing fee
    Some(Form::Llvar(Class::Digits, 11)), // 32: acquiring institution identification code
    Some(Form::Llvar(Class::Digits, 11)), // 33: forwarding institution identification code
    Some(Form::Llvar(Class::Text, 28)), // 34: primary account number, extended
    Some(Form::Llvar(Class::Text, 37)), // 35: track 2 data
    Some(Form::Lllvar(Class::Text, 104)), // 36: track 3 data
    Some(Form::Fixed(Class::Text, 12)), // 37: retrieval reference number
    Some(Form::Fixed(Class::Text, 6)), // 38: authorization identification response
    Some(Form::Fixed(Class::Text, 2)), // 39: response code
    Some(Form::Fixed(Class::Text, 3)), // 40: service restriction code
    Some(Form::Fixed(Class::Text, 8)), // 41: card acceptor terminal identification
    Some(Form::Fixed(Class::Text, 15)), // 42: card acceptor identification code
    Some(Form::Fixed(Class::Text, 40)), // 43: card acceptor name and location
    Some(Form::Llvar(Class::Text, 25)), // 44: additional response data
    Some(Form::Llvar(Class::Text, 76)), // 45: track 1 data
    Some(Form::Lllvar(Class::Text, 999)), // 46: additional data, ISO
    Some(Form::Lllvar(Class::Text, 999)), // 47: additional data, national
    Some(Form::Lllvar(Class::Text, 999)), // 48: additional data, private
    Some(Form::Fixed(Class::Text, 3)), // 49: currency code, transaction
    Some(Form::Fixed(Class::Text, 3)), // 50: currency code, settlement
    Some(Form::Fixed(Class::Text, 3)), // 51: currency code, cardholder billing
    Some(Form::Binary), // 52: personal identification number data
    Some(Form::Fixed(Class::Digits, 16)), // 53: security related control information
    Some(Form::Lllvar(Class::Text, 120)), // 54: additional amounts
    Some(Form::Lllvar(Class::Text, 999)), // 55: reserved, ISO
    Some(Form::Lllvar(Class::Text, 999)), // 56: reserved, ISO
    Some(Form::Lllvar(Class::Text, 999)), // 57: reserved, national
    Some(Form::Lllvar(Class::Text, 999)), // 58: reserved, national
    Some(Form::Lllvar(Class::Text, 999)), // 59: reserved, national
    Some(Form::Lllvar(Class::Text, 999)), // 60: reserved, private
    Some(Form::Lllvar(Class::Text, 999)), // 61: reserved, private
    Some(Form::Lllvar(Class::Text, 999)), // 62: reserved, private
    Some(Form::Lllvar(Class::Text, 999)), // 63: reserved, private
    Some(Form::Binary), // 64: message authentication code
    None, // 65 to 69: not in this profile
    None,
    None,
    None,
    None,
    Some(Form::Fixed(Class::Digits, 3)), // 70: network management information code
    None, // 71 to 89: not in this profile
    None,
    None,
    None,
    None,
    None,
    None,
    None,
    None,
    None,
    None,
    None,
    None,
    None,
    None,
    None,
    None,
    None,
    None,
    Some(Form::Fixed(Class::Digits, 42)), // 90: original data elements
    None, // 91 to 94: not in this profile
    None,
    None,
    None,
    Some(Form::Fixed(Class::Text, 42)), // 95: replacement amounts
    None, // 96 to 99: not in this profile
    None,
    None,
    None,
    Some(Form::Llvar(Class::Digits, 11)), // 100: receiving institution identification code
    None, // 101: not in this profile
    Some(Form::Llvar(Class::Text, 28)), // 102: account identification 1
    Some(Form::Llvar(Class::Text, 28)), // 103: account identification 2
    None, // 104 to 127: not in this profile
    None,
    None,
    None,
    None,
    None,
    None,
    None,
    None,
    None,
    None,
    None,
    None,
    None,
    None,
    None,
    None,
    None,
    None,
    None,
    None,
    None,
    None,
    None,
    Some(Form::Binary), // 128: message authentication code
];

/// The class and the length of an element of a fixed length.
#[derive(Clone, Copy, Debug, PartialEq, Eq)]
pub struct FixedForm {
    pub class: Class,
    pub size: u8,
}

/// How many bytes each element has whose form is of a fixed length, and 0 for any other.
static FIXED_SIZES: [u8; 129] = [
    0, 0, 0, 6, 12, 12, 12, 10, 8, 8, 8, 6, 6, 4, 4, 4, 4, 4, 4, 3, 3, 3, 3, 3, 3, 2, 2, 1, 9, 9,
    9, 9, 0, 0, 0, 0, 0, 12, 6, 2, 3, 8, 15, 40, 0, 0, 0, 0, 0, 3, 3, 3, 0, 16, 0, 0, 0, 0, 0, 0,
    0, 0, 0, 0, 0, 0, 0, 0, 0, 0, 3, 0, 0, 0, 0, 0, 0, 0, 0, 0, 0, 0, 0, 0, 0, 0, 0, 0, 0, 0, 42,
    0, 0, 0, 0, 42, 0, 0, 0, 0, 0, 0, 0, 0, 0, 0, 0, 0, 0, 0, 0, 0, 0, 0, 0, 0, 0, 0, 0, 0, 0, 0,
    0, 0, 0, 0, 0, 0, 0,
];

/// The same for those of text alone, and 0 for those of digits.
static FIXED_TEXT: [u8; 129] = [
    0, 0, 0, 0, 0, 0, 0, 0, 0, 0, 0, 0, 0, 0, 0, 0, 0, 0, 0, 0, 0, 0, 0, 0, 0, 0, 0, 0, 9, 9, 9, 9,
    0, 0, 0, 0, 0, 12, 6, 2, 3, 8, 15, 40, 0, 0, 0, 0, 0, 3, 3, 3, 0, 0, 0, 0, 0, 0, 0, 0, 0, 0, 0,
    0, 0, 0, 0, 0, 0, 0, 0, 0, 0, 0, 0, 0, 0, 0, 0, 0, 0, 0, 0, 0, 0, 0, 0, 0, 0, 0, 0, 0, 0, 0, 0,
    42, 0, 0, 0, 0, 0, 0, 0, 0, 0, 0, 0, 0, 0, 0, 0, 0, 0, 0, 0, 0, 0, 0, 0, 0, 0, 0, 0, 0, 0, 0,
    0, 0, 0,
];

/// The table here is that of the specs, number by number.
pub(crate) fn one_table()
    ensures { (number : ℕ) → number < 129 → slice_index_or FORMS number None ≡ form_of number }
{}

/// The form of an element, none where it is not in the table.
#[inline]
pub fn form_at(number: u8) -> Option<Form>
    ensures { result ≡ form_of number }
{
    let place = number as usize;
    if place < FORMS.len() {
        return FORMS[place];
    }
    None
}

/// The class and the length of an element of a fixed length, none for another element. It is sooner looked up than the form.
#[inline(always)]
pub fn fixed_form_at(number: u8) -> Option<FixedForm>
    ensures { result ≡ fixed_of (form_of number) }
{
    let place = number as usize;
    if place >= FIXED_SIZES.len() {
        return None;
    }
    let size = FIXED_SIZES[place];
    if size == 0 {
        return None;
    }
    let class = if FIXED_TEXT[place] == 0 {
        Class::Digits
    } else {
        Class::Text
    };
    Some(FixedForm { class, size })
}
