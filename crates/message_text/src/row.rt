//! The printed form of a message, written into a row of bytes that are there already.
ghost use Rattle.std.specs.Prelude.{◌≡◌, ◌+◌, ◌≤◌, ◌++◌, [], true, false, length, take, codes, decimal, None, Err, IfSome, IfOk, IfErr, is_ok};
ghost use Rattle.std.specs.Option.{option_copied};
ghost use Rattle.hex.specs.Hex.{encode_upper};
ghost use Rattle.message_elements.specs.Table.{form_of};
ghost use Rattle.message_elements.specs.declared.kind.Kind.{Kind};
ghost use Rattle.iso_message.specs.Elements.{field_at};
ghost use Rattle.iso_message.specs.Messages.{read};
ghost use Rattle.iso_message.specs.Spelling.{Ascends, is_binary};
ghost use Rattle.iso_message.specs.Unread.{read_on};
ghost use Rattle.message_text.specs.Lines.{WritesElement, WritesLeft, WritesMessage};
ghost use Rattle.message_text.specs.Printed.{block, element_line, fault_line, heading, reading};
ghost use Rattle.message_text.specs.Room.{line_room, lines_room};

use crate::block::kind_line;
use card_digits::put;
use iso_message::Unread;
use itoa::Buffer;
use message_elements::{DecodeFault, Kind};

/// The number of each element, and spaces behind it.
static LABELS: [[u8; 4]; 129] = [
    *b"0   ", *b"1   ", *b"2   ", *b"3   ", *b"4   ", *b"5   ", *b"6   ", *b"7   ", *b"8   ",
    *b"9   ", *b"10  ", *b"11  ", *b"12  ", *b"13  ", *b"14  ", *b"15  ", *b"16  ", *b"17  ",
    *b"18  ", *b"19  ", *b"20  ", *b"21  ", *b"22  ", *b"23  ", *b"24  ", *b"25  ", *b"26  ",
    *b"27  ", *b"28  ", *b"29  ", *b"30  ", *b"31  ", *b"32  ", *b"33  ", *b"34  ", *b"35  ",
    *b"36  ", *b"37  ", *b"38  ", *b"39  ", *b"40  ", *b"41  ", *b"42  ", *b"43  ", *b"44  ",
    *b"45  ", *b"46  ", *b"47  ", *b"48  ", *b"49  ", *b"50  ", *b"51  ", *b"52  ", *b"53  ",
    *b"54  ", *b"55  ", *b"56  ", *b"57  ", *b"58  ", *b"59  ", *b"60  ", *b"61  ", *b"62  ",
    *b"63  ", *b"64  ", *b"65  ", *b"66  ", *b"67  ", *b"68  ", *b"69  ", *b"70  ", *b"71  ",
    *b"72  ", *b"73  ", *b"74  ", *b"75  ", *b"76  ", *b"77  ", *b"78  ", *b"79  ", *b"80  ",
    *b"81  ", *b"82  ", *b"83  ", *b"84  ", *b"85  ", *b"86  ", *b"87  ", *b"88  ", *b"89  ",
    *b"90  ", *b"91  ", *b"92  ", *b"93  ", *b"94  ", *b"95  ", *b"96  ", *b"97  ", *b"98  ",
    *b"99  ", *b"100 ", *b"101 ", *b"102 ", *b"103 ", *b"104 ", *b"105 ", *b"106 ", *b"107 ",
    *b"108 ", *b"109 ", *b"110 ", *b"111 ", *b"112 ", *b"113 ", *b"114 ", *b"115 ", *b"116 ",
    *b"117 ", *b"118 ", *b"119 ", *b"120 ", *b"121 ", *b"122 ", *b"123 ", *b"124 ", *b"125 ",
    *b"126 ", *b"127 ", *b"128 ",
];

/// How many bytes the number of each element and a space take.
static LABEL_LENS: [u8; 129] = [
    2, 2, 2, 2, 2, 2, 2, 2, 2, 2, 3, 3, 3, 3, 3, 3, 3, 3, 3, 3, 3, 3, 3, 3, 3, 3, 3, 3, 3, 3, 3, 3,
    3, 3, 3, 3, 3, 3, 3, 3, 3, 3, 3, 3, 3, 3, 3, 3, 3, 3, 3, 3, 3, 3, 3, 3, 3, 3, 3, 3, 3, 3, 3, 3,
    3, 3, 3, 3, 3, 3, 3, 3, 3, 3, 3, 3, 3, 3, 3, 3, 3, 3, 3, 3, 3, 3, 3, 3, 3, 3, 3, 3, 3, 3, 3, 3,
    3, 3, 3, 3, 4, 4, 4, 4, 4, 4, 4, 4, 4, 4, 4, 4, 4, 4, 4, 4, 4, 4, 4, 4, 4, 4, 4, 4, 4, 4, 4, 4,
    4,
];

/// Writes the number of an element and a space. Four bytes are written, of which the last may be meant for others.
#[inline(always)]
fn put_label(row: &mut [u8], at: usize, number: u8) -> usize
    requires number { number ≤ 128 }
    requires room { at + 4 ≤ length row.old }
    ensures text { take result row.new ≡ take at row.old ++ (decimal number ++ codes " ") }
    ensures end { result ≤ at + 4 }
    ensures size { length row.new ≡ length row.old }
{
    let place = number as usize;
    let label = LABELS[place];
    let _behind = put(row, at, &label);
    at + LABEL_LENS[place] as usize
}

/// Writes bytes as `put` does, sooner where they are few: as many as a word of `N` bytes has, or up to twice as many, are written as
/// two words, the first of them and the last, which may overlap. Fewer bytes than a word has go the way of `put`.
#[inline(always)]
pub fn put_words<const N: usize>(row: &mut [u8], at: usize, bytes: &[u8]) -> usize
    requires word { N ≤ 16 }
    requires few { length bytes.now ≤ N + N }
    requires fits { at + length bytes.now ≤ length row.old }
    ensures text { take result row.new ≡ take at row.old ++ bytes.now }
    ensures end { result ≡ at + length bytes.now }
    ensures size { length row.new ≡ length row.old }
{
    let (Some(first), Some(last)) = (bytes.first_chunk::<N>(), bytes.last_chunk::<N>()) else {
        return put(row, at, bytes);
    };
    let (first, last) = (*first, *last);
    let _behind = put(row, at, &first);
    put(row, at + bytes.len() - N, &last)
}

/// Writes bytes as `put` does, sooner where they are few.
#[inline(always)]
fn put_bytes(row: &mut [u8], at: usize, bytes: &[u8]) -> usize
    requires { at + length bytes.now ≤ length row.old }
    ensures text { take result row.new ≡ take at row.old ++ bytes.now }
    ensures end { result ≡ at + length bytes.now }
    ensures size { length row.new ≡ length row.old }
{
    let len = bytes.len();
    if len > 32 || len < 2 {
        return put(row, at, bytes);
    }
    if len > 16 {
        return put_words::<16>(row, at, bytes);
    }
    if len > 7 {
        return put_words::<8>(row, at, bytes);
    }
    if len > 3 {
        return put_words::<4>(row, at, bytes);
    }
    put_words::<2>(row, at, bytes)
}

/// Writes eight bytes as hexadecimal digits.
#[tactic(auto, using(crate::proofs::DigitLemmas::capitals))]
fn put_digits(row: &mut [u8], at: usize, value: &[u8; 8]) -> usize
    requires { at + 16 ≤ length row.old }
    ensures text { take result row.new ≡ take at row.old ++ encode_upper value.now }
    ensures end { result ≡ at + 16 }
    ensures size { length row.new ≡ length row.old }
{
    let mut digits = [0u8; 16];
    let _done = hex::encode_to_slice(value.as_slice(), &mut digits);
    digits.make_ascii_uppercase();
    put(row, at, &digits)
}

/// Writes the first of some bytes as `put` does, as one word, of which the last bytes may be meant for others; none where there are
/// fewer bytes than the word has.
#[inline(always)]
fn put_word<const N: usize>(row: &mut [u8], at: usize, front: &[u8], size: usize) -> Option<usize>
    requires word { N ≤ 16 }
    requires few { size ≤ N }
    requires room { at + N ≤ length row.old }
    ensures text { IfSome result (λ end. take end row.new ≡ take at row.old ++ take size front.now) }
    ensures end { IfSome result (λ end. end ≡ at + size) }
    ensures size { length row.new ≡ length row.old }
    ensures none { result ≡ None → row.new ≡ row.old }
{
    let word = *front.first_chunk::<N>()?;
    let _behind = put(row, at, &word);
    Some(at + size)
}

/// Writes the first of some bytes as `put` does. Where they are few, sixteen are written, where there are as many, or eight.
#[inline(always)]
fn put_front(row: &mut [u8], at: usize, front: &[u8], size: usize) -> usize
    requires size { size ≤ length front.now }
    requires few { at + size ≤ length row.old }
    requires room { at + 16 ≤ length row.old }
    ensures text { take result row.new ≡ take at row.old ++ take size front.now }
    ensures end { result ≡ at + size }
    ensures size { length row.new ≡ length row.old }
{
    if size <= 16 {
        if let Some(end) = put_word::<16>(row, at, front, size) {
            return end;
        }
    }
    if size <= 8 {
        if let Some(end) = put_word::<8>(row, at, front, size) {
            return end;
        }
    }
    put_longer(row, at, &front[..size])
}

/// Writes bytes as `put_bytes` does.
#[inline(never)]
fn put_longer(row: &mut [u8], at: usize, bytes: &[u8]) -> usize
    requires { at + length bytes.now ≤ length row.old }
    ensures text { take result row.new ≡ take at row.old ++ bytes.now }
    ensures end { result ≡ at + length bytes.now }
    ensures size { length row.new ≡ length row.old }
{
    put_bytes(row, at, bytes)
}

/// Writes the line of an element that isn't one of eight bytes, of which the first of some bytes are the value. Behind the line sixteen
/// bytes may be written that are meant for others.
#[inline(always)]
#[tactic(auto, unfolding(crate::specs::Printed::element_line))]
fn put_plain(row: &mut [u8], at: usize, number: u8, front: &[u8], size: usize) -> usize
    requires number { number ≤ 128 }
    requires size { size ≤ length front.now }
    requires room { at + size + 21 ≤ length row.old }
    requires plain { is_binary (form_of number) ≡ false }
    ensures text { take result row.new ≡ take at row.old ++ element_line (number, take size front.now) }
    ensures end { result ≤ at + size + 5 }
    ensures size { length row.new ≡ length row.old }
{
    let label = put_label(row, at, number);
    let end = put_front(row, label, front, size);
    put(row, end, b"\n")
}

/// The same of an element of eight bytes.
#[inline(never)]
#[tactic(auto, unfolding(crate::specs::Printed::element_line))]
fn put_binary(row: &mut [u8], at: usize, number: u8, value: &[u8; 8]) -> usize
    requires number { number ≤ 128 }
    requires room { at + 21 ≤ length row.old }
    requires binary { is_binary (form_of number) ≡ true }
    ensures text { take result row.new ≡ take at row.old ++ element_line (number, value.now) }
    ensures end { result ≤ at + 21 }
    ensures size { length row.new ≡ length row.old }
{
    let label = put_label(row, at, number);
    let end = put_digits(row, label, value);
    put(row, end, b"\n")
}

/// Reads the element of a number, and writes its line.
#[inline(always)]
fn put_next(
    row: &mut [u8],
    at: usize,
    number: u8,
    unread: &mut Unread,
) -> Result<usize, DecodeFault>
    requires number { number ≤ 128 }
    requires room { at + line_room number + 16 ≤ length row.old }
    ensures line { IfOk result (λ end. WritesElement number unread.old.bytes unread.new.bytes (take at row.old) (take end row.new)) }
    ensures end { IfOk result (λ end. end ≤ at + line_room number) }
    ensures fault { IfErr result (λ fault. field_at (form_of number) number unread.old.bytes ≡ Err fault) }
    ensures numbers { unread.new.numbers ≡ unread.old.numbers }
    ensures size { length row.new ≡ length row.old }
{
    match unread.take_plain(number)? {
        Some((front, size)) => Ok(put_plain(row, at, number, front, size)),
        None => {
            let value = unread.take_binary(number)?;
            Ok(put_binary(row, at, number, &value))
        }
    }
}

/// Reads the elements that are left of a message, and writes their lines.
#[inline(never)]
fn put_left(row: &mut [u8], at: usize, unread: Unread) -> Result<usize, DecodeFault>
    requires order { Ascends 1 128 unread.numbers }
    requires room { at + lines_room unread.numbers + 16 ≤ length row.old }
    ensures lines { IfOk result (λ end. WritesLeft unread.entry (take at row.old) (take end row.new)) }
    ensures end { IfOk result (λ end. end ≤ length row.old) }
    ensures fault { IfErr result (λ fault. (kind : Kind) → read_on kind [] unread.entry ≡ Err fault) }
    ensures size { length row.new ≡ length row.old }
{
    let mut left = unread;
    let mut end = at;
    while let Some(number) = left.next_number() {
        end = put_next(row, end, number, &mut left)?;
    }
    if !left.is_at_end() {
        return Err(DecodeFault::Trailing);
    }
    Ok(end)
}

/// Writes the line with a message's number at the front.
#[tactic(auto, unfolding(crate::specs::Printed::heading))]
#[inline(always)]
fn put_heading(row: &mut [u8], number: u64) -> usize
    requires { 29 ≤ length row.old }
    ensures text { take result row.new ≡ heading number }
    ensures end { result ≤ 29 }
    ensures size { length row.new ≡ length row.old }
{
    let mut digits = Buffer::new();
    let digits = digits.format(number).as_bytes();
    let at = put(row, 0, b"message ");
    let at = put_bytes(row, at, digits);
    put(row, at, b"\n")
}

/// Writes the lines of the message that the bytes are behind the line of its number. After a fault anything may stand in the row.
#[tactic(auto, unfolding(crate::specs::Printed::message_lines))]
#[inline(always)]
fn put_message(row: &mut [u8], number: u64, bytes: &[u8]) -> Result<usize, DecodeFault>
    requires { 16_384 ≤ length row.old }
    ensures lines { IfOk result (λ end. WritesMessage number bytes.now (take end row.new)) }
    ensures end { IfOk result (λ end. end ≤ length row.old) }
    ensures fault { IfErr result (λ fault. read bytes.now ≡ Err fault) }
    ensures size { length row.new ≡ length row.old }
{
    let (kind, unread) = Unread::of(bytes)?;
    let at = put_heading(row, number);
    let at = put(row, at, kind_line(kind));
    put_left(row, at, unread)
}

/// Writes the line of a fault that names an element, of which these are the words before its number.
fn put_named(row: &mut [u8], at: usize, words: &[u8], number: u8) -> usize
    requires words { length words.now ≤ 26 }
    requires room { at + 30 ≤ length row.old }
    ensures text { take result row.new ≡ take at row.old ++ words.now ++ (decimal number ++ codes "\n") }
    ensures end { result ≤ at + 30 }
    ensures size { length row.new ≡ length row.old }
{
    let mut digits = Buffer::new();
    let at = put(row, at, words);
    let at = put(row, at, digits.format(number).as_bytes());
    put(row, at, b"\n")
}

/// Writes the line of a fault.
#[tactic(auto, unfolding(crate::specs::Printed::fault_line))]
fn put_fault(row: &mut [u8], at: usize, fault: DecodeFault) -> usize
    requires room { at + 30 ≤ length row.old }
    ensures text { take result row.new ≡ take at row.old ++ fault_line fault }
    ensures end { result ≤ at + 30 }
    ensures size { length row.new ≡ length row.old }
{
    match fault {
        DecodeFault::Short => put(row, at, b"fault message 1 short\n"),
        DecodeFault::BadType => put(row, at, b"fault message 2 type\n"),
        DecodeFault::BitMap => put(row, at, b"fault message 3 bit map\n"),
        DecodeFault::Element(number) => put_named(row, at, b"fault message 4 element ", number),
        DecodeFault::Length(number) => put_named(row, at, b"fault message 5 length ", number),
        DecodeFault::Character(number) => put_named(row, at, b"fault message 6 character ", number),
        DecodeFault::Trailing => put(row, at, b"fault message 7 trailing\n"),
        DecodeFault::Memory => put(row, at, b"fault message 8 memory\n"),
    }
}

/// Writes the line of a message's number and that of its fault.
fn put_faulty(row: &mut [u8], number: u64, fault: DecodeFault) -> usize
    requires { 59 ≤ length row.old }
    ensures text { take result row.new ≡ block number (Err fault) }
    ensures end { result ≤ length row.old }
    ensures size { length row.new ≡ length row.old }
{
    let at = put_heading(row, number);
    put_fault(row, at, fault)
}

/// Writes the block of an item, which is a frame that is cut where it has no bytes, in the front of a row, which has room for any.
/// Returns where it ends, and whether there is no fault.
pub(crate) fn put_item(row: &mut [u8], number: u64, item: Option<&[u8]>) -> (usize, bool)
    requires { 16_384 ≤ length row.old }
    ensures text { take result.0 row.new ≡ block number (reading (option_copied item.entry)) }
    ensures good { result.1 ≡ is_ok (reading (option_copied item.entry)) }
    ensures end { result.0 ≤ length row.new }
{
    let read = match item {
        Some(bytes) => put_message(row, number, bytes),
        None => Err(DecodeFault::Short),
    };
    match read {
        Ok(end) => (end, true),
        Err(fault) => (put_faulty(row, number, fault), false),
    }
}
