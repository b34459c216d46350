//! Lines put together in a row of bytes that are there already.
ghost use Rattle.std.specs.Prelude.{◌≡◌, ◌+◌, ◌≤◌, ◌++◌, [], ◌∷◌, length, take, codes, decimal};
ghost use Rattle.std.specs.List.{concat};
ghost use Rattle.replay_text.specs.Lines.{way_text};

use bundle_text::link_name;
use card_digits::put;
use itoa::Buffer;
use kept_messages::Way;
use message_text::put_words;
use net_rows::Tables;
use switch_node::Output;

/// So many bytes has a row: more than what stands in a line beside a message, with any name, of eight bytes at most, and any number.
pub(crate) const ROW: usize = 64;

/// Writes a few bytes as `put` does, without a call for a length that isn't known.
#[inline(always)]
fn put_few(row: &mut [u8], at: usize, bytes: &[u8]) -> usize
    requires { at + length bytes.now ≤ length row.old }
    ensures text { take result row.new ≡ take at row.old ++ bytes.now }
    ensures end { result ≡ at + length bytes.now }
    ensures size { length row.new ≡ length row.old }
{
    if let [byte] = bytes {
        return put(row, at, &[*byte]);
    }
    if bytes.len() > 8 {
        return put(row, at, bytes);
    }
    if bytes.len() > 3 {
        return put_words::<4>(row, at, bytes);
    }
    put_words::<2>(row, at, bytes)
}

/// Writes a number and a space.
#[inline(always)]
fn put_number(row: &mut [u8], at: usize, number: u64) -> usize
    requires { at + 21 ≤ length row.old }
    ensures text { take result row.new ≡ take at row.old ++ (decimal number ++ codes " ") }
    ensures end { result ≤ at + 21 }
    ensures size { length row.new ≡ length row.old }
{
    let mut buffer = Buffer::new();
    let behind = put_few(row, at, buffer.format(number).as_bytes());
    put(row, behind, b" ")
}

/// Writes the line with a step's number and the name of its node.
#[inline(always)]
pub(crate) fn put_heading(row: &mut [u8], number: u64, name: &[u8]) -> usize
    requires room { 64 ≤ length row.old }
    requires name { length name.now ≤ 8 }
    ensures text { take result row.new ≡ concat (decimal number ∷ codes " " ∷ name.now ∷ codes "\n" ∷ []) }
    ensures end { result ≤ length row.new }
{
    let at = put_number(row, 0, number);
    let at = put_few(row, at, name);
    put(row, at, b"\n")
}

/// Writes the way of an output.
#[inline(always)]
pub(crate) fn put_way(row: &mut [u8], tables: &Tables, output: &Output) -> usize
    requires { 64 ≤ length row.old }
    ensures text { take result row.new ≡ way_text tables.now output.now }
    ensures end { result ≤ length row.new }
{
    match output.way() {
        Way::Put(link, serial) => {
            let at = put(row, 0, b"  put ");
            let at = put_few(row, at, link_name(tables, link));
            let at = put(row, at, b" ");
            put_number(row, at, serial)
        }
        Way::Answer => put(row, 0, b"  answer "),
        Way::Ask(ask) => {
            let at = put(row, 0, b"  ask ");
            put_number(row, at, ask)
        }
        Way::Post => put(row, 0, b"  post "),
    }
}
