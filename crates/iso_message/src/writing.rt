//! Writing a message.
ghost use Rattle.std.specs.Prelude.{◌≡◌, ◌<◌, ◌++◌, map, length, IfOk, OnOk, OnErr};
ghost use Rattle.hex.specs.Hex.{encode_upper, IsBytes};
ghost use Rattle.std.specs.Int.{w64, to_be_bytes};
ghost use Rattle.message_elements.specs.Types.{kind_text};
ghost use Rattle.message_elements.specs.Table.{form_of};
ghost use Rattle.iso_message.specs.Grammar.{Spells};
ghost use Rattle.iso_message.specs.Spelling.{two_digits, three_digits, length_text, HasLength, is_binary, piece, map_text, IsGood, IsMessage, spelling};

use message_bytes::digits_of_bytes;
use message_elements::{Form, form_at};
use std::alloc::AllocError;

/// Writes eight bytes as upper-case hexadecimal digits.
#[inline(always)]
fn push_hex(out: &mut Vec<u8>, bytes: &[u8]) -> Result<(), AllocError>
    requires { length bytes.now ≡ 8 }
    ensures { OnOk result (out.new.items ≡ out.old.items ++ encode_upper bytes.now) }
{
    out.extend_from_slice(&digits_of_bytes(bytes))
}

/// The sixteen upper-case hexadecimal digits that spell a bit map, which has the bit of its first element highest.
#[inline(always)]
pub fn map_digits(map: u64) -> [u8; 16]
    ensures { result ≡ map_text map }
{
    digits_of_bytes(&map.to_be_bytes())
}

pub(crate) fn push_map(out: &mut Vec<u8>, bits: u64) -> Result<(), AllocError>
    ensures { OnOk result (out.new.items ≡ out.old.items ++ map_text bits) }
{
    out.extend_from_slice(&map_digits(bits))
}

/// Writes the digits of an element's length, where its form has some.
#[inline(always)]
pub(crate) fn push_length(out: &mut Vec<u8>, number: u8, len: usize) -> Result<(), AllocError>
    requires { HasLength (form_of number) len }
    ensures ok { OnOk result (out.new.items ≡ out.old.items ++ length_text (form_of number) len) }
    ensures err { OnErr result (out.new.items ≡ out.old.items) }
{
    match form_at(number) {
        Some(Form::Llvar(_, _)) => {
            let digits = [b'0' + (len / 10) as u8, b'0' + (len % 10) as u8];
            out.extend_from_slice(&digits)
        }
        Some(Form::Lllvar(_, _)) => {
            let digits = [
                b'0' + (len / 100) as u8,
                b'0' + (len / 10 % 10) as u8,
                b'0' + (len % 10) as u8,
            ];
            out.extend_from_slice(&digits)
        }
        _ => Ok(()),
    }
}

/// Whether an element is one of eight binary bytes (52, 64 and 128), which are spelled as sixteen digits.
#[inline(always)]
pub fn is_binary(number: u8) -> bool
    ensures { result ≡ is_binary (form_of number) }
{
    (number == 52) | (number == 64) | (number == 128)
}

/// Writes the piece of an element.
#[inline(always)]
pub(crate) fn push_piece(out: &mut Vec<u8>, number: u8, value: &[u8]) -> Result<(), AllocError>
    requires { IsGood (form_of number) value.now }
    ensures { OnOk result (out.new.items ≡ out.old.items ++ piece (form_of number) value.now) }
{
    if is_binary(number) {
        return push_hex(out, value);
    }
    push_length(out, number, value.len())?;
    out.extend_from_slice(value)
}
