//! Grants of lent amounts, and the packets by which they go over links.
ghost use Rattle.std.specs.Prelude.{◌≡◌, ◌<◌, ◌≤◌, ◌+◌, ◌++◌, true, length, IfOk, OnOk};
ghost use Rattle.card_digits.specs.Digits.{AreDigits};
ghost use Rattle.message_keys.specs.Keys.{part};
ghost use Rattle.network_law.specs.Cards.{text_of};
ghost use Rattle.network_law.specs.Grants.{number_text, grant_bytes, packet_bytes, is_word_and_digits, is_grant, grant_at, card_size, read_packet};

use card_digits::{Amount, Card, DateLabel, all_digits, decimal};
use std::alloc::{AllocError, Global};

/// A part of its limit for one card and settlement date that a node lends to another. Ids are eleven ASCII digits, with zeros on
/// the left.
#[derive(Clone, Copy, Debug, PartialEq, Eq)]
pub struct Grant {
    pub lender: [u8; 11],
    /// The lender counts its grants from 1; ten digits.
    pub number: u64,
    pub borrower: [u8; 11],
    pub card: Card,
    pub date: DateLabel,
    pub amount: Amount,
}

/// What nodes put on links beside messages.
#[derive(Clone, Copy, Debug, PartialEq, Eq)]
pub enum GrantPacket {
    Grant(Grant),
    /// The borrower has taken the lender's grant of this number.
    Ack { lender: [u8; 11], number: u64 },
}

/// The longest packet: the grant of a card of 19 digits.
const LONGEST: usize = 73;

/// The grant or acknowledgement that the bytes are exactly. None for all other bytes, which may be those of a message.
#[tactic(auto, unfolding(crate::specs::Grants::read_packet))]
pub fn read_packet(bytes: &[u8]) -> Option<GrantPacket>
    ensures { result ≡ read_packet bytes.now }
{
    if is_word_and_digits(b"GACK", 21, bytes) {
        Some(GrantPacket::Ack {
            lender: id_at(bytes, 4),
            number: decimal(&bytes[15..25]),
        })
    } else if is_grant(bytes) {
        Some(GrantPacket::Grant(grant_at(bytes)))
    } else {
        None
    }
}

/// Whether the bytes are a word of four, and so many digits behind it.
fn is_word_and_digits(word: &[u8], count: usize, bytes: &[u8]) -> bool
    requires { count < 200 }
    ensures { result ≡ is_word_and_digits word.now count bytes.now }
{
    bytes.len() == 4 + count && &bytes[..4] == word && all_digits(&bytes[4..])
}

/// Whether the bytes are exactly a grant.
fn is_grant(bytes: &[u8]) -> bool
    ensures { result ≡ is_grant bytes.now }
{
    if bytes.len() < 38 || !all_digits(&bytes[36..38]) {
        return false;
    }
    let size = decimal(&bytes[36..38]) as usize;
    is_word_and_digits(b"GRNT", 50 + size, bytes) && 8 <= size && size <= 19
}

/// The fields of a grant, each in its place.
fn grant_at(bytes: &[u8]) -> Grant
    requires { is_grant bytes.now ≡ true }
    ensures { result ≡ grant_at (card_size bytes.now) bytes.now }
{
    let date = 38 + decimal(&bytes[36..38]) as usize;
    Grant {
        lender: id_at(bytes, 4),
        number: decimal(&bytes[15..25]),
        borrower: id_at(bytes, 25),
        card: Card::read(&bytes[38..date]).unwrap(),
        date: DateLabel::read(&bytes[date..date + 4]).unwrap(),
        amount: Amount::new(decimal(&bytes[date + 4..date + 16])),
    }
}

/// The eleven bytes of an id at a place.
fn id_at(bytes: &[u8], place: usize) -> [u8; 11]
    requires { place + 11 ≤ length bytes.now }
    ensures { result ≡ part place 11 bytes.now }
{
    let mut id = [0; 11];
    id.copy_from_slice(&bytes[place..place + 11]);
    id
}

/// The bytes as which a packet is put on a link. Of a number that has more than ten digits the last ten are written.
#[tactic(auto, unfolding(crate::specs::Grants::packet_bytes))]
pub fn packet_bytes(alloc: Global, packet: &GrantPacket) -> Result<Vec<u8>, AllocError>
    ensures { IfOk result (λ bytes. bytes.items ≡ packet_bytes packet.now) }
{
    let mut out = Vec::with_capacity(alloc, LONGEST)?;
    match packet {
        GrantPacket::Grant(grant) => push_grant(&mut out, grant)?,
        GrantPacket::Ack { lender, number } => {
            out.extend_from_slice(b"GACK")?;
            out.extend_from_slice(lender)?;
            push_number(&mut out, 10, *number)?;
        }
    }
    Ok(out)
}

/// Writes a grant.
fn push_grant(out: &mut Vec<u8>, grant: &Grant) -> Result<(), AllocError>
    ensures { OnOk result (out.new.items ≡ out.old.items ++ grant_bytes grant.now) }
{
    out.extend_from_slice(b"GRNT")?;
    out.extend_from_slice(&grant.lender)?;
    push_number(out, 10, grant.number)?;
    out.extend_from_slice(&grant.borrower)?;
    push_number(out, 2, grant.card.digits().len() as u64)?;
    push_digits(out, grant.card.digits())?;
    push_digits(out, grant.date.digits())?;
    push_number(out, 12, grant.amount.value())?;
    Ok(())
}

/// Writes the last digits of a number, so many, with zeros on the left.
fn push_number(out: &mut Vec<u8>, width: usize, number: u64) -> Result<(), AllocError>
    ensures { OnOk result (out.new.items ≡ out.old.items ++ number_text width number) }
{
    if width == 0 {
        return Ok(());
    }
    push_number(out, width - 1, number / 10)?;
    out.push(b'0' + (number % 10) as u8)?;
    Ok(())
}

/// Writes digits in ASCII.
fn push_digits(out: &mut Vec<u8>, digits: &[u8]) -> Result<(), AllocError>
    requires { AreDigits digits.now }
    ensures { OnOk result (out.new.items ≡ out.old.items ++ text_of digits.now) }
{
    for digit in digits {
        out.push(*digit + b'0')?;
    }
    Ok(())
}
