//! The text of a certificate.
ghost use Rattle.std.specs.Prelude.{◌≡◌, ◌+◌, ◌≤◌, [], ◌∷◌, ◌++◌, length, take, IfOk, OnOk, Ok, All};
ghost use Rattle.std.specs.Fmt.{decimal};
ghost use Rattle.rank_rows.specs.Ranks.{IsRow};
ghost use Rattle.rank_cert.specs.Reading.{cert_in};
ghost use Rattle.rank_cert.specs.Writing.{line_of, lines_of, text_of};

use crate::cert::Cert;
use crate::page::{put_digits, put_few};
use card_digits::put;
use itoa::Buffer;
use rank_rows::Rank;
use std::alloc::{AllocError, Global};

/// The text of a certificate.
pub fn write_cert(alloc: Global, cert: &Cert) -> Result<Vec<u8>, AllocError>
    ensures text { IfOk result (λ text. text.items ≡ text_of cert.now) }

    // The text says the same rows.
    ensures read_again { IfOk result (λ text. cert_in text.items ≡ Ok cert.now) }
{
    let mut text = Vec::new(alloc);
    text.extend_from_slice(b"RANKS 1\n")?;
    write_rows(cert.rows(), &mut text)?;
    text.extend_from_slice(b"END\n")?;
    Ok(text)
}

/// As many bytes as are put together before they are added to the text.
const PAGE: usize = 4096;

/// The most bytes of a line: eight of a name, twelve of a prefix, five of a rank, two spaces and the line feed.
const LINE: usize = 28;

/// Adds the lines of rows, page by page.
fn write_rows(rows: &[Rank], text: &mut Vec<u8>) -> Result<(), AllocError>
    requires { All IsRow rows.now }
    ensures { OnOk result (text.new.items ≡ text.old.items ++ lines_of rows.now) }
{
    let mut page = [0u8; PAGE];
    let mut end = 0;
    for row in rows {
        if end > PAGE - LINE {
            text.extend_from_slice(&page[..end])?;
            end = 0;
        }
        end = put_line(&mut page, end, row);
    }
    text.extend_from_slice(&page[..end])
}

/// Puts a row's line, and returns the place behind it.
#[inline(always)]
fn put_line(page: &mut [u8], at: usize, row: &Rank) -> usize
    requires good { IsRow row.now }
    requires room { at + 28 ≤ length page.old }
    ensures text { take result page.new ≡ take at page.old ++ (line_of row.now ++ 10 ∷ []) }
    ensures end { result ≤ at + 28 }
    ensures size { length page.new ≡ length page.old }
{
    let at = put_few(page, at, row.node.as_slice());
    let at = put(page, at, b" ");
    let at = put_digits(page, at, row.prefix.digits());
    let at = put(page, at, b" ");
    put_rank(page, at, row.rank)
}

/// Puts the digits of a rank and a line feed. Most ranks have one digit or two.
#[inline(always)]
fn put_rank(page: &mut [u8], at: usize, rank: u16) -> usize
    requires { at + 6 ≤ length page.old }
    ensures text { take result page.new ≡ take at page.old ++ (decimal rank ++ 10 ∷ []) }
    ensures end { result ≤ at + 6 }
    ensures size { length page.new ≡ length page.old }
{
    if rank < 10 {
        return put(page, at, &[b'0' + rank as u8, b'\n']);
    }
    if rank < 100 {
        let (tens, ones) = (rank / 10, rank % 10);
        return put(page, at, &[b'0' + tens as u8, b'0' + ones as u8, b'\n']);
    }
    let mut digits = Buffer::new();
    let at = put_few(page, at, digits.format(rank).as_bytes());
    put(page, at, b"\n")
}
