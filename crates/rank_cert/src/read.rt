//! Certificates from text.
ghost use Rattle.std.specs.Prelude.{◌≡◌, [], codes, ◌≤◌, length, IfOk, IfErr};
ghost use Rattle.card_digits.specs.Lines.{lines};
ghost use Rattle.card_digits.specs.Attempts.{Gives, Fails};
ghost use Rattle.rank_cert.specs.Reading.{is_line, new_row, line_behind, row_of, rows_in, cert_in, is_memory, ended, rows_with};
ghost use Rattle.rank_rows.specs.Ranks.{EndsWith};

use crate::cert::Cert;
use crate::fault::CertFault;
use crate::row::{Spelled, add_all_like, add_repeated, row_of};
use card_digits::first_line;
use std::alloc::Global;

fn is_header(line: &[u8]) -> bool
    ensures { result ≡ is_line line.now (codes "RANKS 1") }
{
    line == b"RANKS 1".as_slice()
}

fn is_end(line: &[u8]) -> bool
    ensures { result ≡ is_line line.now (codes "END") }
{
    line == b"END".as_slice()
}

/// The certificate that a text has.
pub fn read_cert(alloc: Global, text: &[u8]) -> Result<Cert, CertFault>
    ensures { Gives is_memory (λ rows. rows) result (cert_in text.now) }
{
    match first_line(text) {
        Some((line, behind)) if is_header(line) => read_rows(alloc, behind),
        _ => Err(CertFault::Header),
    }
}

/// A line as long as most, in bytes.
const USUAL_LINE: usize = 12;

/// A certificate with room for so many rows, where memory is given for them.
fn empty_cert(alloc: Global, rows: usize) -> Cert
    ensures { result ≡ [] }
{
    match Cert::with_room(alloc, rows) {
        Ok(cert) => cert,
        Err(_) => Cert::new(alloc),
    }
}

/// The rows of the lines behind the header.
fn read_rows(alloc: Global, text: &[u8]) -> Result<Cert, CertFault>
    ensures { Gives is_memory (λ rows. rows) result (rows_in [] (lines text.now)) }
{
    let mut cert = empty_cert(alloc, text.len() / USUAL_LINE);
    let mut rest = text;
    let mut before = 0;
    while let Some((line, behind)) = first_line(rest) {
        if is_end(line) {
            return ended(cert, behind);
        }
        let place = cert.rows().len();
        let (spelled, behind) = read_run(&mut cert, line, behind)?;
        rest = add_all_like(&mut cert, &spelled, place.wrapping_sub(before), behind)?;
        before = place;
    }
    Err(CertFault::NoEnd)
}

/// The certificate, where nothing stands behind its end.
fn ended(cert: Cert, behind: &[u8]) -> Result<Cert, CertFault>
    ensures { result ≡ ended cert (lines behind.now) }
{
    if behind.is_empty() {
        Ok(cert)
    } else {
        Err(CertFault::AfterEnd)
    }
}

/// Adds the row of the next line, and with it those of lines behind it that have the names of the last prefix's rows. Gives the row's
/// prefix, and what stands behind the lines.
fn read_run<'a>(
    cert: &mut Cert,
    line: &'a [u8],
    behind: &'a [u8],
) -> Result<(Spelled<'a>, &'a [u8]), CertFault>
    ensures on { IfOk result (λ p. rows_with cert.old (row_of line.now) (lines behind.now) ≡ rows_in cert.new (lines p.1.now)) }
    ensures ends { IfOk result (λ p. EndsWith p.0 cert.new) }
    ensures shorter { IfOk result (λ p. length p.1.now ≤ length behind.now) }
    ensures fault { IfErr result (λ e. Fails is_memory e (new_row cert.old (row_of line.now))) }
{
    let number = cert.rows().len() + 2;
    let (row, spelled) = row_of(line).ok_or(CertFault::Line(number))?;
    if let Some(rest) = add_repeated(cert, &row, &spelled, behind)? {
        return Ok((spelled, rest));
    }
    if cert.add_row(row)? {
        Ok((spelled, behind))
    } else {
        Err(CertFault::Twice(number))
    }
}
